//! Calls number by number and handle by handle, with the answers of docs/FORMAT.md.

mod collective;
mod derive;
mod finish;
mod kinds;
mod lists;
mod object;
mod persist;
mod point;
mod started;

use crate::{Amount, Body, Call, Class, Kind, Status3, StructBlock};
use std::alloc::Global;
use std::process::Abort;
use std::test::Fail;

/// The call with this body has this kind, and these numbers and handle arguments alone, below 32 of each.
fn expect(rt: &impl Abort, body: Body, kind: Kind, numbers: &[i128], handles: &[(Class, u32)]) {
    let call = Call {
        returned: true,
        body,
    };
    assert_eq!(rt; call.kind(), kind);
    assert!(rt; numbers.len() < 32 && handles.len() < 32);
    for i in 0..=32u32 {
        let number = numbers.get(i as usize).copied();
        assert_eq!(rt; call.number(i), number, "number {i} of {kind:?}");
        let handle = handles.get(i as usize).copied();
        assert_eq!(rt; call.handle(i), handle, "handle {i} of {kind:?}");
    }
    assert_eq!(rt; call.number(u32::MAX), None, "{kind:?}");
    assert_eq!(rt; call.handle(u32::MAX), None, "{kind:?}");
}

fn status(source: i32, tag: i32, cancelled: bool) -> Status3 {
    Status3 {
        source,
        tag,
        cancelled,
    }
}

/// A vector of these items.
fn vec_of<T: Copy>(alloc: Global, items: &[T]) -> Result<Vec<T>, Fail> {
    let mut vec = Vec::new(alloc);
    vec.extend_from_slice(items)?;
    Ok(vec)
}

fn struct_block(block: i32, disp: i64, old: u32) -> StructBlock {
    StructBlock { block, disp, old }
}

fn amount(count: i32, disp: i32) -> Amount {
    Amount { count, disp }
}
