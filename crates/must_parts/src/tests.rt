//! Calls one behind the other, with what overlaps and what is pending. What is expected comes from the rules (docs/RULES.md),
//! not from the program.

ghost use Rattle.std.specs.Prelude.{◌≡◌, ◌==◌, ◌&&◌, length, nat_lt};

use crate::{Buffers, BuffersFault};
use must_args::{View, check_args};
use must_base::NoMemory;
use must_call::{Body, Call, Class, Derive, Life, Persist, Place, Point, Status3};
use must_derived::Datatypes;
use must_find::{Findings, Rule};
use must_group::Group;
use must_type::TypeFault;
use std::alloc::Global;
use std::process::Abort;
use std::test::Fail;

const INT: u32 = 7;

/// Two ints at one place.
const DOUBLED: u32 = 64;

/// The first request that is made.
const REQUEST: u32 = 65;

/// What rank 0 of a world of two knows: numbers below 64 are predefined, those from 64 to below `next` were made, and all types
/// are sound and committed. No request is active.
#[derive(Drop)]
struct Known {
    world: Group,
    next: u32,
}

impl Known {
    fn has_comm(&self, number: u32) -> bool
        ensures { result ≡ (number == 1 && nat_lt (length self.now.world) 4294967296) }
    {
        number == 1 && self.world.ranks().len() < 4294967296
    }
}

impl View for Known {
    ghost use Rattle.std.specs.Prelude.{◌==◌, ◌&&◌, nat_lt, length, pos, true, Some, None, if◌then◌else◌};
    ghost use Rattle.must_call.specs.declared.life.Life.TheVariants.{Never, Live, Predefined};

    ghost facts = { λ k. record {
      tag_ub = pos 32767;
      life = λ class n. if n == 0 then Never else if nat_lt n 64 then Predefined else if nat_lt n k.next then Live 0 else Never;
      committed = λ n. true;
      comm = λ n. if n == 1 && nat_lt (length k.world) 4294967296 then Some (record { members = k.world; position = 0 }) else None;
      group = λ n. None;
    } };

    ghost sound = { λ k n. true };

    ghost starts = { λ k n. None };

    fn life(&self, _class: Class, number: u32) -> Life {
        if number == 0 {
            Life::Never
        } else if number < 64 {
            Life::Predefined
        } else if number < self.next {
            Life::Live { made: 0 }
        } else {
            Life::Never
        }
    }

    fn committed(&self, _number: u32) -> bool {
        true
    }

    fn comm_size(&self, number: u32) -> Option<u32> {
        if self.has_comm(number) {
            Some(self.world.ranks().len() as u32)
        } else {
            None
        }
    }

    fn own_rank(&self, number: u32) -> Option<u32> {
        if self.has_comm(number) { Some(0) } else { None }
    }

    fn group(&self, _number: u32) -> Option<&Group> {
        None
    }

    fn comm_group(&self, number: u32) -> Option<&Group> {
        if self.has_comm(number) {
            Some(&self.world)
        } else {
            None
        }
    }

    fn sound_type(&self, _number: u32) -> bool {
        true
    }

    fn tag_ub(&self) -> i32 {
        32767
    }

    fn start_of(&self, _number: u32) -> Option<u32> {
        None
    }
}

fn world(alloc: Global, next: u32) -> Result<Known, NoMemory> {
    let world = Group::of(alloc, &[0, 1])?;
    Ok(Known { world, next })
}

/// The types of a rank that made one.
fn types(rt: &impl Abort, alloc: Global) -> Result<Datatypes, NoMemory> {
    let mut types = Datatypes::new(alloc, 1 << 26)?;
    let call = Call {
        returned: true,
        body: Body::Derive(Derive::TypeVector {
            count: 2,
            block: 1,
            stride: 0,
            old: INT,
            made: Some(DOUBLED),
        }),
    };
    match types.take(alloc, &call, true) {
        Ok(()) => Ok(types),
        Err(TypeFault::NoMemory) => Err(NoMemory),
        Err(TypeFault::TooWide { .. }) => {
            assert!(rt; false, "a limit is reached");
            Err(NoMemory)
        }
    }
}

const DONE: Status3 = Status3 {
    source: 0,
    tag: 0,
    cancelled: false,
};

/// A call in short.
#[derive(Clone, Copy)]
enum Act {
    /// The buffer, the count and the request.
    Isend(u64, i32, u32),
    SendInit(u64, i32, u32),
    /// The buffer, the count and the type.
    Recv(u64, i32, u32),
    /// The buffers of two ints each.
    Sendrecv(u64, u64),
    Start(u32),
}

fn exchange(sbuf: u64, rbuf: u64) -> Point {
    Point::Sendrecv {
        sbuf,
        scount: 2,
        stype: INT,
        dest: 0,
        stag: 0,
        rbuf,
        rcount: 2,
        rtype: INT,
        source: 0,
        rtag: 0,
        comm: 1,
        status: Some(DONE),
    }
}

fn point(act: Act) -> Point {
    match act {
        Act::Isend(buf, count, request) => Point::Isend {
            buf,
            count,
            dtype: INT,
            dest: 0,
            tag: 0,
            comm: 1,
            request: Some(request),
        },
        Act::Recv(buf, count, dtype) => Point::Recv {
            buf,
            count,
            dtype,
            source: 0,
            tag: 0,
            comm: 1,
            status: Some(DONE),
        },
        Act::Sendrecv(sbuf, rbuf) => exchange(sbuf, rbuf),
        _ => exchange(4096, 8192),
    }
}

fn body(act: Act) -> Body {
    match act {
        Act::SendInit(buf, count, request) => Body::Persist(Persist::SendInit {
            buf,
            count,
            dtype: INT,
            dest: 0,
            tag: 0,
            comm: 1,
            request: Some(request),
        }),
        Act::Start(request) => Body::Persist(Persist::Start { request }),
        _ => Body::Point(point(act)),
    }
}

/// Takes a call into the buffers of a rank of a run of two, and tells whether the rank goes on.
fn take_one<V: View>(
    rt: &impl Abort,
    alloc: Global,
    buffers: &mut Buffers,
    view: &V,
    types: &Datatypes,
    number: u32,
    call: &Call,
    rows: &mut Findings,
) -> Result<bool, NoMemory> {
    let at = Place {
        rank: 0,
        call: number,
    };
    assert!(rt; call.handle(u32::MAX).is_none());
    let usable = check_args(alloc, view, at, call, rows)?;
    match buffers.take(alloc, view, types, at, 2, call, &usable, rows) {
        Ok(()) => Ok(true),
        Err(BuffersFault::TooWide) => Ok(false),
        Err(BuffersFault::NoMemory) => Err(NoMemory),
    }
}

/// A call that returned.
fn call(act: Act) -> Call {
    Call {
        returned: true,
        body: body(act),
    }
}

/// Takes calls 1 and so on of a rank of a run of two. Each is with the first handle that isn't made yet.
fn take_all(
    rt: &impl Abort,
    alloc: Global,
    acts: &[(u32, Act)],
    rows: &mut Findings,
) -> Result<(), NoMemory> {
    let types = types(rt, alloc)?;
    let mut buffers = Buffers::new(alloc)?;
    let mut number: u32 = 1;
    for (next, act) in acts {
        let view = world(alloc, *next)?;
        let goes_on = take_one(
            rt,
            alloc,
            &mut buffers,
            &view,
            &types,
            number,
            &call(*act),
            rows,
        )?;
        assert!(rt; goes_on);
        number = number.saturating_add(1);
    }
    Ok(())
}

/// A finding in short: its call, its rule, its part, the call that it sees, and its value.
type Row = (u32, Rule, u32, Option<u32>, i128);

fn row_at(rows: &Findings, i: usize) -> Option<Row> {
    match rows.get(i) {
        Some(f) => Some((f.call, f.rule, f.part, f.see.map(|see| see.call), f.value)),
        None => None,
    }
}

/// These calls give these findings.
fn expect(
    rt: &impl Abort,
    alloc: Global,
    acts: &[(u32, Act)],
    findings: &[Row],
) -> Result<(), Fail> {
    let mut rows = Findings::new(alloc);
    take_all(rt, alloc, acts, &mut rows)?;
    assert_eq!(rt; rows.len(), findings.len());
    for (i, row) in findings.iter().enumerate() {
        assert_eq!(rt; row_at(&rows, i), Some(*row), "row {i}");
    }
    Ok(())
}

#[test]
fn type_that_overlaps_itself(rt: HostRuntime) -> Result<(), Fail> {
    let alloc = rt.alloc();
    expect(
        &rt,
        alloc,
        &[(65, Act::Recv(4096, 1, DOUBLED))],
        &[(1, Rule::T1, 0, None, 0)],
    )
}

#[test]
fn buffers_of_an_exchange(rt: HostRuntime) -> Result<(), Fail> {
    let alloc = rt.alloc();
    expect(
        &rt,
        alloc,
        &[(65, Act::Sendrecv(4096, 4100))],
        &[(1, Rule::T2, 1, None, 4100)],
    )
}

#[test]
fn receive_into_a_pending_send(rt: HostRuntime) -> Result<(), Fail> {
    let alloc = rt.alloc();
    expect(
        &rt,
        alloc,
        &[
            (65, Act::Isend(4096, 2, REQUEST)),
            (66, Act::Recv(4100, 2, INT)),
        ],
        &[(2, Rule::T3, 0, Some(1), 4100)],
    )
}

#[test]
fn two_sends(rt: HostRuntime) -> Result<(), Fail> {
    let alloc = rt.alloc();
    expect(
        &rt,
        alloc,
        &[
            (65, Act::Isend(4096, 2, REQUEST)),
            (66, Act::Isend(4100, 2, 66)),
        ],
        &[],
    )
}

#[test]
fn started_send(rt: HostRuntime) -> Result<(), Fail> {
    let alloc = rt.alloc();
    expect(
        &rt,
        alloc,
        &[
            (65, Act::SendInit(4096, 2, REQUEST)),
            (66, Act::Recv(4100, 2, INT)),
            (66, Act::Start(REQUEST)),
            (66, Act::Recv(4100, 2, INT)),
        ],
        &[(4, Rule::T3, 0, Some(3), 4100)],
    )
}
