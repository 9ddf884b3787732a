//! The first clash.

ghost use Rattle.std.specs.Prelude.{◌≡◌, ◌↔◌, [], ◌∷◌, IsTrue};
ghost use Rattle.must_pending.specs.Clashes.{Disagree, IsFirst, IsEarliest};

use crate::access::Access;
use crate::held::Held;
use must_span::Spans;

/// Whether two accesses of one address clash: one of them writes.
fn disagree(first: Access, second: Access) -> bool
    ensures { IsTrue result ↔ Disagree first second }
{
    match (first, second) {
        (Access::Reads, Access::Reads) => false,
        (Access::Reads, Access::Writes) => true,
        (Access::Writes, _) => true,
    }
}

/// The call and the least address at which an operation clashes.
pub(crate) fn clash_with(held: &Held, spans: &Spans, access: Access) -> Option<(u32, i128)>
    ensures { IsFirst (held.now ∷ []) spans.now access result }
{
    if !disagree(held.access, access) {
        return None;
    }
    match held.spans.first_shared(spans) {
        Some(address) => Some((held.call, address)),
        None => None,
    }
}

/// The earlier of two clashes; of one call that at the lower address.
pub(crate) fn earlier(
    first: Option<(u32, i128)>,
    second: Option<(u32, i128)>,
) -> Option<(u32, i128)>
    ensures { IsEarliest first second result }
{
    let Some(a) = first else {
        return second;
    };
    let Some(b) = second else {
        return first;
    };
    if b.0 < a.0 {
        return second;
    }
    if b.0 == a.0 && b.1 < a.1 {
        return second;
    }
    first
}
