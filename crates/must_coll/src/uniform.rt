//! Amounts of a wave whose calls send the same to each and receive the same from each.

ghost use Rattle.std.specs.Prelude.{◌≡◌, OnOk, length, find, ℕ};
ghost use Rattle.std.specs.Option.{option_copied};
ghost use Rattle.must_find.specs.Adds.{Adds};
ghost use Rattle.must_coll.specs.declared.exchange.Exchange.TheVariants as Exchange;
ghost use Rattle.must_coll.specs.Given.{GivenFrom};
ghost use Rattle.must_coll.specs.Amounts.{first_against};
ghost use Rattle.must_coll.specs.Uniform.{is_known, is_unlike, either_row};

use crate::amounts::{judge_pair, other, report_against, unlike};
use crate::exchange::Exchange;
use crate::item::WaveItem;
use crate::judge::report;
use must_base::NoMemory;
use must_find::{Finding, Findings};
use must_sig::none_where_equal;

/// Whether the call counts and sends something.
fn is_known(call: &WaveItem) -> bool
    ensures { result ≡ is_known call.now }
{
    if !call.counts {
        return false;
    }
    other(Exchange::Alltoall, 0, 0, call).is_some()
}

/// Whether the call counts and doesn't send the same as the first.
fn is_unlike(first: &WaveItem, call: &WaveItem) -> bool
    ensures { result ≡ is_unlike first.now call.now }
{
    if !call.counts {
        return false;
    }
    match other(Exchange::Alltoall, 0, 0, first) {
        None => false,
        Some(sent) => match other(Exchange::Alltoall, 0, 0, call) {
            None => false,
            Some(own) => unlike(sent, own).is_some(),
        },
    }
}

/// The first call that counts and sends something.
fn first_known(calls: &[WaveItem]) -> Option<&WaveItem>
    ensures { option_copied result ≡ find is_known calls.now }
{
    for call in calls {
        if is_known(call) {
            return Some(call);
        }
    }
    None
}

/// The first call that counts and doesn't send the same as this one.
fn first_other<'a>(first: &WaveItem, calls: &'a [WaveItem]) -> Option<&'a WaveItem>
    ensures { option_copied result ≡ find (is_unlike first.now) calls.now }
{
    for call in calls {
        if is_unlike(first, call) {
            return Some(call);
        }
    }
    None
}

fn judge_either(
    members: usize,
    first: &WaveItem,
    second: &WaveItem,
    call: &WaveItem,
) -> Option<Finding>
    ensures { result ≡ either_row members first.now second.now call.now }
{
    match judge_pair(Exchange::Alltoall, members, 0, 0, call, first) {
        Some(finding) => Some(finding),
        None => judge_pair(Exchange::Alltoall, members, 0, 0, call, second),
    }
}

/// Adds the rows C4 where these are the first two calls that don't send the same.
fn report_either(
    first: &WaveItem,
    second: &WaveItem,
    calls: &[WaveItem],
    out: &mut Findings,
) -> Result<(), NoMemory>
    ensures { OnOk result (Adds out.old out.new (GivenFrom (λ i x. either_row (length calls.now) first.now second.now x) 0 calls.now)) }
{
    for (i, call) in calls.iter().enumerate() {
        report(out, judge_either(calls.len(), first, second, call))?;
    }
    Ok(())
}

/// Adds the rows C4 of a wave whose calls each send one signature to all. Each call is compared with two calls at most: with
/// the first, and where it sends the same as that, with the first that doesn't.
pub(crate) fn report_uniform(calls: &[WaveItem], out: &mut Findings) -> Result<(), NoMemory>
    ensures { OnOk result (Adds out.old out.new (GivenFrom (λ i x. first_against Exchange.Alltoall (length calls.now) i x 0 calls.now) 0 calls.now)) }
{
    none_where_equal();
    match first_known(calls) {
        None => Ok(()),
        Some(first) => match first_other(first, calls) {
            None => report_against(Exchange::Alltoall, 0, first, calls, out),
            Some(second) => report_either(first, second, calls, out),
        },
    }
}
