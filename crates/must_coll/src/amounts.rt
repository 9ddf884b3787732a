//! Amounts of a wave: rule C4.

ghost use Rattle.std.specs.Prelude.{◌≡◌, ◌≤◌, ◌<◌, ◌^◌, ◌==◌, ◌&&◌, if◌then◌else◌, OnOk, Some, None, IfSome, slice_get, length};
ghost use Rattle.std.specs.Option.{option_copied, is_some};
ghost use Rattle.must_find.specs.Adds.{Adds};
ghost use Rattle.must_sig.specs.Signatures.{expansion, difference};
ghost use Rattle.must_coll.specs.Given.{GivenFrom};
ghost use Rattle.must_coll.specs.Agreement.{first_counting, root_of};
ghost use Rattle.must_coll.specs.Amounts.{own, other, differ, entry, first_number, difference_between, pair_row, against, first_against, is_root, shares_root, all_share, counts_there, common_root, rooted_row, rootless_row, IsAmountRow};

use crate::agreement::{first_counting, has_root, root_of};
use crate::exchange::{Exchange, exchange_of};
use crate::item::{SigList, WaveItem};
use crate::judge::{call_at, report};
use crate::uniform::report_uniform;
use must_base::NoMemory;
use must_find::{Finding, Findings, Rule};
use must_sig::{Sig, Steps, first_difference};
use std::marker::Brand;
use std::sync::ledger::{Blank, Ledger};

fn counted_difference<L: Ledger>(blank: Blank, a: &Sig, b: &Sig) -> Option<u128>
    requires name { blank.name ≡ L.name }
    requires parts { blank.parts ≡ L.parts }
    requires some { 0 < blank.parts }
    ensures { result ≡ difference (expansion a.now) (expansion b.now) }
{
    let mut steps = Steps::new(blank);
    first_difference::<L>(a, b, &mut steps)
}

/// The first place where two signatures differ.
pub(crate) fn unlike(a: &Sig, b: &Sig) -> Option<u128>
    ensures value { result ≡ difference (expansion a.now) (expansion b.now) }
    ensures small { IfSome result (λ at. at ≤ 2 ^ 126) }
{
    let _ = a.len();
    counted_difference::<Brand>(Blank::new(1), a, b)
}

fn signature_at(signatures: &SigList, i: usize) -> Option<&Sig>
    ensures { option_copied result ≡ slice_get signatures.now i }
{
    signatures.items().get(i)
}

/// Whether the call is the root's, which keeps its own part in place.
fn keeps_own(i: usize, j: usize, call: &WaveItem) -> bool
    ensures { result ≡ (i == j && call.now.in_place) }
{
    i == j && call.in_place
}

/// The signature of the call at `i` that is compared with one of the call at `j`.
fn own(exchange: Exchange, i: usize, j: usize, call: &WaveItem) -> Option<&Sig>
    ensures { option_copied result ≡ own exchange i j call.now }
{
    match exchange {
        Exchange::Bcast | Exchange::Reduce => signature_at(&call.sends, 0),
        Exchange::Gather | Exchange::Gatherv => {
            if keeps_own(i, j, call) {
                return None;
            }
            signature_at(&call.sends, 0)
        }
        Exchange::Scatter | Exchange::Scatterv => {
            if keeps_own(i, j, call) {
                return None;
            }
            signature_at(&call.recvs, 0)
        }
        Exchange::Alltoall => signature_at(&call.recvs, 0),
        Exchange::Allgatherv | Exchange::Alltoallv => signature_at(&call.recvs, j),
        Exchange::Nothing | Exchange::ReduceScatter => None,
    }
}

/// The signature of the call at `j` that one of the call at `i` is compared with.
pub(crate) fn other(exchange: Exchange, i: usize, j: usize, call: &WaveItem) -> Option<&Sig>
    ensures { option_copied result ≡ other exchange i j call.now }
{
    match exchange {
        Exchange::Bcast | Exchange::Scatter | Exchange::Reduce => signature_at(&call.sends, 0),
        Exchange::Gather => signature_at(&call.recvs, 0),
        Exchange::Gatherv => signature_at(&call.recvs, i),
        Exchange::Scatterv => signature_at(&call.sends, i),
        Exchange::Alltoall => sent_or_kept(call, 0, 0),
        Exchange::Allgatherv => sent_or_kept(call, 0, j),
        Exchange::Alltoallv => sent_or_kept(call, i, i),
        Exchange::Nothing | Exchange::ReduceScatter => None,
    }
}

/// What a call sends, or in place what it receives.
fn sent_or_kept(call: &WaveItem, sent: usize, kept: usize) -> Option<&Sig>
    ensures { option_copied result ≡ (if call.now.in_place then slice_get call.now.recvs kept else slice_get call.now.sends sent) }
{
    if call.in_place {
        return signature_at(&call.recvs, kept);
    }
    signature_at(&call.sends, sent)
}

/// Whether the entries at a place of two lists differ.
fn differs_at(xs: &SigList, ys: &SigList, i: usize) -> bool
    ensures { result ≡ is_some (differ (slice_get xs.now i) (slice_get ys.now i)) }
{
    let Some(x) = signature_at(xs, i) else {
        return false;
    };
    let Some(y) = signature_at(ys, i) else {
        return false;
    };
    unlike(x, y).is_some()
}

/// The first of so many entries where two lists differ.
fn entry(count: usize, xs: &SigList, ys: &SigList) -> Option<u128>
    ensures value { result ≡ entry count xs.now ys.now }
    ensures small { IfSome result (λ at. at ≤ 2 ^ 126) }
{
    for i in 0..count {
        if differs_at(xs, ys, i) {
            return Some(i as u128);
        }
    }
    None
}

/// The first difference between the call at `i` and one at `j`, among so many members.
fn difference_between(
    exchange: Exchange,
    members: usize,
    i: usize,
    j: usize,
    x: &WaveItem,
    y: &WaveItem,
) -> Option<u128>
    ensures value { result ≡ difference_between exchange members i j x.now y.now }
    ensures small { IfSome result (λ at. at ≤ 2 ^ 126) }
{
    if let Exchange::ReduceScatter = exchange {
        return entry(members, &x.sends, &y.sends);
    }
    let own = own(exchange, i, j, x)?;
    let other = other(exchange, i, j, y)?;
    unlike(own, other)
}

/// The finding C4 at a call that is compared with another.
pub(crate) fn judge_pair(
    exchange: Exchange,
    members: usize,
    i: usize,
    j: usize,
    x: &WaveItem,
    y: &WaveItem,
) -> Option<Finding>
    ensures { result ≡ pair_row exchange members i j x.now y.now }
{
    if !x.counts {
        return None;
    }
    if !y.counts {
        return None;
    }
    let at = difference_between(exchange, members, i, j, x, y)?;
    Some(Finding {
        rank: x.place.rank,
        call: x.place.call,
        rule: Rule::C4,
        part: exchange.part(),
        see: Some(y.place),
        value: at as i128,
    })
}

/// Adds the rows C4 of a wave whose calls are compared with one, which stands at `j`.
pub(crate) fn report_against(
    exchange: Exchange,
    j: usize,
    y: &WaveItem,
    calls: &[WaveItem],
    out: &mut Findings,
) -> Result<(), NoMemory>
    ensures { OnOk result (Adds out.old out.new (GivenFrom (against exchange (length calls.now) j (Some y.now)) 0 calls.now)) }
{
    for (i, x) in calls.iter().enumerate() {
        report(out, judge_pair(exchange, calls.len(), i, j, x, y))?;
    }
    Ok(())
}

/// Adds the rows C4 of a wave whose calls are compared with the first that counts.
fn report_against_first(
    exchange: Exchange,
    calls: &[WaveItem],
    out: &mut Findings,
) -> Result<(), NoMemory>
    ensures { OnOk result (Adds out.old out.new (GivenFrom (against exchange (length calls.now) 0 (first_counting calls.now)) 0 calls.now)) }
{
    match first_counting(calls) {
        None => Ok(()),
        Some(first) => report_against(exchange, 0, first, calls, out),
    }
}

/// Adds the rows C4 of a wave whose calls are compared with the one at `j`.
fn report_against_at(
    exchange: Exchange,
    j: usize,
    calls: &[WaveItem],
    out: &mut Findings,
) -> Result<(), NoMemory>
    ensures { OnOk result (Adds out.old out.new (GivenFrom (against exchange (length calls.now) j (slice_get calls.now j)) 0 calls.now)) }
{
    match call_at(calls, j) {
        None => Ok(()),
        Some(call) => report_against(exchange, j, call, calls, out),
    }
}

/// The finding C4 at the call at `i`, which is compared with each.
fn judge_against_each(
    exchange: Exchange,
    i: usize,
    x: &WaveItem,
    calls: &[WaveItem],
) -> Option<Finding>
    ensures { result ≡ first_against exchange (length calls.now) i x.now 0 calls.now }
{
    for (j, y) in calls.iter().enumerate() {
        match judge_pair(exchange, calls.len(), i, j, x, y) {
            None => {}
            Some(finding) => return Some(finding),
        }
    }
    None
}

/// Adds the rows C4 of a wave whose calls are compared each with each.
fn report_pairs(exchange: Exchange, calls: &[WaveItem], out: &mut Findings) -> Result<(), NoMemory>
    ensures { OnOk result (Adds out.old out.new (GivenFrom (λ i x. first_against exchange (length calls.now) i x 0 calls.now) 0 calls.now)) }
{
    for (i, x) in calls.iter().enumerate() {
        report(out, judge_against_each(exchange, i, x, calls))?;
    }
    Ok(())
}

/// Whether a call has this root, where it counts.
fn shares_root(members: usize, root: usize, call: &WaveItem) -> bool
    ensures { result ≡ shares_root members root call.now }
{
    if !call.counts {
        return true;
    }
    match root_of(members, call) {
        None => false,
        Some(own) => root == own,
    }
}

/// Whether all calls that count have this root.
fn all_share(members: usize, root: usize, calls: &[WaveItem]) -> bool
    ensures { result ≡ all_share members root calls.now }
{
    for call in calls {
        if !shares_root(members, root, call) {
            return false;
        }
    }
    true
}

fn counts_at(calls: &[WaveItem], i: usize) -> bool
    ensures { result ≡ counts_there (slice_get calls.now i) }
{
    match calls.get(i) {
        None => false,
        Some(call) => call.counts,
    }
}

/// The root of all calls that count, where they have the same and the root's own call counts.
fn common_root(calls: &[WaveItem]) -> Option<usize>
    ensures { result ≡ common_root calls.now }
{
    let first = first_counting(calls)?;
    let root = root_of(calls.len(), first)?;
    if !all_share(calls.len(), root, calls) {
        return None;
    }
    if !counts_at(calls, root) {
        return None;
    }
    Some(root)
}

/// Adds the rows C4 of a wave whose calls have this root.
fn report_with_root(
    exchange: Exchange,
    root: usize,
    calls: &[WaveItem],
    out: &mut Findings,
) -> Result<(), NoMemory>
    ensures { OnOk result (Adds out.old out.new (GivenFrom (rooted_row exchange calls.now (Some root)) 0 calls.now)) }
{
    if exchange.is_reduction() {
        return report_against_first(exchange, calls, out);
    }
    report_against_at(exchange, root, calls, out)
}

/// Adds the rows C4 of a wave of a kind with a root.
fn report_rooted(exchange: Exchange, calls: &[WaveItem], out: &mut Findings) -> Result<(), NoMemory>
    ensures { OnOk result (Adds out.old out.new (GivenFrom (rooted_row exchange calls.now (common_root calls.now)) 0 calls.now)) }
{
    match common_root(calls) {
        None => Ok(()),
        Some(root) => report_with_root(exchange, root, calls, out),
    }
}

/// Adds the rows C4 of a wave of a kind without a root.
fn report_rootless(
    exchange: Exchange,
    calls: &[WaveItem],
    out: &mut Findings,
) -> Result<(), NoMemory>
    ensures { OnOk result (Adds out.old out.new (GivenFrom (rootless_row exchange calls.now) 0 calls.now)) }
{
    if exchange.is_free() {
        return Ok(());
    }
    if exchange.is_reduction() {
        return report_against_first(exchange, calls, out);
    }
    if exchange.is_uniform() {
        return report_uniform(calls, out);
    }
    report_pairs(exchange, calls, out)
}

/// Adds the rows C4 of a whole wave of one kind.
pub(crate) fn report_amounts(calls: &[WaveItem], out: &mut Findings) -> Result<(), NoMemory>
    ensures { OnOk result (Adds out.old out.new (IsAmountRow calls.now)) }
{
    match calls.first() {
        None => Ok(()),
        Some(first) => {
            let exchange = exchange_of(first.kind);
            if has_root(first.kind) {
                return report_rooted(exchange, calls, out);
            }
            report_rootless(exchange, calls, out)
        }
    }
}
