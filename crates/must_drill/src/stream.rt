//! The stream of one rank.

ghost use Rattle.std.specs.Prelude.{◌≡◌, ◌++◌, ◌+◌, ◌<◌, ◌≤◌, ◌^◌, OnOk, IfOk};
ghost use Rattle.must_format.specs.Spelling.{IsSpellable, end_text};
ghost use Rattle.must_format.specs.Stream.{header_text};
ghost use Rattle.must_drill.specs.Calls.{opening, round_calls, rounds_of, closing};
ghost use Rattle.must_drill.specs.Streams.{record_of, records_of, header_of, stream_of};

use crate::calls::{done, pair, receive, send, split, sum, wait};
use crate::handles::{HALF, PAIR};
use crate::numbers::{next_state, round_of};
use crate::round::Round;
use must_base::NoMemory;
use must_call::{Body, Call, Derive, Frame, Object};
use must_format::LEAST_TAG_UB;
use must_record::write_record;
use must_value::{put_bytes, put_i32, put_u32};
use std::alloc::Global;

/// Appends the record of a call.
#[tactic(auto, unfolding(crate::specs::Streams::record_of))]
fn put_call(alloc: Global, out: &mut Vec<u8>, call: Call) -> Result<(), NoMemory>
    requires { IsSpellable call }
    ensures { OnOk result (out.new.items ≡ out.old.items ++ record_of call) }
{
    write_record(alloc, out, &call)
}

fn put_opening(alloc: Global, out: &mut Vec<u8>, ranks: u32, rank: u32) -> Result<(), NoMemory>
    requires ranks { ranks ≤ 1024 }
    ensures { OnOk result (out.new.items ≡ out.old.items ++ records_of (opening ranks rank)) }
{
    put_call(alloc, out, done(Body::Frame(Frame::Init)))?;
    put_call(alloc, out, split(alloc, ranks, rank)?)?;
    put_call(alloc, out, pair(alloc)?)?;
    put_call(
        alloc,
        out,
        done(Body::Derive(Derive::TypeCommit { dtype: PAIR })),
    )
}

fn put_round(alloc: Global, out: &mut Vec<u8>, round: Round) -> Result<(), NoMemory>
    requires { round.first + 3 < 2 ^ 32 }
    ensures { OnOk result (out.new.items ≡ out.old.items ++ records_of (round_calls round)) }
{
    let Round {
        left,
        right,
        count,
        sent,
        first,
    } = round;
    put_call(alloc, out, receive(65_536, count, left, 1, first))?;
    put_call(alloc, out, receive(131_072, count, right, 2, first + 1))?;
    put_call(alloc, out, send(196_608, count, left, 2, first + 2))?;
    put_call(alloc, out, send(262_144, sent, right, 1, first + 3))?;
    put_call(alloc, out, wait(alloc, first, left, right)?)?;
    put_call(alloc, out, sum(count))
}

fn put_rounds(
    alloc: Global,
    out: &mut Vec<u8>,
    ranks: u32,
    rounds: u32,
    number: u64,
    rank: u32,
) -> Result<(), NoMemory>
    requires rank { rank < ranks }
    requires ranks { ranks ≤ 1024 }
    requires rounds { rounds ≤ 1000 }
    ensures { OnOk result (out.new.items ≡ out.old.items ++ records_of (rounds_of ranks number rank rounds)) }
{
    let mut state = number;
    for m in 0..rounds {
        state = next_state(state);
        put_round(alloc, out, round_of(ranks, number, rank, m, state))?;
    }
    Ok(())
}

fn put_closing(alloc: Global, out: &mut Vec<u8>) -> Result<(), NoMemory>
    ensures { OnOk result (out.new.items ≡ out.old.items ++ records_of closing) }
{
    put_call(
        alloc,
        out,
        done(Body::Derive(Derive::TypeFree { dtype: PAIR })),
    )?;
    put_call(
        alloc,
        out,
        done(Body::Object(Object::CommFree { comm: HALF })),
    )?;
    put_call(alloc, out, done(Body::Frame(Frame::Finalize)))
}

/// Appends the header of a stream of version 1.
fn put_header(out: &mut Vec<u8>, ranks: u32, rank: u32) -> Result<(), NoMemory>
    ensures { OnOk result (out.new.items ≡ out.old.items ++ header_text (header_of ranks rank)) }
{
    put_bytes(out, b"MTRC")?;
    put_bytes(out, &[1])?;
    put_u32(out, rank)?;
    put_u32(out, ranks)?;
    put_i32(out, LEAST_TAG_UB)
}

/// Appends the end record of a stream with so many calls.
fn put_end(out: &mut Vec<u8>, calls: u32) -> Result<(), NoMemory>
    ensures { OnOk result (out.new.items ≡ out.old.items ++ end_text calls) }
{
    put_bytes(out, &[0, 0])?;
    put_u32(out, 4)?;
    put_u32(out, calls)
}

/// The stream of a rank, in time linear in its bytes.
pub(crate) fn stream(
    alloc: Global,
    ranks: u32,
    rounds: u32,
    number: u64,
    rank: u32,
) -> Result<Vec<u8>, NoMemory>
    requires rank { rank < ranks }
    requires ranks { ranks ≤ 1024 }
    requires rounds { rounds ≤ 1000 }
    ensures { IfOk result (λ v. v.items ≡ stream_of ranks rounds number rank) }
{
    let mut out = Vec::new(alloc);
    put_header(&mut out, ranks, rank)?;
    put_opening(alloc, &mut out, ranks, rank)?;
    put_rounds(alloc, &mut out, ranks, rounds, number, rank)?;
    put_closing(alloc, &mut out)?;
    put_end(&mut out, 7 + 6 * rounds)?;
    Ok(out)
}
