//! The top call.

ghost use Rattle.std.specs.Prelude.{◌≡◌, map};
ghost use Rattle.must_cli.specs.Promises.{Promises, world};

use crate::check::check;
use crate::dump::dump;
use crate::line::{put_memory, put_usage};
use crate::status::Status;
use must_base::{Gate, NameText, NoMemory, Sink, Trace};
use must_words::{CommandWords, command_words};
use std::alloc::Global;

/// Does what the words say, on one thread. It always returns.
///
/// specs/Promises.antt says what each answer promises.
pub fn serial_command<T: Trace, O: Sink, E: Sink>(
    alloc: Global,
    words: &[NameText],
    trace: &mut T,
    out: &mut O,
    err: &mut E,
) -> Status
    ensures promises { Promises words.now (T.files trace.old)
        (world (T.names trace.old) (map T.Src.shows (T.bound trace.old)) (O.shows out.old) (E.shows err.old))
        (world (T.names trace.new) (map T.Src.shows (T.bound trace.new)) (O.shows out.new) (E.shows err.new))
        result }
{
    match command_words(alloc, words) {
        Ok(Some(CommandWords::Check(words))) => check(alloc, &words, trace, out, err),
        Ok(Some(CommandWords::Dump(file))) => dump(alloc, file, trace, out, err),
        Ok(None) => {
            put_usage(err);
            Status::Usage
        }
        Err(NoMemory) => {
            put_memory(err);
            Status::NoMemory
        }
    }
}

/// Does what the words say. The gate is one that a child of a tree of threads passes before it hands up a batch.
///
/// specs/Promises.antt says what each answer promises.
pub fn run<R, T: Trace, O: Sink, E: Sink, G: Gate + Sync>(
    _rt: &R,
    alloc: Global,
    words: &[NameText],
    trace: &mut T,
    out: &mut O,
    err: &mut E,
    _gate: &G,
) -> Status
    ensures promises { Promises words.now (T.files trace.old)
        (world (T.names trace.old) (map T.Src.shows (T.bound trace.old)) (O.shows out.old) (E.shows err.old))
        (world (T.names trace.new) (map T.Src.shows (T.bound trace.new)) (O.shows out.new) (E.shows err.new))
        result }
{
    serial_command(alloc, words, trace, out, err)
}
