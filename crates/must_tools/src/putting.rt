//! The dump of a stream.

ghost use Rattle.std.specs.Prelude.{◌≡◌, ℕ, List, Some, Err};
ghost use Rattle.must_base.specs.Causes.{Rose};
ghost use Rattle.must_tools.specs.Reading.{IsLeftOf, Answers, Puts, dump_fault_of};

use crate::fault::DumpFault;
use crate::reading::stream_text;
use must_base::{Sink, Source};
use must_format::StreamFault;
use std::alloc::Global;

fn dump_fault(fault: StreamFault) -> DumpFault
    ensures { result ≡ dump_fault_of fault }
{
    match fault {
        StreamFault::Malformed { .. } | StreamFault::Bound { .. } | StreamFault::Read =>
            DumpFault::Stream(fault),
        StreamFault::NoMemory => DumpFault::NoMemory,
    }
}

/// Puts the text of a stream, whose rank and number of ranks may be any.
///
/// The stream is read to its end, and all memory is taken, before the put.
///
/// # Errors
///
/// `Stream` has the first bad place of a stream that isn't complete or exceeds a limit, and `StreamFault::Read` where a read
/// failed; nothing was put. `Write` comes where the put failed, and a front of the text was put. `NoMemory` comes where there
/// was no memory, and nothing was put.
pub fn dump<S: Source, O: Sink>(alloc: Global, src: &mut S, out: &mut O) -> Result<(), DumpFault>
    ensures answers { (bytes : List ℕ) → S.left src.old ≡ Some bytes
        → Answers bytes (S.left src.new) (O.shows out.old) (O.shows out.new) result }
    ensures puts { Puts (O.shows out.old) (O.shows out.new) result }
    // What was taken of the stream and what is left are the stream.
    ensures tied { (bytes : List ℕ) → S.left src.old ≡ Some bytes → IsLeftOf bytes (S.left src.new) }
    // Only a read that failed in this call is answered as such.
    ensures read { result ≡ Err (DumpFault.Stream StreamFault.Read) → Rose (S.faults src.old) (S.faults src.new) }
{
    match stream_text(alloc, src) {
        Err(fault) => Err(dump_fault(fault)),
        Ok(text) => match out.put(text.as_bytes()) {
            Err(_) => Err(DumpFault::Write),
            Ok(()) => Ok(()),
        },
    }
}
