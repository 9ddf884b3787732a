//! The command `dump`: the text of a stream.

ghost use Rattle.std.specs.Prelude.{◌≡◌, ◌≢◌, ◌∷◌, [], map, Err, Option, List, ℕ};
ghost use Rattle.must_base.specs.Views.{SourceView, unread};
ghost use Rattle.must_tree.specs.Told.{AreTied};
ghost use Rattle.must_tools.specs.declared.fault.DumpFault.TheVariants.{NoMemory as OutOfMemory};
ghost use Rattle.must_cli.specs.Outside.{output};
ghost use Rattle.must_cli.specs.CheckPromises.{WantOfMemory};
ghost use Rattle.must_cli.specs.Dumping.{Dumping, DumpsPart};
ghost use Rattle.must_cli.specs.DumpPromises.{single, DumpAnswers};

use crate::bind::{bind_files, source_law};
use crate::line::{put_memory, put_stream_fault, put_write};
use crate::status::Status;
use must_base::{NameText, Sink, Source, Trace};
use must_tools::DumpFault;
use std::alloc::Global;
use std::slice;

/// Puts the text of the stream of this part, which wasn't read yet.
fn dump_part<S: Source, O: Sink>(alloc: Global, part: &mut S, out: &mut O) -> Result<(), DumpFault>
    requires fresh { S.faults part.old ≡ 0 }
    ensures { Dumping (S.left part.old) (S.shows part.new) (O.shows out.old) (O.shows out.new) result }
{
    source_law::<S>();
    must_tools::dump(alloc, part, out)
}

/// Binds the file, and puts the text of its stream.
fn dump_file<T: Trace, O: Sink>(
    alloc: Global,
    file: &str,
    trace: &mut T,
    out: &mut O,
) -> Result<(), DumpFault>
    ensures part { result ≢ Err OutOfMemory
        → DumpsPart (T.files trace.old file.now) (map T.Src.shows (T.bound trace.new)) (O.shows out.old) (O.shows out.new) result }
    ensures names { result ≢ Err OutOfMemory → T.names trace.new ≡ file.now ∷ [] }
    ensures nothing { result ≡ Err OutOfMemory → O.shows out.new ≡ O.shows out.old }
{
    let Ok(name) = NameText::new(alloc, file) else {
        return Err(DumpFault::NoMemory);
    };
    if bind_files(alloc, slice::from_ref(&name), trace).is_err() {
        return Err(DumpFault::NoMemory);
    }
    let parts = trace.parts();
    dump_part(alloc, &mut parts[0], out)
}

/// Puts the text of the stream in this file.
pub fn dump<T: Trace, O: Sink, E: Sink>(
    alloc: Global,
    file: &str,
    trace: &mut T,
    out: &mut O,
    err: &mut E,
) -> Status
    ensures answers { result ≢ Status.NoMemory → (part : SourceView) → map T.Src.shows (T.bound trace.new) ≡ part ∷ []
        → DumpAnswers (single (T.files trace.old file.now) part (output (O.shows out.old) (O.shows out.new)))
        (output (E.shows err.old) (E.shows err.new)) result }
    ensures memory { result ≡ Status.NoMemory
        → WantOfMemory (output (O.shows out.old) (O.shows out.new)) (output (E.shows err.old) (E.shows err.new)) }
    ensures refused { result ≢ Status.Usage }
    ensures names { result ≢ Status.NoMemory → T.names trace.new ≡ file.now ∷ [] }
    ensures tied { result ≢ Status.NoMemory → AreTied (T.files trace.old file.now ∷ []) (map T.Src.shows (T.bound trace.new)) }
{
    match dump_file(alloc, file, trace, out) {
        Ok(()) => Status::Clean,
        Err(DumpFault::Stream(fault)) => {
            put_stream_fault(err, fault);
            Status::of_fault(fault)
        }
        Err(DumpFault::Write) => {
            put_write(err);
            Status::Outside
        }
        Err(DumpFault::NoMemory) => {
            put_memory(err);
            Status::NoMemory
        }
    }
}
