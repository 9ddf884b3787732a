//! The lines on the error stream. Each is made in a buffer on the stack and put at once. They take no memory.

ghost use Rattle.std.specs.Prelude.{◌≡◌, ◌≤◌, length};
ghost use Rattle.must_base.specs.Views.{PutsSome};
ghost use Rattle.must_cli.specs.Lines.{rank_name, place_line, read_line, fault_line, rank_line, stream_line, usage_line, write_line, memory_line, settings_line, rules_line};

use arrayvec::ArrayString;
use itoa::Buffer;
use must_base::Sink;
use must_format::StreamFault;

/// A line of at most 160 bytes.
type Line = ArrayString<160>;

/// Puts a line; no promise depends on whether the error stream takes it.
fn put_line<E: Sink>(err: &mut E, line: &str)
    ensures { PutsSome (E.shows err.old) (E.shows err.new) line.now }
{
    let _ = err.put(line.as_bytes());
}

/// How a line names a rank's stream.
#[tactic(auto, unfolding(crate::specs::Lines::rank_name))]
fn rank_text(rank: u32) -> Line
    ensures name { result.bytes ≡ rank_name rank }
    ensures short { length result.bytes ≤ 16 }
{
    let mut line = Line::new();
    line.push_str("rank ");
    line.push_str(Buffer::new().format(rank));
    line
}

/// The line that names a place of a stream.
#[tactic(auto, unfolding(crate::specs::Lines::place_line))]
fn place_text(stream: &str, what: &str, at: u64, name: &str) -> Line
    requires { (length stream.now ≤ 16) × ((length what.now ≤ 16) × (length name.now ≤ 40)) }
    ensures { result.bytes ≡ place_line stream.now what.now at name.now }
{
    let mut line = Line::new();
    line.push_str(stream);
    line.push_str(what);
    line.push_str(Buffer::new().format(at));
    line.push_str(": ");
    line.push_str(name);
    line.push_str("\n");
    line
}

/// The line that names a stream that couldn't be read.
#[tactic(auto, unfolding(crate::specs::Lines::read_line))]
fn read_text(stream: &str) -> Line
    requires { length stream.now ≤ 16 }
    ensures { result.bytes ≡ read_line stream.now }
{
    let mut line = Line::new();
    line.push_str(stream);
    line.push_str(" read failed\n");
    line
}

/// The line for the fault of a stream that is named so.
fn put_fault<E: Sink>(err: &mut E, stream: &str, fault: StreamFault)
    requires { length stream.now ≤ 16 }
    ensures { PutsSome (E.shows err.old) (E.shows err.new) (fault_line stream.now fault) }
{
    match fault {
        StreamFault::Malformed { at, cause } => {
            let line = place_text(stream, " malformed at ", at, cause.name());
            put_line(err, line.as_str());
        }
        StreamFault::Bound { at, limit } => {
            let line = place_text(stream, " bound at ", at, limit.name());
            put_line(err, line.as_str());
        }
        StreamFault::Read => {
            let line = read_text(stream);
            put_line(err, line.as_str());
        }
        StreamFault::NoMemory => put_memory(err),
    }
}

/// The line for the fault of a rank's stream.
pub fn put_rank_fault<E: Sink>(err: &mut E, rank: u32, fault: StreamFault)
    ensures { PutsSome (E.shows err.old) (E.shows err.new) (rank_line rank fault) }
{
    let stream = rank_text(rank);
    put_fault(err, stream.as_str(), fault);
}

/// The line for the fault of a stream that stands alone.
pub fn put_stream_fault<E: Sink>(err: &mut E, fault: StreamFault)
    ensures { PutsSome (E.shows err.old) (E.shows err.new) (stream_line fault) }
{
    put_fault(err, "stream", fault);
}

pub fn put_usage<E: Sink>(err: &mut E)
    ensures { PutsSome (E.shows err.old) (E.shows err.new) usage_line }
{
    put_line(err, "usage: must_cli check|dump|drill\n");
}

/// The line for a rules file that couldn't be read.
pub fn put_rules_fault<E: Sink>(err: &mut E)
    ensures { PutsSome (E.shows err.old) (E.shows err.new) rules_line }
{
    let line = read_text("rules file");
    put_line(err, line.as_str());
}

pub fn put_settings<E: Sink>(err: &mut E)
    ensures { PutsSome (E.shows err.old) (E.shows err.new) settings_line }
{
    put_line(err, "rules file refused\n");
}

pub fn put_write<E: Sink>(err: &mut E)
    ensures { PutsSome (E.shows err.old) (E.shows err.new) write_line }
{
    put_line(err, "write failed\n");
}

pub fn put_memory<E: Sink>(err: &mut E)
    ensures { PutsSome (E.shows err.old) (E.shows err.new) memory_line }
{
    put_line(err, "out of memory\n");
}
