//! Reading a stream to its end, and making its text.

ghost use Rattle.std.specs.Prelude.{◌≡◌, ◌++◌, ℕ, List, Some, Ok, Err, OnOk, IfOk, IfErr, string_bytes};
ghost use Rattle.must_base.specs.Causes.{Rose};
ghost use Rattle.must_format.specs.declared.fault.StreamFault.{StreamFault};
ghost use Rattle.must_format.specs.declared.header.Header.{Header};
ghost use Rattle.must_tools.specs.Dump.{header_line};
ghost use Rattle.must_codec.specs.Views.{IsOpen, Leaves};
ghost use Rattle.must_tools.specs.Reading.{IsLeftOf, IsFaultOf, Shows, Begins, ShowsAll, IsDump};

use crate::text::{push_call, push_end, push_header};
use must_base::{NoMemory, Source};
use must_call::Call;
use must_codec::StreamReader;
use must_format::StreamFault;
use std::alloc::Global;

/// Adds the lines of the calls from this number on, and says how many calls there are in all.
fn push_calls<S: Source>(
    alloc: Global,
    src: &mut S,
    reader: &mut StreamReader,
    first: u32,
    text: &mut String,
) -> Result<u32, StreamFault>
    requires open { IsOpen reader.old.phase }
    requires any { reader.old.expect ≡ None }
    ensures whole { IfOk result (λ count. (bytes : List ℕ) → Shows bytes (S.left src.old) reader.old (string_bytes text.old) first
        → ShowsAll bytes (S.left src.new) (string_bytes text.new) count) }
    ensures refused { IfErr result (λ fault. (bytes : List ℕ) → Shows bytes (S.left src.old) reader.old (string_bytes text.old) first
        → IsFaultOf bytes (S.left src.new) fault) }
    ensures tied { (bytes : List ℕ) → Shows bytes (S.left src.old) reader.old (string_bytes text.old) first → IsLeftOf bytes (S.left src.new) }
    ensures read { result ≡ Err StreamFault.Read → Rose (S.faults src.old) (S.faults src.new) }
{
    for number in first..u32::MAX {
        let next = reader.next(alloc, src)?;
        match next {
            None => return Ok(number),
            Some(call) => push_call(text, number, &call)?,
        }
    }
    // A stream has at most 8,388,608 calls.
    Err(StreamFault::NoMemory)
}

/// Adds the lines of what the reader gave first and of all other calls, and says how many there are.
fn push_all<S: Source>(
    alloc: Global,
    src: &mut S,
    reader: &mut StreamReader,
    first_call: Option<Call>,
    text: &mut String,
) -> Result<u32, StreamFault>
    requires leaves { Leaves reader.old.phase (Ok first_call) }
    requires any { reader.old.expect ≡ None }
    ensures whole { IfOk result (λ count. (bytes : List ℕ) → Begins bytes (S.left src.old) reader.old first_call (string_bytes text.old)
        → ShowsAll bytes (S.left src.new) (string_bytes text.new) count) }
    ensures refused { IfErr result (λ fault. (bytes : List ℕ) → Begins bytes (S.left src.old) reader.old first_call (string_bytes text.old)
        → IsFaultOf bytes (S.left src.new) fault) }
    ensures tied { (bytes : List ℕ) → Begins bytes (S.left src.old) reader.old first_call (string_bytes text.old) → IsLeftOf bytes (S.left src.new) }
    ensures read { result ≡ Err StreamFault.Read → Rose (S.faults src.old) (S.faults src.new) }
{
    match first_call {
        None => Ok(0),
        Some(call) => {
            push_call(text, 0, &call)?;
            push_calls(alloc, src, reader, 1, text)
        }
    }
}

/// Adds the line of the header. A reader that gave a call or the end has accepted one.
fn push_first(text: &mut String, reader: &StreamReader) -> Result<(), NoMemory>
    ensures { OnOk result ((header : Header) → reader.now.header ≡ Some header
        → string_bytes text.new ≡ string_bytes text.old ++ header_line header) }
{
    match reader.header() {
        Some(header) => push_header(text, header),
        None => Err(NoMemory),
    }
}

/// Reads a stream to its end, and makes its text.
pub fn stream_text<S: Source>(alloc: Global, src: &mut S) -> Result<String, StreamFault>
    ensures whole { IfOk result (λ text. (bytes : List ℕ) → S.left src.old ≡ Some bytes → IsDump bytes (S.left src.new) (string_bytes text)) }
    ensures refused { IfErr result (λ fault. (bytes : List ℕ) → S.left src.old ≡ Some bytes → IsFaultOf bytes (S.left src.new) fault) }
    ensures tied { (bytes : List ℕ) → S.left src.old ≡ Some bytes → IsLeftOf bytes (S.left src.new) }
    ensures read { result ≡ Err StreamFault.Read → Rose (S.faults src.old) (S.faults src.new) }
{
    let mut reader = StreamReader::any(alloc)?;
    let next = reader.next(alloc, src)?;
    let mut text = String::new(alloc);
    push_first(&mut text, &reader)?;
    let calls = push_all(alloc, src, &mut reader, next, &mut text)?;
    push_end(&mut text, calls)?;
    Ok(text)
}
