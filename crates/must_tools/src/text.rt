//! The lines of a dump.

ghost use Rattle.std.specs.Prelude.{◌≡◌, ◌++◌, OnOk, string_bytes};
ghost use Rattle.std.specs.List.{flat_map};
ghost use Rattle.must_call.specs.Numbers.{numbers_of};
ghost use Rattle.must_tools.specs.Dump.{rank_text, size_text, header_line, mark_text, number_text, name_text, call_line, end_line};

use itoa::Buffer;
use must_base::NoMemory;
use must_call::Call;
use must_format::Header;

#[tactic(auto, unfolding(crate::specs::Dump::rank_text))]
fn push_rank(text: &mut String, header: Header) -> Result<(), NoMemory>
    ensures { OnOk result (string_bytes text.new ≡ string_bytes text.old ++ rank_text header) }
{
    text.push_str("stream ")?;
    text.push_str(Buffer::new().format(header.version))?;
    text.push_str(" ")?;
    text.push_str(Buffer::new().format(header.rank))?;
    Ok(())
}

#[tactic(auto, unfolding(crate::specs::Dump::size_text))]
fn push_size(text: &mut String, header: Header) -> Result<(), NoMemory>
    ensures { OnOk result (string_bytes text.new ≡ string_bytes text.old ++ size_text header) }
{
    text.push_str(" ")?;
    text.push_str(Buffer::new().format(header.size))?;
    text.push_str(" ")?;
    text.push_str(Buffer::new().format(header.tag_ub))?;
    text.push_str("\n")?;
    Ok(())
}

/// The line of a header.
#[tactic(auto, unfolding(crate::specs::Dump::header_line))]
pub fn push_header(text: &mut String, header: Header) -> Result<(), NoMemory>
    ensures { OnOk result (string_bytes text.new ≡ string_bytes text.old ++ header_line header) }
{
    push_rank(text, header)?;
    push_size(text, header)?;
    Ok(())
}

fn mark(returned: bool) -> &'static str
    ensures { result.now ≡ mark_text returned }
{
    if returned { "" } else { "!" }
}

/// A call's number and kind.
#[tactic(auto, unfolding(crate::specs::Dump::name_text))]
fn push_name(text: &mut String, number: u32, call: &Call) -> Result<(), NoMemory>
    ensures { OnOk result (string_bytes text.new ≡ string_bytes text.old ++ name_text number call.now) }
{
    text.push_str(Buffer::new().format(number))?;
    text.push_str(" ")?;
    text.push_str(call.kind().name())?;
    text.push_str(mark(call.returned))?;
    Ok(())
}

#[tactic(auto, unfolding(crate::specs::Dump::number_text))]
fn push_number(text: &mut String, number: i128) -> Result<(), NoMemory>
    ensures { OnOk result (string_bytes text.new ≡ string_bytes text.old ++ number_text number) }
{
    text.push_str(" ")?;
    text.push_str(Buffer::new().format(number))?;
    Ok(())
}

/// The numbers of a call's payload in order.
fn push_numbers(text: &mut String, call: &Call) -> Result<(), NoMemory>
    ensures { OnOk result (string_bytes text.new
        ≡ string_bytes text.old ++ flat_map number_text (numbers_of call.now.body)) }
{
    for i in 0..u32::MAX {
        match call.number(i) {
            None => return Ok(()),
            Some(number) => push_number(text, number)?,
        }
    }
    // A record has less than 2^20 numbers.
    Err(NoMemory)
}

/// The line of a call.
#[tactic(auto, unfolding(crate::specs::Dump::call_line))]
pub fn push_call(text: &mut String, number: u32, call: &Call) -> Result<(), NoMemory>
    ensures { OnOk result (string_bytes text.new ≡ string_bytes text.old ++ call_line number call.now) }
{
    push_name(text, number, call)?;
    push_numbers(text, call)?;
    text.push_str("\n")?;
    Ok(())
}

/// The last line, which has the number of calls.
#[tactic(auto, unfolding(crate::specs::Dump::end_line))]
pub fn push_end(text: &mut String, calls: u32) -> Result<(), NoMemory>
    ensures { OnOk result (string_bytes text.new ≡ string_bytes text.old ++ end_line calls) }
{
    text.push_str("end ")?;
    text.push_str(Buffer::new().format(calls))?;
    text.push_str("\n")?;
    Ok(())
}
