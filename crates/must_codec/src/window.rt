//! The bytes of a source that were taken and not yet used up.

ghost use Rattle.std.specs.Prelude.{◌≡◌, ◌≤◌, ◌<◌, ◌+◌, ◌-◌, ℕ, List, [], Some, take, drop, length, IfOk, OnErr};
ghost use Rattle.must_base.specs.Causes.{HasCause};
ghost use Rattle.must_codec.specs.declared.window.TheConstants.{CAPACITY};
ghost use Rattle.must_codec.specs.Views.{Filled, ReadsBehind};

use must_base::{Failed, NoMemory, Source};
use must_format::MOST_PAYLOAD;
use std::alloc::Global;
use std::marker::Model;

/// The longest record fits.
const CAPACITY: usize = 6 + MOST_PAYLOAD as usize;

/// Bytes of a source that were taken and not yet used up. They stand in one buffer that is kept.
#[derive(Drop)]
pub(crate) struct Window {
    bytes: Vec<u8>,
    from: usize,
    to: usize,
}

impl Model for Window {
    ghost use Rattle.std.specs.Prelude.{◌≡◌, ◌≤◌, ◌-◌, ℕ, List, take, drop, length};
    ghost use Rattle.must_codec.specs.declared.window.TheConstants.{CAPACITY};

    ghost Value = { List ℕ };

    ghost view = { λ w. take (w.to - w.from) (drop w.from w.bytes.items) };

    ghost invariant = { λ w. (w.from ≤ w.to) × (w.to ≤ CAPACITY) × (length w.bytes.items ≡ CAPACITY) };
}

impl Window {
    /// No bytes. The buffer takes its memory once.
    pub fn new(alloc: Global) -> Result<Window, NoMemory>
        ensures { IfOk result (λ w. w ≡ []) }
    {
        let bytes = vec![in alloc; 0u8; CAPACITY]?;
        Ok(Window {
            bytes,
            from: 0,
            to: 0,
        })
    }

    /// The bytes.
    pub fn bytes(&self) -> &[u8]
        ensures { result.now ≡ self.now }
    {
        &self.bytes[self.from..self.to]
    }

    /// The first bytes are used up.
    pub fn skip(&mut self, count: usize)
        requires { count ≤ length self.old }
        ensures { self.new ≡ drop count self.old }
    {
        self.from += count;
    }

    /// Takes some bytes of the source, at most so many, and says how many; none where the source is at its end. The bytes that
    /// weren't used up move to the front of the buffer, so that the longest record has room.
    pub fn fill<S: Source>(&mut self, src: &mut S, most: usize) -> Result<usize, Failed>
        requires room { length self.old < CAPACITY }
        requires some { 0 < most }
        ensures bytes { (rest : List ℕ) → S.left src.old ≡ Some rest → Filled self.old self.new rest (S.left src.new) result }
        ensures most { IfOk result (λ count. (count ≤ most) × (length self.new ≡ length self.old + count)) }
        ensures cause { HasCause (S.faults src.old) (S.faults src.new) result }
        ensures err { OnErr result (self.new ≡ self.old) }
    {
        let len = self.to - self.from;
        move_to_front(&mut self.bytes, self.from, self.to);
        self.from = 0;
        self.to = len;
        let end = len + most.min(CAPACITY - len);
        let count = read_behind(src, &mut self.bytes, len, end)?;
        self.to = len + count;
        Ok(count)
    }
}

/// Moves the bytes of a range to the front.
fn move_to_front(bytes: &mut Vec<u8>, from: usize, to: usize)
    requires range { from ≤ to }
    requires within { to ≤ length bytes.old.items }
    ensures front { take (to - from) bytes.new.items ≡ take (to - from) (drop from bytes.old.items) }
    ensures length { length bytes.new.items ≡ length bytes.old.items }
{
    if from > 0 {
        bytes.copy_within(from..to, 0);
    }
}

/// Reads into a range of the bytes, and leaves those before it.
fn read_behind<S: Source>(
    src: &mut S,
    bytes: &mut Vec<u8>,
    at: usize,
    end: usize,
) -> Result<usize, Failed>
    requires range { at < end }
    requires within { end ≤ length bytes.old.items }
    ensures length { length bytes.new.items ≡ length bytes.old.items }
    ensures front { take at bytes.new.items ≡ take at bytes.old.items }
    ensures most { IfOk result (λ count. at + count ≤ end) }
    ensures bytes { ReadsBehind (S.left src.old) (S.left src.new) result (drop at bytes.new.items) }
    ensures cause { HasCause (S.faults src.old) (S.faults src.new) result }
{
    src.read(&mut bytes[at..end])
}
