//! Values of one width, of which lists are made.

ghost use Rattle.std.specs.Prelude.{◌≡◌, ◌++◌, ◌↔◌, ◌<◌, ◌^◌, ℕ, List, drop, OnOk, OnErr, IsTrue};
ghost use Rattle.must_call.specs.declared.field.Item.TheVariants as item;
ghost use Rattle.must_call.specs.declared.field.Ints.TheVariants as ints;
ghost use Rattle.must_call.specs.declared.field.Side.TheVariants as side;
ghost use Rattle.must_format.specs.Decoding.{item_at, status_at, completion_at};
ghost use Rattle.must_format.specs.Values.{item_text, width, IsItem, IsStatus, status_text, completion_text};
ghost use Rattle.must_value.specs.Fronts.{IsFrontBehind};

use crate::cursor::Cursor;
use crate::putting::{put_bit, put_i32, put_i64, put_u32};
use must_base::NoMemory;
use must_call::{Amount, Completion, Dim, HindexItem, IndexItem, Status3, StructBlock};

/// A value that takes as many bytes whatever it is.
pub trait Coded: Copy + Drop {
    /// The value at the front of some bytes.
    ghost at: { List ℕ → Self };
    /// Its spelling.
    ghost text: { Self → List ℕ };
    /// How many bytes it takes.
    ghost SIZE: { ℕ };
    /// Whether a record may have the value.
    ghost can_stand: { Self → Type 0 };

    /// Reads a value. Bytes that are missing count as zeros.
    fn read(fields: &mut Cursor<'_>) -> Self
        ensures value { result ≡ at fields.old.rest.now }
        ensures rest { fields.new.rest.now ≡ drop SIZE fields.old.rest.now };

    /// Appends the value. Without memory a front of it may stand.
    fn put(self, out: &mut Vec<u8>) -> Result<(), NoMemory>
        ensures ok { OnOk result (out.new.items ≡ out.old.items ++ text self) }
        ensures front { OnErr result (IsFrontBehind out.old.items (text self) out.new.items) };

    /// Whether a record may have the value: it may have each value of these types.
    fn fits(self) -> bool
        ensures { IsTrue result ↔ can_stand self };
}

impl Coded for u32 {
    ghost at = { item_at item.Request };

    ghost text = { item_text item.Request };

    ghost SIZE = { width item.Request };

    ghost can_stand = { IsItem item.Request };

    fn read(fields: &mut Cursor<'_>) -> Self {
        fields.u32()
    }

    fn put(self, out: &mut Vec<u8>) -> Result<(), NoMemory> {
        put_u32(out, self)
    }

    fn fits(self) -> bool {
        true
    }
}

impl Coded for i32 {
    ghost at = { item_at (item.Int ints.Ranks) };

    ghost text = { item_text (item.Int ints.Ranks) };

    ghost SIZE = { width (item.Int ints.Ranks) };

    ghost can_stand = { IsItem (item.Int ints.Ranks) };

    fn read(fields: &mut Cursor<'_>) -> Self {
        fields.i32()
    }

    fn put(self, out: &mut Vec<u8>) -> Result<(), NoMemory> {
        put_i32(out, self)
    }

    fn fits(self) -> bool {
        true
    }
}

impl Coded for i64 {
    ghost at = { item_at item.Aint };

    ghost text = { item_text item.Aint };

    ghost SIZE = { width item.Aint };

    ghost can_stand = { IsItem item.Aint };

    fn read(fields: &mut Cursor<'_>) -> Self {
        fields.i64()
    }

    fn put(self, out: &mut Vec<u8>) -> Result<(), NoMemory> {
        put_i64(out, self)
    }

    fn fits(self) -> bool {
        true
    }
}

impl Coded for IndexItem {
    ghost at = { item_at item.Block };

    ghost text = { item_text item.Block };

    ghost SIZE = { width item.Block };

    ghost can_stand = { IsItem item.Block };

    fn read(fields: &mut Cursor<'_>) -> Self {
        let block = fields.i32();
        let disp = fields.i32();
        IndexItem { block, disp }
    }

    fn put(self, out: &mut Vec<u8>) -> Result<(), NoMemory> {
        put_i32(out, self.block)?;
        put_i32(out, self.disp)
    }

    fn fits(self) -> bool {
        true
    }
}

impl Coded for HindexItem {
    ghost at = { item_at item.ByteBlock };

    ghost text = { item_text item.ByteBlock };

    ghost SIZE = { width item.ByteBlock };

    ghost can_stand = { IsItem item.ByteBlock };

    fn read(fields: &mut Cursor<'_>) -> Self {
        let block = fields.i32();
        let disp = fields.i64();
        HindexItem { block, disp }
    }

    fn put(self, out: &mut Vec<u8>) -> Result<(), NoMemory> {
        put_i32(out, self.block)?;
        put_i64(out, self.disp)
    }

    fn fits(self) -> bool {
        true
    }
}

impl Coded for StructBlock {
    ghost at = { item_at item.StructBlock };

    ghost text = { item_text item.StructBlock };

    ghost SIZE = { width item.StructBlock };

    ghost can_stand = { IsItem item.StructBlock };

    fn read(fields: &mut Cursor<'_>) -> Self {
        let block = fields.i32();
        let disp = fields.i64();
        let old = fields.u32();
        StructBlock { block, disp, old }
    }

    fn put(self, out: &mut Vec<u8>) -> Result<(), NoMemory> {
        put_i32(out, self.block)?;
        put_i64(out, self.disp)?;
        put_u32(out, self.old)
    }

    fn fits(self) -> bool {
        true
    }
}

impl Coded for Dim {
    ghost at = { item_at item.Dim };

    ghost text = { item_text item.Dim };

    ghost SIZE = { width item.Dim };

    ghost can_stand = { IsItem item.Dim };

    fn read(fields: &mut Cursor<'_>) -> Self {
        let size = fields.i32();
        let subsize = fields.i32();
        let start = fields.i32();
        Dim {
            size,
            subsize,
            start,
        }
    }

    fn put(self, out: &mut Vec<u8>) -> Result<(), NoMemory> {
        put_i32(out, self.size)?;
        put_i32(out, self.subsize)?;
        put_i32(out, self.start)
    }

    fn fits(self) -> bool {
        true
    }
}

impl Coded for Amount {
    ghost at = { item_at (item.Amount side.Both) };

    ghost text = { item_text (item.Amount side.Both) };

    ghost SIZE = { width (item.Amount side.Both) };

    ghost can_stand = { IsItem (item.Amount side.Both) };

    fn read(fields: &mut Cursor<'_>) -> Self {
        let count = fields.i32();
        let disp = fields.i32();
        Amount { count, disp }
    }

    fn put(self, out: &mut Vec<u8>) -> Result<(), NoMemory> {
        put_i32(out, self.count)?;
        put_i32(out, self.disp)
    }

    fn fits(self) -> bool {
        true
    }
}

impl Coded for Status3 {
    ghost at = { status_at };

    ghost text = { status_text };

    ghost SIZE = { 9 };

    ghost can_stand = { IsStatus };

    fn read(fields: &mut Cursor<'_>) -> Self {
        fields.status()
    }

    fn put(self, out: &mut Vec<u8>) -> Result<(), NoMemory> {
        put_i32(out, self.source)?;
        put_i32(out, self.tag)?;
        put_bit(out, self.cancelled)
    }

    fn fits(self) -> bool {
        true
    }
}

impl Coded for Completion {
    ghost at = { completion_at };

    ghost text = { completion_text };

    ghost SIZE = { 13 };

    ghost can_stand = { λ c. (c.index < 2 ^ 32) × IsStatus c.status };

    fn read(fields: &mut Cursor<'_>) -> Self {
        let index = fields.u32();
        let status = fields.status();
        Completion { index, status }
    }

    fn put(self, out: &mut Vec<u8>) -> Result<(), NoMemory> {
        put_u32(out, self.index)?;
        self.status.put(out)
    }

    fn fits(self) -> bool {
        true
    }
}
