//! Items of lists as numbers of a payload.

ghost use Rattle.std.specs.Prelude.{◌≡◌, ℕ, ◌<◌, ℤ, pos, List, [], ◌∷◌, length, refl};
ghost use Rattle.std.specs.List.{flat_map};
ghost use Rattle.std.proofs.Common.{rules};
ghost use Rattle.must_call.specs.declared.field.Item.TheVariants as item;
ghost use Rattle.must_call.specs.declared.field.Ints.TheVariants as ints;
ghost use Rattle.must_call.specs.declared.field.Side.TheVariants as side;
ghost use Rattle.must_call.specs.Reading.{Reads};
ghost use Rattle.must_call.specs.Numbers.{item_numbers, counted, status_numbers, completion_numbers};

use crate::items::{Amount, Completion, Dim, HindexItem, IndexItem, StructBlock};
use crate::status::Status3;

/// An item of a list, as `WIDTH` numbers of a payload.
pub(crate) trait Row {
    ghost WIDTH: { ℕ };

    ghost numbers: { Self → List ℤ };

    const WIDTH: usize;

    /// Its `i`-th number from 0, or how far `i` lies past them.
    fn number(&self, i: usize) -> Result<i128, usize>
        ensures { Reads (numbers self.now) i result };

    ghost some: { 0 < WIDTH };

    ghost wide: { (row : Self) → length (numbers row) ≡ WIDTH };
}

impl Row for u32 {
    ghost WIDTH = { 1 };

    ghost numbers = { λ n. pos n ∷ [] };

    const WIDTH: usize = 1;

    fn number(&self, i: usize) -> Result<i128, usize> {
        single(i128::from(*self), i)
    }

    ghost some = { Prim.search rules };

    ghost wide = { λ row. refl };
}

impl Row for i32 {
    ghost WIDTH = { 1 };

    ghost numbers = { item_numbers (item.Int ints.Ranks) };

    const WIDTH: usize = 1;

    fn number(&self, i: usize) -> Result<i128, usize> {
        single(i128::from(*self), i)
    }

    ghost some = { Prim.search rules };

    ghost wide = { λ row. refl };
}

impl Row for i64 {
    ghost WIDTH = { 1 };

    ghost numbers = { item_numbers item.Aint };

    const WIDTH: usize = 1;

    fn number(&self, i: usize) -> Result<i128, usize> {
        single(i128::from(*self), i)
    }

    ghost some = { Prim.search rules };

    ghost wide = { λ row. refl };
}

impl Row for IndexItem {
    ghost WIDTH = { 2 };

    ghost numbers = { item_numbers item.Block };

    const WIDTH: usize = 2;

    fn number(&self, i: usize) -> Result<i128, usize> {
        nth(&[i128::from(self.block), i128::from(self.disp)], i)
    }

    ghost some = { Prim.search rules };

    ghost wide = { λ row. refl };
}

impl Row for HindexItem {
    ghost WIDTH = { 2 };

    ghost numbers = { item_numbers item.ByteBlock };

    const WIDTH: usize = 2;

    fn number(&self, i: usize) -> Result<i128, usize> {
        nth(&[i128::from(self.block), i128::from(self.disp)], i)
    }

    ghost some = { Prim.search rules };

    ghost wide = { λ row. refl };
}

impl Row for StructBlock {
    ghost WIDTH = { 3 };

    ghost numbers = { item_numbers item.StructBlock };

    const WIDTH: usize = 3;

    fn number(&self, i: usize) -> Result<i128, usize> {
        nth(
            &[
                i128::from(self.block),
                i128::from(self.disp),
                i128::from(self.old),
            ],
            i,
        )
    }

    ghost some = { Prim.search rules };

    ghost wide = { λ row. refl };
}

impl Row for Dim {
    ghost WIDTH = { 3 };

    ghost numbers = { item_numbers item.Dim };

    const WIDTH: usize = 3;

    fn number(&self, i: usize) -> Result<i128, usize> {
        nth(
            &[
                i128::from(self.size),
                i128::from(self.subsize),
                i128::from(self.start),
            ],
            i,
        )
    }

    ghost some = { Prim.search rules };

    ghost wide = { λ row. refl };
}

impl Row for Amount {
    ghost WIDTH = { 2 };

    ghost numbers = { item_numbers (item.Amount side.Both) };

    const WIDTH: usize = 2;

    fn number(&self, i: usize) -> Result<i128, usize> {
        nth(&[i128::from(self.count), i128::from(self.disp)], i)
    }

    ghost some = { Prim.search rules };

    ghost wide = { λ row. refl };
}

impl Row for Status3 {
    ghost WIDTH = { 3 };

    ghost numbers = { status_numbers };

    const WIDTH: usize = 3;

    fn number(&self, i: usize) -> Result<i128, usize> {
        nth(
            &[
                i128::from(self.source),
                i128::from(self.tag),
                i128::from(self.cancelled),
            ],
            i,
        )
    }

    ghost some = { Prim.search rules };

    ghost wide = { λ row. refl };
}

impl Row for Completion {
    ghost WIDTH = { 4 };

    ghost numbers = { completion_numbers };

    const WIDTH: usize = 4;

    fn number(&self, i: usize) -> Result<i128, usize> {
        nth(
            &[
                i128::from(self.index),
                i128::from(self.status.source),
                i128::from(self.status.tag),
                i128::from(self.status.cancelled),
            ],
            i,
        )
    }

    ghost some = { Prim.search rules };

    ghost wide = { λ row. refl };
}

/// This number where `i` is 0, else how far `i` lies past it.
pub(crate) fn single(number: i128, i: usize) -> Result<i128, usize>
    ensures { Reads (number ∷ []) i result }
{
    if i == 0 { Ok(number) } else { Err(i - 1) }
}

/// The `i`-th of these numbers from 0, or how far `i` lies past them.
pub(crate) fn nth(numbers: &[i128], i: usize) -> Result<i128, usize>
    ensures { Reads numbers.now i result }
{
    match numbers.get(i) {
        Some(number) => Ok(*number),
        None => Err(i - numbers.len()),
    }
}

/// The `i`-th number from 0 of rows one behind another, or how far `i` lies past them. It takes constant time.
pub(crate) fn rows_number<R: Row>(rows: &[R], i: usize) -> Result<i128, usize>
    ensures { Reads (flat_map R.numbers rows.now) i result }
{
    let width = R::WIDTH;
    let at = i / width;
    if at < rows.len() {
        rows[at].number(i % width)
    } else {
        Err(i - rows.len() * width)
    }
}

/// The `i`-th number from 0 of a list with its count, or how far `i` lies past them. It takes constant time.
pub(crate) fn list_number<R: Row>(items: &[R], i: usize) -> Result<i128, usize>
    ensures { Reads (counted R.numbers items.now) i result }
{
    if i == 0 {
        Ok(items.len() as i128)
    } else {
        rows_number(items, i - 1)
    }
}
