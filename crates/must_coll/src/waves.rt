//! Waves.

ghost use Rattle.std.specs.Prelude.{◌≡◌, ◌++◌, ◌∷◌, [], OnOk, IfOk, List, ℕ, false, true, Some};
ghost use Rattle.std.specs.Ordering.{is_eq, nat_cmp};
ghost use Rattle.std.specs.Option.{option_map};
ghost use Rattle.std.specs.BTreeMap as tree;
ghost use Rattle.must_find.specs.Adds.{Adds};
ghost use Rattle.must_coll.specs.declared.item.WaveItem.{WaveItem};
ghost use Rattle.must_coll.specs.Waves.{wave, all_places, Orderly};
ghost use Rattle.must_coll.specs.Rows.{IsWholeRowOf, IsGapRow};
ghost use Rattle.must_coll.specs.Progressing.{StandsFor, StandsAt, IsOpenIn};

use crate::item::{WaveFact, WaveItem};
use crate::names::Names;
use crate::progress::{Progress, place_of};
use must_base::NoMemory;
use must_find::Findings;
use std::alloc::Global;
use std::collections::BTreeMap;

/// The collective calls that were given and whose wave isn't whole yet, of all communicators.
///
/// Contracts say what the waves do where they stand for the calls put so far. They hold where the calls are in order: those of
/// a rank on a communicator come with the numbers 0, 1, 2 and so on, the rank is a member, and a handle number of a rank names
/// one communicator.
#[derive(Drop)]
pub struct Waves {
    alloc: Global,
    names: Names,
    waiting: BTreeMap<u32, Progress>,
}

/// Puts a call into the waves of its communicator, whose name has this number.
fn put_in(
    alloc: Global,
    waiting: &mut BTreeMap<u32, Progress>,
    number: u32,
    item: WaveItem,
    out: &mut Findings,
) -> Result<Option<WaveFact>, NoMemory>
    ensures found { (h : List WaveItem) → StandsAt (tree.get nat_cmp waiting.old number) item.name h → Orderly (h ++ item ∷ []) → IfOk result (λ o. o ≡ all_places (wave (h ++ item ∷ []) item.name item.number)) }
    ensures rows { (h : List WaveItem) → StandsAt (tree.get nat_cmp waiting.old number) item.name h → Orderly (h ++ item ∷ []) → OnOk result (Adds out.old out.new (IsWholeRowOf (h ++ item ∷ []) item)) }
    ensures here { (h : List WaveItem) → StandsAt (tree.get nat_cmp waiting.old number) item.name h → Orderly (h ++ item ∷ []) → OnOk result (StandsAt (tree.get nat_cmp waiting.new number) item.name (h ++ item ∷ [])) }
    ensures others { (other : ℕ) → is_eq (nat_cmp number other) ≡ false → tree.get nat_cmp waiting.new other ≡ tree.get nat_cmp waiting.old other }
{
    match place_of(&item.name, item.place.rank) {
        None => Ok(None),
        Some(position) => match waiting.get_mut(&number) {
            Some(progress) => progress.advance(alloc, position, item, out),
            None => {
                let mut progress = Progress::new(alloc, item.name.copy()?)?;
                let fact = progress.advance(alloc, position, item, out)?;
                waiting.insert(number, progress)?;
                Ok(fact)
            }
        },
    }
}

/// Adds the rows of the waves that wait.
fn report_open(
    alloc: Global,
    waiting: BTreeMap<u32, Progress>,
    out: &mut Findings,
) -> Result<(), NoMemory>
    ensures rows { OnOk result (Adds out.old out.new (IsOpenIn waiting.entries)) }
    ensures ordered { tree.IsOrdered nat_cmp waiting }
{
    let _ = waiting.len();
    let mut rest = waiting;
    while let Some((_, progress)) = rest.pop_first() {
        progress.report_open(alloc, out)?;
    }
    Ok(())
}

impl Waves {
    /// No calls. It takes no memory.
    pub fn new(alloc: Global) -> Result<Waves, NoMemory>
        ensures { IfOk result (λ waves. StandsFor waves []) }
    {
        Ok(Waves {
            alloc,
            names: Names::new(alloc),
            waiting: BTreeMap::new(alloc),
        })
    }

    /// Puts a call in: the calls of the wave that it makes whole, or none where it makes none whole. The wave's rows are
    /// added where it is judged. `NoMemory` comes where memory is short, and where there are 2^32 names or more; the waves are
    /// only to be dropped then.
    pub fn put(&mut self, item: WaveItem, out: &mut Findings) -> Result<Option<WaveFact>, NoMemory>
        ensures put { (h : List WaveItem) → StandsFor self.old h → Orderly (h ++ item ∷ []) → OnOk result (StandsFor self.new (h ++ item ∷ [])) }
        ensures found { (h : List WaveItem) → StandsFor self.old h → Orderly (h ++ item ∷ []) → IfOk result (λ o. o ≡ all_places (wave (h ++ item ∷ []) item.name item.number)) }
        ensures rows { (h : List WaveItem) → StandsFor self.old h → Orderly (h ++ item ∷ []) → OnOk result (Adds out.old out.new (IsWholeRowOf (h ++ item ∷ []) item)) }
    {
        let number = self.names.number(&item)?;
        put_in(self.alloc, &mut self.waiting, number, item, out)
    }

    /// Adds the rows of judged waves with a gap.
    pub fn close(self, out: &mut Findings) -> Result<(), NoMemory>
        ensures { (h : List WaveItem) → StandsFor self h → Orderly h → OnOk result (Adds out.old out.new (IsGapRow h)) }
    {
        let Waves {
            alloc,
            names: _,
            waiting,
        } = self;
        report_open(alloc, waiting, out)
    }
}
