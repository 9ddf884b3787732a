//! The shape of a tree.

ghost use Rattle.std.specs.Prelude.{◌≡◌, ◌+◌, ◌*◌, ◌^◌, ◌<◌, ◌≤◌, ℕ};
ghost use Rattle.must_levels.specs.Shape.{IsTree, IsLevels, range_at};

use must_entry::RankRange;

/// The number of levels of a tree of `n` ranks: the least of at least 1 at which `fan_in` to that power is `n` or more.
pub fn levels(n: u32, fan_in: u8) -> u32
    requires { IsTree n fan_in }
    ensures { IsLevels n fan_in result }
{
    let fan_in = fan_in as u32;
    let mut levels = 1;
    let mut covered = fan_in;
    while covered < n {
        covered *= fan_in;
        levels += 1;
    }
    levels
}

/// The ranks of the i-th node of a level: from `i * fan_in^level` up to the smaller of `(i + 1) * fan_in^level` and `n`. Level 0 is
/// one rank.
pub fn range(n: u32, fan_in: u8, level: u32, i: u32) -> RankRange
    requires shape { IsTree n fan_in }
    requires level { (count : ℕ) × IsLevels n fan_in count × (level ≤ count) }
    requires within { i * fan_in ^ level < n }
    ensures { result ≡ range_at n fan_in level i }
{
    let width = (fan_in as u32).pow(level);
    let from = i * width;
    RankRange {
        from,
        to: from + width.min(n - from),
    }
}
