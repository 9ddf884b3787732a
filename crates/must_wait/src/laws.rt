//! What the replay and the core are, in the words of the subject. The functions do nothing: their contracts are the laws.

ghost use Rattle.std.specs.Prelude.{◌≡◌, ◌↔◌, ℕ, Bool, List, true, false, is_some};
ghost use Rattle.must_call.specs.declared.place.Place.{Place};
ghost use Rattle.must_wait.specs.CoreLaws.{HoldsItself, in_core};
ghost use Rattle.must_wait.specs.Counted.{Within};
ghost use Rattle.must_wait.specs.Needs.{Rows, needs_of};
ghost use Rattle.must_wait.specs.Replay.{IsBlocked, IsBlockedList, Marks, next_round, passed};

/// No call that is reached where these calls are passed, and has an alternative of reached places, is left out.
pub fn passed_is_closed()
    ensures { (rows : Rows) → Within (next_round rows (passed rows)) (passed rows) }
{}

/// Each set of calls that is closed in this way has all passed calls. So no order of progress passes more or fewer.
pub fn passed_is_least()
    ensures { (rows : Rows) (marks : Marks) → Within (next_round rows marks) marks → Within (passed rows) marks }
{}

/// A rank has at most one blocked call.
pub fn one_blocked_call()
    ensures { (rows : Rows) (place other : Place) → IsBlocked rows place → IsBlocked rows other → place.rank ≡ other.rank → place ≡ other }
{}

/// A rank has a blocked call exactly where one of its calls isn't passed.
pub fn blocked_or_passed()
    ensures { (rows : Rows) (rank : ℕ) → ((call : ℕ) × IsBlocked rows (record { rank = rank; call = call })) ↔ ((call : ℕ) × (is_some (needs_of rows rank call) ≡ true) × (passed rows rank call ≡ false)) }
{}

/// Each rank of the core is blocked, and held by the core.
pub fn core_holds_itself()
    ensures { (rows : Rows) (blocked : List Place) → IsBlockedList rows blocked → HoldsItself rows blocked (in_core rows blocked) }
{}

/// Each set of blocked ranks that holds itself lies in the core.
pub fn core_is_greatest()
    ensures { (rows : Rows) (blocked : List Place) (set : ℕ → Bool) → HoldsItself rows blocked set → (rank : ℕ) → set rank ≡ true → in_core rows blocked rank ≡ true }
{}
