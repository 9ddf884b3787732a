//! What a rank knows at a call.

ghost use Rattle.std.specs.Prelude.{◌≡◌, ℕ, Bool};
ghost use Rattle.std.specs.Option.{option_map};
ghost use Rattle.must_rules.specs.Facts.{Facts, members_of, position_of, size_of_comm};
ghost use Rattle.must_rules.specs.ArgumentHandles.{StartOf};

use must_call::{Class, Life};
use must_group::Group;

/// What the earlier calls of a rank made of its handles. Contracts see it as functions of handle numbers: `facts`, which say
/// what calls are clear, `sound`, which datatypes are sound, and `starts`, which call started an active request. None of the
/// calls takes memory.
pub trait View {
    ghost facts: { Self → Facts };

    ghost sound: { Self → ℕ → Bool };

    ghost starts: { Self → StartOf };

    /// What became of a handle number.
    fn life(&self, class: Class, number: u32) -> Life
        ensures { result ≡ (facts self.now).life class number };

    /// Whether a datatype is committed, or was when it was freed.
    fn committed(&self, number: u32) -> bool
        ensures { result ≡ (facts self.now).committed number };

    /// How many members a communicator has; none where it isn't live and sound.
    fn comm_size(&self, number: u32) -> Option<u32>
        ensures { result ≡ option_map size_of_comm ((facts self.now).comm number) };

    /// The position of this rank in a communicator; none where it isn't live and sound.
    fn own_rank(&self, number: u32) -> Option<u32>
        ensures { result ≡ option_map position_of ((facts self.now).comm number) };

    /// A group; none where it isn't live and sound.
    fn group(&self, number: u32) -> Option<&Group>
        ensures { option_map (λ g. g.now) result ≡ (facts self.now).group number };

    /// The members of a communicator; none where it isn't live and sound.
    fn comm_group(&self, number: u32) -> Option<&Group>
        ensures { option_map (λ g. g.now) result ≡ option_map members_of ((facts self.now).comm number) };

    /// Whether a datatype is sound.
    fn sound_type(&self, number: u32) -> bool
        ensures { result ≡ sound self.now number };

    /// The greatest tag.
    fn tag_ub(&self) -> i32
        ensures { result ≡ (facts self.now).tag_ub };

    /// The call that started an active request; none where the number isn't an active request.
    fn start_of(&self, number: u32) -> Option<u32>
        ensures { result ≡ starts self.now number };
}
