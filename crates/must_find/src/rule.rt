//! The rules: codes, texts and their order.

ghost use Rattle.std.specs.Prelude.{◌≡◌, ◌<◌, ◌↔◌, IfSome, find, slice_get};
ghost use Rattle.std.specs.Str.{bytes_eq};
ghost use Rattle.must_find.specs.Rules.{all_rules, code_of, text_of, rule_place};

/// A rule of the table in docs/RULES.md, by its code.
#[derive(Clone, Copy, Debug, PartialEq, Eq)]
pub enum Rule {
    I1,
    I2,
    I3,
    A1,
    A2,
    A3,
    A4,
    A5,
    A6,
    A7,
    H1,
    H2,
    H3,
    H4,
    H5,
    T1,
    T2,
    T3,
    S1,
    M1,
    M2,
    M3,
    M4,
    N1,
    C1,
    C2,
    C3,
    C4,
    C5,
    C6,
    C7,
    C8,
    W1,
    W2,
    L1,
    L2,
    L3,
    L4,
    L5,
    X1,
}

/// All rules, in the order of the table.
fn all() -> &'static [Rule]
    ensures { result.now ≡ all_rules }
{
    &[
        Rule::I1,
        Rule::I2,
        Rule::I3,
        Rule::A1,
        Rule::A2,
        Rule::A3,
        Rule::A4,
        Rule::A5,
        Rule::A6,
        Rule::A7,
        Rule::H1,
        Rule::H2,
        Rule::H3,
        Rule::H4,
        Rule::H5,
        Rule::T1,
        Rule::T2,
        Rule::T3,
        Rule::S1,
        Rule::M1,
        Rule::M2,
        Rule::M3,
        Rule::M4,
        Rule::N1,
        Rule::C1,
        Rule::C2,
        Rule::C3,
        Rule::C4,
        Rule::C5,
        Rule::C6,
        Rule::C7,
        Rule::C8,
        Rule::W1,
        Rule::W2,
        Rule::L1,
        Rule::L2,
        Rule::L3,
        Rule::L4,
        Rule::L5,
        Rule::X1,
    ]
}

fn rule_at(rules: &[Rule], n: usize) -> Option<Rule>
    ensures { result ≡ slice_get rules.now n }
{
    rules.get(n).copied()
}

impl Rule {
    /// The code, as reports and rules files spell it.
    pub fn code(self) -> &'static str
        ensures { result.now ≡ code_of self }
    {
        match self {
            Rule::I1 => "I1",
            Rule::I2 => "I2",
            Rule::I3 => "I3",
            Rule::A1 => "A1",
            Rule::A2 => "A2",
            Rule::A3 => "A3",
            Rule::A4 => "A4",
            Rule::A5 => "A5",
            Rule::A6 => "A6",
            Rule::A7 => "A7",
            Rule::H1 => "H1",
            Rule::H2 => "H2",
            Rule::H3 => "H3",
            Rule::H4 => "H4",
            Rule::H5 => "H5",
            Rule::T1 => "T1",
            Rule::T2 => "T2",
            Rule::T3 => "T3",
            Rule::S1 => "S1",
            Rule::M1 => "M1",
            Rule::M2 => "M2",
            Rule::M3 => "M3",
            Rule::M4 => "M4",
            Rule::N1 => "N1",
            Rule::C1 => "C1",
            Rule::C2 => "C2",
            Rule::C3 => "C3",
            Rule::C4 => "C4",
            Rule::C5 => "C5",
            Rule::C6 => "C6",
            Rule::C7 => "C7",
            Rule::C8 => "C8",
            Rule::W1 => "W1",
            Rule::W2 => "W2",
            Rule::L1 => "L1",
            Rule::L2 => "L2",
            Rule::L3 => "L3",
            Rule::L4 => "L4",
            Rule::L5 => "L5",
            Rule::X1 => "X1",
        }
    }

    /// What a report says of a finding of this rule.
    pub fn text(self) -> &'static str
        ensures { result.now ≡ text_of self }
    {
        match self {
            Rule::I1 => "call before Init or second Init",
            Rule::I2 => "call after Finalize",
            Rule::I3 => "no Finalize",
            Rule::A1 => "negative count",
            Rule::A2 => "peer out of range",
            Rule::A3 => "tag out of range",
            Rule::A4 => "root out of range",
            Rule::A5 => "block length or subarray invalid",
            Rule::A6 => "rank list invalid",
            Rule::A7 => "color invalid",
            Rule::H1 => "handle unknown",
            Rule::H2 => "handle used after free",
            Rule::H3 => "predefined object freed",
            Rule::H4 => "type not committed",
            Rule::H5 => "active request started",
            Rule::T1 => "receive type overlaps itself",
            Rule::T2 => "buffers of one call overlap",
            Rule::T3 => "buffer of a pending operation",
            Rule::S1 => "status contradicts arguments",
            Rule::M1 => "signature differs",
            Rule::M2 => "message too long",
            Rule::M3 => "send never received",
            Rule::M4 => "receive never matched",
            Rule::N1 => "open wildcard",
            Rule::C1 => "collective kinds differ",
            Rule::C2 => "roots differ",
            Rule::C3 => "operations differ",
            Rule::C4 => "collective amounts differ",
            Rule::C5 => "member missing",
            Rule::C6 => "operation not on this type",
            Rule::C7 => "members not the defined ones",
            Rule::C8 => "create groups disagree",
            Rule::W1 => "blocked in the deadlock core",
            Rule::W2 => "blocked outside the core",
            Rule::L1 => "type not freed",
            Rule::L2 => "communicator not freed",
            Rule::L3 => "group not freed",
            Rule::L4 => "operation not freed",
            Rule::L5 => "request open",
            Rule::X1 => "wildcard race",
        }
    }

    /// The place in the table of rules, from 0.
    pub fn place(self) -> u8
        ensures { result ≡ rule_place self }
    {
        match self {
            Rule::I1 => 0,
            Rule::I2 => 1,
            Rule::I3 => 2,
            Rule::A1 => 3,
            Rule::A2 => 4,
            Rule::A3 => 5,
            Rule::A4 => 6,
            Rule::A5 => 7,
            Rule::A6 => 8,
            Rule::A7 => 9,
            Rule::H1 => 10,
            Rule::H2 => 11,
            Rule::H3 => 12,
            Rule::H4 => 13,
            Rule::H5 => 14,
            Rule::T1 => 15,
            Rule::T2 => 16,
            Rule::T3 => 17,
            Rule::S1 => 18,
            Rule::M1 => 19,
            Rule::M2 => 20,
            Rule::M3 => 21,
            Rule::M4 => 22,
            Rule::N1 => 23,
            Rule::C1 => 24,
            Rule::C2 => 25,
            Rule::C3 => 26,
            Rule::C4 => 27,
            Rule::C5 => 28,
            Rule::C6 => 29,
            Rule::C7 => 30,
            Rule::C8 => 31,
            Rule::W1 => 32,
            Rule::W2 => 33,
            Rule::L1 => 34,
            Rule::L2 => 35,
            Rule::L3 => 36,
            Rule::L4 => 37,
            Rule::L5 => 38,
            Rule::X1 => 39,
        }
    }

    /// The rule with this code; none exactly where no rule has it.
    pub fn from_code(code: &str) -> Option<Rule>
        ensures { result ≡ find (λ rule. bytes_eq (code_of rule) code.now) all_rules }
    {
        all().iter().copied().find(|rule| rule.code() == code)
    }

    /// The rule with this place; none exactly where no rule has it.
    pub fn from_place(n: u8) -> Option<Rule>
        ensures { result ≡ slice_get all_rules n }
    {
        rule_at(all(), usize::from(n))
    }
}
