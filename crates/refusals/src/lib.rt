// Refusals: which test refuses, and at which place. Every call of the project answers `Ok`, or such a refusal.
#![tactic(auto)]

ghost use Rattle.std.specs.Prelude.{◌≡◌, ◌+◌, ◌<◌};
ghost use Rattle.refusals.specs.Refusal.{refusal};
ghost use Rattle.refusals.specs.Code.{number_of, refused_at, refused_if};

use std::fmt;

// What is wrong. The document has a number for each.
#[derive(Clone, Copy, Debug, PartialEq, Eq)]
pub enum Fault {
    // 1: the length of the docket.
    Length,
    // 2: the version.
    Version,
    // 3: the counts of states, rules, layers, nodes and leaves.
    Counts,
    // 4: where the sections begin.
    Offsets,
    // 5: a state, or that there is no input.
    State,
    // 6: a rule.
    Rule,
    // 7: a rule that is there already.
    Repeat,
    // 8: a layer.
    Layer,
    // 9: a rule that does not lower its layer.
    Lowering,
    // 10: a rule at which handover fails.
    Handover,
    // 11: a leaf with a weight outside its limits.
    Leaf,
    // 12: a node with wrong fields.
    Fields,
    // 13: a node without its ground.
    Ground,
    // 14: a rule that does not come after the one before it.
    Order,
    // 15: a claim sheet that breaks a rule of its bytes.
    Sheet,
    // 20: counts that are not one for each state.
    Unlike,
    // 21: a group of fewer than 2 workers or more than a million.
    Group,
    // 22: a count against the start rule.
    Start,
    // 23: a number that names no rule.
    NoRule,
    // 24: a rule that is not enabled.
    Disabled,
    // 30: an output that is too short.
    Room,
    // 31: a section that is no whole number of records.
    Records,
    // 32: counts that are no whole number of groups, or none.
    Groups,
    // 33: results that are not two for each group.
    Results,
    // 34: more than eight inputs, or an n outside 2 to 12.
    Totals,
}

// A refusal: the number of its fault, and its place. It is no `Fault` with a place, as `codes::check_refusal` and
// `codes::call_refusal` take any number.
#[derive(Clone, Copy, Debug)]
pub struct Refusal {
    pub number: u32,
    pub place: u32,
}

impl Fault {
    // The number that the document has for it.
    pub fn number(self) -> u32
        ensures { result ≡ number_of self }
    {
        match self {
            Fault::Length => 1,
            Fault::Version => 2,
            Fault::Counts => 3,
            Fault::Offsets => 4,
            Fault::State => 5,
            Fault::Rule => 6,
            Fault::Repeat => 7,
            Fault::Layer => 8,
            Fault::Lowering => 9,
            Fault::Handover => 10,
            Fault::Leaf => 11,
            Fault::Fields => 12,
            Fault::Ground => 13,
            Fault::Order => 14,
            Fault::Sheet => 15,
            Fault::Unlike => 20,
            Fault::Group => 21,
            Fault::Start => 22,
            Fault::NoRule => 23,
            Fault::Disabled => 24,
            Fault::Room => 30,
            Fault::Records => 31,
            Fault::Groups => 32,
            Fault::Results => 33,
            Fault::Totals => 34,
        }
    }

    // The refusal at this place.
    pub fn refuse(self, place: u32) -> Refusal
        ensures { result ≡ refusal (number_of self) place }
    {
        Refusal {
            number: self.number(),
            place,
        }
    }

    // Refuses at the place that a test found, where it found one.
    pub fn at(self, place: Option<u16>) -> Result<(), Refusal>
        ensures { result ≡ refused_at (number_of self) place }
    {
        match place {
            Some(k) => Err(self.refuse(u32::from(k))),
            None => Ok(()),
        }
    }

    // Refuses where the test found that it is so.
    pub fn when(self, bad: bool) -> Result<(), Refusal>
        ensures { result ≡ refused_if (number_of self) bad }
    {
        if bad { Err(self.refuse(0)) } else { Ok(()) }
    }
}

impl Refusal {
    // The number of its fault.
    pub fn number(self) -> u32
        ensures { result ≡ self.number }
    {
        self.number
    }

    // Its place.
    pub fn place(self) -> u32
        ensures { result ≡ self.place }
    {
        self.place
    }

    // The same fault, n places further on.
    pub fn later(self, n: u16) -> Refusal
        requires { self.place < 65536 }
        ensures { result ≡ refusal self.number (n + self.place) }
    {
        Refusal {
            number: self.number,
            place: u32::from(n) + self.place,
        }
    }
}

// The number and the place, as the programs print them.
impl fmt::Display for Refusal {
    ghost use Rattle.std.specs.Prelude.{Some};
    ghost use Rattle.refusals.specs.Code.{refusal_text};

    ghost output = { λ r. Some (refusal_text r) };

    fn fmt<W: fmt::Write>(&self, f: &mut fmt::Formatter<W>) -> fmt::Result {
        write!(f, "refused {} {}", self.number, self.place)
    }
}
