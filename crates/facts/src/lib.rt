// The facts that a tree of arguments gathers, as sets in words of 64 bits. Every public function is total: a party or a run
// outside its limits has no facts, and none can be marked there. No word is taken by an index that is computed, so that
// the facts need not lie in memory: a loop over two or three words is unrolled, while `words[party - first]` took 16 % more
// instructions in the walk of a tree.
#![tactic(auto)]

ghost use Rattle.std.specs.Prelude.{◌≡◌, ◌≤◌, ltb};
ghost use Rattle.theory.specs.Bool.{member};
ghost use Rattle.theory.specs.Facts.{extend, with_absent, with_present, with_at_most_one, with_unused};
ghost use Rattle.bits.specs.Code.{in_words};
ghost use Rattle.facts.specs.Code.{word_of, sets_of, has_word, facts_of, fresh_of, joined_if, only_if, is_end};

// Party 0 is the start, 1 and 2 are the runs with their ends. The sets of states have a word a party, those that hold at
// most one agent a word an end, and the sets of unused rules four words a run, member i of word q being rule 64 q + i: for
// each q those of both runs. One array of parties would give the start two sets that it has not. These are 128 bytes, which
// are copied without a call.
#[derive(Clone, Copy)]
pub struct Facts {
    absent: [u64; 3],
    present: [u64; 3],
    at_most_one: [u64; 2],
    unused: [[u64; 2]; 4],
}

// Of words for the parties from this first one on, that of a party; 0 where it has none.
fn word_of<const N: usize>(words: [u64; N], first: usize, party: usize) -> u64
    requires { first ≤ 1 }
    ensures { result ≡ word_of first words.entry party }
{
    for i in 0..N {
        if first + i == party {
            return words[i];
        }
    }
    0
}

// The members of a, and those of b where the test passed.
fn union_if(a: u64, t: bool, b: u64) -> u64
    ensures { member result ≡ joined_if t (member a) (member b) }
{
    if t { bits::union(a, b) } else { a }
}

// The same words, and in that of this party, if it has one, the members of the set too.
fn mark<const N: usize>(mut words: [u64; N], first: usize, party: usize, set: u64) -> [u64; N]
    requires { first ≤ 1 }
    ensures { sets_of first result ≡ extend (sets_of first words.entry) party (only_if (has_word first N party) (member set)) }
{
    for i in 0..N {
        words[i] = union_if(words[i], first + i == party, set);
    }
    words
}

// Document 01 has the limits of depth and counts here, as constants of the type.
impl Facts {
    // The greatest depth of a tree.
    pub const DEPTH: u16 = 40;

    // The greatest numbers of states, rules, layers, nodes and leaves.
    pub const STATES: u16 = 64;

    pub const RULES: u16 = 256;

    pub const LAYERS: u16 = 16;

    pub const NODES: u16 = 2048;

    pub const LEAVES: u16 = 128;

    // The greatest number of fixed agents of a state.
    pub const FIXED: u16 = 1000;

    // Of n states those with fixed agents are present at the start, and the others that are no inputs are absent.
    pub fn fresh(inputs: u64, fixed: u64, n: u16) -> Facts
        ensures { facts_of result ≡ fresh_of n (member inputs) (member fixed) }
    {
        let states = bits::full(n as usize);
        let others = bits::without(states, inputs);
        Facts {
            absent: [bits::without(others, fixed), 0, 0],
            present: [fixed, 0, 0],
            at_most_one: [0; 2],
            unused: [[0; 2]; 4],
        }
    }

    // Each sort of facts has a mark and a reading of its own, which other crates call, and which their contracts name apart.

    // The states of the set are absent at the party.
    pub fn mark_absent(mut self, party: usize, set: u64) -> Facts
        ensures { facts_of result ≡ with_absent (facts_of self) party (only_if (ltb party 3) (member set)) }
    {
        self.absent = mark(self.absent, 0, party, set);
        self
    }

    // The states of the set are present at the party.
    pub fn mark_present(mut self, party: usize, set: u64) -> Facts
        ensures { facts_of result ≡ with_present (facts_of self) party (only_if (ltb party 3) (member set)) }
    {
        self.present = mark(self.present, 0, party, set);
        self
    }

    // Each state of the set holds at most one agent at the party, which is an end.
    pub fn mark_at_most_one(mut self, party: usize, set: u64) -> Facts
        ensures { facts_of result ≡ with_at_most_one (facts_of self) party (only_if (is_end party) (member set)) }
    {
        self.at_most_one = mark(self.at_most_one, 1, party, set);
        self
    }

    // The rules of the set are unused in the run.
    pub fn mark_unused(mut self, run: usize, set: [u64; 4]) -> Facts
        ensures { facts_of result ≡ with_unused (facts_of self) run (only_if (is_end run) (in_words set)) }
    {
        let [a, b, c, d] = self.unused;
        self.unused = [
            mark(a, 1, run, set[0]),
            mark(b, 1, run, set[1]),
            mark(c, 1, run, set[2]),
            mark(d, 1, run, set[3]),
        ];
        self
    }

    // The states that are absent at the party.
    pub fn absent(self, party: usize) -> u64
        ensures { member result ≡ (facts_of self).absent party }
    {
        word_of(self.absent, 0, party)
    }

    // The states that are present at the party.
    pub fn present(self, party: usize) -> u64
        ensures { member result ≡ (facts_of self).present party }
    {
        word_of(self.present, 0, party)
    }

    // The states that hold at most one agent at the party.
    pub fn at_most_one(self, party: usize) -> u64
        ensures { member result ≡ (facts_of self).at_most_one party }
    {
        word_of(self.at_most_one, 1, party)
    }

    // The rules that are unused in the run.
    pub fn unused(self, run: usize) -> [u64; 4]
        ensures { in_words result ≡ (facts_of self).unused run }
    {
        [
            word_of(self.unused[0], 1, run),
            word_of(self.unused[1], 1, run),
            word_of(self.unused[2], 1, run),
            word_of(self.unused[3], 1, run),
        ]
    }
}
