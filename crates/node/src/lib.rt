// What a tree refutes, and what one node of it comes to: its fields, its ground and the facts of its children. A set of
// states is a word of 64 bits. A function is lent the states section where its contract speaks of the protocol.
#![tactic(auto)]

ghost use Rattle.std.specs.Prelude.{◌≡◌, true, ◌&&◌, ◌||◌, [], ◌∷◌, ◌^◌, ◌≤◌, ◌<◌, eqb, ltb};
ghost use Rattle.theory.specs.Bool.{member};
ghost use Rattle.theory.specs.Facts.{with_absent, with_present};
ghost use Rattle.theory.specs.Tree.{touches};
ghost use Rattle.format.specs.Format.{rule_p, rule_q, protocol_of};
ghost use Rattle.bits.specs.Code.{in_words};
ghost use Rattle.shape.specs.Code.{SoundRules};
ghost use Rattle.facts.specs.Code.{facts_of};
ghost use Rattle.threshold.specs.Code.{closes_for, closes_modulo_for};
ghost use Rattle.node.specs.Code.{assumed_word, AimFits, node_of, FlowAt, breaking_of, is_trap_of};
ghost use Rattle.node.specs.Code.{kind_of, tested, judged, turn_at, turn_of_step};
ghost use Rattle.node.specs.Code.{leaf_fields, run_fields, state_fields, rule_fields, set_fields, remainder_fields};
ghost use Rattle.node.specs.Code.{output_gone, NamesRule, disabled_children, NamesSet, party_if, gone_of, set_ground, set_child};

use facts::Facts;
use format::Sizes;
use refusals::Fault;
use threshold::Leaves;

// What a tree refutes: so many runs, each of which ends with a state of the output assumed for it; the states of output 0 and of
// output 1; and whose leaves the tree has.
#[derive(Clone, Copy)]
pub struct Aim {
    pub runs: usize,
    pub first: bool,
    pub second: bool,
    pub zeros: u64,
    pub ones: u64,
    pub whose: Leaves,
}

// The kind of a node; document 01 has the table of kinds 0 to 6, document 02 has kind 7.
#[derive(Clone, Copy, Debug, PartialEq, Eq)]
pub enum Kind {
    // 0: the leaf rule.
    Leaf,
    // 1: no state of the output assumed for an end is left.
    Output,
    // 2: a state is both present and absent.
    Contradiction,
    // 3: a rule is not enabled.
    Disabled,
    // 4: a state is absent, or present.
    Split,
    // 5: a trap.
    Trap,
    // 6: a siphon.
    Siphon,
    // 7: the remainder rule.
    Remainder,
}

// A byte that is no kind is a bad field.
impl TryFrom<u8> for Kind {
    type Error = Fault;

    ghost try_from_gives = { λ byte r. r ≡ kind_of byte };

    fn try_from(byte: u8) -> Result<Self, Fault> {
        match byte {
            0 => Ok(Kind::Leaf),
            1 => Ok(Kind::Output),
            2 => Ok(Kind::Contradiction),
            3 => Ok(Kind::Disabled),
            4 => Ok(Kind::Split),
            5 => Ok(Kind::Trap),
            6 => Ok(Kind::Siphon),
            7 => Ok(Kind::Remainder),
            8..=255 => Err(Fault::Fields),
        }
    }
}

// The fields of a node. (The party is a number, as the facts number parties: the kinds compare it with the number of runs.)
#[derive(Clone, Copy)]
pub struct Node {
    pub kind: Kind,
    pub party: usize,
    pub argument: u16,
    pub set: u64,
}

// The children of a node that is not refused, each with its facts.
#[derive(Clone, Copy)]
pub enum Children {
    None,
    One(Facts),
    Two(Facts, Facts),
}

// Of the 64 rules from 64 word on, those that take from a set and those that put into it: member i is rule 64 word + i.
#[derive(Clone, Copy)]
struct Flow {
    taking: u64,
    putting: u64,
}

// Whether a set is a trap, or a siphon, and the rules that touch it, in four words.
#[derive(Clone, Copy)]
struct SetTested {
    trap: bool,
    touching: [u64; 4],
}

// The fields of node i.
fn node_at(nodes: &[u8], i: u16) -> Result<Node, Fault>
    ensures { result ≡ node_of nodes.now i }
{
    let kind = Kind::try_from(format::node_kind(nodes, i) as u8)?;
    let party = format::node_party(nodes, i);
    let argument = format::node_argument(nodes, i);
    let set = format::node_set(nodes, i);
    Ok(Node {
        kind,
        party,
        argument,
        set,
    })
}

// Refuses bad fields, then a ground that does not hold.
fn judge(fields: bool, ground: bool) -> Result<(), Fault>
    ensures { result ≡ tested fields ground }
{
    if !fields {
        return Err(Fault::Fields);
    }
    if !ground {
        return Err(Fault::Ground);
    }
    Ok(())
}

// Kind 0: the leaf rule.
fn leaf_step(
    states: &[u8],
    rules: &[u8],
    numbers: &[u8],
    leaves: &[u8],
    z: Sizes,
    whose: Leaves,
    n: Node,
    facts: Facts,
) -> Result<Children, Fault>
    requires { z.states ≤ 64 }
    ensures { turn_of_step result ≡ judged (leaf_fields z n) (closes_for (protocol_of z states.now rules.now) z
        numbers.now leaves.now whose (facts_of facts) n.argument) [] }
{
    let fields = (n.party == 0) & (n.argument < z.leaves) & (n.set == 0);
    let closes = threshold::leaf_holds(whose, facts, states, rules, numbers, leaves, z, n.argument);
    judge(fields, closes)?;
    Ok(Children::None)
}

// The states of the output that the aim assumes for an end.
fn assumed_word(aim: Aim, party: usize) -> u64
    ensures { result ≡ assumed_word aim party }
{
    let second = party == 2;
    let output = if second { aim.second } else { aim.first };
    if output { aim.ones } else { aim.zeros }
}

// Kind 1: all states of the output assumed for an end are absent there.
fn output_step(states: &[u8], z: Sizes, aim: Aim, n: Node, facts: Facts) -> Result<Children, Fault>
    requires states_bound { z.states ≤ 64 }
    requires aim_fits { AimFits z states.now aim }
    ensures { turn_of_step result ≡ judged (run_fields aim.runs n)
        (output_gone z states.now aim (facts_of facts) n.party) [] }
{
    let fields = (1 <= n.party) & (n.party <= aim.runs) & (n.argument == 0) & (n.set == 0);
    let ground = bits::subset(assumed_word(aim, n.party), facts.absent(n.party));
    judge(fields, ground)?;
    Ok(Children::None)
}

// Kinds 2 and 4: whether the fields are good; then they name a party and a state. (Kinds 0, 1, 3, 5 and 7 bound other fields by
// other numbers, so their tests are their own.)
fn names_state(z: Sizes, runs: usize, n: Node) -> bool
    ensures { result ≡ state_fields z runs n }
{
    (n.party <= runs) & (n.argument < z.states) & (n.set == 0)
}

// Kind 2: a state is both present and absent.
fn contradiction_step(z: Sizes, runs: usize, n: Node, facts: Facts) -> Result<Children, Fault>
    ensures { turn_of_step result ≡ judged (state_fields z runs n)
        ((facts_of facts).present n.party n.argument && (facts_of facts).absent n.party n.argument) [] }
{
    let fields = names_state(z, runs, n);
    let state = usize::from(n.argument);
    let present = bits::has(facts.present(n.party), state);
    let absent = bits::has(facts.absent(n.party), state);
    judge(fields, present & absent)?;
    Ok(Children::None)
}

// Kind 3: whether the fields are good; then they name a run, and a rule whose before pair is below 64.
fn names_rule(rules: &[u8], z: Sizes, runs: usize, n: Node) -> bool
    requires sound_rules { SoundRules z rules.now }
    requires runs_bound { runs ≤ 2 }
    ensures { NamesRule z rules.now runs n result }
{
    (1 <= n.party) & (n.party <= runs) & (n.argument < z.rules) & (n.set == 0)
}

// Kind 3: a rule is not enabled at an end. So one of its states is absent there, or, where it meets its own kind, there
// is at most one.
fn disabled_step(
    rules: &[u8],
    z: Sizes,
    runs: usize,
    n: Node,
    facts: Facts,
) -> Result<Children, Fault>
    requires sound_rules { SoundRules z rules.now }
    requires runs_bound { runs ≤ 2 }
    ensures { turn_of_step result ≡ judged (rule_fields z runs n) true (disabled_children (facts_of facts) n.party
        (rule_p rules.now n.argument) (rule_q rules.now n.argument)) }
{
    judge(names_rule(rules, z, runs, n), true)?;
    let p = format::rule_p(rules, n.argument);
    let q = format::rule_q(rules, n.argument);
    let same = p == q;
    if same {
        let one = facts.mark_at_most_one(n.party, bits::single(p));
        return Ok(Children::One(one));
    }
    let first = facts.mark_absent(n.party, bits::single(p));
    let second = facts.mark_absent(n.party, bits::single(q));
    Ok(Children::Two(first, second))
}

// Kind 4: a state is absent, or it is present.
fn split_step(z: Sizes, runs: usize, n: Node, facts: Facts) -> Result<Children, Fault>
    requires states_bound { z.states ≤ 64 }
    requires runs_bound { runs ≤ 2 }
    ensures { turn_of_step result ≡ judged (state_fields z runs n) true
        (with_absent (facts_of facts) n.party (eqb n.argument) ∷ with_present (facts_of facts) n.party (eqb n.argument) ∷ []) }
{
    judge(names_state(z, runs, n), true)?;
    let state = bits::single(usize::from(n.argument));
    let first = facts.mark_absent(n.party, state);
    let second = facts.mark_present(n.party, state);
    Ok(Children::Two(first, second))
}

// Whether one of two states, which are below 64, is in the set.
fn meets(set: u64, a: u8, b: u8) -> bool
    requires a_bound { a < 64 }
    requires b_bound { b < 64 }
    ensures { result ≡ (member set a || member set b) }
{
    bits::has_below(set, a as usize) | bits::has_below(set, b as usize)
}

// The rules from 64 word on that take from the set and those that put into it.
fn word_flow(states: &[u8], rules: &[u8], z: Sizes, set: u64, word: u16) -> Flow
    requires sound_rules { SoundRules z rules.now }
    requires word_bound { word < 4 }
    ensures { FlowAt (protocol_of z states.now rules.now) (member set) word result }
{
    let mut taking: u64 = 0;
    let mut putting: u64 = 0;
    let first = 64 * word;
    for i in 0..z.rules.saturating_sub(first).min(64) {
        let at = 5 * usize::from(first + i);
        let takes = meets(set, rules[at], rules[at + 1]);
        let puts = meets(set, rules[at + 2], rules[at + 3]);
        taking = bits::with_if(taking, takes, usize::from(i));
        putting = bits::with_if(putting, puts, usize::from(i));
    }
    Flow { taking, putting }
}

// The rules that take from the set and put nothing into it; with reversed, those that put into it and take nothing from
// it.
fn breaking(f: Flow, reversed: bool) -> u64
    ensures { member result ≡ breaking_of reversed f }
{
    if reversed {
        bits::without(f.putting, f.taking)
    } else {
        bits::without(f.taking, f.putting)
    }
}

// Whether the set is a trap of the rules that are not unused in the run; with reversed, of the reversed rules: a siphon. And
// the rules that touch it. A set of rules is in four words.
fn test_set(
    states: &[u8],
    rules: &[u8],
    z: Sizes,
    facts: Facts,
    run: usize,
    set: u64,
    reversed: bool,
) -> SetTested
    requires { SoundRules z rules.now }
    ensures trap { result.trap ≡ is_trap_of reversed (protocol_of z states.now rules.now)
        ((facts_of facts).unused run) (member set) }
    ensures touching { in_words result.touching ≡ touches (protocol_of z states.now rules.now) (member set) }
{
    let unused = facts.unused(run);
    let mut trap = true;
    let mut touching: [u64; 4] = [0; 4];
    for word in 0..z.rules.div_ceil(64) {
        let q = usize::from(word);
        let f = word_flow(states, rules, z, set, word);
        trap = trap & bits::subset(breaking(f, reversed), bits::word(unused, q));
        touching[q] = bits::union(f.taking, f.putting);
    }
    SetTested { trap, touching }
}

// Whether a word is a non-empty set of states.
fn is_set(z: Sizes, set: u64) -> bool
    ensures { result ≡ (ltb 0 set && ltb set (2 ^ z.states)) }
{
    let within = bits::subset(set, bits::full(z.states as usize));
    (0 < set) & within
}

// Kinds 5 and 6: whether the fields are good; then they name a run and a set of states.
fn names_set(z: Sizes, runs: usize, n: Node) -> bool
    requires states_bound { z.states ≤ 64 }
    requires runs_bound { runs ≤ 2 }
    ensures { NamesSet z runs n result }
{
    (1 <= n.party) & (n.party <= runs) & (n.argument == 0) & is_set(z, n.set)
}

// The party where the test passed, otherwise the start.
fn party_if(t: bool, party: usize) -> usize
    ensures { result ≡ party_if t party }
{
    if t { party } else { 0 }
}

// The facts, and that the set is absent at the party and the rules that touch it are unused in the run.
fn mark_gone(facts: Facts, party: usize, set: u64, run: usize, t: SetTested) -> Facts
    ensures { facts_of result ≡ gone_of (facts_of facts) party set run t.touching }
{
    let touching = t.touching;
    let gone = facts.mark_absent(party, set);
    gone.mark_unused(run, touching)
}

// Kinds 5 and 6: a trap that is absent at its end was absent at the start; with reversed, a siphon that is absent at the
// start is absent at its end. The rules that touch it are unused. (A flag and no closure: it turns three places, whose facts
// are asked, which rules break the set and whose facts grow.)
fn set_step(
    states: &[u8],
    rules: &[u8],
    z: Sizes,
    runs: usize,
    n: Node,
    facts: Facts,
    reversed: bool,
) -> Result<Children, Fault>
    requires sound_rules { SoundRules z rules.now }
    requires runs_bound { runs ≤ 2 }
    ensures { turn_of_step result ≡ judged (set_fields z runs n)
        (set_ground reversed (protocol_of z states.now rules.now) (facts_of facts) n)
        (set_child reversed (protocol_of z states.now rules.now) (facts_of facts) n ∷ []) }
{
    let fields = names_set(z, runs, n);
    let from = party_if(!reversed, n.party);
    let absent = bits::subset(n.set, facts.absent(from));
    let t = test_set(states, rules, z, facts, n.party, n.set, reversed);
    judge(fields, absent & t.trap)?;
    let to = party_if(reversed, n.party);
    Ok(Children::One(mark_gone(facts, to, n.set, n.party, t)))
}

// Kind 7: the remainder rule; the set field is the modulus. (Not one function with the leaf rule: another test of the fields,
// another rule, and no numbers.)
fn remainder_step(
    states: &[u8],
    rules: &[u8],
    leaves: &[u8],
    z: Sizes,
    whose: Leaves,
    n: Node,
    facts: Facts,
) -> Result<Children, Fault>
    ensures { turn_of_step result ≡ judged (remainder_fields z whose n) (closes_modulo_for (protocol_of z states.now
        rules.now) z leaves.now whose n.set (facts_of facts) n.argument) [] }
{
    let modulus = threshold::is_modulus(whose, n.set);
    let fields = (n.party == 0) & (n.argument < z.leaves) & modulus;
    let closes = threshold::remainder_holds(
        whose, n.set, facts, states, rules, leaves, z, n.argument,
    );
    judge(fields, closes)?;
    Ok(Children::None)
}

// Node i on the facts, by its kind. The numbers are those of a claim sheet; a docket has none.
pub fn node_step(
    states: &[u8],
    rules: &[u8],
    nodes: &[u8],
    numbers: &[u8],
    leaves: &[u8],
    z: Sizes,
    aim: Aim,
    facts: Facts,
    i: u16,
) -> Result<Children, Fault>
    requires sound_rules { SoundRules z rules.now }
    requires aim_fits { AimFits z states.now aim }
    ensures { turn_of_step result ≡ turn_at z states.now rules.now nodes.now numbers.now
        leaves.now aim (facts_of facts) i }
{
    let n = node_at(nodes, i)?;
    let whose = aim.whose;
    let reversed = n.kind == Kind::Siphon;
    match n.kind {
        Kind::Leaf => leaf_step(states, rules, numbers, leaves, z, whose, n, facts),
        Kind::Output => output_step(states, z, aim, n, facts),
        Kind::Contradiction => contradiction_step(z, aim.runs, n, facts),
        Kind::Disabled => disabled_step(rules, z, aim.runs, n, facts),
        Kind::Split => split_step(z, aim.runs, n, facts),
        Kind::Trap | Kind::Siphon => set_step(states, rules, z, aim.runs, n, facts, reversed),
        Kind::Remainder => remainder_step(states, rules, leaves, z, whose, n, facts),
    }
}
