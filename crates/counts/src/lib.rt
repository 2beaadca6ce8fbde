// The counts of a configuration, one 32-bit number a state, lent as a slice: tests 20 and 21, occupied and unfit states,
// pairs of agents that could meet, rules that are enabled, fire, or are chosen. Where a contract speaks of the docket's
// protocol the states section is lent; only for unfit states it is read.
#![tactic(auto)]

ghost use Rattle.std.specs.Prelude.{◌≡◌, [], ◌≤◌, ◌<◌, length, get_or};
ghost use Rattle.theory.specs.Bool.{member};
ghost use Rattle.theory.specs.Protocol.{size, lose as loseOf, gain as gainOf, enabled as enabledOf, fire as fireOf, unfit};
ghost use Rattle.theory.specs.Pairs.{pairs_between, pairs as pairs_of};
ghost use Rattle.bits.specs.Code.{among_of};
ghost use Rattle.format.specs.Format.{protocol_of, layers_of};
ghost use Rattle.counts.specs.Code.{counts_test, chosen_of, partners_of, pair_enabled, is_occupied, Most};

use format::Sizes;
use refusals::{Fault, Refusal};

// The count of state s, 0 past the end.
pub fn count(counts: &[u32], s: usize) -> u32
    ensures { result ≡ get_or counts.now s 0 }
{
    counts.get(s).copied().unwrap_or(0)
}

// The sum of the counts. It cannot wrap.
fn total(counts: &[u32]) -> u64
    requires { length counts.now < 65536 }
    ensures { result ≡ size counts.now }
{
    counts.iter().map(|n| u64::from(*n)).sum()
}

// Tests 20 and 21.
pub fn counts_fault(counts: &[u32], z: Sizes) -> Result<(), Refusal>
    ensures { result ≡ counts_test z.states counts.now }
{
    Fault::Unlike.when(counts.len() != usize::from(z.states))?;
    let n = total(counts);
    Fault::Group.when(!(2..=1000000).contains(&n))
}

// How many agents in q an agent in p could meet: all, or, where p = q, all but itself. 0 where no agent is in p.
fn partners(counts: &[u32], p: usize, q: usize) -> u32
    ensures { result ≡ partners_of counts.now p q }
{
    let held = count(counts, p);
    if held < 1 {
        return 0;
    }
    if p == q {
        return held - 1;
    }
    count(counts, q)
}

// The number of pairs of agents, one in p and the other in q: each agent in p with each of its partners, and half of that where
// p = q, as each pair is then met twice. It cannot wrap.
fn pairs_between(counts: &[u32], p: usize, q: usize) -> u64
    ensures { result ≡ pairs_between counts.now p q }
{
    let met = u64::from(count(counts, p)) * u64::from(partners(counts, p, q));
    if p == q { met / 2 } else { met }
}

// Whether p and q each hold an agent, or, where p = q, at least two: whether the number of pairs is not 0 (`enabled-pairs` of theory).
// That is just where an agent in p has a partner, so a run, which asks it of many rules, makes no product.
fn pair_enabled(counts: &[u32], p: usize, q: usize) -> bool
    ensures { result ≡ pair_enabled counts.now p q }
{
    0 < partners(counts, p, q)
}

// The number of pairs of agents that could make the meeting of rule r.
pub fn pairs(states: &[u8], rules: &[u8], z: Sizes, counts: &[u32], r: u16) -> u64
    ensures { result ≡ pairs_of (protocol_of z states.now rules.now) counts.now r }
{
    let t = format::read_rule(rules, r);
    pairs_between(counts, t.p, t.q)
}

// Whether rule r is enabled: whether the number of pairs is not 0.
pub fn enabled(states: &[u8], rules: &[u8], z: Sizes, counts: &[u32], r: u16) -> bool
    ensures { result ≡ enabledOf (protocol_of z states.now rules.now) counts.now r }
{
    0 < pairs(states, rules, z, counts, r)
}

// One agent of state s less, where there is one.
fn lose(counts: &mut [u32], s: usize)
    ensures { counts.new ≡ loseOf counts.old s }
{
    // By its index: of a slice that `get_mut` lent, a proof knows the length alone.
    if s < counts.len() {
        counts[s] = counts[s].saturating_sub(1);
    }
}

// One agent of state s more.
fn gain(counts: &mut [u32], s: usize)
    requires { Most 1000001 counts.old }
    ensures { counts.new ≡ gainOf counts.old s }
{
    // By its index, as in `lose`.
    if s < counts.len() {
        counts[s] += 1;
    }
}

// One agent of p and one of q less.
fn take(counts: &mut [u32], p: usize, q: usize)
    ensures { counts.new ≡ loseOf (loseOf counts.old p) q }
{
    lose(counts, p);
    lose(counts, q);
}

// One agent of p and one of q more.
fn put(counts: &mut [u32], p: usize, q: usize)
    requires { Most 1000000 counts.old }
    ensures { counts.new ≡ gainOf (gainOf counts.old p) q }
{
    gain(counts, p);
    gain(counts, q);
}

// Rule r fires.
pub fn fire(states: &[u8], rules: &[u8], z: Sizes, counts: &mut [u32], r: u16)
    requires { size counts.old ≤ 1000000 }
    ensures { counts.new ≡ fireOf (protocol_of z states.now rules.now) counts.old r }
{
    let t = format::read_rule(rules, r);
    take(counts, t.p, t.q);
    put(counts, t.p2, t.q2);
}

// The rule that a run uses: the lowest enabled rule of the lowest layer that has one, where one is enabled.
pub fn choose(states: &[u8], rules: &[u8], z: Sizes, counts: &[u32]) -> Option<u16>
    ensures { result ≡ chosen_of (protocol_of z states.now rules.now) (layers_of z rules.now) counts.now }
{
    let mut best = None;
    let mut low = usize::from(z.layers) + 1;
    for r in 0..z.rules {
        let l = format::rule_layer(rules, r);
        if l < low {
            let t = format::read_rule(rules, r);
            if pair_enabled(counts, t.p, t.q) {
                best = Some(r);
                if l == 0 {
                    return best;
                }
                low = l;
            }
        }
    }
    best
}

// Whether the count of state s is against the start rule.
fn is_unfit(states: &[u8], z: Sizes, counts: &[u32], s: u16) -> bool
    ensures { result ≡ unfit (protocol_of z states.now []) counts.now s }
{
    let held = count(counts, usize::from(s));
    let fixed = u32::from(format::fixed_agents(states, z, s));
    if format::is_input(states, z, s) {
        return held < fixed;
    }
    held != fixed
}

// The states whose counts are against the start rule, as a word.
pub fn unfit_states(states: &[u8], z: Sizes, counts: &[u32]) -> u64
    ensures { member result ≡ among_of z.states (unfit (protocol_of z states.now []) counts.now) }
{
    bits::among(z.states, |s| is_unfit(states, z, counts, s))
}

// Whether state s holds an agent.
fn is_occupied(counts: &[u32], s: u16) -> bool
    ensures { result ≡ is_occupied counts.now s }
{
    0 < count(counts, usize::from(s))
}

// The states below n that hold an agent, as a word.
pub fn occupied(counts: &[u32], n: u16) -> u64
    ensures { member result ≡ among_of n (is_occupied counts.now) }
{
    bits::among(n, |s| is_occupied(counts, s))
}
