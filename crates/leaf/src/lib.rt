// The leaves of a docket: test 11, and whether a leaf closes, by the leaf rule or by the remainder rule. A weight is read with
// 10,000 added, so all numbers are unsigned. Every public function is total. rules_keep is lent the states section because its
// contract speaks of the protocol.
#![tactic(auto)]

ghost use Rattle.std.specs.Prelude.{◌≡◌, ◌+◌, ◌<◌};
ghost use Rattle.theory.specs.Below.Ends.{first_where};
ghost use Rattle.format.specs.Code.{Value};
ghost use Rattle.format.specs.Format.{protocol_of, end_weight, weights_of};
ghost use Rattle.facts.specs.Code.{facts_of};
ghost use Rattle.share.specs.Code.{closes_by, kept_by, KnownAt, ShareIs};
ghost use Rattle.leaf.specs.Leaf.{over_limit, bad_leaf};
ghost use Rattle.leaf.specs.Code.{RuleAt, keeps_in, all_from, fixed_at, share_of};

use facts::Facts;
use format::{Rule, Sizes};
use share::{Closing, Fixed, Known, Share};

// The first state at which leaf l has a weight outside -10,000 to 10,000 at end e + 1.
pub fn first_fault(leaves: &[u8], z: Sizes, l: u16, e: u16) -> Option<u16>
    ensures { result ≡ first_where z.states (over_limit z leaves.now l e) }
{
    (0..z.states).find(|&s| 20000 < format::leaf_weight(leaves, z.states, l, e, s))
}

// Whether leaf l has a weight outside -10,000 to 10,000.
fn leaf_bad(leaves: &[u8], z: Sizes, l: u16) -> bool
    ensures { result ≡ bad_leaf z leaves.now l }
{
    (0..2).any(|e| first_fault(leaves, z, l, e).is_some())
}

// Test 11: the first leaf with a weight outside -10,000 to 10,000.
pub fn leaf_fault(leaves: &[u8], z: Sizes) -> Option<u16>
    ensures { result ≡ first_where z.leaves (bad_leaf z leaves.now) }
{
    (0..z.leaves).find(|&l| leaf_bad(leaves, z, l))
}

// The weights of states p and q at end e + 1 together, plus 20,000.
fn pair_weight(leaves: &[u8], z: Sizes, l: u16, e: u16, p: usize, q: usize) -> u32
    requires { (p < 65536) × (q < 65536) }
    ensures { Value 131072 (end_weight z leaves.now l e p + end_weight z leaves.now l e q) result }
{
    let first = format::leaf_weight(leaves, z.states, l, e, p as u16);
    let second = format::leaf_weight(leaves, z.states, l, e, q as u16);
    first + second
}

// Rule r, whose fields are bytes.
fn rule_at(rules: &[u8], r: u16) -> Rule
    ensures { RuleAt rules.now r result }
{
    format::read_rule(rules, r)
}

// Whether rule r is unused, or keeps the weight of end e + 1: that of the after pair is at most that of the before pair; by
// remainders, the two are the same modulo m. unused has the unused ones of the 64 rules of its word.
fn rule_keeps(
    by: Closing,
    rules: &[u8],
    leaves: &[u8],
    z: Sizes,
    l: u16,
    e: u16,
    unused: u64,
    r: u16,
) -> bool
    ensures { result ≡ keeps_in by unused z rules.now leaves.now l e r }
{
    if bits::has(unused, (r as usize) % 64) {
        return true;
    }
    let rule = rule_at(rules, r);
    let before = pair_weight(leaves, z, l, e, rule.p, rule.q);
    let after = pair_weight(leaves, z, l, e, rule.p2, rule.q2);
    // Most rules leave the weight as it is. Without this test a check by remainders takes longer.
    before == after || share::relates(by, u64::from(after), u64::from(before))
}

// Whether every rule from r on and below n is unused or keeps the weight of end e + 1.
fn word_keeps(
    by: Closing,
    rules: &[u8],
    leaves: &[u8],
    z: Sizes,
    l: u16,
    e: u16,
    unused: u64,
    r: u16,
    n: u16,
) -> bool
    ensures { result ≡ all_from r n (keeps_in by unused z rules.now leaves.now l e) }
{
    (r..n).all(|k| rule_keeps(by, rules, leaves, z, l, e, unused, k))
}

// Whether every rule that is not unused in run e + 1 keeps the weight of end e + 1. The set of unused rules is read once for
// 64 rules.
pub fn rules_keep(
    by: Closing,
    facts: Facts,
    states: &[u8],
    rules: &[u8],
    leaves: &[u8],
    z: Sizes,
    l: u16,
    e: u16,
) -> bool
    ensures { result ≡ kept_by (protocol_of z states.now rules.now) by
        ((facts_of facts).unused (e + 1)) (end_weight z leaves.now l e) }
{
    let run = (e as usize) + 1;
    let set = facts.unused(run);
    for word in 0..z.rules.div_ceil(64) {
        let unused = bits::word(set, word as usize);
        let r = 64 * word;
        let n = r + (z.rules - r).min(64);
        if !word_keeps(by, rules, leaves, z, l, e, unused, r, n) {
            return false;
        }
    }
    true
}

// What the facts say of the states at the party.
pub fn known_at(facts: Facts, party: usize) -> Known
    ensures { KnownAt (facts_of facts) party result }
{
    let absent = facts.absent(party);
    let present = facts.present(party);
    Known {
        absent,
        present: bits::without(present, absent),
        at_most_one: facts.at_most_one(party),
    }
}

// The fixed agents of state s.
pub fn fixed_at(states: &[u8], z: Sizes, s: u16) -> Fixed
    ensures { result ≡ fixed_at z states.now s }
{
    let agents = format::fixed_agents(states, z, s);
    if 0 < agents {
        let input = format::is_input(states, z, s);
        return Fixed {
            agents,
            only: !input,
        };
    }
    Fixed {
        agents: 0,
        only: false,
    }
}

// The share of state s. It is nothing where both weights are 0.
fn share_at(
    by: Closing,
    start: Known,
    first: Known,
    second: Known,
    states: &[u8],
    leaves: &[u8],
    z: Sizes,
    l: u16,
    s: u16,
) -> Share
    ensures { ShareIs 68719476736 (share_of by z states.now leaves.now l start first second s) result }
{
    let y1 = format::leaf_weight(leaves, z.states, l, 0, s);
    let y2 = format::leaf_weight(leaves, z.states, l, 1, s);
    if (y1 == 10000) & (y2 == 10000) {
        return Share {
            allowed: true,
            gains: 0,
            losses: 0,
        };
    }
    let fixed = fixed_at(states, z, s);
    share::share_by(
        by, fixed, start, first, second, s as usize, y1 as u16, y2 as u16,
    )
}

// Whether leaf l closes on the facts: by sums, the leaf rule; by remainders, the remainder rule.
pub fn leaf_closes(
    by: Closing,
    facts: Facts,
    states: &[u8],
    rules: &[u8],
    leaves: &[u8],
    z: Sizes,
    l: u16,
) -> bool
    ensures { result ≡ closes_by (protocol_of z states.now rules.now) by
        (facts_of facts) (weights_of z leaves.now l) }
{
    if !rules_keep(by, facts, states, rules, leaves, z, l, 0) {
        return false;
    }
    if !rules_keep(by, facts, states, rules, leaves, z, l, 1) {
        return false;
    }
    let start = known_at(facts, 0);
    let first = known_at(facts, 1);
    let second = known_at(facts, 2);
    let mut gains: u64 = 0;
    let mut losses: u64 = 0;
    for s in 0..z.states {
        let one = share_at(by, start, first, second, states, leaves, z, l, s);
        if !one.allowed {
            return false;
        }
        gains += one.gains;
        losses += one.losses;
    }
    !share::relates(by, gains, losses)
}
