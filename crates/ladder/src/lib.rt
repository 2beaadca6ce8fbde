// The ladder of a docket: lowering (test 9), handover (test 10) and the sum of the spreads.
// Handover wants the rules of a sound shape; the others take any bytes and any sizes.
// The states are lent because the contracts speak of the docket's protocol; the tests do not read them.
#![tactic(auto)]

ghost use Rattle.std.specs.Prelude.{◌≡◌, not, ◌+◌, ◌<◌};
ghost use Rattle.theory.specs.Below.{sum_below};
ghost use Rattle.theory.specs.Below.Ends.{first_where};
ghost use Rattle.theory.specs.Ladder.{lowers_at, handover_at, spread};
ghost use Rattle.format.specs.Code.{Value};
ghost use Rattle.format.specs.Format.{layer_weight, protocol_of, layers_of};
ghost use Rattle.theory.specs.Bool.{member};
ghost use Rattle.shape.specs.Code.{SoundRules};
ghost use Rattle.ladder.specs.Code.{in_pair, beyond_of, pre_sequence_of, held_of, covers_of, single_in, states_in, SoundPair, fits_in, covered_in};

use format::{Rule, Sizes};

// The agents of a group of two to four, by their states.
#[derive(Clone, Copy)]
struct PreSequence {
    first: usize,
    second: usize,
    third: Option<usize>,
    fourth: Option<usize>,
}

// ---- Lowering

// The weight of the pair p, q in layer l, of n states. That of a leaf is another function, as it reads another section.
fn pair_weight(layers: &[u8], n: u16, l: u16, p: u16, q: u16) -> u64
    ensures { result ≡ layer_weight n layers.now l p + layer_weight n layers.now l q }
{
    u64::from(format::layer_weight(layers, n, l, p))
        + u64::from(format::layer_weight(layers, n, l, q))
}

// Whether rule r does not lower the weight of its layer.
fn lowering_fails(states: &[u8], rules: &[u8], layers: &[u8], z: Sizes, r: u16) -> bool
    ensures { let P = protocol_of z states.now rules.now in
        result ≡ not (lowers_at P (layers_of z rules.now) (layer_weight z.states layers.now) r) }
{
    let l = format::rule_layer(rules, r) as u16;
    let p = format::rule_p(rules, r) as u16;
    let q = format::rule_q(rules, r) as u16;
    let p2 = format::rule_p_after(rules, r) as u16;
    let q2 = format::rule_q_after(rules, r) as u16;
    let before = pair_weight(layers, z.states, l, p, q);
    let after = pair_weight(layers, z.states, l, p2, q2);
    !(after < before)
}

// Test 9: the lowest rule at which lowering fails.
pub fn lowering_fault(states: &[u8], rules: &[u8], layers: &[u8], z: Sizes) -> Option<u16>
    ensures { let P = protocol_of z states.now rules.now in
        let w = layer_weight z.states layers.now in
        result ≡ first_where z.rules (λ r. not (lowers_at P (layers_of z rules.now) w r)) }
{
    (0..z.rules).find(|&r| lowering_fails(states, rules, layers, z, r))
}

// ---- Handover

// How often the state x stands in the pair a, b.
fn in_pair(a: usize, b: usize, x: usize) -> usize
    ensures { Value 3 (in_pair a b x) result }
{
    usize::from(a == x) + usize::from(b == x)
}

// The state x, if it stands fewer than k times in the pair a, b.
fn beyond(a: usize, b: usize, x: usize, k: usize) -> Option<usize>
    ensures { result ≡ beyond_of a b x k }
{
    if in_pair(a, b, x) < k { Some(x) } else { None }
}

// The before pair of s, and what the before pair of u has beyond the after pair of s.
fn pre_sequence(s: Rule, u: Rule) -> PreSequence
    ensures { result ≡ pre_sequence_of s u }
{
    PreSequence {
        first: s.p,
        second: s.q,
        third: beyond(s.p2, s.q2, u.p, 1),
        fourth: beyond(s.p2, s.q2, u.q, in_pair(u.p, u.q, u.q)),
    }
}

// How many agents of state x j has.
fn held(j: PreSequence, x: usize) -> usize
    ensures { Value 5 (held_of j x) result }
{
    let third = usize::from(j.third == Some(x));
    let fourth = usize::from(j.fourth == Some(x));
    in_pair(j.first, j.second, x) + third + fourth
}

// Whether j has as many agents of state x as the pair p, q.
fn covers(j: PreSequence, p: usize, q: usize, x: usize) -> bool
    ensures { result ≡ covers_of j p q x }
{
    in_pair(p, q, x) <= held(j, x)
}

// The set with the state given, if one is, and no other.
fn single_if(a: Option<usize>) -> u64
    ensures { member result ≡ single_in a }
{
    match a {
        Some(x) => bits::single(x),
        None => 0,
    }
}

// The states of j as a set.
fn states_of(j: PreSequence) -> u64
    ensures { member result ≡ states_in j }
{
    let before = bits::union(bits::single(j.first), bits::single(j.second));
    let left = bits::union(single_if(j.third), single_if(j.fourth));
    bits::union(before, left)
}

// Whether rule v is of a layer below this one, with its before pair inside j. Most rules have a state outside the set of
// the states of j, which is quick to see; so its bytes are read one by one, and not all before the first test.
fn rule_fits(rules: &[u8], layer: usize, j: PreSequence, set: u64, v: u16) -> bool
    requires sound_pair { SoundPair rules.now v }
    requires set_value { member set ≡ states_in j }
    ensures { result ≡ fits_in rules.now layer j v }
{
    let at = 5 * usize::from(v);
    let other = usize::from(rules[at + 4]);
    if layer <= other {
        return false;
    }
    let p = usize::from(rules[at]);
    if !bits::has_below(set, p) {
        return false;
    }
    let q = usize::from(rules[at + 1]);
    if !bits::has_below(set, q) {
        return false;
    }
    covers(j, p, q, p) && covers(j, p, q, q)
}

// Test 10: the lowest rule s at which handover fails. For each rule u of a layer below that of s the inner search goes to the
// first rule that fits, and a label leaves it there, or the whole test where none does. Below layer 0 there is no rule to
// ask about. It is not put into its caller: there the loops keep fewer numbers in registers, and take 1.6 times as long.
#[inline(never)]
pub fn handover_fault(states: &[u8], rules: &[u8], z: Sizes) -> Option<u16>
    requires { SoundRules z rules.now }
    ensures { let P = protocol_of z states.now rules.now in
        result ≡ first_where z.rules (λ s. not (handover_at P (layers_of z rules.now) s)) }
{
    let mut fault = None;
    'test: for s in 0..z.rules {
        let rule = format::read_rule(rules, s);
        let layer = rule.layer;
        if rule.layer == 0 {
            continue 'test;
        }
        'search: for u in 0..z.rules {
            let other = format::read_rule(rules, u);
            if other.layer < layer {
                let j = pre_sequence(rule, other);
                let set = states_of(j);
                for v in 0..z.rules {
                    if rule_fits(rules, layer, j, set, v) {
                        continue 'search;
                    }
                }
                fault = Some(s);
                break 'test;
            }
        }
    }
    fault
}

// ---- Spreads

// The greatest weight of layer l less its least.
fn layer_spread(layers: &[u8], z: Sizes, l: u16) -> u32
    ensures { result ≡ spread z.states (layer_weight z.states layers.now l) }
{
    let mut low = format::layer_weight(layers, z.states, l, 0);
    let mut high = low;
    for s in 0..z.states {
        let w = format::layer_weight(layers, z.states, l, s);
        low = low.min(w);
        high = high.max(w);
    }
    high - low
}

// The sum of the spreads of all layers.
pub fn spread_sum(layers: &[u8], z: Sizes) -> u64
    ensures { result ≡ sum_below z.layers (λ l. spread z.states (layer_weight z.states layers.now l)) }
{
    (0..z.layers)
        .map(|l| u64::from(layer_spread(layers, z, l)))
        .sum()
}
