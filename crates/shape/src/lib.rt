// Tests 1 to 8 of a docket, with 14 among them, which every call makes first. Any bytes may be given.
// The limits are constants of the type Facts, as document 01's forms ask of depth and counts.
#![tactic(auto)]

ghost use Rattle.std.specs.Prelude.{◌≡◌, not, ◌||◌, ◌&&◌, ◌+◌, eqb, ltb, length, IfOk};
ghost use Rattle.theory.specs.Bool.{member};
ghost use Rattle.theory.specs.Below.{any_below};
ghost use Rattle.theory.specs.Below.Ends.{first_where};
ghost use Rattle.format.specs.Code.{Value};
ghost use Rattle.shape.specs.Shape.{wrong_version, count_faults, offset_faults, nth, bad_record, bad_state, bad_rule, repeats, out_of_order};
ghost use Rattle.shape.specs.Shape.{in_layer, too_large, bad_layer, header_shape, shape_of};
ghost use Rattle.shape.specs.Code.{alike, again, mark_of, used_below, tested_of, header_in, refusal_of};

mod sound;

use facts::Facts;
use format::{Header, Rule, Sizes};
use refusals::{Fault, Refusal};
pub use sound::Docket;

// Test 2: the version is neither 1 nor 2.
pub fn version_fault(v: u32) -> bool
    ensures { result ≡ wrong_version v }
{
    !((v == 1) | (v == 2))
}

// Test 3: the first count outside its limits.
pub fn count_fault(z: Sizes) -> Option<u16>
    ensures { result ≡ first_where 5 (nth (count_faults z)) }
{
    let outside = [
        (z.states < 2) | (Facts::STATES < z.states),
        Facts::RULES < z.rules,
        (Facts::LAYERS < z.layers)
            | (z.layers != 0) & (z.rules == 0)
            | (z.layers == 0) & (z.rules != 0),
        (z.nodes < 1) | (Facts::NODES < z.nodes),
        Facts::LEAVES < z.leaves,
    ];
    (0..5).find(|&k| outside[usize::from(k)])
}

// Whether an offset is not where a section of this length, beginning at start, ends.
fn misplaced(at: u16, start: u16, len: usize) -> bool
    ensures { result ≡ not (eqb at (start + len)) }
{
    if at < start {
        return true;
    }
    let between = at - start;
    (between as usize) != len
}

// Test 4: the first offset that is not where it belongs, 5 for the total length.
fn offset_fault(h: Header) -> Option<u16>
    ensures { result ≡ first_where 6 (nth (offset_faults h)) }
{
    let at = h.at;
    let z = h.sizes;
    let wrong = [
        at.states != 24,
        misplaced(at.rules, at.states, format::states_length(z)),
        misplaced(at.layers, at.rules, format::product(5, z.rules)),
        misplaced(at.nodes, at.layers, 4 * format::product(z.layers, z.states)),
        misplaced(at.leaves, at.nodes, format::product(12, z.nodes)),
        misplaced(at.total, at.leaves, 4 * format::product(z.leaves, z.states)),
    ];
    (0..6).find(|&k| wrong[usize::from(k)])
}

// Test 6 of rule r.
fn rule_bad(rules: &[u8], z: Sizes, r: u16) -> bool
    ensures { result ≡ bad_rule z rules.now r }
{
    let t = format::read_rule(rules, r);
    let n = z.states as usize;
    let m = z.layers as usize;
    (n <= t.p)
        | (n <= t.q)
        | (n <= t.p2)
        | (n <= t.q2)
        | (t.q < t.p)
        | (t.q2 < t.p2)
        | (t.p == t.p2) & (t.q == t.q2)
        | (m <= t.layer)
}

// Test 5 of state s: it has other bits set, or too many fixed agents.
fn state_bad(states: &[u8], z: Sizes, s: u16) -> bool
    ensures { result ≡ bad_record z states.now s }
{
    (3 < format::state_flags(states, z, s)) | (Facts::FIXED < format::fixed_agents(states, z, s))
}

// Test 5: the first bad state, or S where there is no input.
fn state_fault(states: &[u8], z: Sizes) -> Option<u16>
    ensures { result ≡ first_where (z.states + 1) (bad_state z states.now) }
{
    let n = z.states;
    let bad = (0..n).find(|&s| state_bad(states, z, s));
    if bad.is_some() {
        return bad;
    }
    if (0..n).any(|s| format::is_input(states, z, s)) {
        return None;
    }
    Some(n)
}

// Whether rule e is like another one: they have the same before pair and, if whole, the same after pair. p is tested first and alone, as
// most rules differ there: with all tested at once, a table whose rules share their marks takes 1.4 times as long.
fn rule_alike(rules: &[u8], whole: bool, other: Rule, e: u16) -> bool
    ensures { result ≡ alike rules.now whole other e }
{
    let one = format::read_rule(rules, e);
    one.p == other.p && (one.q == other.q) & (!whole | (one.p2 == other.p2) & (one.q2 == other.q2))
}

// Whether an earlier rule is like rule r. No search where it is not marked.
fn like_earlier(rules: &[u8], whole: bool, marked: bool, r: u16) -> bool
    ensures { result ≡ (marked && again rules.now whole r) }
{
    if !marked {
        return false;
    }
    let later = format::read_rule(rules, r);
    (0..r).any(|e| rule_alike(rules, whole, later, e))
}

// The mark of rule r, which rules that are alike share.
fn mark(rules: &[u8], whole: bool, r: u16) -> usize
    ensures { Value 4096 (mark_of rules.now whole r) result }
{
    let p = format::rule_p(rules, r);
    let q = format::rule_q(rules, r);
    if whole {
        let after = 64 * format::rule_p_after(rules, r) + format::rule_q_after(rules, r);
        return (after + 709 * p + 1493 * q) % 4096;
    }
    (64 * p + q) % 4096
}

// The first rule below n that is like an earlier one.
// The rules met so far are marked, so that only for one whose mark is set already there is a search.
fn first_again(rules: &[u8], whole: bool, n: u16) -> Option<u16>
    ensures { result ≡ first_where n (again rules.now whole) }
{
    let mut marks: [u64; 64] = [0; 64];
    for i in 0..n {
        let k = mark(rules, whole, i);
        let row = k / 64;
        let column = k % 64;
        if like_earlier(rules, whole, bits::has(marks[row], column), i) {
            return Some(i);
        }
        marks[row] = bits::with_if(marks[row], true, column);
    }
    None
}

// Test 7: the first rule that is equal to an earlier one in all four states.
// Before pairs are searched first. Only where two rules have the same, a second search is by whole rules.
fn repeat_fault(rules: &[u8], z: Sizes) -> Option<u16>
    ensures { result ≡ first_where z.rules (repeats rules.now) }
{
    let n = z.rules;
    first_again(rules, false, n)?;
    first_again(rules, true, n)
}

// Test 14: the first rule that does not come after the one before it. Not tried in version 1.
fn order_fault(rules: &[u8], z: Sizes) -> Option<u16>
    ensures { result ≡ first_where z.rules (out_of_order z rules.now) }
{
    if z.version != 2 {
        return None;
    }
    let mut before = format::read_rule(rules, 0);
    for i in 1..z.rules {
        let rule = format::read_rule(rules, i);
        if !format::rule_before(before, rule) {
            return Some(i);
        }
        before = rule;
    }
    None
}

// The layers below 64 that have a rule.
fn used_layers(rules: &[u8], z: Sizes) -> u64
    ensures { member result ≡ used_below rules.now z.rules }
{
    let mut used: u64 = 0;
    for r in 0..z.rules {
        used = bits::with_if(used, true, format::rule_layer(rules, r));
    }
    used
}

// Whether layer l has a rule. Only for layers from 64 on, of which no docket has one, it is searched for.
fn layer_used(rules: &[u8], z: Sizes, used: u64, l: u16) -> bool
    requires { member used ≡ used_below rules.now z.rules }
    ensures { result ≡ any_below z.rules (in_layer rules.now l) }
{
    let layer = usize::from(l);
    if layer < 64 {
        return bits::has(used, layer);
    }
    (0..z.rules).any(|r| format::rule_layer(rules, r) == layer)
}

// Whether layer l has a weight that is too large.
fn weights_bad(layers: &[u8], z: Sizes, l: u16) -> bool
    ensures { result ≡ any_below z.states (too_large z.states layers.now l) }
{
    (0..z.states).any(|s| 1000000 < format::layer_weight(layers, z.states, l, s))
}

// Test 8 of layer l, by the set of the layers below 64 that have a rule.
fn layer_bad(rules: &[u8], layers: &[u8], z: Sizes, used: u64, l: u16) -> bool
    requires { member used ≡ used_below rules.now z.rules }
    ensures { result ≡ bad_layer z rules.now layers.now l }
{
    !layer_used(rules, z, used, l) | weights_bad(layers, z, l)
}

// Test 8: the first layer with no rule or with a weight too large.
fn layer_fault(rules: &[u8], layers: &[u8], z: Sizes) -> Option<u16>
    ensures { result ≡ first_where z.layers (bad_layer z rules.now layers.now) }
{
    let used = used_layers(rules, z);
    (0..z.layers).find(|&l| layer_bad(rules, layers, z, used, l))
}

// Test 6: the first bad rule.
fn rule_fault(rules: &[u8], z: Sizes) -> Option<u16>
    ensures { result ≡ first_where z.rules (bad_rule z rules.now) }
{
    (0..z.rules).find(|&r| rule_bad(rules, z, r))
}

// Tests 5 to 8, with 14.
pub fn section_tests(states: &[u8], rules: &[u8], layers: &[u8], z: Sizes) -> Result<(), Refusal>
    ensures { result ≡ tested_of z states.now rules.now layers.now }
{
    Fault::State.at(state_fault(states, z))?;
    Fault::Rule.at(rule_fault(rules, z))?;
    Fault::Repeat.at(repeat_fault(rules, z))?;
    Fault::Order.at(order_fault(rules, z))?;
    Fault::Layer.at(layer_fault(rules, layers, z))
}

// Test 1.
fn length_fault(b: &[u8], h: Header) -> bool
    ensures { result ≡ (ltb (length b.now) 24 || not (eqb (length b.now) h.at.total)) }
{
    (b.len() < 24) | (b.len() != (h.at.total as usize))
}

// Tests 1 to 8 of the bytes b with header h.
fn header_shape(b: &[u8], h: Header) -> Result<Header, Refusal>
    ensures { result ≡ header_shape b.now h }
{
    Fault::Length.when(length_fault(b, h))?;
    Fault::Version.when(version_fault(u32::from(h.sizes.version)))?;
    Fault::Counts.at(count_fault(h.sizes))?;
    Fault::Offsets.at(offset_fault(h))?;
    section_tests(
        format::states_section(b, h),
        format::rules_section(b, h),
        format::layers_section(b, h),
        h.sizes,
    )?;
    Ok(h)
}

// Tests 1 to 8.
pub fn read_shape(bytes: &[u8]) -> Result<Docket<'_>, Refusal>
    ensures shape { header_in result ≡ shape_of bytes.now }
    ensures bytes { IfOk result (λ d. d.bytes.now ≡ bytes.now) }
{
    let header = header_shape(bytes, format::read_header(bytes))?;
    Ok(Docket { bytes, header })
}

// The refusal of a docket that the tests refuse; 0, 0 for one that passes them. The calls of the machine return it from the branch of
// their `let .. else`.
pub fn refusal_of(read: Result<Docket<'_>, Refusal>) -> Refusal
    ensures { result ≡ refusal_of (header_in read.entry) }
{
    match read {
        Ok(_) => Refusal {
            number: 0,
            place: 0,
        },
        Err(r) => r,
    }
}
