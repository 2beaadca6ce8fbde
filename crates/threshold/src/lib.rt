// Whether a leaf of a tree closes: a docket's, by the leaf rule or the remainder rule; or a claim sheet's, for a threshold on the
// weighed sum of the start. A number of a sheet is read with 32,768 added, a weight with 10,000, so all numbers are unsigned.
#![tactic(auto)]

ghost use Rattle.std.specs.Prelude.{◌≡◌, ◌+◌, ◌*◌, ◌≤◌, ◌<◌};
ghost use Rattle.theory.specs.Sheet.{sheet_closes};
ghost use Rattle.format.specs.Bytes.{le16};
ghost use Rattle.format.specs.Code.{Value};
ghost use Rattle.format.specs.Format.{protocol_of};
ghost use Rattle.facts.specs.Code.{facts_of};
ghost use Rattle.share.specs.Code.{ShareIs};
ghost use Rattle.threshold.specs.Numbers.{sheet_number, leaf_in, sheet_weight, multiplier_of};
ghost use Rattle.threshold.specs.Code.{threshold_of, share_of, closes_for, moduli_for, closes_modulo_for};

use facts::Facts;
use format::Sizes;
use share::{Closing, Known, Share};

// A threshold: the weighed sum, by the numbers of the sheet, or by all of them negated, is at least plus - minus.
#[derive(Clone, Copy)]
pub struct Threshold {
    pub negated: bool,
    pub plus: u32,
    pub minus: u32,
}

// Whose leaves a tree has: those of a docket, or those of a claim sheet, which close for a threshold. It is no Option, as each
// case names a rule of its own.
#[derive(Clone, Copy)]
pub enum Leaves {
    OfDocket,
    OfSheet(Threshold),
}

// The bytes of leaf l.
pub fn leaf_bytes(leaves: &[u8], z: Sizes, l: u16) -> &[u8]
    ensures { result.now ≡ leaf_in z.states leaves.now l }
{
    let at = 2 * format::product(l, z.states) + 2 * (l as usize);
    let width = 2 * (z.states as usize) + 2;
    format::section(leaves, at, width)
}

// The multiplier of a leaf, whose bytes are lent.
pub fn multiplier(one: &[u8], z: Sizes) -> u16
    ensures { result ≡ le16 one.now (2 * z.states) }
{
    format::read16(one, 2 * (z.states as usize))
}

// The number of state s in the sheet, plus 32,768.
pub fn sheet_number(numbers: &[u8], s: u16) -> u32
    ensures { Value 65536 (sheet_number numbers.now s) result }
{
    let bits = format::read16(numbers, 2 * (s as usize));
    ((bits as u32) + 32768) % 65536
}

// The number of state s by which the threshold weighs, plus 32,768.
fn number_at(t: Threshold, numbers: &[u8], s: u16) -> u32
    ensures { Value 65537 ((threshold_of t numbers.now).numbers s) result }
{
    let number = sheet_number(numbers, s);
    if t.negated {
        return 65536 - number;
    }
    number
}

// k times n.
fn multiple(k: u16, n: u32) -> u64
    ensures value { Value (65536 * (n + 1)) (k * n) result }
    ensures most { result < 281474976710656 }
{
    (k as u64) * (n as u64)
}

// The share of state s in a leaf, whose bytes are lent, with the multiplier k.
fn share_at(
    t: Threshold,
    start: Known,
    end: Known,
    states: &[u8],
    numbers: &[u8],
    one: &[u8],
    z: Sizes,
    k: u16,
    s: u16,
) -> Share
    ensures { ShareIs 1125899906842624 (share_of t z states.now numbers.now one.now start end k s) result }
{
    let y = format::leaf_weight(one, z.states, 0, 0, s);
    let a = number_at(t, numbers, s);
    let fixed = leaf::fixed_at(states, z, s);
    let bias = 10000 + multiple(k, 32768);
    let sum = (y as u64) + multiple(k, a);
    let first = share::start_share(start, fixed, s as usize, bias, sum);
    let last = share::end_share(end, s as usize, y as u64);
    share::both(first, last)
}

// Whether leaf l closes on the facts, for the threshold.
fn sheet_closes(
    t: Threshold,
    facts: Facts,
    states: &[u8],
    rules: &[u8],
    numbers: &[u8],
    leaves: &[u8],
    z: Sizes,
    l: u16,
) -> bool
    requires { z.states ≤ 64 }
    ensures { result ≡ sheet_closes (protocol_of z states.now rules.now) (threshold_of t numbers.now)
        (facts_of facts) (sheet_weight z.states leaves.now l) (multiplier_of z.states leaves.now l) }
{
    let one = leaf_bytes(leaves, z, l);
    if !leaf::rules_keep(Closing::BySums, facts, states, rules, one, z, 0, 0) {
        return false;
    }
    let start = leaf::known_at(facts, 0);
    let end = leaf::known_at(facts, 1);
    let k = multiplier(one, z);
    let mut gains: u64 = 0;
    let mut losses: u64 = 0;
    for s in 0..z.states {
        let share = share_at(t, start, end, states, numbers, one, z, k, s);
        if !share.allowed {
            return false;
        }
        gains += share.gains;
        losses += share.losses;
    }
    let upper = losses + multiple(k, t.minus);
    let lower = gains + multiple(k, t.plus);
    upper < lower
}

// Whether leaf l closes on the facts, by the leaf rule of whose leaves they are.
pub fn leaf_holds(
    whose: Leaves,
    facts: Facts,
    states: &[u8],
    rules: &[u8],
    numbers: &[u8],
    leaves: &[u8],
    z: Sizes,
    l: u16,
) -> bool
    requires { z.states ≤ 64 }
    ensures { result ≡ closes_for (protocol_of z states.now rules.now) z numbers.now leaves.now
        whose (facts_of facts) l }
{
    match whose {
        Leaves::OfDocket => leaf::leaf_closes(Closing::BySums, facts, states, rules, leaves, z, l),
        Leaves::OfSheet(t) => sheet_closes(t, facts, states, rules, numbers, leaves, z, l),
    }
}

// Whether a node may have the modulus m: 2 to 1,000, and none in the tree of a sheet.
pub fn is_modulus(whose: Leaves, m: u64) -> bool
    ensures { result ≡ moduli_for whose m }
{
    match whose {
        Leaves::OfDocket => (2 <= m) & (m <= 1000),
        Leaves::OfSheet(_) => false,
    }
}

// Whether leaf l closes on the facts by remainders modulo m; none does in the tree of a sheet.
pub fn remainder_holds(
    whose: Leaves,
    m: u64,
    facts: Facts,
    states: &[u8],
    rules: &[u8],
    leaves: &[u8],
    z: Sizes,
    l: u16,
) -> bool
    ensures { result ≡ closes_modulo_for (protocol_of z states.now rules.now) z leaves.now whose m
        (facts_of facts) l }
{
    match whose {
        Leaves::OfDocket => {
            leaf::leaf_closes(Closing::ByRemainders(m), facts, states, rules, leaves, z, l)
        }
        Leaves::OfSheet(_) => false,
    }
}
