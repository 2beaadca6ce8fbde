// The docket file: its header, its sections, and one reader for each field of each record.
// Every function is total: past the end of a slice a byte reads as 0. Everywhere h is a header and z its sizes.
#![tactic(auto)]

ghost use Rattle.std.specs.Prelude.{◌≡◌, ◌<◌, ℕ, ◌+◌, ◌*◌, min, max, get_or, drop};
ghost use Rattle.theory.specs.Bool.{member};
ghost use Rattle.bits.specs.Code.{among_of};
ghost use Rattle.format.specs.Bytes.{le16, le32, le64, section as sectionOf};
ghost use Rattle.format.specs.Format.{header_of, state_width, states_length, rules_length, layers_length, nodes_length, leaves_length, flags, fixed_of, is_input};
ghost use Rattle.format.specs.Format.{rule_p, rule_q, rule_of, rule_p', rule_q', rule_layer, rule_before, layer_weight};
ghost use Rattle.format.specs.Format.{node_kind, node_party, node_argument, node_set, leaf_bits, biased};
ghost use Rattle.format.specs.Code.{Value, has_flag};

use std::array;

// The version, and how many records each section has.
#[derive(Clone, Copy)]
pub struct Sizes {
    pub version: u16,
    pub states: u16,
    pub rules: u16,
    pub layers: u16,
    pub nodes: u16,
    pub leaves: u16,
}

// Where each section begins, and the total length.
#[derive(Clone, Copy)]
pub struct Offsets {
    pub states: u16,
    pub rules: u16,
    pub layers: u16,
    pub nodes: u16,
    pub leaves: u16,
    pub total: u16,
}

#[derive(Clone, Copy)]
pub struct Header {
    pub sizes: Sizes,
    pub at: Offsets,
}

// One rule: its layer, before pair p, q and after pair p2, q2. Rules are in order by these numbers, from the first on.
#[derive(Clone, Copy, PartialEq, Eq, PartialOrd, Ord)]
pub struct Rule {
    pub layer: usize,
    pub p: usize,
    pub q: usize,
    pub p2: usize,
    pub q2: usize,
}

// What a state may have: output 1, the mark of an input, fixed agents.
#[derive(Clone, Copy)]
pub enum Flag {
    Output,
    Input,
    Fixed,
}

// The byte at k.
fn byte(b: &[u8], k: usize) -> usize
    ensures { Value 256 (get_or b.now k 0) result }
{
    usize::from(b.get(k).copied().unwrap_or(0))
}

// The bytes from byte k on.
fn tail(b: &[u8], k: usize) -> &[u8]
    ensures { result.now ≡ drop k b.now }
{
    &b[k.min(b.len())..]
}

// The N bytes from byte k on; past the end they are 0.
fn bytes<const N: usize>(b: &[u8], k: usize) -> [u8; N]
    ensures { (i : ℕ) → i < N → get_or result i 0 ≡ get_or b.now (k + i) 0 }
{
    let part = b.get(k..k.saturating_add(N)).unwrap_or(&[]);
    if let Some(all) = part.first_chunk() {
        return *all;
    }
    let rest = tail(b, k);
    array::from_fn(|i| rest.get(i).copied().unwrap_or(0))
}

// The 16-bit number at k.
pub fn read16(b: &[u8], k: usize) -> u16
    ensures { result ≡ le16 b.now k }
{
    u16::from_le_bytes(bytes(b, k))
}

// The 32-bit number at k.
pub fn read32(b: &[u8], k: usize) -> u32
    ensures { result ≡ le32 b.now k }
{
    u32::from_le_bytes(bytes(b, k))
}

// The 64-bit number at k.
fn read64(b: &[u8], k: usize) -> u64
    ensures { result ≡ le64 b.now k }
{
    u64::from_le_bytes(bytes(b, k))
}

// The n bytes from byte k on, or as many as there are.
pub fn section(b: &[u8], k: usize, n: usize) -> &[u8]
    ensures { result.now ≡ sectionOf b.now k n }
{
    let rest = tail(b, k);
    &rest[..n.min(rest.len())]
}

// A product that cannot wrap.
pub fn product(a: u16, b: u16) -> usize
    ensures { Value 4294967296 (a * b) result }
{
    usize::from(a) * usize::from(b)
}

// The lesser and the greater of two numbers.
pub fn lesser(a: u32, b: u32) -> u32
    ensures { result ≡ min a b }
{
    a.min(b)
}

pub fn greater(a: u32, b: u32) -> u32
    ensures { result ≡ max a b }
{
    a.max(b)
}

// The header of the bytes b.
pub fn read_header(b: &[u8]) -> Header
    ensures { result ≡ header_of b.now }
{
    let head: [u8; 24] = bytes(b, 0);
    let sizes = Sizes {
        version: read16(&head, 0),
        states: read16(&head, 2),
        rules: read16(&head, 4),
        layers: read16(&head, 6),
        nodes: read16(&head, 8),
        leaves: read16(&head, 10),
    };
    let at = Offsets {
        states: read16(&head, 12),
        rules: read16(&head, 14),
        layers: read16(&head, 16),
        nodes: read16(&head, 18),
        leaves: read16(&head, 20),
        total: read16(&head, 22),
    };
    Header { sizes, at }
}

// How many bytes a state record has.
fn state_width(version: u16) -> usize
    ensures { Value 4 (state_width version) result }
{
    if version == 2 {
        return 3;
    }
    1
}

// How many bytes the states have.
pub fn states_length(z: Sizes) -> usize
    ensures { Value 262144 (states_length z) result }
{
    state_width(z.version) * usize::from(z.states)
}

// The bytes of each section.
pub fn states_section(b: &[u8], h: Header) -> &[u8]
    ensures { result.now ≡ sectionOf b.now h.at.states (states_length h.sizes) }
{
    section(b, usize::from(h.at.states), states_length(h.sizes))
}

pub fn rules_section(b: &[u8], h: Header) -> &[u8]
    ensures { result.now ≡ sectionOf b.now h.at.rules (rules_length h.sizes) }
{
    section(b, usize::from(h.at.rules), 5 * usize::from(h.sizes.rules))
}

pub fn layers_section(b: &[u8], h: Header) -> &[u8]
    ensures { result.now ≡ sectionOf b.now h.at.layers (layers_length h.sizes) }
{
    section(
        b,
        usize::from(h.at.layers),
        4 * product(h.sizes.layers, h.sizes.states),
    )
}

pub fn nodes_section(b: &[u8], h: Header) -> &[u8]
    ensures { result.now ≡ sectionOf b.now h.at.nodes (nodes_length h.sizes) }
{
    section(b, usize::from(h.at.nodes), 12 * usize::from(h.sizes.nodes))
}

pub fn leaves_section(b: &[u8], h: Header) -> &[u8]
    ensures { result.now ≡ sectionOf b.now h.at.leaves (leaves_length h.sizes) }
{
    section(
        b,
        usize::from(h.at.leaves),
        4 * product(h.sizes.leaves, h.sizes.states),
    )
}

// State s: the byte of its bits, its fixed agents, whether it is an input.
pub fn state_flags(states: &[u8], z: Sizes, s: u16) -> usize
    ensures { Value 256 (flags z states.now s) result }
{
    byte(states, state_width(z.version) * usize::from(s))
}

pub fn fixed_agents(states: &[u8], z: Sizes, s: u16) -> u16
    ensures { result ≡ fixed_of z states.now s }
{
    if z.version == 2 {
        return read16(states, 3 * usize::from(s) + 1);
    }
    0
}

pub fn is_input(states: &[u8], z: Sizes, s: u16) -> bool
    ensures { result ≡ is_input z states.now s }
{
    state_flags(states, z, s) / 2 % 2 == 1
}

// Whether state s has the flag.
fn has_flag(states: &[u8], z: Sizes, f: Flag, s: u16) -> bool
    ensures { result ≡ has_flag z states.now f s }
{
    match f {
        Flag::Output => state_flags(states, z, s) % 2 == 1,
        Flag::Input => is_input(states, z, s),
        Flag::Fixed => 0 < fixed_agents(states, z, s),
    }
}

// The states that have the flag, as a word.
pub fn flag_set(states: &[u8], z: Sizes, f: Flag) -> u64
    ensures { member result ≡ among_of z.states (has_flag z states.now f) }
{
    bits::among(z.states, |s| has_flag(states, z, f, s))
}

// The five bytes of rule r; past the end they are 0. Where all are there, they are read behind one test, which is that of the layer's
// byte: who has read the layer before makes no other.
fn rule_bytes(rules: &[u8], r: u16) -> [usize; 5]
    ensures { (i : ℕ) → i < 5 → get_or result i 0 ≡ get_or rules.now (5 * r + i) 0 }
{
    let at = 5 * usize::from(r);
    if at + 4 < rules.len() {
        return [
            usize::from(rules[at]),
            usize::from(rules[at + 1]),
            usize::from(rules[at + 2]),
            usize::from(rules[at + 3]),
            usize::from(rules[at + 4]),
        ];
    }
    [
        byte(rules, at),
        byte(rules, at + 1),
        byte(rules, at + 2),
        byte(rules, at + 3),
        byte(rules, at + 4),
    ]
}

// Rule r, all of it.
pub fn read_rule(rules: &[u8], r: u16) -> Rule
    ensures { result ≡ rule_of rules.now r }
{
    let [p, q, p2, q2, layer] = rule_bytes(rules, r);
    Rule {
        p,
        q,
        p2,
        q2,
        layer,
    }
}

// Whether rule x comes before rule y in the order of rules: the first of layer, p, q, p2, q2 in which they differ decides.
pub fn rule_before(x: Rule, y: Rule) -> bool
    ensures { result ≡ rule_before x y }
{
    x < y
}

// Rule r by its fields: the before pair p, q.
pub fn rule_p(rules: &[u8], r: u16) -> usize
    ensures { Value 256 (rule_p rules.now r) result }
{
    byte(rules, 5 * usize::from(r))
}

pub fn rule_q(rules: &[u8], r: u16) -> usize
    ensures { Value 256 (rule_q rules.now r) result }
{
    byte(rules, 5 * usize::from(r) + 1)
}

// The after pair p', q'.
pub fn rule_p_after(rules: &[u8], r: u16) -> usize
    ensures { Value 256 (rule_p' rules.now r) result }
{
    byte(rules, 5 * usize::from(r) + 2)
}

pub fn rule_q_after(rules: &[u8], r: u16) -> usize
    ensures { Value 256 (rule_q' rules.now r) result }
{
    byte(rules, 5 * usize::from(r) + 3)
}

pub fn rule_layer(rules: &[u8], r: u16) -> usize
    ensures { Value 256 (rule_layer rules.now r) result }
{
    byte(rules, 5 * usize::from(r) + 4)
}

// Layer l's weight of state s, where there are n states.
pub fn layer_weight(layers: &[u8], n: u16, l: u16, s: u16) -> u32
    ensures { result ≡ layer_weight n layers.now l s }
{
    read32(layers, 4 * (product(l, n) + usize::from(s)))
}

// Node i: its kind, party, argument and set.
pub fn node_kind(nodes: &[u8], i: u16) -> usize
    ensures { Value 256 (node_kind nodes.now i) result }
{
    byte(nodes, 12 * usize::from(i))
}

pub fn node_party(nodes: &[u8], i: u16) -> usize
    ensures { Value 256 (node_party nodes.now i) result }
{
    byte(nodes, 12 * usize::from(i) + 1)
}

pub fn node_argument(nodes: &[u8], i: u16) -> u16
    ensures { result ≡ node_argument nodes.now i }
{
    read16(nodes, 12 * usize::from(i) + 2)
}

pub fn node_set(nodes: &[u8], i: u16) -> u64
    ensures { result ≡ node_set nodes.now i }
{
    read64(nodes, 12 * usize::from(i) + 4)
}

// Leaf l's weight of state s at end 1 (e is 0) or 2 (e is 1), plus 10,000, where there are n states.
pub fn leaf_weight(leaves: &[u8], n: u16, l: u16, e: u16, s: u16) -> u32
    ensures { Value 65536 (biased (leaf_bits n leaves.now l e s)) result }
{
    let at = 2 * (2 * product(l, n) + product(e, n) + usize::from(s));
    let bits = read16(leaves, at);
    (u32::from(bits) + 10000) % 65536
}
