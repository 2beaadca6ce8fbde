// The writer: the bytes of the five sections are lent, and the docket is written to the beginning of a lent output. It makes
// the tests that the check makes of the sections, but for the ladder and the tree. Any bytes may be given, of any length.
#![tactic(auto)]

ghost use Rattle.std.specs.Prelude.{◌≡◌, ◌++◌, ◌+◌, ◌*◌, ◌/◌, ◌%◌, ◌≤◌, length, drop};
ghost use Rattle.theory.specs.Below.Ends.{first_where};
ghost use Rattle.format.specs.Format.{state_width, sections};
ghost use Rattle.shape.specs.Shape.{nth};
ghost use Rattle.shape.specs.Sound.{Limits};
ghost use Rattle.writer.specs.Write.{not_whole, records, length_faults, sizes_for};
ghost use Rattle.writer.specs.Write.{lengths_of, sizes_in, header_for, header_bytes, docket_of, write_of, output_of};
ghost use Rattle.writer.specs.Code.{cut as cut_of, cut_sizes, records_tested, parts_tested, replaced};

use format::{Header, Offsets, Sizes};
use refusals::{Fault, Refusal};

// How many bytes each section has.
#[derive(Clone, Copy)]
pub struct Lengths {
    pub states: usize,
    pub rules: usize,
    pub layers: usize,
    pub nodes: usize,
    pub leaves: usize,
}

// Whether n bytes are no whole number of records of 4 bytes for each of s states. The product 4 s may not fit, so 4 divides
// first.
fn not_whole_by_states(n: usize, s: usize) -> bool
    ensures { result ≡ not_whole (4 * s) n }
{
    if s < 1 {
        return false;
    }
    (n % 4 != 0) | (n / 4 % s != 0)
}

// How many whole records of 4 bytes for each of s states n bytes have.
fn records_by_states(n: usize, s: usize) -> usize
    ensures { result ≡ records (4 * s) n }
{
    if s < 1 {
        return 0;
    }
    n / 4 / s
}

// Whether n bytes are no whole number of state records.
fn not_whole_states(version: u16, n: usize) -> bool
    ensures { result ≡ not_whole (state_width version) n }
{
    if version == 2 {
        return n % 3 != 0;
    }
    false
}

// How many whole state records n bytes have.
fn state_records(version: u16, n: usize) -> usize
    ensures { result ≡ records (state_width version) n }
{
    if version == 2 {
        return n / 3;
    }
    n
}

// Test 31: the first section whose length is no whole number of records.
fn length_fault(version: u16, n: Lengths) -> Option<u16>
    ensures { result ≡ first_where 5 (nth (length_faults version n)) }
{
    let states = state_records(version, n.states);
    let broken = [
        not_whole_states(version, n.states),
        n.rules % 5 != 0,
        not_whole_by_states(n.layers, states),
        n.nodes % 12 != 0,
        not_whole_by_states(n.leaves, states),
    ];
    (0..5).find(|&k| broken[usize::from(k)])
}

// A count in 16 bits: every greater one becomes 65,535, which every limit refuses too.
fn cut(n: usize) -> u16
    ensures { result ≡ cut_of n }
{
    u16::try_from(n).unwrap_or(u16::MAX)
}

// The version, and the counts that the lengths give.
fn sizes_for(version: u16, n: Lengths) -> Sizes
    ensures { result ≡ cut_sizes (sizes_for version n) }
{
    let states = state_records(version, n.states);
    Sizes {
        version,
        states: cut(states),
        rules: cut(n.rules / 5),
        layers: cut(records_by_states(n.layers, states)),
        nodes: cut(n.nodes / 12),
        leaves: cut(records_by_states(n.leaves, states)),
    }
}

// How many bytes each section has.
fn measure(states: &[u8], rules: &[u8], layers: &[u8], nodes: &[u8], leaves: &[u8]) -> Lengths
    ensures { let x =
        sections states.now rules.now layers.now nodes.now leaves.now in
        result ≡ lengths_of x }
{
    Lengths {
        states: states.len(),
        rules: rules.len(),
        layers: layers.len(),
        nodes: nodes.len(),
        leaves: leaves.len(),
    }
}

// The header of a docket of these sizes.
fn header_for(z: Sizes) -> Header
    requires { Limits z }
    ensures { result ≡ header_for z }
{
    let rules = 24 + (format::states_length(z) as u16);
    let layers = rules + 5 * z.rules;
    let nodes = layers + 4 * (z.layers * z.states);
    let leaves = nodes + 12 * z.nodes;
    let total = leaves + 4 * (z.leaves * z.states);
    let at = Offsets {
        states: 24,
        rules,
        layers,
        nodes,
        leaves,
        total,
    };
    Header { sizes: z, at }
}

// The bytes of a header: of each number the lower byte, then the upper.
fn header_bytes(h: Header) -> [u8; 24]
    ensures { result ≡ header_bytes h }
{
    let z = h.sizes;
    let at = h.at;
    let numbers = [
        z.version, z.states, z.rules, z.layers, z.nodes, z.leaves, at.states, at.rules, at.layers,
        at.nodes, at.leaves, at.total,
    ];
    let mut bytes = [0; 24];
    for (i, n) in numbers.iter().enumerate() {
        let [low, high] = n.to_le_bytes();
        bytes[2 * i] = low;
        bytes[2 * i + 1] = high;
    }
    bytes
}

// Tests 5 to 8, with 14, and 11 of the sections.
fn record_tests(
    states: &[u8],
    rules: &[u8],
    layers: &[u8],
    leaves: &[u8],
    z: Sizes,
) -> Result<(), Refusal>
    ensures { result ≡ records_tested z states.now rules.now layers.now leaves.now }
{
    shape::section_tests(states, rules, layers, z)?;
    Fault::Leaf.at(leaf::leaf_fault(leaves, z))
}

// The tests of the writer behind that of the version: n are the lengths of the sections, z the version and their counts in 16
// bits, room the length of the output.
fn write_tests(
    states: &[u8],
    rules: &[u8],
    layers: &[u8],
    nodes: &[u8],
    leaves: &[u8],
    n: Lengths,
    z: Sizes,
    room: usize,
) -> Result<(), Refusal>
    requires lengths { n ≡ lengths_of (sections states.now rules.now layers.now nodes.now leaves.now) }
    requires sizes { z ≡ cut_sizes (sizes_for z.version n) }
    ensures { let x =
        sections states.now rules.now layers.now nodes.now leaves.now in
        result ≡ parts_tested z.version x room }
{
    Fault::Records.at(length_fault(z.version, n))?;
    Fault::Counts.at(shape::count_fault(z))?;
    record_tests(states, rules, layers, leaves, z)?;
    Fault::Room.when(room < usize::from(header_for(z).at.total))
}

// Copies the part over the bytes of the output from `at` on, and returns where it ends.
// It is a loop since `copy_from_slice` would need `memmove`, which include/docket.h does not name.
fn put(out: &mut [u8], at: usize, part: &[u8]) -> usize
    requires { at + length part.now ≤ length out.old }
    ensures end { result ≡ at + length part.now }
    ensures room { length out.new ≡ length out.old }
    ensures output { out.new ≡ replaced out.old at part.now }
{
    for (i, byte) in part.iter().enumerate() {
        out[at + i] = *byte;
    }
    at + part.len()
}

// Writes the docket of the sections to the beginning of the output, and returns its length.
fn put_docket(
    states: &[u8],
    rules: &[u8],
    layers: &[u8],
    nodes: &[u8],
    leaves: &[u8],
    h: Header,
    out: &mut [u8],
) -> usize
    requires header { h ≡ header_for (sizes_in h.sizes.version (sections states.now rules.now layers.now nodes.now leaves.now)) }
    requires room { 24 + length states.now + length rules.now + length layers.now + length nodes.now + length leaves.now ≤ length out.old }
    ensures total { let x =
        sections states.now rules.now layers.now nodes.now leaves.now in
        result ≡ length (docket_of h.sizes.version x) }
    ensures output { let x =
        sections states.now rules.now layers.now nodes.now leaves.now in
        out.new ≡ docket_of h.sizes.version x ++ drop (length (docket_of h.sizes.version x)) out.old }
{
    let header = header_bytes(h);
    let states_at = put(out, 0, &header);
    let rules_at = put(out, states_at, states);
    let layers_at = put(out, rules_at, rules);
    let nodes_at = put(out, layers_at, layers);
    let leaves_at = put(out, nodes_at, nodes);
    put(out, leaves_at, leaves)
}

// Writes the docket of the sections, of this version, to the beginning of the output. What stands behind it stays; a refusal
// leaves all as it was.
pub fn write(
    version: u32,
    states: &[u8],
    rules: &[u8],
    layers: &[u8],
    nodes: &[u8],
    leaves: &[u8],
    out: &mut [u8],
) -> Result<usize, Refusal>
    ensures answer { let x =
        sections states.now rules.now layers.now nodes.now leaves.now in
        result ≡ write_of version x (length out.old) }
    ensures output { let x =
        sections states.now rules.now layers.now nodes.now leaves.now in
        out.new ≡ output_of version x out.old }
{
    Fault::Version.when(shape::version_fault(version))?;
    let n = measure(states, rules, layers, nodes, leaves);
    let z = sizes_for(version as u16, n);
    write_tests(states, rules, layers, nodes, leaves, n, z, out.len())?;
    let h = header_for(z);
    Ok(put_docket(states, rules, layers, nodes, leaves, h, out))
}
