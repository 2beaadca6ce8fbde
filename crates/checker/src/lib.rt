// The check of a docket: tests 1 to 13 in order, with 14 between 7 and 8. Any bytes may be given.
#![tactic(auto)]

ghost use Rattle.std.specs.Prelude.{◌≡◌};
ghost use Rattle.format.specs.Format.{sections, sections_of};
ghost use Rattle.shape.specs.Code.{SoundRules};
ghost use Rattle.checker.specs.Check.{walk_of, summary_of, tree_check, sections_check, check_of};

use format::Sizes;
use refusals::{Fault, Refusal};
use shape::Docket;

// What is said of an accepted docket: S, R, L, N, the sum of the spreads W, and how many states the widest set of the tree
// names, M.
#[derive(Clone, Copy)]
pub struct Summary {
    pub states: u16,
    pub rules: u16,
    pub layers: u16,
    pub nodes: u16,
    pub spreads: u64,
    pub widest: u32,
}

// Tests 12 and 13, and what is said of an accepted docket.
fn tree_check(
    states: &[u8],
    rules: &[u8],
    layers: &[u8],
    nodes: &[u8],
    leaves: &[u8],
    z: Sizes,
) -> Result<Summary, Refusal>
    requires { SoundRules z rules.now }
    ensures { let x =
        sections states.now rules.now layers.now nodes.now leaves.now in
        result ≡ tree_check (summary_of z x) (walk_of z x) }
{
    tree::check_tree(states, rules, nodes, leaves, z)?;
    let spreads = ladder::spread_sum(layers, z);
    let widest = tree::widest(nodes, z);
    Ok(Summary {
        states: z.states,
        rules: z.rules,
        layers: z.layers,
        nodes: z.nodes,
        spreads,
        widest,
    })
}

// Tests 9 to 13 of the sections.
fn sections_check(
    states: &[u8],
    rules: &[u8],
    layers: &[u8],
    nodes: &[u8],
    leaves: &[u8],
    z: Sizes,
) -> Result<Summary, Refusal>
    requires { SoundRules z rules.now }
    ensures { let x =
        sections states.now rules.now layers.now nodes.now leaves.now in
        result ≡ sections_check z x }
{
    Fault::Lowering.at(ladder::lowering_fault(states, rules, layers, z))?;
    Fault::Handover.at(ladder::handover_fault(states, rules, z))?;
    Fault::Leaf.at(leaf::leaf_fault(leaves, z))?;
    tree_check(states, rules, layers, nodes, leaves, z)
}

// Tests 9 to 13 of a docket that passes tests 1 to 8.
pub fn certificate(docket: Docket<'_>) -> Result<Summary, Refusal>
    ensures { result ≡ sections_check docket.entry.header.sizes (sections_of docket.entry.bytes.now docket.entry.header) }
{
    let bytes = docket.bytes;
    let header = docket.header;
    sections_check(
        format::states_section(bytes, header),
        format::rules_section(bytes, header),
        format::layers_section(bytes, header),
        format::nodes_section(bytes, header),
        format::leaves_section(bytes, header),
        header.sizes,
    )
}

// Tests 1 to 13.
pub fn check(docket: &[u8]) -> Result<Summary, Refusal>
    ensures { result ≡ check_of docket.now }
{
    match shape::read_shape(docket) {
        Ok(docket) => certificate(docket),
        Err(r) => Err(r),
    }
}
