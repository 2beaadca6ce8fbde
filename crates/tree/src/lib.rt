// The walk of a tree in preorder, tests 12 and 13, and the width of its sets.
// A function is lent a section where its contract speaks of the protocol.
#![tactic(auto)]

ghost use Rattle.std.specs.Prelude.{◌≡◌, ◌≤◌, ◌<◌};
ghost use Rattle.theory.specs.Facts.{fresh};
ghost use Rattle.theory.specs.Tree.{disagreement, tree_at, tree_answer, widest as widestOf};
ghost use Rattle.format.specs.Format.{protocol_of, tree_of, weights_of};
ghost use Rattle.facts.specs.Code.{facts_of};
ghost use Rattle.shape.specs.Code.{SoundRules};
ghost use Rattle.node.specs.Code.{assumption_of, AimFits};
ghost use Rattle.tree.specs.Code.{walked_of, AimsAt, set_size_at};

use facts::Facts;
use format::{Flag, Sizes};
use node::{Aim, Children, Kind};
use refusals::{Fault, Refusal};
use threshold::Leaves;

// Node `start` and all below it, on the facts given, where the nodes may be so many deep: the number of the node behind them.
// The loop goes from a node to its last child; a first child of two has a walk of its own. (It counts the depth that is left,
// and no index.) The numbers are those of a claim sheet; a docket has none.
fn descend(
    states: &[u8],
    rules: &[u8],
    nodes: &[u8],
    numbers: &[u8],
    leaves: &[u8],
    z: Sizes,
    aim: Aim,
    depth: u16,
    given: Facts,
    start: u16,
) -> Result<u16, Refusal>
    requires sound_rules { SoundRules z rules.now }
    requires aim_fits { AimFits z states.now aim }
    ensures { walked_of result ≡ tree_at (protocol_of z states.now rules.now)
        (assumption_of (protocol_of z states.now rules.now) z numbers.now leaves.now aim)
        (tree_of z nodes.now) depth (facts_of given) start }
{
    let mut left = depth;
    let mut facts = given;
    let mut i = start;
    while 0 < left {
        if z.nodes <= i {
            return Err(Fault::Fields.refuse(u32::from(z.nodes)));
        }
        left -= 1;
        match node::node_step(states, rules, nodes, numbers, leaves, z, aim, facts, i) {
            Err(fault) => return Err(fault.refuse(u32::from(i))),
            Ok(Children::None) => return Ok(i + 1),
            Ok(Children::One(child)) => {
                facts = child;
                i += 1;
            }
            Ok(Children::Two(first, second)) => {
                i = descend(
                    states,
                    rules,
                    nodes,
                    numbers,
                    leaves,
                    z,
                    aim,
                    left,
                    first,
                    i + 1,
                )?;
                facts = second;
            }
        }
    }
    Err(Fault::Fields.refuse(u32::from(i)))
}

// The facts at the root: every state with fixed agents is present at the start, every other that is no input is absent.
fn root_facts(states: &[u8], rules: &[u8], z: Sizes) -> Facts
    requires { z.states ≤ 64 }
    ensures { facts_of result ≡ fresh (protocol_of z states.now rules.now) }
{
    let inputs = format::flag_set(states, z, Flag::Input);
    let fixed = format::flag_set(states, z, Flag::Fixed);
    Facts::fresh(inputs, fixed, z.states)
}

// The whole tree, which refutes what the aim assumes: the number of its nodes, or the first refusal. A node left over is
// refused.
pub fn walk_tree(
    states: &[u8],
    rules: &[u8],
    nodes: &[u8],
    numbers: &[u8],
    leaves: &[u8],
    z: Sizes,
    aim: Aim,
) -> Result<u16, Refusal>
    requires sound_rules { SoundRules z rules.now }
    requires aim_fits { AimFits z states.now aim }
    ensures { walked_of result ≡ tree_answer (protocol_of z states.now rules.now)
        (assumption_of (protocol_of z states.now rules.now) z numbers.now leaves.now aim)
        (tree_of z nodes.now) }
{
    let facts = root_facts(states, rules, z);
    let j = descend(
        states,
        rules,
        nodes,
        numbers,
        leaves,
        z,
        aim,
        Facts::DEPTH,
        facts,
        0,
    )?;
    let whole = j == z.nodes;
    if whole {
        Ok(j)
    } else {
        Err(Fault::Fields.refuse(u32::from(j)))
    }
}

// What a tree refutes: so many runs, that end with a state of the outputs given; whose says whose leaves the tree has.
pub fn aim_at(states: &[u8], z: Sizes, runs: usize, first: bool, second: bool, whose: Leaves) -> Aim
    requires { runs ≤ 2 }
    ensures { AimsAt z states.now runs first second whose result }
{
    let ones = format::flag_set(states, z, Flag::Output);
    let all = bits::full(z.states as usize);
    let zeros = bits::without(all, ones);
    Aim {
        runs,
        first,
        second,
        zeros,
        ones,
        whose,
    }
}

// Tests 12 and 13: the whole tree of a docket, which refutes that run 1 ends with a state of output 0 and run 2 with one of
// output 1. A docket has no numbers: what is lent for them is not read.
pub fn check_tree(
    states: &[u8],
    rules: &[u8],
    nodes: &[u8],
    leaves: &[u8],
    z: Sizes,
) -> Result<u16, Refusal>
    requires { SoundRules z rules.now }
    ensures { walked_of result ≡ tree_answer (protocol_of z states.now rules.now)
        (disagreement (protocol_of z states.now rules.now) (weights_of z leaves.now))
        (tree_of z nodes.now) }
{
    let aim = aim_at(states, z, 2, false, true, Leaves::OfDocket);
    walk_tree(states, rules, nodes, leaves, leaves, z, aim)
}

// How many states the set of node i names; none, that is 0, where its kind names no set.
fn set_size(nodes: &[u8], i: u16) -> u32
    ensures { result ≡ set_size_at nodes.now i }
{
    match Kind::try_from(format::node_kind(nodes, i) as u8) {
        Ok(Kind::Trap | Kind::Siphon) => bits::size(format::node_set(nodes, i)),
        _ => 0,
    }
}

// M: how many states the widest set of the tree names.
pub fn widest(nodes: &[u8], z: Sizes) -> u32
    ensures { result ≡ widestOf (tree_of z nodes.now) }
{
    let mut most: u32 = 0;
    for i in 0..z.nodes {
        most = most.max(set_size(nodes, i));
    }
    most
}
