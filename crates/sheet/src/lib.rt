// The check of a docket with its claim sheet: the docket's whole check, test 15, and tests 12 and 13 of the sheet's two trees.
// check_sheet has no requires: any bytes may be given.
#![tactic(auto)]

ghost use Rattle.std.specs.Prelude.{◌≡◌, ◌+◌, ◌≤◌};
ghost use Rattle.theory.specs.Sheet.{sheet_answer, first_walk, second_walk};
ghost use Rattle.format.specs.Format.{sections_of, protocol_of};
ghost use Rattle.shape.specs.Code.{SoundRules};
ghost use Rattle.threshold.specs.Numbers.{sheet_limit};
ghost use Rattle.tree.specs.Code.{walked_of};
ghost use Rattle.sheet.specs.Sheet.{tree_sizes, sheet_in, walked_sheet, sheet_check, check_sheet_of};
ghost use Rattle.sheet.specs.Code.{threshold_for, walk_for};

use format::Sizes;
use refusals::{Fault, Refusal};
use shape::Docket;
use sheetshape::SheetHeader;
use threshold::{Leaves, Threshold};

// The limit behind n numbers, plus 2,147,483,648.
pub fn sheet_limit(numbers: &[u8], n: u16) -> u32
    ensures { result ≡ sheet_limit n numbers.now }
{
    let bits = format::read32(numbers, 2 * (n as usize));
    if bits < 2147483648 {
        return bits + 2147483648;
    }
    bits - 2147483648
}

// What a tree of the sheet assumes of the weighed sum: the first that it is at least the limit, the second that it is at most one less.
fn threshold_for(second: bool, limit: u32) -> Threshold
    ensures { result ≡ threshold_for second limit }
{
    if second {
        return Threshold {
            negated: true,
            plus: 2147483649,
            minus: limit,
        };
    }
    Threshold {
        negated: false,
        plus: limit,
        minus: 2147483648,
    }
}

// The walk of one tree of the sheet, with these nodes; the first assumes an end with a state of output 0, the second one with output 1.
fn walk_sheet(
    states: &[u8],
    rules: &[u8],
    nodes: &[u8],
    numbers: &[u8],
    leaves: &[u8],
    z: Sizes,
    second: bool,
) -> Result<u16, Refusal>
    requires { SoundRules z rules.now }
    ensures { walked_of result ≡ walk_for (protocol_of z states.now rules.now) z nodes.now
        numbers.now leaves.now second }
{
    let limit = sheet_limit(numbers, z.states);
    let threshold = threshold_for(second, limit);
    let aim = tree::aim_at(states, z, 1, second, second, Leaves::OfSheet(threshold));
    tree::walk_tree(states, rules, nodes, numbers, leaves, z, aim)
}

// The sizes of the docket, with so many nodes and leaves.
fn tree_sizes(z: Sizes, nodes: u16, leaves: u16) -> Sizes
    ensures { result ≡ tree_sizes z nodes leaves }
{
    Sizes {
        version: z.version,
        states: z.states,
        rules: z.rules,
        layers: z.layers,
        nodes,
        leaves,
    }
}

// The first tree, before the second is looked at.
fn first_walk(
    states: &[u8],
    rules: &[u8],
    sheet: &[u8],
    k: SheetHeader,
    z: Sizes,
) -> Result<u16, Refusal>
    requires { SoundRules z rules.now }
    ensures { walked_of result ≡ first_walk (protocol_of z states.now rules.now) (sheet_in z sheet.now k) }
{
    walk_sheet(
        states,
        rules,
        sheetshape::first_section(sheet, k),
        sheetshape::numbers_section(sheet, k),
        sheetshape::leaves_section(sheet, k),
        tree_sizes(z, k.first, k.leaves),
        false,
    )
}

// The second tree, as if there were no other.
fn second_walk(
    states: &[u8],
    rules: &[u8],
    sheet: &[u8],
    k: SheetHeader,
    z: Sizes,
) -> Result<u16, Refusal>
    requires { SoundRules z rules.now }
    ensures { walked_of result ≡ second_walk (protocol_of z states.now rules.now) (sheet_in z sheet.now k) }
{
    walk_sheet(
        states,
        rules,
        sheetshape::second_section(sheet, k),
        sheetshape::numbers_section(sheet, k),
        sheetshape::leaves_section(sheet, k),
        tree_sizes(z, k.second, k.leaves),
        true,
    )
}

// Tests 12 and 13 of the first tree, then of the second, whose nodes are numbered on.
fn trees_check(
    states: &[u8],
    rules: &[u8],
    sheet: &[u8],
    k: SheetHeader,
    z: Sizes,
) -> Result<(), Refusal>
    requires { SoundRules z rules.now }
    ensures { result ≡ walked_sheet (sheet_answer (protocol_of z states.now rules.now)
        (sheet_in z sheet.now k)) }
{
    first_walk(states, rules, sheet, k, z)?;
    match second_walk(states, rules, sheet, k, z) {
        Ok(_) => Ok(()),
        Err(r) => Err(r.later(k.first)),
    }
}

// Test 15, then 12 and 13, with a docket that is accepted.
fn sheet_check(docket: Docket<'_>, sheet: &[u8]) -> Result<(), Refusal>
    ensures { result ≡ sheet_check docket.entry.header.sizes (sections_of docket.entry.bytes.now docket.entry.header) sheet.now }
{
    let z = docket.header.sizes;
    let states = format::states_section(docket.bytes, docket.header);
    let rules = format::rules_section(docket.bytes, docket.header);
    let k = sheetshape::read_sheet_header(sheet);
    Fault::Sheet.when(sheetshape::sheet_bad(states, sheet, k, z))?;
    trees_check(states, rules, sheet, k, z)
}

// The check of a docket with its sheet.
pub fn check_sheet(docket: &[u8], sheet: &[u8]) -> Result<(), Refusal>
    ensures { result ≡ check_sheet_of docket.now sheet.now }
{
    match shape::read_shape(docket) {
        Ok(docket) => {
            checker::certificate(docket)?;
            sheet_check(docket, sheet)
        }
        Err(r) => Err(r),
    }
}
