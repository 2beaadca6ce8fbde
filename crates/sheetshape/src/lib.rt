// The bytes of a claim sheet: its header, its sections, and test 15. Every public function is total.
#![tactic(auto)]

ghost use Rattle.std.specs.Prelude.{◌≡◌};
ghost use Rattle.theory.specs.Below.Ends.{first_where};
ghost use Rattle.format.specs.Code.{Value};
ghost use Rattle.sheetshape.specs.SheetShape.{sheet_header, numbers_length, leaves_length, numbers_in, first_nodes, second_nodes, leaves_in};
ghost use Rattle.sheetshape.specs.SheetShape.{wrong_length, wrong_counts, wrong_offsets, bad_number, bad_sheet_leaf, sheet_fault};

use format::Sizes;

// Where the sections of a sheet begin, and its total length.
#[derive(Clone, Copy)]
pub struct SheetOffsets {
    pub numbers: u16,
    pub nodes: u16,
    pub leaves: u16,
    pub total: u16,
}

// The header of a sheet: how many states, nodes of the first tree, nodes of the second, and leaves there are.
#[derive(Clone, Copy)]
pub struct SheetHeader {
    pub states: u16,
    pub first: u16,
    pub second: u16,
    pub leaves: u16,
    pub at: SheetOffsets,
}

// The header of a sheet.
pub fn read_sheet_header(sheet: &[u8]) -> SheetHeader
    ensures { result ≡ sheet_header sheet.now }
{
    let at = SheetOffsets {
        numbers: format::read16(sheet, 8),
        nodes: format::read16(sheet, 10),
        leaves: format::read16(sheet, 12),
        total: format::read16(sheet, 14),
    };
    SheetHeader {
        states: format::read16(sheet, 0),
        first: format::read16(sheet, 2),
        second: format::read16(sheet, 4),
        leaves: format::read16(sheet, 6),
        at,
    }
}

// How many bytes the numbers and the limit have.
fn numbers_length(k: SheetHeader) -> usize
    ensures { Value 131075 (numbers_length k) result }
{
    2 * (k.states as usize) + 4
}

// How many bytes the leaves have.
fn leaves_length(k: SheetHeader) -> usize
    ensures { Value 8590065664 (leaves_length k) result }
{
    2 * format::product(k.leaves, k.states) + 2 * (k.leaves as usize)
}

// The numbers and the limit.
pub fn numbers_section(sheet: &[u8], k: SheetHeader) -> &[u8]
    ensures { result.now ≡ numbers_in sheet.now k }
{
    format::section(sheet, k.at.numbers as usize, numbers_length(k))
}

// The nodes of the first tree.
pub fn first_section(sheet: &[u8], k: SheetHeader) -> &[u8]
    ensures { result.now ≡ first_nodes sheet.now k }
{
    format::section(sheet, k.at.nodes as usize, 12 * (k.first as usize))
}

// The nodes of the second tree.
pub fn second_section(sheet: &[u8], k: SheetHeader) -> &[u8]
    ensures { result.now ≡ second_nodes sheet.now k }
{
    let at = (k.at.nodes as usize) + 12 * (k.first as usize);
    format::section(sheet, at, 12 * (k.second as usize))
}

// The leaves.
pub fn leaves_section(sheet: &[u8], k: SheetHeader) -> &[u8]
    ensures { result.now ≡ leaves_in sheet.now k }
{
    format::section(sheet, k.at.leaves as usize, leaves_length(k))
}

// Whether the length of the sheet is wrong.
fn length_wrong(sheet: &[u8], k: SheetHeader) -> bool
    ensures { result ≡ wrong_length sheet.now k }
{
    let len = sheet.len();
    (len < 16) | (len != (k.at.total as usize))
}

// Whether a count of the sheet is wrong, where the docket has n states.
fn counts_wrong(k: SheetHeader, n: u16) -> bool
    ensures { result ≡ wrong_counts n k }
{
    let first = (k.first < 1) | (1024 < k.first);
    let second = (k.second < 1) | (1024 < k.second);
    (k.states != n) | first | second | (128 < k.leaves)
}

// Whether an offset of the sheet is wrong.
fn offsets_wrong(k: SheetHeader) -> bool
    ensures { result ≡ wrong_offsets k }
{
    let numbers = k.at.numbers as usize;
    let nodes = k.at.nodes as usize;
    let leaves = k.at.leaves as usize;
    let total = k.at.total as usize;
    let after_numbers = numbers + numbers_length(k);
    let after_nodes = nodes + (12 * (k.first as usize) + 12 * (k.second as usize));
    let after_leaves = leaves + leaves_length(k);
    (numbers != 16) | (nodes != after_numbers) | (leaves != after_nodes) | (total != after_leaves)
}

// Whether state s is no input and has a number other than 0.
fn number_bad(states: &[u8], numbers: &[u8], z: Sizes, s: u16) -> bool
    ensures { result ≡ bad_number z states.now numbers.now s }
{
    let input = format::is_input(states, z, s);
    let number = format::read16(numbers, 2 * (s as usize));
    !input & (number != 0)
}

// The first state whose number is bad.
fn number_fault(states: &[u8], numbers: &[u8], z: Sizes) -> Option<u16>
    ensures { result ≡ first_where z.states (bad_number z states.now numbers.now) }
{
    (0..z.states).find(|&s| number_bad(states, numbers, z, s))
}

// Whether leaf l has a weight or a multiplier outside its limits.
fn leaf_bad(leaves: &[u8], z: Sizes, l: u16) -> bool
    ensures { result ≡ bad_sheet_leaf z.states leaves.now l }
{
    let one = threshold::leaf_bytes(leaves, z, l);
    let state = leaf::first_fault(one, z, 0, 0);
    let multiplier = threshold::multiplier(one, z);
    state.is_some() | (10000 < multiplier)
}

// The first leaf of n that has a weight or a multiplier outside its limits.
fn leaf_fault(leaves: &[u8], z: Sizes, n: u16) -> Option<u16>
    ensures { result ≡ first_where n (bad_sheet_leaf z.states leaves.now) }
{
    (0..n).find(|&l| leaf_bad(leaves, z, l))
}

// Test 15: whether the sheet breaks a rule of its bytes.
pub fn sheet_bad(states: &[u8], sheet: &[u8], k: SheetHeader, z: Sizes) -> bool
    ensures { result ≡ sheet_fault z states.now sheet.now k }
{
    let header = length_wrong(sheet, k) | counts_wrong(k, z.states) | offsets_wrong(k);
    if header {
        return true;
    }
    let numbers = numbers_section(sheet, k);
    let leaves = leaves_section(sheet, k);
    number_fault(states, numbers, z).is_some() || leaf_fault(leaves, z, k.leaves).is_some()
}
