// The machine: calls on a docket's bytes and lent counts, a 32-bit number a state. Each makes tests 1 to 8 of the docket first.
// No such call has a requires: any bytes, any counts, any rule number and any limit may be given, and a refusal changes
// nothing.
// A function that ends in _in is its call on a docket that passes tests 1 to 8. Those of the start test, verdict, step and run
// are public, for crates that make several calls on one docket.
// A call takes what tests 1 to 8 find apart by `let .. else`, and passes a refusal back from there: that is the form that document 01
// names for it.
#![tactic(auto)]

ghost use Rattle.std.specs.Prelude.{◌≡◌, true, cond, ltb, Ok, Err};
ghost use Rattle.theory.specs.Protocol.{WellFormed};
ghost use Rattle.theory.specs.Ladder.{OrderedPartition};
ghost use Rattle.theory.specs.Machine.{admitted, ran, step as stepCall, run as runCall};
ghost use Rattle.format.specs.Format.{protocol_of, layers_of, protocol_in, layers_in};
ghost use Rattle.refusals.specs.Refusal.{refusal};
ghost use Rattle.machine.specs.Calls.{start_answer, pairs_answer, terminal_answer, verdict_answer, start_of, pairs_of, terminal_of, verdict_of};
ghost use Rattle.machine.specs.Code.{reply_of_step, reply_of_run, Replies, RepliesOn};

use format::{Flag, Sizes};
use refusals::{Fault, Refusal};
use shape::Docket;

// The steps that a run made, and whether it rests.
#[derive(Clone, Copy, Debug, PartialEq, Eq)]
pub struct Ran {
    pub steps: u32,
    pub rests: bool,
}

// The rule that the number names.
fn rule_in(z: Sizes, r: u32) -> Result<u16, Refusal>
    ensures { result ≡ cond (ltb r z.rules) (Ok r) (Err (refusal 23 r)) }
{
    if r < u32::from(z.rules) {
        return Ok(r as u16);
    }
    Err(Fault::NoRule.refuse(r))
}

// The start test of a docket that passes tests 1 to 8.
pub fn start_in(docket: Docket<'_>, counts: &[u32]) -> Result<(), Refusal>
    ensures { result ≡ start_answer (protocol_in docket.entry.bytes.now docket.entry.header) counts.now }
{
    let z = docket.header.sizes;
    counts::counts_fault(counts, z)?;
    let states = format::states_section(docket.bytes, docket.header);
    let place = bits::lowest(counts::unfit_states(states, z, counts));
    if 64 <= place {
        return Ok(());
    }
    Err(Fault::Start.refuse(place))
}

// The start test: two workers to a million, and every state keeps the start rule.
pub fn start_test(docket: &[u8], counts: &[u32]) -> Result<(), Refusal>
    ensures { result ≡ start_of docket.now counts.now }
{
    let read = shape::read_shape(docket);
    let Ok(docket) = read else {
        return Err(shape::refusal_of(read));
    };
    start_in(docket, counts)
}

// How many pairs of workers could make the meeting of rule number r, of a docket that passes tests 1 to 8.
fn can_act_in(docket: Docket<'_>, counts: &[u32], r: u32) -> Result<u64, Refusal>
    ensures { result ≡ pairs_answer (protocol_in docket.entry.bytes.now docket.entry.header) counts.now r }
{
    let z = docket.header.sizes;
    counts::counts_fault(counts, z)?;
    let rule = rule_in(z, r)?;
    let states = format::states_section(docket.bytes, docket.header);
    let rules = format::rules_section(docket.bytes, docket.header);
    Ok(counts::pairs(states, rules, z, counts, rule))
}

// How many pairs of workers could make the meeting of rule number r, 0 where it cannot act.
pub fn can_act(docket: &[u8], counts: &[u32], r: u32) -> Result<u64, Refusal>
    ensures { result ≡ pairs_of docket.now counts.now r }
{
    let read = shape::read_shape(docket);
    let Ok(docket) = read else {
        return Err(shape::refusal_of(read));
    };
    can_act_in(docket, counts, r)
}

// Whether no rule can act, of a docket that passes tests 1 to 8.
fn is_standstill_in(docket: Docket<'_>, counts: &[u32]) -> Result<bool, Refusal>
    ensures { result ≡ terminal_answer (protocol_in docket.entry.bytes.now docket.entry.header) counts.now }
{
    let z = docket.header.sizes;
    counts::counts_fault(counts, z)?;
    let states = format::states_section(docket.bytes, docket.header);
    let rules = format::rules_section(docket.bytes, docket.header);
    Ok(counts::choose(states, rules, z, counts).is_none())
}

// Whether no rule can act.
pub fn is_standstill(docket: &[u8], counts: &[u32]) -> Result<bool, Refusal>
    ensures { result ≡ terminal_of docket.now counts.now }
{
    let read = shape::read_shape(docket);
    let Ok(docket) = read else {
        return Err(shape::refusal_of(read));
    };
    is_standstill_in(docket, counts)
}

// The verdict of the counts, of a docket that passes tests 1 to 8.
pub fn verdict_in(docket: Docket<'_>, counts: &[u32]) -> Result<Option<bool>, Refusal>
    ensures { result ≡ verdict_answer (protocol_in docket.entry.bytes.now docket.entry.header) counts.now }
{
    let z = docket.header.sizes;
    counts::counts_fault(counts, z)?;
    let states = format::states_section(docket.bytes, docket.header);
    let occupied = counts::occupied(counts, z.states);
    let outputs = format::flag_set(states, z, Flag::Output);
    if bits::disjoint(occupied, outputs) {
        return Ok(Some(false));
    }
    if bits::subset(occupied, outputs) {
        return Ok(Some(true));
    }
    Ok(None)
}

// The verdict of the counts, at a standstill or not: 0 (false) or 1 (true) where all occupied states have it, None where it is mixed.
pub fn read_verdict(docket: &[u8], counts: &[u32]) -> Result<Option<bool>, Refusal>
    ensures { result ≡ verdict_of docket.now counts.now }
{
    let read = shape::read_shape(docket);
    let Ok(docket) = read else {
        return Err(shape::refusal_of(read));
    };
    verdict_in(docket, counts)
}

// A step on a docket that passes tests 1 to 8.
pub fn step_in(docket: Docket<'_>, counts: &mut [u32], r: u32) -> Result<(), Refusal>
    ensures { let b = docket.entry.bytes.now in
        let h = docket.entry.header in
        Replies (protocol_in b h) (layers_in b h) counts.old (stepCall r) (reply_of_step result) counts.new }
{
    let z = docket.header.sizes;
    counts::counts_fault(counts, z)?;
    let rule = rule_in(z, r)?;
    let states = format::states_section(docket.bytes, docket.header);
    let rules = format::rules_section(docket.bytes, docket.header);
    if !counts::enabled(states, rules, z, counts, rule) {
        return Err(Fault::Disabled.refuse(r));
    }
    counts::fire(states, rules, z, counts, rule);
    Ok(())
}

// Rule number r acts once.
pub fn step(docket: &[u8], counts: &mut [u32], r: u32) -> Result<(), Refusal>
    ensures { RepliesOn docket.now counts.old (stepCall r) (reply_of_step result) counts.new }
{
    let read = shape::read_shape(docket);
    let Ok(docket) = read else {
        return Err(shape::refusal_of(read));
    };
    step_in(docket, counts, r)
}

// The run from counts that pass: always the lowest rule number of the lowest layer that can act.
fn run_on(states: &[u8], rules: &[u8], z: Sizes, counts: &mut [u32], limit: u32) -> Ran
    requires well_formed { WellFormed (protocol_of z states.now rules.now) }
    requires ordered_partition { OrderedPartition (protocol_of z states.now rules.now) (layers_of z rules.now) }
    requires counts_value { admitted (protocol_of z states.now rules.now) counts.old ≡ true }
    ensures { let P = protocol_of z states.now rules.now in
        Replies P (layers_of z rules.now) counts.old (runCall limit) (ran result.steps result.rests) counts.new }
{
    for steps in 0..limit {
        let Some(r) = counts::choose(states, rules, z, counts) else {
            return Ran { steps, rests: true };
        };
        counts::fire(states, rules, z, counts, r);
    }
    let rests = counts::choose(states, rules, z, counts).is_none();
    Ran {
        steps: limit,
        rests,
    }
}

// A run on a docket that passes tests 1 to 8.
pub fn run_in(docket: Docket<'_>, counts: &mut [u32], limit: u32) -> Result<Ran, Refusal>
    ensures { let b = docket.entry.bytes.now in
        let h = docket.entry.header in
        Replies (protocol_in b h) (layers_in b h) counts.old (runCall limit) (reply_of_run result) counts.new }
{
    let z = docket.header.sizes;
    counts::counts_fault(counts, z)?;
    let states = format::states_section(docket.bytes, docket.header);
    let rules = format::rules_section(docket.bytes, docket.header);
    Ok(run_on(states, rules, z, counts, limit))
}

// A run of at most so many steps.
pub fn run(docket: &[u8], counts: &mut [u32], limit: u32) -> Result<Ran, Refusal>
    ensures { RepliesOn docket.now counts.old (runCall limit) (reply_of_run result) counts.new }
{
    let read = shape::read_shape(docket);
    let Ok(docket) = read else {
        return Err(shape::refusal_of(read));
    };
    run_in(docket, counts, limit)
}
