// The sheet of exact totals: every start with n agents besides the fixed ones is run until it rests. The starts are gone through one
// after the other, in one buffer of counts; each is copied and run in a second one.
// tally has no requires: any bytes and any n may be given.
#![tactic(auto)]

ghost use Rattle.std.specs.Prelude.{◌≡◌, cond, length, Err, IfOk, IsOk, MatchResult};
ghost use Rattle.theory.specs.Bool.{bit};
ghost use Rattle.theory.specs.Machine.{rest_of, meetings_of};
ghost use Rattle.checker.specs.Check.{check_of};
ghost use Rattle.format.specs.Format.{protocol_in, layers_in, weight_in};
ghost use Rattle.machine.specs.Code.{reply_of_run};
ghost use Rattle.totals.specs.Totals.{steps_to_rest, first_most, totals_of, Allowed, refused_sheet, full_sheet, sheet_in, sheet_of};
ghost use Rattle.totals.specs.Code.{Runs, Group, goes_on, agrees_on, Room, with_start, needs_most, counted};

use machine::Ran;
use refusals::{Fault, Refusal};
use shape::Docket;

// What is counted: the starts, how many of them rest on 0 and how many on 1, the greatest step total; and how many states there are.
#[derive(Clone, Copy)]
pub struct Totals {
    pub states: u16,
    pub starts: u64,
    pub zeros: u64,
    pub ones: u64,
    pub most: u64,
}

// The answer, and the counts of the first start that needs the greatest step total, with 0 behind the last state. Where the call is
// refused they are all 0: they stand beside the answer because the claim no_counts (claims, OfTotals) speaks of them then too.
#[derive(Clone, Copy)]
pub struct Sheet {
    pub tallied: Result<Totals, Refusal>,
    pub first: [u32; 64],
}

// The steps that a run made.
fn steps_in(ran: &Result<Ran, Refusal>) -> u64
    ensures { result ≡ meetings_of (reply_of_run ran.now) }
{
    match ran {
        Ok(run) => u64::from(run.steps),
        Err(_) => 0,
    }
}

// Whether a run stopped at its limit.
fn goes_on(ran: &Result<Ran, Refusal>) -> bool
    ensures { result ≡ goes_on (reply_of_run ran.now) }
{
    match ran {
        Ok(run) => !run.rests,
        Err(_) => false,
    }
}

// Runs the counts until they rest, and answers the steps that were made. A run has a limit of 32 bits, so runs are repeated.
fn run_to_rest(docket: Docket<'_>, counts: &mut [u32]) -> u64
    requires docket { Runs docket.bytes.now docket.header }
    requires counts { Group (protocol_in docket.bytes.now docket.header) counts.old }
    ensures steps { let b = docket.entry.bytes.now in
        let h = docket.entry.header in
        result ≡ steps_to_rest (protocol_in b h) (layers_in b h) (weight_in b h) counts.old }
    ensures counts { let b = docket.entry.bytes.now in
        let h = docket.entry.header in
        counts.new ≡ rest_of (protocol_in b h) (layers_in b h) (weight_in b h) counts.old }
{
    let mut total: u64 = 0;
    let mut going = true;
    while going {
        let ran = machine::run_in(docket, counts, 4294967295);
        total += steps_in(&ran);
        going = goes_on(&ran);
    }
    total
}

// Copies counts into others of the same number. It is a loop since `copy_from_slice` would need `memmove`.
fn copy(from: &[u32], to: &mut [u32])
    requires { length to.old ≡ length from.now }
    ensures { to.new ≡ from.now }
{
    for (i, n) in from.iter().enumerate() {
        to[i] = *n;
    }
}

// 1 where the verdict is this one, else 0.
fn agrees_on(verdict: &Result<Option<bool>, Refusal>, v: bool) -> u64
    ensures { result ≡ bit (agrees_on v verdict.now) }
{
    match verdict {
        Ok(Some(u)) => u64::from(*u == v),
        Ok(None) | Err(_) => 0,
    }
}

// Whether a start that takes so many steps takes more than every start before it, or is the first start.
fn needs_most(t: Totals, steps: u64) -> bool
    ensures { result ≡ needs_most t steps }
{
    (t.starts == 0) | (t.most < steps)
}

// The totals with one start more, which takes so many steps and rests on this verdict.
fn with_start(t: Totals, steps: u64, verdict: Result<Option<bool>, Refusal>) -> Totals
    requires { Room t }
    ensures { result ≡ with_start t steps verdict }
{
    Totals {
        states: t.states,
        starts: t.starts + 1,
        zeros: t.zeros + agrees_on(&verdict, false),
        ones: t.ones + agrees_on(&verdict, true),
        most: t.most.max(steps),
    }
}

// Counts one start: it is copied and run until it rests. Where it takes more steps than every start before it, it is kept in `first`.
fn tally_start(
    docket: Docket<'_>,
    counts: &[u32],
    work: &mut [u32],
    first: &mut [u32],
    t: Totals,
) -> Totals
    requires docket { Runs docket.bytes.now docket.header }
    requires counts { Group (protocol_in docket.bytes.now docket.header) counts.now }
    requires work { length work.old ≡ length counts.now }
    requires first { length first.old ≡ length counts.now }
    requires room { Room t }
    ensures totals { let b = docket.entry.bytes.now in
        let h = docket.entry.header in
        result ≡ counted (protocol_in b h) (layers_in b h) (weight_in b h) t counts.now }
    ensures first { let b = docket.entry.bytes.now in
        let h = docket.entry.header in
        let c = counts.now in
        first.new ≡ cond (needs_most t (steps_to_rest (protocol_in b h) (layers_in b h) (weight_in b h) c)) c first.old }
{
    copy(counts, work);
    let steps = run_to_rest(docket, work);
    if needs_most(t, steps) {
        copy(counts, first);
    }
    let verdict = machine::verdict_in(docket, work);
    with_start(t, steps, verdict)
}

// Counts all starts, one after the other.
fn tally_starts(
    docket: Docket<'_>,
    n: u8,
    counts: &mut [u32],
    work: &mut [u32],
    first: &mut [u32],
) -> Totals
    requires docket { Runs docket.bytes.now docket.header }
    requires small { Allowed (protocol_in docket.bytes.now docket.header) n }
    requires counts { length counts.old ≡ docket.header.sizes.states }
    requires work { length work.old ≡ docket.header.sizes.states }
    requires first { length first.old ≡ docket.header.sizes.states }
    ensures totals { let b = docket.entry.bytes.now in
        let h = docket.entry.header in
        result ≡ totals_of (protocol_in b h) (layers_in b h) (weight_in b h) n }
    ensures first { let b = docket.entry.bytes.now in
        let h = docket.entry.header in
        first.new ≡ first_most (protocol_in b h) (layers_in b h) (weight_in b h) n }
{
    let z = docket.header.sizes;
    let states = format::states_section(docket.bytes, docket.header);
    starts::first_start(states, z, n, counts);
    let mut t = Totals {
        states: z.states,
        starts: 0,
        zeros: 0,
        ones: 0,
        most: 0,
    };
    let mut going = true;
    while going {
        t = tally_start(docket, counts, work, first, t);
        going = starts::next_start(states, z, counts);
    }
    t
}

// A sheet without totals.
fn refused_sheet(r: Refusal) -> Sheet
    ensures { result ≡ refused_sheet r }
{
    Sheet {
        tallied: Err(r),
        first: [0u32; 64],
    }
}

// The sheet of an accepted docket, where at most eight states are inputs and n is 2 to 12.
fn full_sheet(docket: Docket<'_>, n: u8) -> Sheet
    requires docket { Runs docket.bytes.now docket.header }
    requires small { Allowed (protocol_in docket.bytes.now docket.header) n }
    ensures { let b = docket.entry.bytes.now in
        let h = docket.entry.header in
        result ≡ full_sheet (protocol_in b h) (layers_in b h) (weight_in b h) n }
{
    let end = usize::from(docket.header.sizes.states);
    let mut counts = [0u32; 64];
    let mut work = [0u32; 64];
    let mut first = [0u32; 64];
    let t = tally_starts(
        docket,
        n,
        &mut counts[..end],
        &mut work[..end],
        &mut first[..end],
    );
    Sheet {
        tallied: Ok(t),
        first,
    }
}

// Test 34 and the totals, of an accepted docket.
fn tally_in(docket: Docket<'_>, n: u8) -> Sheet
    requires { Runs docket.bytes.now docket.header }
    ensures { let b = docket.entry.bytes.now in
        let h = docket.entry.header in
        result ≡ sheet_in (protocol_in b h) (layers_in b h) (weight_in b h) n }
{
    let inputs = starts::input_count(
        format::states_section(docket.bytes, docket.header),
        docket.header.sizes,
    );
    let outside = (8 < inputs) | ((n < 2) | (12 < n));
    if outside {
        return refused_sheet(Fault::Totals.refuse(0));
    }
    full_sheet(docket, n)
}

// The docket, where it is accepted.
fn accepted(docket: &[u8]) -> Result<Docket<'_>, Refusal>
    ensures check { MatchResult result (λ _. IsOk (check_of docket.now)) (λ r. check_of docket.now ≡ Err r) }
    ensures docket { IfOk result (λ d. (d.bytes.now ≡ docket.now) × Runs d.bytes.now d.header) }
{
    match shape::read_shape(docket) {
        Ok(docket) => {
            checker::certificate(docket)?;
            Ok(docket)
        }
        Err(r) => Err(r),
    }
}

// The totals of the starts with n agents besides the fixed ones.
pub fn tally(docket: &[u8], n: u8) -> Sheet
    ensures { result ≡ sheet_of docket.now n }
{
    match accepted(docket) {
        Ok(docket) => tally_in(docket, n),
        Err(r) => refused_sheet(r),
    }
}
