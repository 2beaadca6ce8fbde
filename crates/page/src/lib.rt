// A page: the votes of many groups in one call. The counts of the groups stand behind each other, and so do their results, two
// numbers for each. Tests 1 to 8 are made once; then each group is run within its own part of the counts.
// run_page has no requires: any bytes, counts, limit and results may be given, and a refusal changes nothing.
#![tactic(auto)]

ghost use Rattle.std.specs.Prelude.{◌≡◌, ◌+◌, ◌*◌, ◌/◌, ◌≤◌, length};
ghost use Rattle.theory.specs.Bool.{bit};
ghost use Rattle.machine.specs.Code.{reply_of_run};
ghost use Rattle.page.specs.Page.{part_at, result_of, page_of, counts_after_page, results_after_page};
ghost use Rattle.page.specs.Code.{page_tested, run_counts, run_result, with_part, up_to};

use machine::Ran;
use refusals::{Fault, Refusal};
use shape::Docket;

// Tests 32 and 33, where there are so many states, counts and results.
fn page_tests(states: u16, counts: usize, results: usize) -> Result<(), Refusal>
    requires { 2 ≤ states }
    ensures { result ≡ page_tested states counts results }
{
    let n = states as usize;
    Fault::Groups.when((counts == 0) | (counts % n != 0))?;
    Fault::Results.when(results != 2 * (counts / n))
}

// The steps, doubled, plus 1 where the run rests.
fn doubled(steps: u32, rests: bool) -> u64
    ensures { result ≡ 2 * steps + bit rests }
{
    let twice = 2 * (steps as u64);
    if rests {
        return twice + 1;
    }
    twice
}

// Writes the two results of group g.
fn put_result(results: &mut [u64], g: usize, ran: Result<Ran, Refusal>)
    requires { 2 * g + 2 ≤ length results.old }
    ensures { results.new ≡ with_part 2 results.old g (result_of (reply_of_run ran)) }
{
    let first = 2 * g;
    let second = first + 1;
    match ran {
        Ok(run) => {
            results[first] = 0;
            results[second] = doubled(run.steps, run.rests);
        }
        Err(r) => {
            results[first] = u64::from(r.number());
            results[second] = 0;
        }
    }
}

// Runs group g within its own part of the counts, and writes its results.
fn run_group(docket: Docket<'_>, counts: &mut [u32], g: usize, limit: u32, results: &mut [u64])
    requires part { g * docket.header.sizes.states + docket.header.sizes.states ≤ length counts.old }
    requires room { 2 * g + 2 ≤ length results.old }
    ensures counts { let n = docket.entry.header.sizes.states in
        let c = counts.old in
        counts.new ≡ with_part n c g (run_counts docket.entry.bytes.now docket.entry.header limit (part_at n c g)) }
    ensures results { let n = docket.entry.header.sizes.states in
        let c = counts.old in
        results.new ≡ with_part 2 results.old g (run_result docket.entry.bytes.now docket.entry.header limit (part_at n c g)) }
{
    let start = g * (docket.header.sizes.states as usize);
    let end = start + (docket.header.sizes.states as usize);
    let ran = machine::run_in(docket, &mut counts[start..end], limit);
    put_result(results, g, ran);
}

// Runs all groups, one by one.
fn run_groups(docket: Docket<'_>, counts: &mut [u32], limit: u32, results: &mut [u64])
    requires room { length results.old ≡ 2 * (length counts.old / docket.header.sizes.states) }
    ensures counts { let n = docket.entry.header.sizes.states in
        let c = counts.old in
        counts.new ≡ up_to (run_counts docket.entry.bytes.now docket.entry.header limit) n c n c (length c / n) }
    ensures results { let n = docket.entry.header.sizes.states in
        let c = counts.old in
        results.new ≡ up_to (run_result docket.entry.bytes.now docket.entry.header limit) 2 results.old n c (length c / n) }
{
    let groups = counts.len() / (docket.header.sizes.states as usize);
    for g in 0..groups {
        run_group(docket, counts, g, limit, results);
    }
}

// Runs each group of the page with the same limit, and writes two results for each. A refused group keeps its counts and stops
// none of the others.
pub fn run_page(
    docket: &[u8],
    counts: &mut [u32],
    limit: u32,
    results: &mut [u64],
) -> Result<(), Refusal>
    ensures answer { result ≡ page_of docket.now counts.old results.old }
    ensures counts { counts.new ≡ counts_after_page docket.now counts.old limit results.old }
    ensures results { results.new ≡ results_after_page docket.now counts.old limit results.old }
{
    let read = shape::read_shape(docket);
    let Ok(docket) = read else {
        return Err(shape::refusal_of(read));
    };
    page_tests(docket.header.sizes.states, counts.len(), results.len())?;
    run_groups(docket, counts, limit, results);
    Ok(())
}
