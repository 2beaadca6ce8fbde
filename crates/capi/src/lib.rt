// What C calls. A slice is a pointer and a length; include/docket.h has the prototypes. No function has a requires: C
// cannot meet one. A refused call neither reads nor writes behind its answer pointers.
#![tactic(auto)]

ghost use Rattle.std.specs.Prelude.{◌≡◌, length};
ghost use Rattle.theory.specs.Machine.{step as stepCall, run as runCall};
ghost use Rattle.format.specs.Format.{sections};
ghost use Rattle.checker.specs.Check.{check_of};
ghost use Rattle.sheet.specs.Sheet.{check_sheet_of};
ghost use Rattle.writer.specs.Write.{write_of, output_of};
ghost use Rattle.machine.specs.Calls.{start_of, pairs_of, terminal_of, verdict_of, reply_of, counts_of};
ghost use Rattle.page.specs.Page.{page_of, counts_after_page, results_after_page};
ghost use Rattle.codes.specs.Codes.{check_code, check_figures, answer_code, write_total, pairs_value, yes_no_value, verdict_value};
ghost use Rattle.codes.specs.Codes.{reply_code, reply_steps, reply_rests};

// The check of a docket: 0 for accepted, else the refusal's number times 65,536 plus its place.
#[unsafe(no_mangle)]
pub extern "C" fn docket_check(docket: &[u8]) -> u64
    ensures { result ≡ check_code (check_of docket.now) }
{
    codes::check_code(checker::check(docket))
}

// The check of a docket with its claim sheet: 0 for accepted, else the refusal as the check's.
#[unsafe(no_mangle)]
pub extern "C" fn docket_check_sheet(docket: &[u8], sheet: &[u8]) -> u64
    ensures { result ≡ check_code (check_sheet_of docket.now sheet.now) }
{
    codes::check_code(sheet::check_sheet(docket, sheet))
}

// The check, and S R L N W M where it accepts.
#[unsafe(no_mangle)]
pub extern "C" fn docket_figures(docket: &[u8], figures: &mut [u64; 6]) -> u64
    ensures code { result ≡ check_code (check_of docket.now) }
    ensures figures { figures.new ≡ check_figures figures.old (check_of docket.now) }
{
    let checked = checker::check(docket);
    if let Ok(f) = checked {
        *figures = codes::figures(f);
    }
    codes::check_code(checked)
}

// Writes the docket of the five sections, of this version, to the beginning of the output. Returns 0, and total is the docket's
// length; or the refusal, its number times 4,294,967,296 plus its place, as with every call below, and total is as it was.
#[unsafe(no_mangle)]
pub extern "C" fn docket_write(
    version: u32,
    states: &[u8],
    rules: &[u8],
    layers: &[u8],
    nodes: &[u8],
    leaves: &[u8],
    out: &mut [u8],
    total: &mut u64,
) -> u64
    ensures code { let x =
        sections states.now rules.now layers.now nodes.now leaves.now in
        result ≡ answer_code (write_of version x (length out.old)) }
    ensures output { let x =
        sections states.now rules.now layers.now nodes.now leaves.now in
        out.new ≡ output_of version x out.old }
    ensures total { let x =
        sections states.now rules.now layers.now nodes.now leaves.now in
        total.new ≡ write_total total.old (write_of version x (length out.old)) }
{
    let written = writer::write(version, states, rules, layers, nodes, leaves, out);
    if let Ok(n) = written {
        *total = n as u64;
    }
    codes::answer_code(written)
}

// The start test: 0 where it passes, else the refusal.
#[unsafe(no_mangle)]
pub extern "C" fn docket_start_test(docket: &[u8], counts: &[u32]) -> u64
    ensures { result ≡ answer_code (start_of docket.now counts.now) }
{
    codes::answer_code(machine::start_test(docket, counts))
}

// How many pairs of workers could make the rule's meeting: answer is the number, 0 where the rule cannot act.
#[unsafe(no_mangle)]
pub extern "C" fn docket_can_act(docket: &[u8], counts: &[u32], rule: u32, answer: &mut u64) -> u64
    ensures code { result ≡ answer_code (pairs_of docket.now counts.now rule) }
    ensures answer { answer.new ≡ pairs_value answer.old (pairs_of docket.now counts.now rule) }
{
    let pairs = machine::can_act(docket, counts, rule);
    if let Ok(n) = pairs {
        *answer = n;
    }
    codes::answer_code(pairs)
}

// Whether no rule can act: answer is 1 for yes, 0 for no.
#[unsafe(no_mangle)]
pub extern "C" fn docket_is_standstill(docket: &[u8], counts: &[u32], answer: &mut u64) -> u64
    ensures code { result ≡ answer_code (terminal_of docket.now counts.now) }
    ensures answer { answer.new ≡ yes_no_value answer.old (terminal_of docket.now counts.now) }
{
    let still = machine::is_standstill(docket, counts);
    if let Ok(yes) = still {
        *answer = u64::from(yes);
    }
    codes::answer_code(still)
}

// The verdict, at a standstill or not: answer is 0, 1, or 2 for mixed.
#[unsafe(no_mangle)]
pub extern "C" fn docket_verdict(docket: &[u8], counts: &[u32], answer: &mut u64) -> u64
    ensures code { result ≡ answer_code (verdict_of docket.now counts.now) }
    ensures answer { answer.new ≡ verdict_value answer.old (verdict_of docket.now counts.now) }
{
    let shown = machine::read_verdict(docket, counts);
    if let Ok(verdict) = shown {
        *answer = verdict.map_or(2, u64::from);
    }
    codes::answer_code(shown)
}

// The rule acts once.
#[unsafe(no_mangle)]
pub extern "C" fn docket_step(docket: &[u8], counts: &mut [u32], rule: u32) -> u64
    ensures code { result ≡ reply_code (reply_of docket.now counts.old (stepCall rule)) }
    ensures counts { counts.new ≡ counts_of docket.now counts.old (stepCall rule) }
{
    codes::answer_code(machine::step(docket, counts, rule))
}

// A run of at most `limit` steps: steps is how many it made, rests is 1 where nothing can act any more, else 0.
#[unsafe(no_mangle)]
pub extern "C" fn docket_run(
    docket: &[u8],
    counts: &mut [u32],
    limit: u32,
    steps: &mut u64,
    rests: &mut u64,
) -> u64
    ensures code { result ≡ reply_code (reply_of docket.now counts.old (runCall limit)) }
    ensures counts { counts.new ≡ counts_of docket.now counts.old (runCall limit) }
    ensures steps { steps.new ≡ reply_steps steps.old (reply_of docket.now counts.old (runCall limit)) }
    ensures rests { rests.new ≡ reply_rests rests.old (reply_of docket.now counts.old (runCall limit)) }
{
    let ran = machine::run(docket, counts, limit);
    if let Ok(run) = ran {
        *steps = u64::from(run.steps);
        *rests = u64::from(run.rests);
    }
    codes::answer_code(ran)
}

// A run of each group of a page, each of at most `limit` steps, and two results for each.
#[unsafe(no_mangle)]
pub extern "C" fn docket_run_page(
    docket: &[u8],
    counts: &mut [u32],
    limit: u32,
    results: &mut [u64],
) -> u64
    ensures code { result ≡ answer_code (page_of docket.now counts.old results.old) }
    ensures counts { counts.new ≡ counts_after_page docket.now counts.old limit results.old }
    ensures results { results.new ≡ results_after_page docket.now counts.old limit results.old }
{
    codes::answer_code(page::run_page(docket, counts, limit, results))
}
