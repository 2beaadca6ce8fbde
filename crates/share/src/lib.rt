// The share of one state in the rule by which a leaf closes: the leaf rule goes by sums, the remainder rule by remainders. A
// weight is read with 10,000 added, so all numbers are unsigned. Every public function is total.
#![tactic(auto)]

ghost use Rattle.std.specs.Prelude.{◌≡◌, ◌+◌, ◌-◌, ◌*◌, ◌^◌, ◌<◌};
ghost use Rattle.theory.specs.Bool.{bit};
ghost use Rattle.theory.specs.Remainder.{congruent};
ghost use Rattle.format.specs.Code.{Value};
ghost use Rattle.share.specs.Code.{relates_by, joined_of, times_of, known_of, start_share, end_share, start_remainder, end_remainder};
ghost use Rattle.share.specs.Code.{both_of, sum_of, share_by, Few, ShareIs};

// How a leaf closes: by sums, or by remainders on division by a modulus. It is no Option, as each case names a rule of its own.
#[derive(Clone, Copy)]
pub enum Closing {
    BySums,
    ByRemainders(u64),
}

// What the facts say of the states at one party. A state that is absent is not among those present.
#[derive(Clone, Copy)]
pub struct Known {
    pub absent: u64,
    pub present: u64,
    pub at_most_one: u64,
}

// The fixed agents of one state, and whether every start has only these there: it has some, and is no input. They are no
// Option, as an input has fixed agents too.
#[derive(Clone, Copy)]
pub struct Fixed {
    pub agents: u16,
    pub only: bool,
}

// The share of one state. It is no Option of the two sums, as the rule sums them over all states, allowed or not.
#[derive(Clone, Copy)]
pub struct Share {
    // Whether the facts allow its weights.
    pub allowed: bool,
    // What its weights add to the sum: by sums, the lower less the upper sum.
    pub gains: u64,
    // What they take off it. At the start that is so of weights above 0.
    pub losses: u64,
}

// How far a and b are apart.
pub fn distance(a: u64, b: u64) -> u64
    ensures { result ≡ (a - b) + (b - a) }
{
    a.abs_diff(b)
}

// Whether a and b are the same modulo m. Modulo 0 a number is the same as itself alone.
fn same_modulo(m: u64, a: u64, b: u64) -> bool
    ensures { result ≡ congruent m a b }
{
    let apart = distance(a, b);
    apart == 0 || apart.is_multiple_of(m)
}

// Whether a is at most b; by remainders, whether they are the same modulo m.
pub fn relates(by: Closing, a: u64, b: u64) -> bool
    ensures { result ≡ relates_by by a b }
{
    match by {
        Closing::BySums => a <= b,
        Closing::ByRemainders(m) => same_modulo(m, a, b),
    }
}

// How much a exceeds b, or 0; and 0 unless it counts.
fn excess(counts: bool, a: u64, b: u64) -> u64
    ensures { Value (a + 1) (bit counts * (a - b)) result }
{
    if counts { a.saturating_sub(b) } else { 0 }
}

// The share of a state that joins the sum n times: y is what joins, plus b.
fn joined(allowed: bool, n: u16, b: u64, y: u64) -> Share
    requires b_bound { b < 17179869184 }
    requires y_bound { y < 17179869184 }
    ensures { ShareIs (65536 * (b + y)) (joined_of allowed n b y) result }
{
    Share {
        allowed,
        gains: u64::from(n) * b.saturating_sub(y),
        losses: u64::from(n) * y.saturating_sub(b),
    }
}

// How many times state i joins the upper sum.
fn times(known: Known, fixed: Fixed, i: usize) -> u16
    ensures { result ≡ times_of known fixed i }
{
    if fixed.agents == 0 {
        u16::from(bits::has(known.present, i))
    } else if bits::has(known.absent, i) {
        0
    } else {
        fixed.agents
    }
}

// How many agents state i is known to hold at the start: its fixed ones, where it is no input and not absent; else none.
fn known_agents(known: Known, fixed: Fixed, i: usize) -> u16
    ensures { result ≡ known_of known fixed i }
{
    let exactly = !bits::has(known.absent, i) & fixed.only;
    if exactly { fixed.agents } else { 0 }
}

// The share of state i at the start, by sums: y is what joins the upper sum, plus b.
pub fn start_share(known: Known, fixed: Fixed, i: usize, b: u64, y: u64) -> Share
    requires b_bound { b < 17179869184 }
    requires y_bound { y < 17179869184 }
    ensures { ShareIs (65536 * (b + y)) (start_share known fixed i b y) result }
{
    let n = times(known, fixed, i);
    joined(
        bits::has(known.absent, i) | (fixed.only | (y <= b)),
        n,
        b,
        y,
    )
}

// The share of state i at an end, by sums: y is its weight there, plus 10,000. By remainders there is a function beside
// each of these two: the tests and the counts differ, and what they have in common is in `joined` and `excess`. It goes by
// cases, as one expression of all tests took up to 20 % more instructions of a check.
pub fn end_share(known: Known, i: usize, y: u64) -> Share
    ensures { ShareIs (20000 + y) (end_share known i y) result }
{
    if 10000 <= y {
        Share {
            allowed: true,
            gains: excess(bits::has(known.present, i), y, 10000),
            losses: 0,
        }
    } else if bits::has(known.absent, i) {
        Share {
            allowed: true,
            gains: 0,
            losses: 0,
        }
    } else {
        Share {
            allowed: bits::has(known.at_most_one, i),
            gains: 0,
            losses: 10000 - y,
        }
    }
}

// The share of state i at the start, by remainders.
fn start_remainder(m: u64, known: Known, fixed: Fixed, i: usize, y: u64) -> Share
    requires { y < 131072 }
    ensures { ShareIs (65536 * (20000 + y)) (start_remainder m known fixed i y) result }
{
    let vanishes = same_modulo(m, y, 20000);
    let n = known_agents(known, fixed, i);
    joined(
        bits::has(known.absent, i) | (fixed.only | vanishes),
        n,
        20000,
        y,
    )
}

// The share of state i at an end, by remainders. It counts where the state is known to hold exactly one agent.
fn end_remainder(m: u64, known: Known, i: usize, y: u64) -> Share
    ensures { ShareIs (20000 + y) (end_remainder m known i y) result }
{
    let one = bits::has(known.present, i) & bits::has(known.at_most_one, i);
    let vanishes = same_modulo(m, y, 10000);
    Share {
        allowed: bits::has(known.absent, i) | (vanishes | one),
        gains: excess(one, y, 10000),
        losses: excess(one, 10000, y),
    }
}

// Two shares together.
pub fn both(a: Share, b: Share) -> Share
    requires gains { b.gains + a.gains < 2 ^ 64 }
    requires losses { b.losses + a.losses < 2 ^ 64 }
    ensures { result ≡ both_of a b }
{
    Share {
        allowed: a.allowed & b.allowed,
        gains: b.gains + a.gains,
        losses: b.losses + a.losses,
    }
}

// The shares at the start and at the two ends together.
fn together(a: Share, b: Share, c: Share) -> Share
    requires { Few 17179869184 a × Few 17179869184 b × Few 17179869184 c }
    ensures { ShareIs 68719476736 (sum_of a b c) result }
{
    both(both(a, b), c)
}

// The share of state i at the start and at both ends, by its fixed agents and by what is known there; y1 and y2 are its
// weights at the ends, plus 10,000.
pub fn share_by(
    by: Closing,
    fixed: Fixed,
    start: Known,
    first: Known,
    second: Known,
    i: usize,
    y1: u16,
    y2: u16,
) -> Share
    ensures { ShareIs 68719476736 (share_by by fixed start first second i y1 y2) result }
{
    let v = u64::from(y1);
    let w = u64::from(y2);
    let both = v + w;
    match by {
        Closing::BySums => {
            let a = start_share(start, fixed, i, 20000, both);
            together(a, end_share(first, i, v), end_share(second, i, w))
        }
        Closing::ByRemainders(m) => {
            let a = start_remainder(m, start, fixed, i, both);
            together(
                a,
                end_remainder(m, first, i, v),
                end_remainder(m, second, i, w),
            )
        }
    }
}
