// The starts with n agents besides the fixed ones, one after the other in the document's order, in lent counts: the first, and
// the next after a start. No list of them is kept.
#![tactic(auto)]

ghost use Rattle.std.specs.Prelude.{◌≡◌, true, cond, [], ◌≤◌, ◌<◌, length, ltb};
ghost use Rattle.theory.specs.Below.Ends.{first_from, end_below, table};
ghost use Rattle.theory.specs.Protocol.{HasInput};
ghost use Rattle.theory.specs.Starts.{inputs_of as inputCount};
ghost use Rattle.theory.specs.Starts.Next.{has_spare, givers_end, first_start, next_start};
ghost use Rattle.format.specs.Format.{is_input, fixed_of, protocol_of};
ghost use Rattle.starts.specs.Code.{AtLeastFixed, Passable, passed_on};

use format::Sizes;

// How many states are inputs.
pub fn input_count(states: &[u8], z: Sizes) -> u16
    ensures { result ≡ inputCount (protocol_of z states.now []) }
{
    let mut n: u16 = 0;
    for s in 0..z.states {
        if format::is_input(states, z, s) {
            n += 1;
        }
    }
    n
}

// The first input from state `from` on; the number of states where there is none. No Option: the callers know that there is one.
fn next_input(states: &[u8], z: Sizes, from: u16) -> u16
    requires { from ≤ z.states }
    ensures { result ≡ first_from from z.states (is_input z states.now) }
{
    (from..z.states)
        .find(|s| format::is_input(states, z, *s))
        .unwrap_or(z.states)
}

// One past the last input; 0 where there is none.
fn inputs_end(states: &[u8], z: Sizes) -> u16
    ensures { result ≡ end_below z.states (is_input z states.now) }
{
    for s in (0..z.states).rev() {
        if format::is_input(states, z, s) {
            return s + 1;
        }
    }
    0
}

// Whether state s has more than its fixed agents.
fn has_spare(states: &[u8], z: Sizes, counts: &[u32], s: u16) -> bool
    ensures { result ≡ has_spare (protocol_of z states.now []) counts.now s }
{
    u32::from(format::fixed_agents(states, z, s)) < counts::count(counts, usize::from(s))
}

// One past the last state below `last` that has more than its fixed agents; 0 where there is none.
fn givers_end(states: &[u8], z: Sizes, counts: &[u32], last: u16) -> u16
    ensures { result ≡ end_below last (has_spare (protocol_of z states.now []) counts.now) }
{
    for s in (0..last).rev() {
        if has_spare(states, z, counts, s) {
            return s + 1;
        }
    }
    0
}

// Puts the fixed agents into every state, and no others.
fn put_fixed(states: &[u8], z: Sizes, counts: &mut [u32])
    requires { length counts.old ≡ z.states }
    ensures { counts.new ≡ table z.states (fixed_of z states.now) }
{
    for s in 0..z.states {
        counts[usize::from(s)] = u32::from(format::fixed_agents(states, z, s));
    }
}

// The first start: all n agents are in the first input.
pub fn first_start(states: &[u8], z: Sizes, n: u8, counts: &mut [u32])
    requires inputs { HasInput (protocol_of z states.now []) }
    requires room { length counts.old ≡ z.states }
    ensures { counts.new ≡ first_start (protocol_of z states.now []) n }
{
    put_fixed(states, z, counts);
    let first = next_input(states, z, 0);
    let fixed = format::fixed_agents(states, z, first) as u32;
    counts[first as usize] = fixed + (n as u32);
}

// One agent goes from state `from` to state `to`, and so do all that the last input has besides its fixed ones, which are `kept`. The
// fixed ones of `to` are `base`; before, it has no others, or is the last input.
fn pass_on(counts: &mut [u32], from: usize, to: usize, last: usize, kept: u16, base: u16)
    requires { Passable counts.old from to last kept }
    ensures { counts.new ≡ passed_on counts.old from to last kept base }
{
    let left = counts[from] - 1;
    let moved = counts[last] - (kept as u32) + 1;
    counts[last] = kept as u32;
    counts[from] = left;
    counts[to] = (base as u32) + moved;
}

// The start after this one. Where this one is the last it stays, and the answer is no.
pub fn next_start(states: &[u8], z: Sizes, counts: &mut [u32]) -> bool
    requires inputs { HasInput (protocol_of z states.now []) }
    requires start { AtLeastFixed z states.now counts.old }
    ensures answer { result ≡ ltb 0 (givers_end (protocol_of z states.now []) counts.old) }
    ensures counts { let P = protocol_of z states.now [] in
        let c = counts.old in
        counts.new ≡ cond result (next_start P c) c }
{
    let last = inputs_end(states, z) - 1;
    let end = givers_end(states, z, counts, last);
    if end == 0 {
        return false;
    }
    let to = next_input(states, z, end);
    let kept = format::fixed_agents(states, z, last);
    let base = format::fixed_agents(states, z, to);
    let from = (end - 1) as usize;
    pass_on(counts, from, to as usize, last as usize, kept, base);
    true
}
