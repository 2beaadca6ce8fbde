// Reads one byte n and then a docket from standard input to its end, and prints one line: the number of starts with n workers besides
// the fixed ones, how many of them rest on 0 and how many on 1, the greatest step total, and the counts of the first start that needs
// it, state by state; or refused with number and place.
// Without any byte, n is 0. A docket has at most 65,535 bytes, so a buffer that is full holds no docket: its length is unlike any
// header's, which is 1, 0.
#![tactic(auto)]

ghost use Rattle.std.specs.Prelude.{◌≡◌, ◌≤◌, min, length, IfOk};

use std::io;
use std::io::{Print, Read};

// Prints the first n counts, each with a space before it, and answers how many there are.
fn print_counts(rt: &impl Print, counts: &[u32], n: u16) -> io::Result<usize>
    ensures { IfOk result (λ k. k ≡ min n (length counts.now)) }
{
    let end = usize::from(n).min(counts.len());
    let mut printed = 0;
    for count in &counts[..end] {
        print!(rt; " {count}")?;
        printed += 1;
    }
    Ok(printed)
}

// Reads n and the docket, and answers how many bytes of the docket there are.
fn read_both(input: &mut impl Read, n: &mut [u8], docket: &mut [u8]) -> io::Result<usize>
    ensures ok { IfOk result (λ end. end ≤ length docket.new) }
    ensures n_room { length n.new ≡ length n.old }
    ensures docket_room { length docket.new ≡ length docket.old }
{
    input::read_full(input, n)?;
    input::read_full(input, docket)
}

fn main(rt: HostRuntime) -> io::Result<()> {
    let mut n = [0u8; 1];
    let mut docket = [0u8; 65536];
    let Ok(end) = read_both(&mut rt.stdin(), &mut n, &mut docket) else {
        return eprintln!(rt; "tally: standard input cannot be read");
    };
    let sheet = totals::tally(&docket[..end], n[0]);
    match sheet.tallied {
        Ok(t) => {
            print!(rt; "{} {} {} {}", t.starts, t.zeros, t.ones, t.most)?;
            print_counts(&rt, &sheet.first, t.states)?;
            println!(rt)
        }
        Err(r) => println!(rt; "{r}"),
    }
}
