// Reads a docket from standard input to its end and prints one line: accepted with S R L N W M, or refused with number and
// place.
// A docket has at most 65,535 bytes, so a buffer that is full holds no docket: its length is unlike any header's, which is
// 1, 0.
#![tactic(auto)]

use std::io;

fn main(rt: HostRuntime) -> io::Result<()> {
    let mut buffer = [0u8; 65536];
    let Ok(n) = input::read_full(&mut rt.stdin(), &mut buffer) else {
        return eprintln!(rt; "docket: standard input cannot be read");
    };
    match checker::check(&buffer[..n]) {
        Ok(f) => {
            println!(rt;
                "accepted {} {} {} {} {} {}",
                f.states, f.rules, f.layers, f.nodes, f.spreads, f.widest
            )
        }
        Err(r) => println!(rt; "{r}"),
    }
}
