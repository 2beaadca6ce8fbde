// Reads a docket and its claim sheet from standard input to its end, and prints one line: accepted with the number of each state and
// the limit, or refused with number and place. The first two bytes are the docket's length, a 16-bit number; the docket follows, and
// then the sheet.
// Missing bytes of the length are 0; where fewer bytes follow than it says, the docket is what is there, and the sheet is empty. A
// sheet has at most 65,535 bytes, so a buffer that is full holds no sheet: its length is unlike any header's, which is 15, 0.
#![tactic(auto)]

ghost use Rattle.std.specs.Prelude.{◌≡◌, ◌≤◌, ◌+◌, ◌-◌, length, IfOk};

use std::io;
use std::io::{Print, Read};

// Reads at most so many bytes of the input into the buffer, and answers how many.
fn read_part(input: &mut impl Read, buffer: &mut [u8], most: u16) -> io::Result<usize>
    ensures ok { IfOk result (λ n. n ≤ length buffer.new) }
    ensures room { length buffer.new ≡ length buffer.old }
{
    let end = most as usize;
    if buffer.len() < end {
        return input::read_full(input, buffer);
    }
    input::read_full(input, &mut buffer[..end])
}

// Prints a space and the signed number to which the bias was added, and answers the number without its sign.
fn print_signed(rt: &impl Print, number: u32, bias: u32) -> io::Result<u64>
    ensures { IfOk result (λ n. n ≡ (number - bias) + (bias - number)) }
{
    print!(rt; " ")?;
    if number < bias {
        print!(rt; "-")?;
    }
    let n = share::distance(number as u64, bias as u64);
    print!(rt; "{n}")?;
    Ok(n)
}

// Prints the numbers of n states, and answers how many there are.
fn print_numbers(rt: &impl Print, numbers: &[u8], n: u16) -> io::Result<u16>
    ensures { IfOk result (λ k. k ≡ n) }
{
    let mut printed = 0;
    for s in 0..n {
        print_signed(rt, threshold::sheet_number(numbers, s), 32768)?;
        printed += 1;
    }
    Ok(printed)
}

// Reads the docket's length, the docket and the sheet, and answers how many bytes of each there are.
fn read_both(
    input: &mut impl Read,
    docket: &mut [u8],
    sheet: &mut [u8],
) -> io::Result<(usize, usize)>
    ensures ok { IfOk result (λ ends. (ends.0 ≤ length docket.new) × (ends.1 ≤ length sheet.new)) }
    ensures docket_room { length docket.new ≡ length docket.old }
    ensures sheet_room { length sheet.new ≡ length sheet.old }
{
    let mut head = [0u8; 2];
    input::read_full(input, &mut head)?;
    let docket_end = read_part(input, docket, format::read16(&head, 0))?;
    let sheet_end = input::read_full(input, sheet)?;
    Ok((docket_end, sheet_end))
}

fn main(rt: HostRuntime) -> io::Result<()> {
    let mut docket = [0u8; 65536];
    let mut sheet = [0u8; 65536];
    let Ok((docket_end, sheet_end)) = read_both(&mut rt.stdin(), &mut docket, &mut sheet) else {
        return eprintln!(rt; "decides: standard input cannot be read");
    };
    match sheet::check_sheet(&docket[..docket_end], &sheet[..sheet_end]) {
        Ok(()) => {
            let header = sheetshape::read_sheet_header(&sheet[..sheet_end]);
            let numbers = sheetshape::numbers_section(&sheet[..sheet_end], header);
            print!(rt; "accepted")?;
            print_numbers(&rt, numbers, header.states)?;
            print_signed(&rt, sheet::sheet_limit(numbers, header.states), 2147483648)?;
            println!(rt)
        }
        Err(r) => println!(rt; "{r}"),
    }
}
