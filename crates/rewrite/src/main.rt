// Writes the round file on standard input again, in the writer's order: table, seats, deck parts, then choices by street and by rising seat.
//
// A round file is a run of 16-byte records. Written to standard output is the file of the held round that its records lead to, finished or not: the same
// records, but for the order of choices within a street. A refused file, and the empty one, 16 at 0, writes nothing there, and `refused N at R`, the refusal's
// number and its place, to standard error. Nothing is written before all is read.
//
// Called with `--status`, it writes to file descriptor 3: 0 where it wrote a file, 1 where a refusal, 2 for a fault. It takes no other argument.
//
// Example:
//     ./run rewrite samples/choices-out-of-order.bin | ./run settle
// prints
//     1 0 1000 0 0 0
//     3 0 0 0 0 0
//     6 15000 0 0 0 0
//     pool 0 0
//
// The first 34 records are held and the bytes beyond are counted, as in `settle`. The file of the round has as many bytes as the file that led to it (`as_long`,
// crates/again/proofs/Laws.antt), so it is written into a room of that length. What is read and written is tested, not proved.

#![tactic(auto)]

use pipes::{Fault, First, Outcome, called, end, print, read_first, tell_text};
use reading::read_prefix;
use text::Page;
use writing::write_round;

const NAME: [u8; 7] = *b"rewrite";

// The bytes of the 34 records that are held.
const HELD_BYTES: usize = 544;

fn refused(rt: &impl Eprint, number: u8, place: usize) -> Outcome {
    let mut room = [0u8; 64];
    let mut page = Page::new(&mut room);
    page.put_named(b"refused ", number);
    page.put_line(b" at", &[place]);
    tell_text(rt, page.text());
    Outcome::Refused
}

fn rewritten(
    rt: &(impl Print + Eprint),
    file: &[u8],
    after: usize,
    room: &mut [u8],
) -> Result<Outcome, Fault> {
    let reading = read_prefix(file, after);
    let number = reading.number;
    let place = reading.place;
    if number != 0 {
        return Ok(refused(rt, number, place));
    }
    match write_round(reading.round, room) {
        Ok(()) => {
            print(rt, &NAME, room)?;
            Ok(Outcome::Done)
        }
        Err(refusal) => Ok(refused(rt, refusal.number(), place)),
    }
}

fn run(rt: &(impl Input + Print + Eprint)) -> Result<Outcome, Fault> {
    let mut file = [0u8; HELD_BYTES];
    let First { bytes, after } = read_first(rt, &NAME, &mut file)?;
    let mut room = file;
    rewritten(rt, &file[..bytes], after, &mut room[..bytes])
}

fn main(rt: HostRuntime) {
    if let Some(call) = called(&rt, &NAME, true) {
        end(&rt, &NAME, call, run(&rt));
    }
}
