// Settles the round file on standard input: what each seat is owed, in cents, or the refusal and its place.
//
// A round file is a run of 16-byte records. Printed are each playing seat's number and five amounts in cents (base, Board, Pocket, Lo Ball, All-Six), then
// the pool in dollars, full and as paid; or only `refused N at R`, the refusal's number and its place. Nothing is printed before all is read, and nothing
// where a read fails: that, and a write that fails, is told on standard error.
//
// Called with `--status`, it writes to file descriptor 3: 0 where it printed amounts, 1 where a refusal, 2 for a fault. It takes no other argument.
//
// Example:
//     ./run settle samples/whole-round.bin
// prints
//     1 2183300 20500 10500 0 0
//     2 516700 0 0 0 0
//     pool 600000 25000
//
// The first 34 records are held and the bytes beyond are counted, which is enough for the answer of the whole file
// (`prefix_is_file`, crates/demands/proofs/Demands.antt). What is read and printed is tested, not proved.

#![tactic(auto)]

ghost use Rattle.std.specs.Prelude.{◌≤◌, IfSome};

use pipes::{Fault, First, Outcome, called, end, print, read_first};
use results::{RESULTS, SEAT_WAGERS};
use settlement::{Faulty, Paid, settle_prefix};
use text::Page;

const NAME: [u8; 6] = *b"settle";

// The records that are held, and their bytes.
const HELD: usize = 34;

const HELD_BYTES: usize = 16 * HELD;

// The seat of a seat record, where it has one.
fn seat_of(record: &[u8]) -> Option<usize>
    ensures { IfSome result (λ seat. (1 ≤ seat) × (seat ≤ 7)) }
{
    match record {
        [2, seat @ 1..=7, ..] => Some(*seat as usize),
        _ => None,
    }
}

// The playing seats are those that have a seat record, and these come by rising numbers. A seat's line has its number and its amounts.
fn put_seats(page: &mut Page<'_>, file: &[u8], results: [u64; RESULTS]) {
    for record in file.chunks_exact(16) {
        if let Some(seat) = seat_of(record) {
            let end = SEAT_WAGERS * seat;
            page.put_number(seat);
            page.put_line(b"", &results[end - SEAT_WAGERS..end]);
        }
    }
}

// At most 34 lines of 107 bytes and one of 47, so they fit their room.
fn print_paid(
    rt: &(impl Print + Eprint),
    file: &[u8],
    results: [u64; RESULTS],
    pool: Paid,
) -> Result<Outcome, Fault> {
    let mut room = [0u8; 4096];
    let mut page = Page::new(&mut room);
    put_seats(&mut page, file, results);
    page.put_line(b"pool", &[pool.full, pool.paid]);
    print(rt, &NAME, page.text())?;
    Ok(Outcome::Done)
}

fn print_refused(rt: &(impl Print + Eprint), faulty: Faulty) -> Result<Outcome, Fault> {
    let mut room = [0u8; 64];
    let mut page = Page::new(&mut room);
    page.put_named(b"refused ", faulty.number);
    page.put_line(b" at", &[faulty.place]);
    print(rt, &NAME, page.text())?;
    Ok(Outcome::Refused)
}

fn settled(rt: &(impl Print + Eprint), file: &[u8], more: usize) -> Result<Outcome, Fault> {
    let mut results = [0u64; RESULTS];
    match settle_prefix(file, more, &mut results) {
        Ok(pool) => print_paid(rt, file, results, pool),
        Err(faulty) => print_refused(rt, faulty),
    }
}

fn run(rt: &(impl Input + Print + Eprint)) -> Result<Outcome, Fault> {
    let mut file = [0u8; HELD_BYTES];
    let First { bytes, after } = read_first(rt, &NAME, &mut file)?;
    settled(rt, &file[..bytes], after)
}

fn main(rt: HostRuntime) {
    if let Some(call) = called(&rt, &NAME, true) {
        end(&rt, &NAME, call, run(&rt));
    }
}
