// Settles the shift on standard input, rounds joined end to end: what each gives, a line a round.
//
// A shift is a run of 16-byte records. Record 0 starts a round, and so does every later record of kind 1. Printed is, of a round that is settled, `paid`, its 35 amounts in
// cents (seats 1 to 7, each base, Board, Pocket, Lo Ball, All-Six), `pool` and the pool in dollars, full and as paid; of a refused one `refused N at R`, the
// refusal's number and its place within the round. A shift that isn't whole records prints only `refused 2 at R`, and an empty one nothing. Nothing is printed before
// all is settled, and nothing where a read fails: that, a write that fails, and a shift of more than 4096 rounds or 2162688 bytes, is told on standard error.
//
// Called with `--status`, it writes to file descriptor 3: 0 where the shift is settled, whatever its rounds are, 1 where it is refused, 2 for a fault. It takes no
// other argument.
//
// Example:
//     head -c 224 samples/shift.bin | ./run shift
// prints
//     paid 2183300 20500 10500 0 0 516700 0 0 0 0 0 0 0 0 0 0 0 0 0 0 0 0 0 0 0 0 0 0 0 0 0 0 0 0 0 pool 600000 25000
//     refused 16 at 1
//
// The amounts and the refusals are those of the lists that settle_shift fills; it tells no pool, so each round's comes from its own call. What is read and printed is
// tested, not proved.

#![tactic(auto)]

use cutting::{count_rounds, first_round};
use pipes::{Fault, Outcome, called, end, print, read_all, tell};
use results::RESULTS;
use settlement::{Faulty, Paid, settle_file};
use shifts::{ANSWER, settle_shift};
use text::Page;

const NAME: [u8; 5] = *b"shift";

// A table's day is some hundreds of rounds, and no settled one has more than 33 records.
const ROUNDS: usize = 4096;

const BYTES: usize = 528 * ROUNDS;

const AMOUNTS: usize = RESULTS * ROUNDS;

const ANSWERS: usize = ANSWER * ROUNDS;

const TOO_LONG: [u8; 43] = *b"holds at most 4096 rounds and 2162688 bytes";

fn put_refused(page: &mut Page<'_>, number: u64, place: u64) {
    page.put_named(b"refused ", number);
    page.put_line(b" at", &[place]);
}

fn put_answer(page: &mut Page<'_>, answer: &[u64]) {
    if let [number, place] = answer {
        put_refused(page, *number, *place);
    }
}

fn put_paid(page: &mut Page<'_>, amounts: &[u64], pool: Paid) {
    page.put_list(b"paid", amounts);
    page.put_line(b" pool", &[pool.full, pool.paid]);
}

fn put_round(page: &mut Page<'_>, file: &[u8], amounts: &[u64], answer: &[u64]) {
    let mut own = [0u64; RESULTS];
    match settle_file(file, &mut own) {
        Ok(pool) => put_paid(page, amounts, pool),
        Err(_) => put_answer(page, answer),
    }
}

// A line is at most 35 amounts and the pool, of 20 digits each, so it fits its room.
fn print_round(
    rt: &(impl Print + Eprint),
    file: &[u8],
    amounts: &[u64],
    answer: &[u64],
) -> Result<(), Fault> {
    let mut room = [0u8; 1024];
    let mut page = Page::new(&mut room);
    put_round(&mut page, file, amounts, answer);
    print(rt, &NAME, page.text())
}

// Both lists have a row for each round.
fn print_rounds(
    rt: &(impl Print + Eprint),
    file: &[u8],
    amounts: &[u64],
    answers: &[u64],
) -> Result<Outcome, Fault> {
    let mut rest = file;
    for (paid, told) in amounts
        .chunks_exact(RESULTS)
        .zip(answers.chunks_exact(ANSWER))
    {
        let end = first_round(rest);
        print_round(rt, &rest[..end], paid, told)?;
        rest = &rest[end..];
    }
    Ok(Outcome::Done)
}

fn print_refused(rt: &(impl Print + Eprint), faulty: Faulty) -> Result<Outcome, Fault> {
    let mut room = [0u8; 64];
    let mut page = Page::new(&mut room);
    put_refused(&mut page, faulty.number as u64, faulty.place as u64);
    print(rt, &NAME, page.text())?;
    Ok(Outcome::Refused)
}

fn too_many(rt: &impl Eprint) -> Fault {
    tell(rt, &NAME, &TOO_LONG);
    Fault
}

// Into lists that may be longer than the rounds need.
fn settled(
    rt: &(impl Print + Eprint),
    file: &[u8],
    room: &mut [u64],
    told: &mut [u64],
) -> Result<Outcome, Fault> {
    let rounds = count_rounds(file);
    if (room.len() / RESULTS < rounds) | (told.len() / ANSWER < rounds) {
        return Err(too_many(rt));
    }
    let amounts: &mut [u64] = &mut room[..RESULTS * rounds];
    let answers: &mut [u64] = &mut told[..ANSWER * rounds];
    match settle_shift(file, amounts, answers) {
        Ok(_) => print_rounds(rt, file, amounts, answers),
        Err(faulty) => print_refused(rt, faulty),
    }
}

fn settled_in_rooms(rt: &(impl Print + Eprint), file: &[u8]) -> Result<Outcome, Fault> {
    let mut room = [0u64; AMOUNTS];
    let mut told = [0u64; ANSWERS];
    settled(rt, file, &mut room, &mut told)
}

fn read_and_settled(rt: &(impl Input + Print + Eprint), room: &mut [u8]) -> Result<Outcome, Fault> {
    let bytes = read_all(rt, &NAME, room, &TOO_LONG)?;
    settled_in_rooms(rt, &room[..bytes])
}

fn run(rt: &(impl Input + Print + Eprint)) -> Result<Outcome, Fault> {
    let mut file = [0u8; BYTES];
    read_and_settled(rt, &mut file)
}

fn main(rt: HostRuntime) {
    if let Some(call) = called(&rt, &NAME, true) {
        end(&rt, &NAME, call, run(&rt));
    }
}
