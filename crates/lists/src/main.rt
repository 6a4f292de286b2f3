// Settles with lists of 28, 34, 35 and 36 numbers, and writes into rooms of 0, 207, 208 and 209 bytes: when 1 is answered, and that a refusal changes nothing lent.
//
// Standard input is the round file of document 01. It is settled whole (`file`), without its last byte (`odd file`) and empty; then
// the round that it leads to is settled as a held round, as are the fresh one and one with a fifth deck part, which no records lead to
// (`false round`). Printed are the answer and how many numbers of the lent list were changed. The same files, as held ones, and the same rounds are written: printed
// are the answer and how many bytes of the lent room were changed.
//
// Example:
//     ./run lists samples/whole-round.bin | tail -n 1
// prints
//     false round, room of 209: refused 17, changed 0
//
// stdout beside src/ is worked out from the documents' order: a file 1, 2, then record by record; a held round 17, 1, 16; writing 17, 16, 1. What the program
// prints is tested and not proved.

#![tactic(auto)]

use causes::Refusal;
use filing::rewrite_file;
use pipes::{Fault, Outcome, called, end, print, read_all, tell};
use reading::read_file;
use round::Round;
use settlement::{Faulty, Paid, settle, settle_file};
use text::Page;
use writing::write_round;

const NAME: [u8; 5] = *b"lists";

const ROOM: usize = 36;

// What stands in the list before: no amount of the round.
const BEFORE: u64 = 7;

// The round file's bytes.
const WHOLE: usize = 208;

// The longest room for them, and what stands there before: no byte of the round.
const BYTES: usize = 209;

const BYTE_BEFORE: u8 = 255;

// The lengths of a list that are tried, and those of a room.
const LENGTHS: [(usize, usize); 4] = [(28, 0), (34, 207), (35, 208), (36, 209)];

// How many of what was lent are no longer what stood there before.
fn changed<T: PartialEq>(lent: &[T], before: &T) -> usize {
    lent.iter().filter(|now| *now != before).count()
}

// A line's beginning: what was settled or written, and how long the list or the room was.
fn put_question(page: &mut Page<'_>, what: &[u8], lent: &[u8], n: usize) {
    page.put(what);
    page.put(lent);
    page.put_named(b" of ", n);
}

fn put_file(page: &mut Page<'_>, answer: Result<Paid, Faulty>) {
    match answer {
        Ok(pool) => page.put_list(b": pool", &[pool.full, pool.paid]),
        Err(faulty) => {
            page.put_named(b": refused ", faulty.number);
            page.put_named(b" at ", faulty.place);
        }
    }
}

fn put_round(page: &mut Page<'_>, answer: Result<Paid, Refusal>) {
    match answer {
        Ok(pool) => page.put_list(b": pool", &[pool.full, pool.paid]),
        Err(refusal) => page.put_named(b": refused ", refusal.number()),
    }
}

fn put_written(page: &mut Page<'_>, answer: Result<(), Refusal>) {
    match answer {
        Ok(()) => page.put(b": written"),
        Err(refusal) => page.put_named(b": refused ", refusal.number()),
    }
}

fn ask_file(rt: &(impl Print + Eprint), what: &[u8], file: &[u8], n: usize) -> Result<(), Fault> {
    let mut list = [BEFORE; ROOM];
    let answer = settle_file(file, &mut list[..n.min(ROOM)]);
    let mut line = [0u8; 128];
    let mut page = Page::new(&mut line);
    put_question(&mut page, what, b", list", n);
    put_file(&mut page, answer);
    page.put_line(b", changed", &[changed(&list, &BEFORE)]);
    print(rt, &NAME, page.text())
}

fn ask_round(rt: &(impl Print + Eprint), what: &[u8], round: Round, n: usize) -> Result<(), Fault> {
    let mut list = [BEFORE; ROOM];
    let answer = settle(round, &mut list[..n.min(ROOM)]);
    let mut line = [0u8; 128];
    let mut page = Page::new(&mut line);
    put_question(&mut page, what, b", list", n);
    put_round(&mut page, answer);
    page.put_line(b", changed", &[changed(&list, &BEFORE)]);
    print(rt, &NAME, page.text())
}

fn ask_rewrite(
    rt: &(impl Print + Eprint),
    what: &[u8],
    file: &[u8],
    n: usize,
) -> Result<(), Fault> {
    let mut room = [BYTE_BEFORE; BYTES];
    let answer = rewrite_file(file, &mut room[..n.min(BYTES)]);
    write_written(rt, what, n, answer, &room)
}

fn ask_write(rt: &(impl Print + Eprint), what: &[u8], round: Round, n: usize) -> Result<(), Fault> {
    let mut room = [BYTE_BEFORE; BYTES];
    let answer = write_round(round, &mut room[..n.min(BYTES)]);
    write_written(rt, what, n, answer, &room)
}

fn write_written(
    rt: &(impl Print + Eprint),
    what: &[u8],
    n: usize,
    answer: Result<(), Refusal>,
    room: &[u8],
) -> Result<(), Fault> {
    let mut line = [0u8; 128];
    let mut page = Page::new(&mut line);
    put_question(&mut page, what, b", room", n);
    put_written(&mut page, answer);
    page.put_line(b", changed", &[changed(room, &BYTE_BEFORE)]);
    print(rt, &NAME, page.text())
}

fn with_a_fifth_part(mut round: Round) -> Round {
    round.deck.parts = 5;
    round
}

fn ask_files(rt: &(impl Print + Eprint), file: &[u8; WHOLE], n: usize) -> Result<(), Fault> {
    ask_file(rt, b"file", file, n)?;
    ask_file(rt, b"odd file", &file[..207], n)?;
    ask_file(rt, b"empty file", &[], n)
}

// The rounds that files lead to.
fn ask_rounds(rt: &(impl Print + Eprint), file: &[u8; WHOLE], n: usize) -> Result<(), Fault> {
    let round = read_file(file).round;
    let fresh = read_file(&[]).round;
    ask_round(rt, b"round", round, n)?;
    ask_round(rt, b"fresh round", fresh, n)?;
    ask_round(rt, b"false round", with_a_fifth_part(round), n)
}

fn write_files(rt: &(impl Print + Eprint), file: &[u8; WHOLE], n: usize) -> Result<(), Fault> {
    ask_rewrite(rt, b"file", file, n)?;
    ask_rewrite(rt, b"odd file", &file[..207], n)?;
    ask_rewrite(rt, b"empty file", &[], n)
}

fn write_rounds(rt: &(impl Print + Eprint), file: &[u8; WHOLE], n: usize) -> Result<(), Fault> {
    let round = read_file(file).round;
    ask_write(rt, b"round", round, n)?;
    ask_write(rt, b"fresh round", Round::fresh(), n)?;
    ask_write(rt, b"false round", with_a_fifth_part(round), n)
}

fn ask_all(rt: &(impl Print + Eprint), file: &[u8; WHOLE]) -> Result<Outcome, Fault> {
    for (list, room) in LENGTHS {
        ask_files(rt, file, list)?;
        ask_rounds(rt, file, list)?;
        write_files(rt, file, room)?;
        write_rounds(rt, file, room)?;
    }
    Ok(Outcome::Done)
}

fn run(rt: &(impl Input + Print + Eprint)) -> Result<Outcome, Fault> {
    let mut file = [0u8; WHOLE];
    let bytes = read_all(rt, &NAME, &mut file, b"reads a file of 208 bytes")?;
    if bytes < WHOLE {
        tell(rt, &NAME, b"reads a file of 208 bytes");
        return Err(Fault);
    }
    ask_all(rt, &file)
}

fn main(rt: HostRuntime) {
    if let Some(call) = called(&rt, &NAME, true) {
        end(&rt, &NAME, call, run(&rt));
    }
}
