// Answers held rounds that were made by hand, as no record could: what one record to each is answered, what settling it is, and what writing it.
//
// Standard input is a run of items of 174 bytes: a round as its 158 bytes, then a record of 16. A round's bytes are the table's seven numbers; the antes, Board,
// Pocket, Lo Ball and All-Six wagers of seats 1 to 7, two bytes each, low byte first; the 52 cards; how many deck parts were read; the 21 raises, street by street; the
// seven folds. Printed is a line for each item: `take` with `next`, `finished` or `refused N`, then `settle` with `refused N`, or with `paid`, the 35 amounts in
// cents, `pool` and the pool in dollars, full and as paid; then `write` with `refused N`, or with the records of the written file, each as hexadecimal digits
// without the zero bytes at its end.
//
// Example:
//     head -c 174 /dev/zero | ./run handmade
// prints
//     take refused 3 settle refused 16 write refused 16
//
// The items in stdin beside src/ and the lines in stdout come from the settler in oracle/, which makes both again at every test: each byte of thirteen rounds is
// changed to several others. Every function here is proved safe and ending; what the program prints is tested and not proved.

#![tactic(auto)]

ghost use Rattle.std.specs.Prelude.{◌+◌, ◌≤◌};

use choosing::Play;
use dealing::Deck;
use digits::put_records;
use pipes::{Fault, Outcome, called, end, print, read_next, take_turns};
use records::word_at;
use results::RESULTS;
use round::{Answer, Round};
use seating::{Table, Wagers};
use settlement::settle;
use text::Page;
use writing::{file_length, write_round};

const NAME: [u8; 8] = *b"handmade";

// The bytes of a round and a record.
const ITEM: usize = 174;

// The bytes of 33 records.
const FILE: usize = 528;

fn words_from(item: &[u8; ITEM], from: u8) -> [u16; 7]
    requires { from ≤ 63 }
{
    let mut words = [0u16; 7];
    for k in 0..7 {
        words[k] = word_at(item, from + 2 * (k as u8));
    }
    words
}

fn bytes_from<const N: usize>(item: &[u8; ITEM], from: usize) -> [u8; N]
    requires { from + N ≤ 174 }
{
    let mut bytes = [0u8; N];
    bytes.copy_from_slice(&item[from..from + N]);
    bytes
}

fn table_of(item: &[u8; ITEM]) -> Table {
    Table {
        smallest: item[0],
        largest: item[1],
        base: item[2],
        lo: item[3],
        board: item[4],
        pocket: item[5],
        six: item[6],
    }
}

fn round_of(item: &[u8; ITEM]) -> Round {
    Round {
        table: table_of(item),
        wagers: Wagers {
            antes: words_from(item, 7),
            board: words_from(item, 21),
            pocket: words_from(item, 35),
            lo: words_from(item, 49),
            six: words_from(item, 63),
        },
        deck: Deck {
            cards: bytes_from(item, 77),
            parts: item[129],
        },
        play: Play {
            raises: bytes_from(item, 130),
            folds: bytes_from(item, 151),
        },
    }
}

fn put_taken(page: &mut Page<'_>, answer: Answer) {
    match answer {
        Answer::Next => page.put(b"take next"),
        Answer::Finished => page.put(b"take finished"),
        Answer::Refused(number) => page.put_named(b"take refused ", number),
    }
}

fn put_settled(page: &mut Page<'_>, round: Round) {
    let mut amounts = [0u64; RESULTS];
    match settle(round, &mut amounts) {
        Ok(pool) => {
            page.put_list(b" settle paid", &amounts);
            page.put_list(b" pool", &[pool.full, pool.paid]);
        }
        Err(refusal) => page.put_named(b" settle refused ", refusal.number()),
    }
}

// Into a room of the file's length, and of a round that is longer than any file of the longest's.
fn put_written(page: &mut Page<'_>, round: Round) {
    let mut room = [0u8; FILE];
    let lent: &mut [u8] = &mut room[..file_length(round).min(FILE)];
    match write_round(round, lent) {
        Ok(()) => {
            page.put(b" write");
            put_records(page, lent);
        }
        Err(refusal) => page.put_named(b" write refused ", refusal.number()),
    }
}

// A line is at most 35 amounts of 20 digits, the pool and 33 records, so it fits its room.
fn answer_round(rt: &(impl Print + Eprint), round: Round, record: &[u8]) -> Result<(), Fault> {
    let mut line = [0u8; 2048];
    let mut page = Page::new(&mut line);
    let step = held::take(round, record);
    let answer = step.answer;
    put_taken(&mut page, answer);
    put_settled(&mut page, round);
    put_written(&mut page, round);
    page.put(b"\n");
    print(rt, &NAME, page.text())
}

// Answers the next item, where there is one.
fn answer_next(rt: &(impl Input + Print + Eprint)) -> Result<bool, Fault> {
    let mut item = [0u8; ITEM];
    if !read_next(rt, &NAME, &mut item, b"the stream ends inside an item")? {
        return Ok(false);
    }
    answer_round(rt, round_of(&item), &item[158..174])?;
    Ok(true)
}

fn run(rt: &(impl Input + Print + Eprint)) -> Result<Outcome, Fault> {
    take_turns(|| answer_next(rt))
}

fn main(rt: HostRuntime) {
    if let Some(call) = called(&rt, &NAME, true) {
        end(&rt, &NAME, call, run(&rt));
    }
}
