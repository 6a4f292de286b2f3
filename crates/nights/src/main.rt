// Answers a stream of shifts, as the functions for C and Rust do, to be compared with what another settler answers.
//
// A shift of the stream comes after three numbers of two bytes, low byte first: how many amounts it is lent, at most 4096, how many answers, at most 256, and how many bytes it has.
// Both lists hold a mark before the call. Printed is a line for each shift: `rounds` with how many it has, then `settled` with how many its answer tells, or `refused N at R` with the
// refusal's number and place, and `kept` where both lists are still as they were, `changed` where they aren't. Of a settled shift comes a line for each round: `answer` with its
// two numbers and `amounts` with its 35. A stream that ends inside a shift, or lends more, is told on standard error.
//
// Example:
//     printf '\0\0\2\0\1\0x' | ./run nights
// prints
//     rounds 0 refused 2 at 0 kept
//
// The shifts in stdin beside src/ and the lines in stdout come from the settler in oracle/, which makes both again at every test. Every function here is proved safe and
// ending; what the program prints is tested and not proved.

#![tactic(auto)]

ghost use Rattle.std.specs.Prelude.{◌≤◌};

use pipes::{Fault, Outcome, called, end, print, read_next, read_whole, take_turns, tell};
use records::word_at;
use results::RESULTS;
use ripplehatch::{ripplehatch_count_rounds, ripplehatch_settle_shift};
use shifts::ANSWER;
use text::Page;

const NAME: [u8; 6] = *b"nights";

const AMOUNTS: usize = 4096;

const ANSWERS: usize = 256;

// What the lists hold before the call: no amount of a settled round, nor a number or a place of a refused one, is as large.
const MARK: u64 = 18446744073709551615;

// Every number of the list is the mark.
fn is_kept(list: &[u64]) -> bool {
    list.iter().all(|number| *number == MARK)
}

fn write_refused(
    rt: &(impl Print + Eprint),
    count: usize,
    number: u8,
    place: usize,
    kept: bool,
) -> Result<(), Fault> {
    let mut line = [0u8; 128];
    let mut page = Page::new(&mut line);
    page.put_named(b"rounds ", count);
    page.put_named(b" refused ", number);
    page.put_named(b" at ", place);
    if kept {
        page.put(b" kept\n");
    } else {
        page.put(b" changed\n");
    }
    print(rt, &NAME, page.text())
}

// A line is 37 numbers of at most 20 digits, so it fits its room.
fn write_round(rt: &(impl Print + Eprint), amounts: &[u64], answer: &[u64]) -> Result<(), Fault> {
    let mut line = [0u8; 1024];
    let mut page = Page::new(&mut line);
    page.put_list(b"answer", answer);
    page.put_line(b" amounts", amounts);
    print(rt, &NAME, page.text())
}

// Both lists have a row for each round.
fn write_settled(
    rt: &(impl Print + Eprint),
    count: usize,
    rounds: usize,
    amounts: &[u64],
    answers: &[u64],
) -> Result<(), Fault> {
    let mut line = [0u8; 128];
    let mut page = Page::new(&mut line);
    page.put_named(b"rounds ", count);
    page.put_line(b" settled", &[rounds]);
    print(rt, &NAME, page.text())?;
    for (paid, told) in amounts
        .chunks_exact(RESULTS)
        .zip(answers.chunks_exact(ANSWER))
    {
        write_round(rt, paid, told)?;
    }
    Ok(())
}

fn settle(
    rt: &(impl Print + Eprint),
    file: &[u8],
    amounts: usize,
    answers: usize,
) -> Result<(), Fault>
    requires { (amounts ≤ 4096) × (answers ≤ 256) }
{
    let mut room = [MARK; AMOUNTS];
    let mut told = [MARK; ANSWERS];
    let lent: &mut [u64] = &mut room[..amounts];
    let said: &mut [u64] = &mut told[..answers];
    let mut rounds = 0;
    let mut place = 0;
    let number = ripplehatch_settle_shift(file, lent, said, &mut rounds, &mut place);
    let count = ripplehatch_count_rounds(file);
    if number == 0 {
        return write_settled(rt, count, rounds, lent, said);
    }
    write_refused(rt, count, number, place, is_kept(lent) & is_kept(said))
}

// Answers the next shift, where there is one. It is read into a room that is lent, which is not cleared for each.
fn answer_next(rt: &(impl Input + Print + Eprint), room: &mut [u8; 65536]) -> Result<bool, Fault> {
    let mut head = [0u8; 6];
    if !read_next(
        rt,
        &NAME,
        &mut head,
        b"the stream ends before a shift's bytes",
    )? {
        return Ok(false);
    }
    let amounts = word_at(&head, 0) as usize;
    let answers = word_at(&head, 2) as usize;
    if (AMOUNTS < amounts) | (ANSWERS < answers) {
        tell(rt, &NAME, b"lends at most 4096 amounts and 256 answers");
        return Err(Fault);
    }
    let file: &mut [u8] = &mut room[..word_at(&head, 4) as usize];
    read_whole(rt, &NAME, file, b"the stream ends inside a shift")?;
    settle(rt, file, amounts, answers)?;
    Ok(true)
}

fn run(rt: &(impl Input + Print + Eprint)) -> Result<Outcome, Fault> {
    let mut room = [0u8; 65536];
    take_turns(|| answer_next(rt, &mut room))
}

fn main(rt: HostRuntime) {
    if let Some(call) = called(&rt, &NAME, true) {
        end(&rt, &NAME, call, run(&rt));
    }
}
