// Feeds a round with records, written as lines of numbers, and prints each line with its answer.
//
// A line is columns of four characters, each a blank and a number. Where the first character is a blank, the numbers are the bytes of a record, with
// zeros up to 16; where it is '!' they are all of them, at most 21. 'fresh' begins a new round. The other letters change the held round by hand, as no
// record can: 't P V' puts V at place P of the table's seven numbers, 'w L P V' at place P of the antes (L 0), Board (1), Pocket (2), Lo Ball (3) or
// All-Six (4) wagers, 'c P V' at place P of the cards, 'p V' makes V the number of parts, 'r P V' puts V at place P of the raises, 'h P V' of the folds. Any other
// line is only printed. More than 65,536 bytes are not read.
//
// Example:
//     echo '   1   5 100   1   1   1   1' | ./run feeding
// prints
//        1   5 100   1   1   1   1: next
//
// The file stdin beside src/ has the cases, and stdout what this must print: worked out by hand from the rule sheet, not by this
// code. Every function here is proved safe and ending; what the program prints is tested and not proved.

#![tactic(auto)]

use by_hand::changed;
use columns::{line_end, number_at, numbers_of};
use pipes::{Fault, Outcome, called, end, read_all, tell_unwritten, write_out};
use records::byte_at;
use round::{Answer, Round};
use std::io;
use text::Page;

const NAME: [u8; 7] = *b"feeding";

// The round that is held after a line, and the answer to the line where it is a record.
#[derive(Clone, Copy)]
struct AfterLine {
    round: Round,
    answer: Option<Answer>,
}

fn put_answer(page: &mut Page<'_>, answer: Option<Answer>) {
    match answer {
        Some(Answer::Next) => page.put(b": next"),
        Some(Answer::Finished) => page.put(b": finished"),
        Some(Answer::Refused(number)) => page.put_named(b": refused ", number),
        None => {}
    }
    page.put(b"\n");
}

fn fed(round: Round, bytes: &[u8]) -> AfterLine {
    let step = held::take(round, bytes);
    let answer = step.answer;
    let next = step.round;
    AfterLine {
        round: next,
        answer: Some(answer),
    }
}

// A line that is no record has no answer.
fn unfed(round: Round) -> AfterLine {
    AfterLine {
        round,
        answer: None,
    }
}

// More than 21 numbers are not fed.
fn fed_first(round: Round, line: &[u8], n: usize) -> AfterLine {
    let numbers = numbers_of(line);
    if n <= 21 {
        return fed(round, &numbers[..n]);
    }
    unfed(round)
}

fn after_line(round: Round, line: &[u8]) -> AfterLine {
    let first = byte_at(line, 0);
    if first == b' ' {
        return fed_first(round, line, 16);
    }
    if first == b'!' {
        return fed_first(round, line, line.len() / 4);
    }
    let a = number_at(line, 0);
    let b = number_at(line, 1);
    let c = number_at(line, 2);
    unfed(changed(round, first, a, b, c))
}

// Prints the line as it is, then what comes behind it. Answers the round that is held after it.
fn feed_line(rt: &impl Print, round: Round, line: &[u8]) -> io::Result<Round> {
    let after = after_line(round, line);
    let next = after.round;
    let mut room = [0u8; 32];
    let mut page = Page::new(&mut room);
    put_answer(&mut page, after.answer);
    write_out(rt, line)?;
    write_out(rt, page.text())?;
    Ok(next)
}

fn feed_lines(rt: &impl Print, text: &[u8]) -> io::Result<()> {
    let mut round = Round::fresh();
    let mut rest = text;
    while !rest.is_empty() {
        let end = line_end(rest, 0);
        round = feed_line(rt, round, &rest[..end])?;
        rest = rest.get(end.saturating_add(1)..).unwrap_or(&[]);
    }
    Ok(())
}

fn run(rt: &(impl Input + Print + Eprint)) -> Result<Outcome, Fault> {
    let mut text = [0u8; 65536];
    let bytes = read_all(rt, &NAME, &mut text, b"reads at most 65,536 bytes")?;
    feed_lines(rt, &text[..bytes]).map_err(|error| tell_unwritten(rt, &NAME, error))?;
    Ok(Outcome::Done)
}

fn main(rt: HostRuntime) {
    if let Some(call) = called(&rt, &NAME, true) {
        end(&rt, &NAME, call, run(&rt));
    }
}
