// Tells what a straight flush and a royal flush are sure of, from lines of smallest ante, largest ante and base wager.
//
// A line has three numbers, with blanks before, between and after them as one likes: spaces, tabs, carriage returns. All are dollars. Printed are, for
// each name, the floor of its win in the pool and the full win; for a line that is no table's limits and a base wager that a seat can have there, 4 times
// the smallest ante to 10 times the largest, only that. A line of nothing but blanks is passed over.
//
// All is read before anything is printed; more than 65,536 bytes are not read.
//
// Example:
//     echo 5 100 1000 | ./run floor
// prints
//     table 5 to 100, base wager 1000: straight flush at least 4166 of 100000, royal flush at least 20833 of 500000
//
// The file stdin beside src/ has cases, and stdout what this must print: worked out from the words of the demand, not by this code. The floors
// are `sure_of`'s, which is proved to be what the third demand promises. Every function here is proved safe and ending; what is read and printed is
// tested and not proved.

#![tactic(auto)]

use columns::{digit_at, line_end};
use counting::rest_from;
use demands::sure_of;
use pipes::{Fault, Outcome, called, end, read_all, tell_unwritten, write_out};
use records::is_between;
use seating::Table;
use std::io;
use text::Page;

const NAME: [u8; 5] = *b"floor";

// A number in a line, and what comes behind it. Where a line has no number the value is 0, which is no ante and no wager.
#[derive(Clone, Copy)]
struct Number<'a> {
    value: u16,
    rest: &'a [u8],
}

// Numbers above 65,535 count as 65,535, which is no ante and no wager either.
fn with_digit(value: u16, digit: u8) -> u16 {
    value.saturating_mul(10).saturating_add(digit as u16)
}

// A line without the blanks in front: spaces, tabs and carriage returns.
fn skip_blanks(line: &[u8]) -> &[u8] {
    let blanks = line
        .iter()
        .take_while(|character| matches!(**character, b' ' | b'\t' | b'\r'))
        .count();
    &line[blanks.min(line.len())..]
}

fn number_from(line: &[u8]) -> Number<'_> {
    let text = skip_blanks(line);
    let digits = text
        .iter()
        .take_while(|character| is_between(b'0', b'9', **character))
        .count();
    let (number, rest) = text.split_at(digits.min(text.len()));
    let value = (0..number.len()).fold(
        0,
        |value, place| with_digit(value, digit_at(number, place)),
    );
    Number { value, rest }
}

fn byte_of(number: u16) -> u8 {
    number.min(255) as u8
}

// A table with these limits. The pay tables play no part here; their numbers are ones that there are.
fn table_of(smallest: u16, largest: u16) -> Table {
    Table {
        smallest: byte_of(smallest),
        largest: byte_of(largest),
        base: 1,
        lo: 1,
        board: 1,
        pocket: 1,
        six: 0,
    }
}

// What a seat can have on the base wager in the end: its ante, and a raise of one to three antes on each of three streets.
fn wager_fits(table: Table, wager: u16) -> bool {
    (4 * (table.smallest as u16) <= wager) & (wager <= 10 * (table.largest as u16))
}

fn put_sure(page: &mut Page<'_>, words: &[u8], sure: u64, win: u32) {
    page.put_named(words, sure);
    page.put_named(b" of ", win);
}

// A line has at most 166 bytes, so it fits its room.
fn tell_floors(rt: &impl Print, table: Table, wager: u16) -> io::Result<()> {
    let straight = 100 * (wager as u32);
    let royal = 500 * (wager as u32);
    let mut room = [0u8; 256];
    let mut page = Page::new(&mut room);
    page.put_named(b"table ", table.smallest);
    page.put_named(b" to ", table.largest);
    page.put_named(b", base wager ", wager);
    put_sure(
        &mut page,
        b": straight flush at least ",
        sure_of(table, false, straight),
        straight,
    );
    put_sure(
        &mut page,
        b", royal flush at least ",
        sure_of(table, true, royal),
        royal,
    );
    page.put(b"\n");
    write_out(rt, page.text())
}

// Fails where what it had to say could not be written.
fn tell_line(rt: &impl Print, line: &[u8]) -> io::Result<()> {
    if skip_blanks(line).is_empty() {
        return Ok(());
    }
    let smallest = number_from(line);
    let largest = number_from(smallest.rest);
    let wager = number_from(largest.rest);
    let table = table_of(smallest.value, largest.value);
    let over = skip_blanks(wager.rest).is_empty();
    if table.fits() & wager_fits(table, wager.value) & over {
        return tell_floors(rt, table, wager.value);
    }
    write_out(rt, b"not a table and a base wager\n")
}

fn tell_lines(rt: &impl Print, text: &[u8]) -> io::Result<()> {
    let mut rest = text;
    while !rest.is_empty() {
        let end = line_end(rest, 0);
        tell_line(rt, &rest[..end])?;
        rest = rest_from(rest, end.saturating_add(1));
    }
    Ok(())
}

fn run(rt: &(impl Input + Print + Eprint)) -> Result<Outcome, Fault> {
    let mut text = [0u8; 65536];
    let bytes = read_all(rt, &NAME, &mut text, b"reads at most 65,536 bytes")?;
    tell_lines(rt, &text[..bytes]).map_err(|error| tell_unwritten(rt, &NAME, error))?;
    Ok(Outcome::Done)
}

fn main(rt: HostRuntime) {
    if let Some(call) = called(&rt, &NAME, true) {
        end(&rt, &NAME, call, run(&rt));
    }
}
