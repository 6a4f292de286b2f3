// How many hands have each name: every hand of five, three, two and six of the 52 cards, named through the public entries.
//
// Example:
//     ./run census | tail -n 1
// prints
//     All-Six: 1 3 184 1656 14664 165984 205792 361620 732160 2532816 3000756 3733800 9609084 0
//
// The file stdout beside src/ has what this must print. It was worked out by combinatorics and not by this code:
// docs/COUNTS.md has the working. Every function here is proved safe and ending; what the program prints is tested and
// not proved.

#![tactic(auto)]

ghost use Rattle.std.specs.Prelude.{◌<◌, ◌≤◌};

use names::LoName;
use pipes::{Fault, Outcome, called, end, print};
use text::Page;

const NAME: [u8; 6] = *b"census";

// The entries that are asked.
#[derive(Clone, Copy)]
enum Entry {
    Five,
    Lo,
    Board,
    Pocket,
    Six,
}

// The row of an entry's answer: the name's place in its list, and the row after the last name for a refusal.
fn five_row(cards: &[u8]) -> usize {
    names::name_five(cards).map_or(11, |name| names::five_place(name))
}

// A Lo Ball name's row is its rank, and 13 for nothing.
fn lo_row(cards: &[u8]) -> usize {
    match names::name_lo(cards) {
        Ok(LoName::High(rank)) => rank as usize,
        Ok(LoName::Nothing) => 13,
        Err(_) => 14,
    }
}

fn board_row(cards: &[u8]) -> usize {
    names::name_board(cards).map_or(7, |name| odds::board_place(name))
}

fn pocket_row(cards: &[u8]) -> usize {
    names::name_pocket(cards).map_or(5, |name| odds::pocket_place(name))
}

// A refusal leaves the row as it is.
fn six_row(cards: &[u8]) -> usize {
    let mut row = 13;
    allsix::name_six_told(cards, &mut row);
    row
}

fn row_of(entry: Entry, cards: &[u8]) -> usize {
    match entry {
        Entry::Five => five_row(cards),
        Entry::Lo => lo_row(cards),
        Entry::Board => board_row(cards),
        Entry::Pocket => pocket_row(cards),
        Entry::Six => six_row(cards),
    }
}

// One more in a row; a row past the end is not counted.
fn count(counts: &mut [u64; 16], row: usize) {
    if row < 16 {
        counts[row] = counts[row].wrapping_add(1);
    }
}

// The hand after this one. Its cards rise, up to the place `last`: the lowest card that can go up by one and stay below
// the next does so, and the cards before it start again from 0. So from 0, 1, 2 .. each set of cards comes once.
fn next_hand(hand: [u8; 6], last: usize) -> [u8; 6]
    requires { last < 6 }
{
    let mut next = hand;
    for i in 0..last {
        let up = next[i].wrapping_add(1);
        if up < next[i + 1] {
            next[i] = up;
            return next;
        }
        next[i] = i as u8;
    }
    next[last] = next[last].wrapping_add(1);
    next
}

// How many of the first so many hands of this size have each row.
fn tally(entry: Entry, size: usize, hands: u64) -> [u64; 16]
    requires { (0 < size) × (size ≤ 6) }
{
    let mut hand = [0u8, 1, 2, 3, 4, 5];
    let mut counts = [0u64; 16];
    for _ in 0..hands {
        count(&mut counts, row_of(entry, &hand[..size]));
        let next = next_hand(hand, size - 1);
        hand = next;
    }
    counts
}

// The counts of the first rows, on one line.
fn write_counts(
    rt: &(impl Print + Eprint),
    words: &[u8],
    counts: [u64; 16],
    rows: usize,
) -> Result<(), Fault>
    requires { rows ≤ 16 }
{
    let mut room = [0u8; 512];
    let mut page = Page::new(&mut room);
    page.put_line(words, &counts[..rows]);
    print(rt, &NAME, page.text())
}

// A line for each entry: how many hands have each name, from the highest, and how many are refused.
fn ask_all(rt: &(impl Print + Eprint)) -> Result<Outcome, Fault> {
    write_counts(rt, b"five cards:", tally(Entry::Five, 5, 2598960), 12)?;
    write_counts(rt, b"Lo Ball:", tally(Entry::Lo, 5, 2598960), 15)?;
    write_counts(rt, b"board:", tally(Entry::Board, 3, 22100), 8)?;
    write_counts(rt, b"pocket:", tally(Entry::Pocket, 2, 1326), 6)?;
    write_counts(rt, b"All-Six:", tally(Entry::Six, 6, 20358520), 14)?;
    Ok(Outcome::Done)
}

fn main(rt: HostRuntime) {
    if let Some(call) = called(&rt, &NAME, false) {
        end(&rt, &NAME, call, ask_all(&rt));
    }
}
