// What pay tables hand back for cards, and which odds are above 50, asked of the public entries.
//
// Example:
//     ./run wagers | tail -n 1
// prints
//     All-Six 6 10 0
//
// The file stdout beside src/ has what this must print. It was worked out by hand from the rule sheet and not by this code:
// docs/COUNTS.md has the working. Every function here is proved safe and ending; what the program prints is tested and
// not proved.

#![tactic(auto)]

use pays::Pay;
use pipes::{Fault, Outcome, called, end, print};
use text::Page;

const NAME: [u8; 6] = *b"wagers";

// The entries that are asked.
#[derive(Clone, Copy)]
enum Entry {
    Five,
    Lo,
    Board,
    Pocket,
    Six,
}

use Entry::{Board, Five, Lo, Pocket, Six};

// The entry, the number of the pay table, the dollars, the cards.
const WAGERS: [(Entry, u8, u32, &[u8]); 35] = [
    (Five, 1, 100, &[12, 13, 22, 31, 44]), // pair of fives
    (Five, 1, 100, &[16, 17, 26, 39, 48]), // pair of sixes
    (Five, 5, 100, &[32, 33, 2, 11, 40]), // pair of tens
    (Five, 3, 100, &[36, 37, 6, 23, 32]), // pair of jacks
    (Five, 1, 1, &[8, 9, 30, 31, 44]), // two pair
    (Five, 2, 1, &[8, 9, 30, 31, 44]), // two pair
    (Five, 4, 100, &[32, 36, 40, 44, 48]), // royal flush
    (Five, 0, 100, &[32, 36, 40, 44, 48]), // no such table
    (Five, 6, 100, &[32, 36, 40, 44, 48]), // no such table
    (Lo, 1, 10, &[0, 5, 10, 15, 16]), // 2-3-4-5-6 mixed
    (Lo, 1, 10, &[48, 1, 6, 11, 16]), // A-2-3-4-6 mixed
    (Lo, 1, 10, &[0, 5, 10, 15, 20]), // 2-3-4-5-7 mixed
    (Lo, 1, 10, &[0, 5, 10, 19, 28]), // 9 high
    (Lo, 2, 10, &[0, 5, 10, 19, 28]), // 9 high
    (Lo, 1, 10, &[0, 9, 22, 31, 40]), // queen high
    (Lo, 2, 10, &[0, 9, 22, 31, 40]), // queen high
    (Board, 1, 5, &[40, 44, 48]), // Q-K-A suited, at exactly 50
    (Board, 3, 5, &[40, 44, 48]), // Q-K-A suited
    (Board, 2, 5, &[44, 48, 0]), // K-A-2 suited
    (Board, 2, 5, &[48, 1, 6]), // A-2-3 mixed
    (Pocket, 3, 5, &[0, 1]), // pair of twos
    (Pocket, 1, 5, &[48, 32]), // A-10 suited
    (Six, 5, 1, &[29, 33, 37, 41, 45, 49]), // nine to ace of diamonds
    (Six, 1, 1, &[29, 33, 37, 41, 45, 49]), // nine to ace of diamonds
    (Six, 5, 100, &[30, 34, 38, 42, 46, 50]), // nine to ace of hearts
    (Six, 4, 100, &[30, 34, 38, 42, 46, 50]), // nine to ace of hearts
    (Six, 5, 10, &[0, 34, 38, 42, 46, 50]), // royal flush
    (Six, 2, 10, &[26, 30, 34, 38, 42, 46]), // eight to king of hearts
    (Six, 1, 10, &[0, 1, 2, 3, 20, 25]), // four twos, at exactly 50
    (Six, 3, 10, &[0, 1, 2, 3, 20, 25]), // four twos
    (Six, 3, 10, &[0, 1, 2, 20, 25, 34]), // three twos
    (Six, 4, 10, &[0, 1, 2, 20, 25, 34]), // three twos
    (Six, 2, 10, &[0, 1, 4, 5, 25, 34]), // two pair
    (Six, 0, 10, &[29, 33, 37, 41, 45, 49]), // not offered
    (Six, 6, 10, &[29, 33, 37, 41, 45, 49]), // no such table
];

// What a pay table says of cards; of refused cards it says nothing.
fn pay_of(entry: Entry, table: u8, cards: &[u8]) -> Pay {
    let pay = match entry {
        Five => names::name_five(cards).map(|name| odds::base_pay(table, name)),
        Lo => names::name_lo(cards).map(|name| odds::lo_pay(table, name)),
        Board => names::name_board(cards).map(|name| odds::board_pay(table, name)),
        Pocket => names::name_pocket(cards).map(|name| odds::pocket_pay(table, name)),
        Six => allsix::name_six(cards).map(|name| odds::six_pay(table, name)),
    };
    pay.unwrap_or(Pay::NoTable)
}

fn put_entry(page: &mut Page<'_>, entry: Entry) {
    match entry {
        Five => page.put(b"base"),
        Lo => page.put(b"Lo Ball"),
        Board => page.put(b"Board"),
        Pocket => page.put(b"Pocket"),
        Six => page.put(b"All-Six"),
    }
}

// The wager, its table and the dollars; then the cents handed back, and whether the odds are above 50.
fn ask(
    rt: &(impl Print + Eprint),
    entry: Entry,
    table: u8,
    dollars: u32,
    cards: &[u8],
) -> Result<(), Fault> {
    let pay = pay_of(entry, table, cards);
    let mut room = [0u8; 128];
    let mut page = Page::new(&mut room);
    put_entry(&mut page, entry);
    page.put_named(b" ", table);
    page.put_named(b" ", dollars);
    page.put_named(b" ", pays::handed_back(pay, dollars));
    if pays::is_above_fifty(pay) {
        page.put(b" above 50");
    }
    page.put(b"\n");
    print(rt, &NAME, page.text())
}

fn ask_all(rt: &(impl Print + Eprint)) -> Result<Outcome, Fault> {
    for (entry, table, dollars, cards) in WAGERS {
        ask(rt, entry, table, dollars, cards)?;
    }
    Ok(Outcome::Done)
}

fn main(rt: HostRuntime) {
    if let Some(call) = called(&rt, &NAME, false) {
        end(&rt, &NAME, call, ask_all(&rt));
    }
}
