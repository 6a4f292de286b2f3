// Which cards are refused, and with which number, asked of the public entries.
//
// Asked are none to six cards, sound ones and equal ones, and sound cards with one of them changed at each place.
//
// Example:
//     ./run refusals | tail -n 1
// prints
//     All-Six: 18 18 18 18 18 18 0 18 18 18 18 18 18 11 11 11 11 11 11 11 11 11 11 11 11 11 0 11 11 11 11 11
//
// The file stdout beside src/ has what this must print. It was worked out by hand from the rule sheet and not by this code:
// docs/COUNTS.md has the working. Every function here is proved safe and ending; what the program prints is tested and
// not proved.

#![tactic(auto)]

ghost use Rattle.std.specs.Prelude.{◌≤◌};

use causes::number_of;
use pipes::{Fault, Outcome, called, end, print};
use text::Page;

const NAME: [u8; 8] = *b"refusals";

// The entries that are asked.
#[derive(Clone, Copy)]
enum Entry {
    Five,
    Lo,
    Board,
    Pocket,
    Six,
}

// 2-3-4-5-7-8 of mixed suits, of which a question takes the first so many.
const SOUND: [u8; 6] = [0, 5, 10, 15, 20, 25];

// The number of an entry's answer: the refusal's, or 0 for a name.
fn number_asked(entry: Entry, cards: &[u8]) -> u8 {
    match entry {
        Entry::Five => number_of(names::name_five(cards)),
        Entry::Lo => number_of(names::name_lo(cards)),
        Entry::Board => number_of(names::name_board(cards)),
        Entry::Pocket => number_of(names::name_pocket(cards)),
        Entry::Six => number_of(allsix::name_six(cards)),
    }
}

// The number for none to six of the cards.
fn put_sizes(page: &mut Page<'_>, entry: Entry, cards: [u8; 6]) {
    for size in 0..7 {
        page.put_named(b" ", number_asked(entry, &cards[..size]));
    }
}

// The number for sound cards with one of them changed to this card, at each place.
fn put_changes(page: &mut Page<'_>, entry: Entry, size: usize, card: u8)
    requires { size ≤ 6 }
{
    for place in 0..size {
        let mut cards = SOUND;
        cards[place] = card;
        page.put_named(b" ", number_asked(entry, &cards[..size]));
    }
}

// None to six sound cards, none to six equal ones; then changes to a card 52, to a card 255, and to the first card.
fn ask(rt: &(impl Print + Eprint), words: &[u8], entry: Entry, size: usize) -> Result<(), Fault>
    requires { size ≤ 6 }
{
    let mut room = [0u8; 256];
    let mut page = Page::new(&mut room);
    page.put(words);
    put_sizes(&mut page, entry, SOUND);
    put_sizes(&mut page, entry, [0; 6]);
    for card in [52, 255, 0] {
        put_changes(&mut page, entry, size, card);
    }
    page.put(b"\n");
    print(rt, &NAME, page.text())
}

fn ask_all(rt: &(impl Print + Eprint)) -> Result<Outcome, Fault> {
    ask(rt, b"five cards:", Entry::Five, 5)?;
    ask(rt, b"Lo Ball:", Entry::Lo, 5)?;
    ask(rt, b"board:", Entry::Board, 3)?;
    ask(rt, b"pocket:", Entry::Pocket, 2)?;
    ask(rt, b"All-Six:", Entry::Six, 6)?;
    Ok(Outcome::Done)
}

fn main(rt: HostRuntime) {
    if let Some(call) = called(&rt, &NAME, false) {
        end(&rt, &NAME, call, ask_all(&rt));
    }
}
