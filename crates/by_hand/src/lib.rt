// A round changed by hand, one number at a time, as no record can: for tests of refusal 17.
//
// Whoever holds a round by value can make any other of it; what is refused is to go on with one that never happened.

#![tactic(auto)]

ghost use Rattle.std.specs.Prelude.{◌≡◌};
ghost use Rattle.by_hand.specs.Changes.{wagers_with, with_number, with_wager, with_card, with_parts, with_raise, with_fold, changed};

use counting::put;
use round::Round;
use seating::Wagers;

// The round with another number in its table: smallest and largest ante, base, Lo Ball, Board, Pocket, and from place 6 on All-Six.
fn with_number(mut round: Round, place: u8, number: u8) -> Round
    ensures { result ≡ with_number round place number }
{
    match place {
        0 => round.table.smallest = number,
        1 => round.table.largest = number,
        2 => round.table.base = number,
        3 => round.table.lo = number,
        4 => round.table.board = number,
        5 => round.table.pocket = number,
        _ => round.table.six = number,
    }
    round
}

// The wagers with `dollars` at a place of the antes (list 0), the Board (1), the Pocket (2), the Lo Ball (3) or the All-Six wagers.
#[tactic(auto, unfolding(crate::specs::Changes::wagers_with))]
fn wagers_with(mut wagers: Wagers, list: u8, place: usize, dollars: u16) -> Wagers
    ensures { result ≡ wagers_with wagers list place dollars }
{
    match list {
        0 => wagers.antes = put(wagers.antes, place, dollars),
        1 => wagers.board = put(wagers.board, place, dollars),
        2 => wagers.pocket = put(wagers.pocket, place, dollars),
        3 => wagers.lo = put(wagers.lo, place, dollars),
        _ => wagers.six = put(wagers.six, place, dollars),
    }
    wagers
}

fn with_wager(mut round: Round, list: u8, place: u8, dollars: u16) -> Round
    ensures { result ≡ with_wager round list place dollars }
{
    round.wagers = wagers_with(round.wagers, list, place as usize, dollars);
    round
}

fn with_card(mut round: Round, place: u8, card: u8) -> Round
    ensures { result ≡ with_card round place card }
{
    round.deck.cards = put(round.deck.cards, place as usize, card);
    round
}

fn with_parts(mut round: Round, parts: u8) -> Round
    ensures { result ≡ with_parts round parts }
{
    round.deck.parts = parts;
    round
}

fn with_raise(mut round: Round, place: u8, raise: u8) -> Round
    ensures { result ≡ with_raise round place raise }
{
    round.play.raises = put(round.play.raises, place as usize, raise);
    round
}

fn with_fold(mut round: Round, place: u8, street: u8) -> Round
    ensures { result ≡ with_fold round place street }
{
    round.play.folds = put(round.play.folds, place as usize, street);
    round
}

// What a letter and its numbers make of a round. Numbers that the letter does not ask for play no part.
#[tactic(auto, unfolding(crate::specs::Changes::changed))]
pub fn changed(round: Round, letter: u8, a: u8, b: u8, c: u8) -> Round
    ensures { result ≡ changed round letter a b c }
{
    match letter {
        b'c' => with_card(round, a, b),
        b'f' => Round::fresh(),
        b'h' => with_fold(round, a, b),
        b'p' => with_parts(round, a),
        b'r' => with_raise(round, a, b),
        b't' => with_number(round, a, b),
        b'w' => with_wager(round, a, b, c as u16),
        _ => round,
    }
}
