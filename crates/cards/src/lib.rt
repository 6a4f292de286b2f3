// Cards: rank and suit, a repeat, the fault that refusal 11 names, and a whole deck.
//
// A card exists once it has a place in a whole deck, so nothing here trusts a card: each function answers for any
// bytes. proofs/ has the laws: a deck with no repeat by places is one with no repeat by counts, the faults of a list are those of
// its first n cards and those from there on, a whole deck holds each of the 52 cards exactly once, and the order of cards plays no
// part in their faults.

#![tactic(auto)]

ghost use Rattle.std.specs.Prelude.{◌≡◌, drop};
ghost use Rattle.counting.specs.Count.{every_of};
ghost use Rattle.cards.specs.Card.{is_card, rank, suit};
ghost use Rattle.cards.specs.Deck.{repeats_from, faulty, faulty_from, whole_deck};

use counting::rest_from;

pub fn rank_of(card: u8) -> u8
    ensures { result ≡ rank card }
{
    card / 4
}

pub fn suit_of(card: u8) -> u8
    ensures { result ≡ suit card }
{
    card % 4
}

// No card from place `from` on is above 51.
pub fn are_cards_from(cards: &[u8], from: usize) -> bool
    ensures { result ≡ every_of is_card (drop from cards.now) }
{
    rest_from(cards, from).iter().all(|card| *card <= 51)
}

// A card from place `from` on stands at an earlier place too. The search stops at once, from inside, at the first one found.
pub fn has_repeat_from(cards: &[u8], from: usize) -> bool
    ensures { result ≡ repeats_from from cards.now }
{
    let mut found = false;
    'places: for i in from..cards.len() {
        for j in 0..i {
            if cards[i] == cards[j] {
                found = true;
                break 'places;
            }
        }
    }
    found
}

// A card from place `from` on is above 51, or stands at an earlier place too.
pub fn is_faulty_from(cards: &[u8], from: usize) -> bool
    ensures { result ≡ faulty_from from cards.now }
{
    !are_cards_from(cards, from) | has_repeat_from(cards, from)
}

// A card above 51, or a repeat.
pub fn is_faulty(cards: &[u8]) -> bool
    ensures { result ≡ faulty cards.now }
{
    is_faulty_from(cards, 0)
}

pub fn is_whole_deck(cards: &[u8]) -> bool
    ensures { result ≡ whole_deck cards.now }
{
    (cards.len() == 52) & !is_faulty(cards)
}
