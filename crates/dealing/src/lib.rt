// The deck, read in four parts of thirteen cards.
//
// A deck record is answered here by its refusal and by the deck with its cards; whether such a record may come is
// the round's to say. Each function answers for any deck and any bytes. `fits` is true of the decks that accepted records
// leave, and proofs/ shows it from both sides. The search for a repeat is the labelled one of `cards`. A record has its thirteen
// cards looked at, each against every place before it: over four parts at most 52 × 51 ÷ 2 comparisons, as many as `fits` makes.

#![tactic(auto)]

ghost use Rattle.std.specs.Prelude.{◌≡◌, ◌*◌, ◌≤◌, length};
ghost use Rattle.causes.specs.Refusal.{number_of};
ghost use Rattle.cards.specs.Deck.{faulty_from};
ghost use Rattle.dealing.specs.Part.{thirteen_of, dealt, with_part, part_refusal, deck_fits};

use cards::is_faulty_from;
use causes::Refusal;
use records::{byte_at, is_zero_from};

#[derive(Clone, Copy)]
pub struct Deck {
    pub cards: [u8; 52],
    pub parts: u8,
}

// The record's cards: thirteen, or as many of them as it has.
fn thirteen_of(bytes: &[u8]) -> &[u8]
    ensures cards { result.now ≡ thirteen_of bytes.now }
    ensures most { length result.now ≤ 13 }
{
    let said = &bytes[..bytes.len().min(15)];
    &said[said.len().min(2)..]
}

impl Deck {
    // How many cards the parts read so far have.
    fn cards_read(self) -> usize
        ensures { result ≡ 13 * self.parts }
    {
        13 * (self.parts as usize)
    }

    // A card of the parts read so far, from place `from` on, is above 51, or stands at an earlier place too.
    fn has_fault_from(self, from: usize) -> bool
        ensures { result ≡ faulty_from from (dealt self) }
    {
        is_faulty_from(&self.cards[..self.cards_read().min(52)], from)
    }

    // The deck with one more part, while there is room.
    #[tactic(auto, unfolding(crate::specs::Part::with_part))]
    pub fn with_part(mut self, bytes: &[u8]) -> Deck
        ensures { result ≡ with_part self bytes.now }
    {
        if self.parts < 4 {
            let from = self.cards_read();
            let cards = thirteen_of(bytes);
            self.cards[from..from + cards.len()].copy_from_slice(cards);
            self.parts += 1;
        }
        self
    }

    // The refusal of what a deck record says.
    #[tactic(auto, unfolding(crate::specs::Part::part_refusal, crate::specs::Part::part_faulty))]
    pub fn part_refusal(self, bytes: &[u8]) -> Result<(), Refusal>
        ensures { number_of result ≡ part_refusal self bytes.now }
    {
        if !is_zero_from(bytes, 15) {
            return Err(Refusal::ByteNotZero);
        }
        if byte_at(bytes, 1) != self.parts {
            return Err(Refusal::DeckPart);
        }
        if self.with_part(bytes).has_fault_from(self.cards_read()) {
            return Err(Refusal::Card);
        }
        Ok(())
    }

    // At most four parts, their cards without fault, zeros from there.
    #[tactic(auto, using(cards::proofs::Decks::faulty_whole), unfolding(crate::specs::Part::deck_fits))]
    pub fn fits(self) -> bool
        ensures { result ≡ deck_fits self }
    {
        let rest = is_zero_from(&self.cards, self.cards_read());
        (self.parts <= 4) & (!self.has_fault_from(0) & rest)
    }
}
