// A pad holds a round as one value and feeds it record by record. Nothing it does can bring about a round that never happened:
// a round that is neither the fresh one nor led to by accepted records is refused, whatever its numbers are.
//
// The test reads the round's own numbers once: at most 52 × 51 ÷ 2 comparisons of cards, and a few for each of the seven seats on each of the
// three streets. It is proved true of exactly the led rounds (`led`), so the promises here speak of those and not of the test.

#![tactic(auto)]

ghost use Rattle.std.specs.Prelude.{◌≡◌};
ghost use Rattle.round.specs.Feed.{number_of};
ghost use Rattle.led.specs.Held.{opened, deck_after_seats};
ghost use Rattle.held.specs.Take.{Decides, take_refusal, Taken};

use causes::Refusal;
use records::any_plays;
use round::{Round, Step};

// How many streets have opened: none before the whole deck was read.
#[tactic(auto, using(choosing::proofs::Street::streets_le))]
fn opened_of(round: Round) -> u8
    ensures { result ≡ opened round }
{
    if round.deck.parts != 4 {
        return 0;
    }
    round.play.streets_over(round.wagers.antes) + 1
}

// Deck parts came only after a seat.
fn is_dealt_after_seats(round: Round) -> bool
    ensures { result ≡ deck_after_seats round }
{
    (round.deck.parts == 0) | any_plays(round.wagers.antes)
}

// The round is the fresh one, or accepted records lead to it.
#[tactic(auto, using(crate::proofs::Answers::decides), unfolding(led::specs::Held::is_held))]
pub fn is_held(round: Round) -> bool
    ensures { Decides round result }
{
    let sat = round.table.fits() & round.wagers.fit(round.table);
    let dealt = round.deck.fits() & is_dealt_after_seats(round);
    sat & (dealt & round.play.fits(round.wagers.antes, opened_of(round)))
}

// Takes a record: 17 where the round may not be held, 2 where the record isn't 16 bytes, then the rest. A refused record hands back the
// same round.
#[tactic(auto, using(crate::proofs::Answers::taken, crate::proofs::Answers::taken_not), unfolding(crate::specs::Take::take_refusal))]
pub fn take(round: Round, bytes: &[u8]) -> Step
    ensures taken { Taken round bytes.now result }
    ensures number { number_of result.answer ≡ take_refusal round bytes.now }
{
    if !is_held(round) {
        return round.refuse(Refusal::NotHeld.number());
    }
    round.feed(bytes)
}
