// What names of hands are made of: how often ranks and suits occur, flushes, runs and straights, and the refusals of a
// hand.
//
// Each function answers for any bytes and any numbers, has no `requires`, and copies no hand: it counts in the slice that
// it is lent. specs/Hand.antt has the definitions, one for each function.

#![tactic(auto)]

ghost use Rattle.std.specs.Prelude.{◌≡◌, OnOk, length};
ghost use Rattle.causes.specs.Refusal.{number_of};
ghost use Rattle.hands.specs.Hand.{of_rank, of_suit, kinds, flush, rank_on, run, straight, highest, hand_refusal};

use causes::Refusal;
use counting::one_where;

// How many of the cards have the rank r.
pub fn of_rank(cards: &[u8], r: usize) -> usize
    ensures { result ≡ of_rank cards.now r }
{
    let mut n: usize = 0;
    for card in cards {
        n += one_where(cards::rank_of(*card) as usize == r) as usize;
    }
    n
}

// How many of the cards have the suit s.
pub fn of_suit(cards: &[u8], s: u8) -> usize
    ensures { result ≡ of_suit cards.now s }
{
    let mut n: usize = 0;
    for card in cards {
        n += one_where(cards::suit_of(*card) == s) as usize;
    }
    n
}

// Of the n ranks from lo on, how many occur exactly k times.
pub fn kinds_of(cards: &[u8], k: usize, lo: u8, n: u8) -> u8
    ensures { result ≡ kinds k lo n (of_rank cards.now) }
{
    (0..n)
        .filter(|i| of_rank(cards, lo as usize + *i as usize) == k)
        .count() as u8
}

// Some suit occurs n times.
pub fn is_flush(cards: &[u8], n: usize) -> bool
    ensures { result ≡ flush n (of_suit cards.now) }
{
    (0..4).any(|suit| of_suit(cards, suit) == n)
}

// The rank at a number of the line A 2 3 .. Q K A, 1 to 14.
#[tactic(auto, unfolding(crate::specs::Hand::rank_on))]
pub fn rank_on(p: usize) -> usize
    ensures { result ≡ rank_on p }
{
    if p == 1 { 12 } else { p.saturating_sub(2) }
}

// Each of the n ranks from number p of the line on occurs.
pub fn is_run(cards: &[u8], n: u8, p: u8) -> bool
    ensures { result ≡ run n p (of_rank cards.now) }
{
    (0..n).all(|i| of_rank(cards, rank_on(p as usize + i as usize)) >= 1)
}

// The cards are some run of n that ends by the high ace.
pub fn is_straight(cards: &[u8], n: u8) -> bool
    ensures { result ≡ straight n (of_rank cards.now) }
{
    (0..15u8.saturating_sub(n)).any(|i| is_run(cards, n, i + 1))
}

// The highest rank that occurs.
pub fn highest_of(cards: &[u8]) -> u8
    ensures { result ≡ highest 13 (of_rank cards.now) }
{
    (0..13)
        .rev()
        .find(|rank| of_rank(cards, *rank as usize) > 0)
        .unwrap_or(0)
}

// Why the cards are no hand of n: another number of them before a card above 51 or a repeat.
#[tactic(auto, unfolding(crate::specs::Hand::hand_refusal))]
pub fn hand_refusal(cards: &[u8], n: usize) -> Result<(), Refusal>
    ensures number { number_of result ≡ hand_refusal n cards.now }
    ensures long { OnOk result (length cards.now ≡ n) }
{
    if cards.len() != n {
        return Err(Refusal::HandLength);
    }
    if cards::is_faulty(cards) {
        return Err(Refusal::Card);
    }
    Ok(())
}
