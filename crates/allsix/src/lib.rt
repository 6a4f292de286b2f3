// The All-Six hand: what six cards are called.
//
// name_six is the entry: it answers any bytes with Ok and the name, or with Err and refusal HandLength (another number of cards), then Card (a card above
// 51, or a repeat). six_by_word names six cards, any bytes, for callers that know them to be sound. Each of the six ways to leave one card out is named by its
// ranks and its suits, each counted in one word; no hand is copied, sorted or looked up in a table.
//
// proofs/Best.antt has the law that no five of the six have a higher name and some have this one, proofs/Orders.antt that the order of the cards plays no part.

#![tactic(auto)]

ghost use Rattle.std.specs.Prelude.{◌≡◌, ◌≤◌, ◌-◌, [], ◌∷◌, ℕ, length};
ghost use Rattle.causes.specs.Refusal.{number_of};
ghost use Rattle.counting.specs.Choose.{unless_refused};
ghost use Rattle.counting.specs.Count.{sum_below};
ghost use Rattle.hands.specs.Hand.{of_rank, of_suit, flush, hand_refusal};
ghost use Rattle.words.specs.Word.{digits, word, Has};
ghost use Rattle.names.specs.Five.{five_by};
ghost use Rattle.allsix.specs.Six.{higher, best_of_six, six_royal, name_six, answer_six, six_place, six_told};
ghost use Rattle.names.specs.Answer.{values_of};

use causes::{Refusal, number_of};
use names::{FiveName, five_of_word, five_place};

#[derive(Clone, Copy, PartialEq, Eq, Debug)]
pub enum SixName {
    // Nine to ace of diamonds.
    RoyalOfDiamonds,
    // Nine to ace of another suit.
    Royal,
    // What the best five of the six are called.
    Five(FiveName),
}

#[tactic(auto, unfolding(crate::specs::Six::higher))]
fn higher_of(a: FiveName, b: FiveName) -> FiveName
    ensures { result ≡ higher a b }
{
    if five_place(a) <= five_place(b) { a } else { b }
}

// Hexadecimal digit s is how often suit s occurs: of one card, 16 to its suit.
fn suit_word(card: u8) -> u16
    ensures { result ≡ digits 4 (of_suit (card ∷ [])) }
{
    1u16 << (4 * cards::suit_of(card))
}

// One of the suits of five cards occurs five times: of the digits 4 and 5, which have the highest bit, the odd one.
fn is_one_suit(suits: u16) -> bool
    ensures { (t : ℕ → ℕ) → suits ≡ digits 4 t → sum_below 4 t ≤ 5 → result ≡ flush 5 t }
{
    (suits & 0x4444) / 4 & suits != 0
}

// What five of six cards are called, where one is left out: its own digits are taken from the words of all. It stays a call of its own, so that what is left of the six
// isn't held for all of them at once.
#[inline(never)]
fn name_without(all: u64, suits: u16, card: u8) -> FiveName
    ensures { (h t : ℕ → ℕ) → Has 5 (all - word (of_rank (card ∷ []))) h → suits - digits 4 (of_suit (card ∷ [])) ≡ digits 4 t → sum_below 4 t ≤ 5 → result ≡ five_by h t }
{
    five_of_word(
        all.saturating_sub(words::word1(card)),
        is_one_suit(suits.saturating_sub(suit_word(card))),
    )
}

// The best of the six names that leaving out one card gives. Ranks and suits are counted once, in the words of all six; a card's own are taken from them where that
// card is left out.
fn best_of_six(a: u8, b: u8, c: u8, d: u8, e: u8, f: u8) -> FiveName
    ensures { result ≡ best_of_six (a ∷ b ∷ c ∷ d ∷ e ∷ f ∷ []) }
{
    let wa = words::word1(a);
    let wb = words::word1(b);
    let wc = words::word1(c);
    let wd = words::word1(d);
    let we = words::word1(e);
    let wf = words::word1(f);
    let all = wa + wb + wc + wd + we + wf;
    let sa = suit_word(a);
    let sb = suit_word(b);
    let sc = suit_word(c);
    let sd = suit_word(d);
    let se = suit_word(e);
    let sf = suit_word(f);
    let suits = sa + sb + sc + sd + se + sf;
    let first = name_without(all, suits, a);
    let second = higher_of(name_without(all, suits, b), first);
    let third = higher_of(name_without(all, suits, c), second);
    let fourth = higher_of(name_without(all, suits, d), third);
    let fifth = higher_of(name_without(all, suits, e), fourth);
    higher_of(name_without(all, suits, f), fifth)
}

// Nine to ace of one suit. Few hands are of one suit, so the ranks are looked at last. (The first six, which are all: so the compiler knows how many.)
fn is_six_royal(cards: &[u8]) -> bool
    requires { length cards.now ≡ 6 }
    ensures { result ≡ six_royal cards.now }
{
    words::is_suited(&cards[..6]) && hands::is_run(cards, 6, 9)
}

// Six cards, in the list that is lent.
fn six_in(cards: &[u8]) -> SixName
    requires { length cards.now ≡ 6 }
    ensures { result ≡ name_six cards.now }
{
    if !is_six_royal(cards) {
        SixName::Five(best_of_six(cards[0], cards[1], cards[2], cards[3], cards[4], cards[5]))
    } else if hands::of_suit(cards, 1) == 6 {
        SixName::RoyalOfDiamonds
    } else {
        SixName::Royal
    }
}

pub fn six_by_word(cards: &[u8; 6]) -> SixName
    ensures { result ≡ name_six cards.now }
{
    six_in(cards)
}

pub fn name_six(cards: &[u8]) -> Result<SixName, Refusal>
    ensures answer { result ≡ answer_six cards.now }
    ensures number { number_of result ≡ hand_refusal 6 cards.now }
    ensures values { values_of six_place result ≡ unless_refused (hand_refusal 6 cards.now) (six_place (name_six cards.now) ∷ []) }
{
    hands::hand_refusal(cards, 6)?;
    Ok(six_in(cards))
}

// A name's place from the top.
fn six_place(name: SixName) -> usize
    ensures { result ≡ six_place name }
{
    match name {
        SixName::RoyalOfDiamonds => 0,
        SixName::Royal => 1,
        SixName::Five(five) => five_place(five) + 2,
    }
}

// name_six by numbers: answers 0 and tells the name's place, or answers the refusal's number.
pub fn name_six_told(cards: &[u8], name: &mut usize) -> u8
    ensures number { result ≡ hand_refusal 6 cards.now }
    ensures name { name.new ≡ six_told (answer_six cards.now) name.old }
{
    let answer = name_six(cards);
    if let Ok(six) = answer {
        *name = six_place(six);
    }
    number_of(answer)
}
