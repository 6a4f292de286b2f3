// How often ranks occur, counted in one number, and what names ask of it.
//
// Hexadecimal digit r of a hand's word is how often rank r occurs; a byte above 51 adds nothing, so a word is right for any bytes. No hand is copied, sorted or looked up in
// a table: a word is a sum of powers of 16, and each question is one of all its digits at once. What is asked of bytes is answered for any; what is asked of a word, of every word
// that some cards have, at most five, three or two of them as Says tells (specs/Word.antt).

#![tactic(auto)]

ghost use Rattle.std.specs.Prelude.{◌≡◌, ◌%◌, ◌^◌, ◌≤◌, ◌<◌, length, [], ◌∷◌, eqb};
ghost use Rattle.counting.specs.Choose.{one};
ghost use Rattle.cards.specs.Card.{rank, six, jack, ace};
ghost use Rattle.hands.specs.Hand.{of_rank, of_suit, kinds, of_a_kind, flush, run, straight};
ghost use Rattle.words.specs.Word.{digits, word, those, on_line, starts, apart, largest, Says};

// A rank alone is 16 to its power, and a number that is none is 0.
pub fn word_of(rank: u8) -> u64
    ensures { result ≡ word (λ k. one (eqb rank k)) }
{
    if rank < 13 {
        return 1u64 << (4 * rank);
    }
    0
}

// A card is its rank, and a byte that is none is 0.
pub fn word1(card: u8) -> u64
    ensures { result ≡ word (of_rank (card ∷ [])) }
{
    word_of(cards::rank_of(card))
}

// The sum of what the cards are: the word of up to fifteen cards, the most that a digit can count.
pub fn word_in(cards: &[u8]) -> u64
    ensures sum { result ≡ word (of_rank cards.now) % 2 ^ 64 }
    ensures few { length cards.now ≤ 15 → result ≡ word (of_rank cards.now) }
{
    let mut word: u64 = 0;
    for card in cards {
        word = word.wrapping_add(word1(*card));
    }
    word
}

// No rank occurs twice: no digit has one of its upper bits.
pub fn is_apart(w: u64) -> bool
    ensures { Says 5 w apart result }
{
    w & 0x6666666666666 == 0
}

// The ranks that occur four times: of the digits 4 and 5, which have the highest bit, the even ones. (Five alike are no four of a kind.)
pub fn fours(w: u64) -> u64
    ensures { Says 5 w (those 4) result }
{
    (w & 0x4444444444444) / 4 & (w ^ 0x1111111111111)
}

pub fn has_four(w: u64) -> bool
    ensures { Says 5 w (λ h. eqb (of_a_kind 4 h) 1) result }
{
    fours(w) != 0
}

// The ranks that occur three times: of the digits 2 and 3, which have the middle bit, the odd ones.
pub fn threes(w: u64) -> u64
    ensures { Says 5 w (those 3) result }
{
    (w & 0x2222222222222) / 2 & w
}

pub fn has_three(w: u64) -> bool
    ensures { Says 5 w (λ h. eqb (of_a_kind 3 h) 1) result }
{
    threes(w) != 0
}

// The ranks that occur twice: of the digits 2 and 3 the even ones.
pub fn twos(w: u64) -> u64
    ensures { Says 5 w (those 2) result }
{
    (w & 0x2222222222222) / 2 & (w ^ 0x1111111111111)
}

// 16 leaves 1 by 15, so that what a number leaves is the sum of its digits.
pub fn pairs_in(w: u64) -> u64
    ensures { Says 5 w (of_a_kind 2) result }
{
    twos(w) % 15
}

// Of jacks to aces, four ranks from digit 9 on.
pub fn high_pairs_in(w: u64) -> u64
    ensures { Says 5 w (kinds 2 jack 4) result }
{
    twos(w) / 0x1000000000 % 0x10000 % 15
}

// Of sixes to tens, five ranks from digit 4 on.
pub fn middle_pairs_in(w: u64) -> u64
    ensures { Says 5 w (kinds 2 six 5) result }
{
    twos(w) / 0x10000 % 0x100000 % 15
}

// The line A 2 3 .. Q K A: the word, with the ace's digit once more below the two's.
fn line_of(w: u64) -> u64
    ensures { Says 5 w (λ h. digits 14 (on_line h)) result }
{
    w % 0x10000000000000 * 16 + w / 0x1000000000000 % 16
}

// Where n cards begin a run: a place of the line that has a card, as have the n - 1 after it.
fn runs(n: u8, w: u64) -> u64
    requires { (0 < n) × (n ≤ 5) }
    ensures { Says n w (starts n) result }
{
    let line = line_of(w);
    let mut runs = line;
    for i in 1..n {
        runs &= line >> (4 * i);
    }
    runs
}

pub fn is_straight5(w: u64) -> bool
    ensures { Says 5 w (straight 5) result }
{
    runs(5, w) != 0
}

// 10-J-Q-K-A begins at place 9, and no run of five above it.
pub fn is_royal5(w: u64) -> bool
    ensures { Says 5 w (run 5 10) result }
{
    runs(5, w) / 0x1000000000 != 0
}

pub fn is_straight3(w: u64) -> bool
    ensures { Says 3 w (straight 3) result }
{
    runs(3, w) != 0
}

// Q-K-A begins at place 11, and no run of three above it.
pub fn is_royal3(w: u64) -> bool
    ensures { Says 3 w (run 3 12) result }
{
    runs(3, w) / 0x100000000000 != 0
}

pub fn aces_in(w: u64) -> u64
    ensures { Says 5 w (λ h. h ace) result }
{
    w / 0x1000000000000
}

// Of two cards, exactly one is a jack, a queen or a king: three ranks from digit 9 on, with the digit 1, which alone of 0, 1 and 2 is odd.
pub fn has_face(w: u64) -> bool
    ensures { Says 2 w (λ h. eqb (kinds 1 jack 3 h) 1) result }
{
    (w & 0x1111111111111) / 0x1000000000 % 0x1000 % 15 == 1
}

// The largest card, and 0 where there is none.
fn largest(cards: &[u8]) -> u8
    ensures { result ≡ largest cards.now }
{
    let mut top = 0;
    for card in cards {
        top = (*card).max(top);
    }
    top
}

// The rank of the largest of some cards, which is the highest.
pub fn top_rank(cards: &[u8]) -> u8
    ensures { result ≡ rank (largest cards.now) }
{
    cards::rank_of(largest(cards))
}

// The ranks of five cards all differ: none occurs twice, and all five are cards.
pub fn are_five(cards: &[u8; 5]) -> bool
    ensures { result ≡ eqb (of_a_kind 1 (of_rank cards.now)) 5 }
{
    is_apart(word_in(cards)) & (largest(cards) < 52)
}

// Cards are of one suit where each is of the first one's; of no cards each suit has as many as there are. With no branch: which card is of another suit can't be foretold.
pub fn is_suited(cards: &[u8]) -> bool
    ensures { result ≡ flush (length cards.now) (of_suit cards.now) }
{
    let first = cards::suit_of(counting::at(cards, 0, 0));
    let mut suited = true;
    for card in cards {
        suited &= cards::suit_of(*card) == first;
    }
    suited
}
