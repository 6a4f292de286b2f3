// What hands are called: five cards, the board, a seat's two cards, and Lo Ball.
//
// name_five, name_board, name_pocket and name_lo are the entries: each answers any bytes with Ok and the name, or with Err and refusal
// HandLength (another number of cards), then Card (a card above 51, or a repeat). specs/ says what each answers, by how often
// ranks and suits occur.
//
// five_by_word, board_by_word, pocket_by_word and lo_by_word name five, three or two cards, any bytes, for callers that know them to be
// sound. They count the ranks in one word (crate words): no hand is copied, sorted or looked up in a table, and the entries count so in the list that they are lent. five_of_word is for a caller that has the word already. five_of, board_of, pocket_of and lo_of name a list of any length,
// longer than a word can count, and count in it rank by rank. All answer what the definition says.
//
// proofs/Orders.antt has the law that the order of the cards plays no part.

#![tactic(auto)]

ghost use Rattle.std.specs.Prelude.{◌≡◌, [], ◌∷◌, ℕ, length, if◌then◌else◌};
ghost use Rattle.causes.specs.Refusal.{number_of};
ghost use Rattle.counting.specs.Choose.{unless_refused};
ghost use Rattle.hands.specs.Hand.{of_rank, of_suit, flush, hand_refusal};
ghost use Rattle.words.specs.Word.{Has};
ghost use Rattle.names.specs.Answer.{values_of};
ghost use Rattle.names.specs.Five.{five_by, name_five, answer_five, five_place};
ghost use Rattle.names.specs.Board.{board_by, name_board, answer_board, board_place};
ghost use Rattle.names.specs.Pocket.{ace_face, pocket_by, name_pocket, answer_pocket, pocket_place};
ghost use Rattle.names.specs.Lo.{is_lo, name_lo, answer_lo, lo_high};

use causes::Refusal;

#[derive(Clone, Copy, PartialEq, Eq, Debug)]
pub enum FiveName {
    RoyalFlush,
    StraightFlush,
    FourOfAKind,
    FullHouse,
    Flush,
    Straight,
    ThreeOfAKind,
    TwoPair,
    JacksToAces,
    SixesToTens,
    Other,
}

#[derive(Clone, Copy, PartialEq, Eq, Debug)]
pub enum BoardName {
    Royal,
    StraightFlush,
    ThreeOfAKind,
    Straight,
    Flush,
    Pair,
    Other,
}

#[derive(Clone, Copy, PartialEq, Eq, Debug)]
pub enum PocketName {
    Aces,
    // An ace with a king, queen or jack of its suit.
    AceFaceSuited,
    AceFace,
    OtherPair,
    Nothing,
}

#[derive(Clone, Copy, PartialEq, Eq, Debug)]
pub enum LoName {
    // The highest rank, from 0 for a two to 12 for an ace.
    High(u8),
    Nothing,
}

// Five cards by their word and whether they are of one suit. Where no rank occurs twice only straights and flushes are left to ask for; where one does, there is no straight.
#[tactic(auto, using(crate::proofs::Fives::some_alike), unfolding(crate::specs::Five::five_by))]
pub fn five_of_word(word: u64, suited: bool) -> FiveName
    ensures { (h t : ℕ → ℕ) → Has 5 word h → suited ≡ flush 5 t → result ≡ five_by h t }
{
    if words::is_apart(word) {
        let row = words::is_straight5(word);
        if suited & words::is_royal5(word) {
            FiveName::RoyalFlush
        } else if suited & row {
            FiveName::StraightFlush
        } else if suited {
            FiveName::Flush
        } else if row {
            FiveName::Straight
        } else {
            FiveName::Other
        }
    } else {
        let three = words::has_three(word);
        let pairs = words::pairs_in(word);
        if words::has_four(word) {
            FiveName::FourOfAKind
        } else if three & (pairs == 1) {
            FiveName::FullHouse
        } else if suited {
            FiveName::Flush
        } else if three {
            FiveName::ThreeOfAKind
        } else if pairs == 2 {
            FiveName::TwoPair
        } else if words::high_pairs_in(word) == 1 {
            FiveName::JacksToAces
        } else if words::middle_pairs_in(word) == 1 {
            FiveName::SixesToTens
        } else {
            FiveName::Other
        }
    }
}

// Five cards by their ranks and suits, counted in the list that is lent: in its first five, which are all, so that the compiler knows how many.
fn five_in(cards: &[u8]) -> FiveName
    requires { length cards.now ≡ 5 }
    ensures { result ≡ name_five cards.now }
{
    let five = &cards[..5];
    five_of_word(words::word_in(five), words::is_suited(five))
}

pub fn five_by_word(cards: &[u8; 5]) -> FiveName
    ensures { result ≡ name_five cards.now }
{
    five_in(cards)
}

#[tactic(auto, unfolding(crate::specs::Five::name_five, crate::specs::Five::five_by))]
pub fn five_of(cards: &[u8]) -> FiveName
    ensures { result ≡ name_five cards.now }
{
    let suited = hands::is_flush(cards, 5);
    let row = hands::is_straight(cards, 5);
    let threes = hands::kinds_of(cards, 3, 0, 13);
    let pairs = hands::kinds_of(cards, 2, 0, 13);
    if suited & hands::is_run(cards, 5, 10) {
        FiveName::RoyalFlush
    } else if suited & row {
        FiveName::StraightFlush
    } else if hands::kinds_of(cards, 4, 0, 13) == 1 {
        FiveName::FourOfAKind
    } else if (threes == 1) & (pairs == 1) {
        FiveName::FullHouse
    } else if suited {
        FiveName::Flush
    } else if row {
        FiveName::Straight
    } else if threes == 1 {
        FiveName::ThreeOfAKind
    } else if pairs == 2 {
        FiveName::TwoPair
    } else if hands::kinds_of(cards, 2, 9, 4) == 1 {
        FiveName::JacksToAces
    } else if hands::kinds_of(cards, 2, 4, 5) == 1 {
        FiveName::SixesToTens
    } else {
        FiveName::Other
    }
}

pub fn name_five(cards: &[u8]) -> Result<FiveName, Refusal>
    ensures answer { result ≡ answer_five cards.now }
    ensures number { number_of result ≡ hand_refusal 5 cards.now }
    ensures values { values_of five_place result ≡ unless_refused (hand_refusal 5 cards.now) (five_place (name_five cards.now) ∷ []) }
{
    hands::hand_refusal(cards, 5)?;
    Ok(five_in(cards))
}

// A name's place among the names of five cards, from 0 for the highest.
pub fn five_place(name: FiveName) -> usize
    ensures { result ≡ five_place name }
{
    name as usize
}

// Three cards by their word and whether they are of one suit.
#[tactic(auto, using(crate::proofs::Few::three_in_five), unfolding(crate::specs::Board::board_by))]
fn board_of_word(word: u64, suited: bool) -> BoardName
    ensures { (h t : ℕ → ℕ) → Has 3 word h → suited ≡ flush 3 t → result ≡ board_by h t }
{
    let row = words::is_straight3(word);
    if suited & words::is_royal3(word) {
        BoardName::Royal
    } else if suited & row {
        BoardName::StraightFlush
    } else if words::has_three(word) {
        BoardName::ThreeOfAKind
    } else if row {
        BoardName::Straight
    } else if suited {
        BoardName::Flush
    } else if words::pairs_in(word) == 1 {
        BoardName::Pair
    } else {
        BoardName::Other
    }
}

fn board_in(cards: &[u8]) -> BoardName
    requires { length cards.now ≡ 3 }
    ensures { result ≡ name_board cards.now }
{
    let three = &cards[..3];
    board_of_word(words::word_in(three), words::is_suited(three))
}

pub fn board_by_word(cards: &[u8; 3]) -> BoardName
    ensures { result ≡ name_board cards.now }
{
    board_in(cards)
}

#[tactic(auto, unfolding(crate::specs::Board::name_board, crate::specs::Board::board_by))]
pub fn board_of(cards: &[u8]) -> BoardName
    ensures { result ≡ name_board cards.now }
{
    let suited = hands::is_flush(cards, 3);
    let row = hands::is_straight(cards, 3);
    if suited & hands::is_run(cards, 3, 12) {
        BoardName::Royal
    } else if suited & row {
        BoardName::StraightFlush
    } else if hands::kinds_of(cards, 3, 0, 13) == 1 {
        BoardName::ThreeOfAKind
    } else if row {
        BoardName::Straight
    } else if suited {
        BoardName::Flush
    } else if hands::kinds_of(cards, 2, 0, 13) == 1 {
        BoardName::Pair
    } else {
        BoardName::Other
    }
}

pub fn name_board(cards: &[u8]) -> Result<BoardName, Refusal>
    ensures answer { result ≡ answer_board cards.now }
    ensures number { number_of result ≡ hand_refusal 3 cards.now }
    ensures values { values_of board_place result ≡ unless_refused (hand_refusal 3 cards.now) (board_place (name_board cards.now) ∷ []) }
{
    hands::hand_refusal(cards, 3)?;
    Ok(board_in(cards))
}

// One ace, and one of jack, queen and king.
#[tactic(auto, unfolding(crate::specs::Pocket::ace_face))]
fn is_ace_face(cards: &[u8]) -> bool
    ensures { result ≡ ace_face (of_rank cards.now) }
{
    (hands::of_rank(cards, 12) == 1) & (hands::kinds_of(cards, 1, 9, 3) == 1)
}

// Two cards by their word and whether they are of one suit.
#[tactic(auto, using(crate::proofs::Few::two_in_five), unfolding(crate::specs::Pocket::pocket_by, crate::specs::Pocket::ace_face))]
fn pocket_of_word(word: u64, suited: bool) -> PocketName
    ensures { (h t : ℕ → ℕ) → Has 2 word h → suited ≡ flush 2 t → result ≡ pocket_by h t }
{
    let aces = words::aces_in(word);
    let face = (aces == 1) & words::has_face(word);
    if aces == 2 {
        PocketName::Aces
    } else if face & suited {
        PocketName::AceFaceSuited
    } else if face {
        PocketName::AceFace
    } else if words::pairs_in(word) == 1 {
        PocketName::OtherPair
    } else {
        PocketName::Nothing
    }
}

fn pocket_in(cards: &[u8]) -> PocketName
    requires { length cards.now ≡ 2 }
    ensures { result ≡ name_pocket cards.now }
{
    let two = &cards[..2];
    pocket_of_word(words::word_in(two), words::is_suited(two))
}

pub fn pocket_by_word(cards: &[u8; 2]) -> PocketName
    ensures { result ≡ name_pocket cards.now }
{
    pocket_in(cards)
}

#[tactic(auto, unfolding(crate::specs::Pocket::name_pocket, crate::specs::Pocket::pocket_by))]
pub fn pocket_of(cards: &[u8]) -> PocketName
    ensures { result ≡ name_pocket cards.now }
{
    let face = is_ace_face(cards);
    if hands::of_rank(cards, 12) == 2 {
        PocketName::Aces
    } else if face & hands::is_flush(cards, 2) {
        PocketName::AceFaceSuited
    } else if face {
        PocketName::AceFace
    } else if hands::kinds_of(cards, 2, 0, 13) == 1 {
        PocketName::OtherPair
    } else {
        PocketName::Nothing
    }
}

pub fn name_pocket(cards: &[u8]) -> Result<PocketName, Refusal>
    ensures answer { result ≡ answer_pocket cards.now }
    ensures number { number_of result ≡ hand_refusal 2 cards.now }
    ensures values { values_of pocket_place result ≡ unless_refused (hand_refusal 2 cards.now) (pocket_place (name_pocket cards.now) ∷ []) }
{
    hands::hand_refusal(cards, 2)?;
    Ok(pocket_in(cards))
}

#[tactic(auto, unfolding(crate::specs::Lo::is_lo))]
fn is_lo(cards: &[u8]) -> bool
    ensures { result ≡ is_lo (of_rank cards.now) (of_suit cards.now) }
{
    let apart = hands::kinds_of(cards, 1, 0, 13) == 5;
    apart & !hands::is_straight(cards, 5) & !hands::is_flush(cards, 5)
}

// The ranks of five cards all differ, and there is no straight or flush.
fn is_lo_by_word(cards: &[u8; 5]) -> bool
    ensures { result ≡ is_lo (of_rank cards.now) (of_suit cards.now) }
{
    let row = words::is_straight5(words::word_in(cards));
    words::are_five(cards) & !row & !words::is_suited(cards)
}

fn lo_named(low: bool, top: u8) -> LoName
    ensures { result ≡ (if low then LoName.High top else LoName.Nothing) }
{
    if low {
        LoName::High(top)
    } else {
        LoName::Nothing
    }
}

pub fn lo_by_word(cards: &[u8; 5]) -> LoName
    ensures { result ≡ name_lo cards.now }
{
    lo_named(is_lo_by_word(cards), words::top_rank(cards))
}

#[tactic(auto, unfolding(crate::specs::Lo::name_lo, crate::specs::Lo::lo_by))]
pub fn lo_of(cards: &[u8]) -> LoName
    ensures { result ≡ name_lo cards.now }
{
    if is_lo(cards) {
        LoName::High(hands::highest_of(cards))
    } else {
        LoName::Nothing
    }
}

pub fn name_lo(cards: &[u8]) -> Result<LoName, Refusal>
    ensures answer { result ≡ answer_lo cards.now }
    ensures number { number_of result ≡ hand_refusal 5 cards.now }
    ensures values { values_of lo_high result ≡ unless_refused (hand_refusal 5 cards.now) (lo_high (name_lo cards.now) ∷ []) }
{
    hands::hand_refusal(cards, 5)?;
    // The list itself as an array, which it is: another length has been refused.
    match cards.as_array() {
        Some(five) => Ok(lo_by_word(five)),
        None => Err(Refusal::HandLength),
    }
}
