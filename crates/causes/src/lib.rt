// What the dealer is told when the answer is no: the twenty refusals, each with its number.
//
// A function that may refuse returns a Result with a Refusal. Programs and pads in C are told its number. specs/Refusal.antt has the numbers, once.

#![tactic(auto)]

ghost use Rattle.std.specs.Prelude.{◌≡◌};
ghost use Rattle.causes.specs.Refusal.{number, number_of};

#[derive(Clone, Copy, PartialEq, Eq, Debug)]
pub enum Refusal {
    // 1: a lent list or room isn't as long as it has to be.
    ListLength,
    // 2: the file isn't whole records, or the record isn't 16 bytes.
    RecordLength,
    // 3: a record of this kind can't come here.
    OutOfPlace,
    // 4: a byte that must be zero isn't.
    ByteNotZero,
    // 5: an ante limit is out of range.
    AnteLimit,
    // 6: there is no such pay table.
    NoPayTable,
    // 7: the seat is outside 1 to 7, or, in a seat record, not above the one before.
    SeatNumber,
    // 8: the ante is outside the limits.
    Ante,
    // 9: a side wager is above what the table takes.
    SideWager,
    // 10: the deck part isn't the next one.
    DeckPart,
    // 11: a card is above 51, or a repeat.
    Card,
    // 12: the choice is above 3.
    Choice,
    // 13: the seat isn't in the round.
    SeatNotIn,
    // 14: the seat has folded.
    SeatFolded,
    // 15: the seat has already chosen on this street.
    AlreadyChosen,
    // 16: the round isn't finished.
    NotFinished,
    // 17: the held round is neither the fresh one nor led to by accepted records.
    NotHeld,
    // 18: the hand isn't as many cards as the name asked for needs.
    HandLength,
    // 19: the sharing lists differ in length or exceed seven.
    SharingLists,
    // 20: a win or the maximum is above its limit.
    SharingLimit,
}

impl Refusal {
    // Its number, 1 to 20.
    pub fn number(self) -> u8
        ensures { result ≡ number self }
    {
        match self {
            Refusal::ListLength => 1,
            Refusal::RecordLength => 2,
            Refusal::OutOfPlace => 3,
            Refusal::ByteNotZero => 4,
            Refusal::AnteLimit => 5,
            Refusal::NoPayTable => 6,
            Refusal::SeatNumber => 7,
            Refusal::Ante => 8,
            Refusal::SideWager => 9,
            Refusal::DeckPart => 10,
            Refusal::Card => 11,
            Refusal::Choice => 12,
            Refusal::SeatNotIn => 13,
            Refusal::SeatFolded => 14,
            Refusal::AlreadyChosen => 15,
            Refusal::NotFinished => 16,
            Refusal::NotHeld => 17,
            Refusal::HandLength => 18,
            Refusal::SharingLists => 19,
            Refusal::SharingLimit => 20,
        }
    }
}

// The number of an answer's refusal, 0 where there is none.
pub fn number_of<T: Copy>(answer: Result<T, Refusal>) -> u8
    ensures { result ≡ number_of answer }
{
    match answer {
        Ok(_) => 0,
        Err(refusal) => refusal.number(),
    }
}
