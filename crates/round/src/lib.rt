// The round in progress, held as one value with its cards and wagers inside, which hands back its successor at each record.
//
// A `Round` is 158 bytes of numbers: the table's 7, the wagers' 5 × 7 × 2, the deck's 52 and 1, the play's 21 and 7. Parts not yet
// filled are zero. It is passed by value: taking a record copies it a few times, and does no work that grows with anything but the record.
// The methods here answer for any round whatever; whether accepted records lead to it is for `held` to ask.

#![tactic(auto)]

ghost use Rattle.std.specs.Prelude.{◌≡◌, false, MatchResult};
ghost use Rattle.causes.specs.Refusal.{number_of as refused_number};
ghost use Rattle.causes.specs.declared.Refusal.TheVariants.{OutOfPlace};
ghost use Rattle.records.specs.Bytes.{byte};
ghost use Rattle.round.specs.Order.{is_kind, kind_number, fresh_round, is_playing, is_finished, may_come};
ghost use Rattle.round.specs.Feed.{kind_refusal, refusal, next, refused, accepted, feed, number_of};

use causes::Refusal;
use choosing::Play;
use dealing::Deck;
use records::{any_plays, byte_at};
use seating::{Table, Wagers, table_of, table_refusal};

#[derive(Clone, Copy)]
pub struct Round {
    pub table: Table,
    pub wagers: Wagers,
    pub deck: Deck,
    pub play: Play,
}

// What a record says: its first byte is the kind's number, 1 to 4.
#[derive(Clone, Copy)]
enum Kind {
    Table,
    Seat,
    Deck,
    Choice,
}

// The answer to a record.
#[derive(Clone, Copy)]
pub enum Answer {
    Next,
    Finished,
    Refused(u8),
}

// The answer, and beside it the round that is then held.
#[derive(Clone, Copy)]
pub struct Step {
    pub answer: Answer,
    pub round: Round,
}

impl TryFrom<u8> for Kind {
    // A record of no kind can't come.
    type Error = Refusal;

    ghost try_from_gives = { λ number answer. MatchResult answer (λ kind. kind_number kind ≡ number) (λ refusal. (refusal ≡ OutOfPlace) × (is_kind number ≡ false)) };

    fn try_from(number: u8) -> Result<Kind, Refusal> {
        match number {
            1 => Ok(Kind::Table),
            2 => Ok(Kind::Seat),
            3 => Ok(Kind::Deck),
            4 => Ok(Kind::Choice),
            _ => Err(Refusal::OutOfPlace),
        }
    }
}

impl Round {
    // The round before its first record.
    pub fn fresh() -> Round
        ensures { result ≡ fresh_round }
    {
        let none = [0; 7];
        Round {
            table: Table::default(),
            wagers: Wagers {
                antes: none,
                board: none,
                pocket: none,
                lo: none,
                six: none,
            },
            deck: Deck {
                cards: [0; 52],
                parts: 0,
            },
            play: Play {
                raises: [0; 21],
                folds: [0; 7],
            },
        }
    }

    // Some seat has still to choose.
    fn is_playing(self) -> bool
        ensures { result ≡ is_playing self }
    {
        self.play.streets_over(self.wagers.antes) < 3
    }

    // After street three, or when no seat is still in.
    pub fn is_finished(self) -> bool
        ensures { result ≡ is_finished self }
    {
        (self.deck.parts == 4) & !self.is_playing()
    }

    // A record of this kind may come here.
    #[tactic(auto, unfolding(crate::specs::Order::may_come))]
    fn may_come(self, kind: Kind) -> bool
        ensures { result ≡ may_come self (kind_number kind) }
    {
        match kind {
            Kind::Table => !self.table.is_read(),
            Kind::Seat => self.table.is_read() & (self.deck.parts == 0),
            Kind::Deck => any_plays(self.wagers.antes) & (self.deck.parts < 4),
            Kind::Choice => (self.deck.parts == 4) & self.is_playing(),
        }
    }

    // The refusal of what a record of this kind says.
    #[tactic(auto, unfolding(crate::specs::Feed::kind_refusal))]
    fn kind_refusal(self, kind: Kind, bytes: &[u8]) -> Result<(), Refusal>
        requires { byte bytes.now 0 ≡ kind_number kind }
        ensures { refused_number result ≡ kind_refusal self bytes.now }
    {
        match kind {
            Kind::Table => table_refusal(bytes),
            Kind::Seat => self.wagers.seat_refusal(self.table, bytes),
            Kind::Deck => self.deck.part_refusal(bytes),
            Kind::Choice => self.play.choice_refusal(self.wagers.antes, bytes),
        }
    }

    // The refusal of a record, the lowest number that applies.
    #[tactic(auto, unfolding(crate::specs::Feed::refusal, crate::specs::Order::may_come))]
    pub fn refusal(self, bytes: &[u8]) -> Result<(), Refusal>
        ensures { refused_number result ≡ refusal self bytes.now }
    {
        if bytes.len() != 16 {
            return Err(Refusal::RecordLength);
        }
        let kind = Kind::try_from(byte_at(bytes, 0))?;
        if !self.may_come(kind) {
            return Err(Refusal::OutOfPlace);
        }
        self.kind_refusal(kind, bytes)
    }

    // The round with what a record says, by its kind; whether the record is refused is for `refusal` to say. A record of no kind is taken as a choice.
    #[tactic(auto, unfolding(crate::specs::Feed::next))]
    pub fn next(mut self, bytes: &[u8]) -> Round
        ensures { result ≡ next self bytes.now }
    {
        match Kind::try_from(byte_at(bytes, 0)) {
            Ok(Kind::Table) => self.table = table_of(bytes),
            Ok(Kind::Seat) => self.wagers = self.wagers.with_seat(bytes),
            Ok(Kind::Deck) => self.deck = self.deck.with_part(bytes),
            Ok(Kind::Choice) | Err(_) => self.play = self
                .play
                .with_choice(self.wagers.antes, bytes),
        }
        self
    }

    // The next round, or the finished round.
    fn accept(self) -> Step
        ensures { result ≡ accepted self }
    {
        let answer = if self.is_finished() {
            Answer::Finished
        } else {
            Answer::Next
        };
        Step {
            answer,
            round: self,
        }
    }

    // A refusal that names its cause, beside the same round.
    pub fn refuse(self, number: u8) -> Step
        ensures { result ≡ refused number self }
    {
        Step {
            answer: Answer::Refused(number),
            round: self,
        }
    }

    // Takes a record: the next round, the finished round, or a refusal.
    #[tactic(auto, unfolding(crate::specs::Feed::feed))]
    pub fn feed(self, bytes: &[u8]) -> Step
        ensures answer { result ≡ feed self bytes.now }
        ensures number { number_of result.answer ≡ refusal self bytes.now }
    {
        match self.refusal(bytes) {
            Ok(()) => self.next(bytes).accept(),
            Err(refusal) => self.refuse(refusal.number()),
        }
    }
}
