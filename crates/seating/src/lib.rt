// The table and its seats: the posted limits, the numbers of the pay tables, and what each seat wagers.
//
// A table record and a seat record are each answered here by their refusal and by what they make of the table or
// the wagers; whether such a record may come is the round's to say. Each function answers for any table, any wagers and any
// bytes. `fits` and `fit` are true of the tables and wagers that accepted records leave, and proofs/ shows it from both
// sides: an accepted record keeps them true, and a table or wagers of which they are true are led to by their own records.

#![tactic(auto)]

ghost use Rattle.std.specs.Prelude.{◌≡◌};
ghost use Rattle.causes.specs.Refusal.{number_of};
ghost use Rattle.seating.specs.Table.{limits_fit, tables_fit, table_of, table_refusal, has_table, is_blank, table_fits};
ghost use Rattle.seating.specs.Seat.{seat_of, seat_at, ante_fits, most_six, sides_fit, is_above, seat_rises, seat_refusal, with_seat, seat_fits, seats_fit};

use causes::Refusal;
use counting::{at, put};
use records::{byte_at, is_between, is_zero_from, place_of, word_at};

#[derive(Clone, Copy, PartialEq, Eq, Debug, Default)]
pub struct Table {
    pub smallest: u8,
    pub largest: u8,
    pub base: u8,
    pub lo: u8,
    pub board: u8,
    pub pocket: u8,
    // 0 where All-Six isn't offered.
    pub six: u8,
}

#[derive(Clone, Copy)]
pub struct Wagers {
    pub antes: [u16; 7],
    pub board: [u16; 7],
    pub pocket: [u16; 7],
    pub lo: [u16; 7],
    pub six: [u16; 7],
}

// What one seat wagers.
#[derive(Clone, Copy, PartialEq, Eq, Debug, Default)]
struct SeatWagers {
    ante: u16,
    board: u16,
    pocket: u16,
    lo: u16,
    six: u16,
}

// What a seat record says.
fn seat_of(bytes: &[u8]) -> SeatWagers
    ensures { result ≡ seat_of bytes.now }
{
    SeatWagers {
        ante: word_at(bytes, 2),
        board: word_at(bytes, 4),
        pocket: word_at(bytes, 6),
        lo: word_at(bytes, 8),
        six: word_at(bytes, 10),
    }
}

// What a table record says.
pub fn table_of(bytes: &[u8]) -> Table
    ensures { result ≡ table_of bytes.now }
{
    Table {
        smallest: byte_at(bytes, 1),
        largest: byte_at(bytes, 2),
        base: byte_at(bytes, 3),
        lo: byte_at(bytes, 4),
        board: byte_at(bytes, 5),
        pocket: byte_at(bytes, 6),
        six: byte_at(bytes, 7),
    }
}

// The refusal of what a table record says.
#[tactic(auto, unfolding(crate::specs::Table::table_refusal))]
pub fn table_refusal(bytes: &[u8]) -> Result<(), Refusal>
    ensures { number_of result ≡ table_refusal bytes.now }
{
    if !is_zero_from(bytes, 8) {
        return Err(Refusal::ByteNotZero);
    }
    let table = table_of(bytes);
    if !table.limits_fit() {
        return Err(Refusal::AnteLimit);
    }
    if !table.tables_fit() {
        return Err(Refusal::NoPayTable);
    }
    Ok(())
}

impl Table {
    #[tactic(auto, unfolding(crate::specs::Table::limits_fit))]
    fn limits_fit(self) -> bool
        ensures { result ≡ limits_fit self }
    {
        is_between(5, 15, self.smallest) & is_between(25, 100, self.largest)
    }

    #[tactic(auto, unfolding(crate::specs::Table::tables_fit))]
    fn tables_fit(self) -> bool
        ensures { result ≡ tables_fit self }
    {
        let first = is_between(1, 5, self.base) & is_between(1, 2, self.lo);
        let second = is_between(1, 4, self.board) & is_between(1, 3, self.pocket);
        first & (second & (self.six <= 5))
    }

    #[tactic(auto, unfolding(crate::specs::Table::is_blank))]
    fn is_blank(self) -> bool
        ensures { result ≡ is_blank self }
    {
        self == Table::default()
    }

    // The table record was read.
    pub fn is_read(self) -> bool
        ensures { result ≡ has_table self }
    {
        self.smallest != 0
    }

    // No table yet, or one that no refusal is for.
    #[tactic(auto, unfolding(crate::specs::Table::table_fits))]
    pub fn fits(self) -> bool
        ensures { result ≡ table_fits self }
    {
        self.is_blank() | (self.limits_fit() & self.tables_fit())
    }

    // An ante lies between the limits.
    fn ante_fits(self, ante: u16) -> bool
        ensures { result ≡ ante_fits self ante }
    {
        (self.smallest as u16 <= ante) & (ante <= self.largest as u16)
    }

    // The most that may be wagered on All-Six.
    #[tactic(auto, unfolding(crate::specs::Seat::most_six))]
    fn most_six(self) -> u16
        ensures { result ≡ most_six self }
    {
        if self.six == 0 {
            0
        } else {
            self.largest as u16
        }
    }

    // No side wager is above the largest ante, and none is on All-Six where it isn't offered.
    fn sides_fit(self, seat: SeatWagers) -> bool
        ensures { result ≡ sides_fit self seat.board seat.pocket seat.lo seat.six }
    {
        let most = self.largest as u16;
        ((seat.board <= most) & (seat.pocket <= most))
            & ((seat.lo <= most) & (seat.six <= self.most_six()))
    }
}

// The seat's number is above that of each seat that plays.
fn is_above(antes: [u16; 7], seat: u8) -> bool
    ensures { result ≡ is_above antes seat }
{
    (0..7).all(|k| (antes[k] == 0) | (k + 1 < seat as usize))
}

// The record's seat is one of 1 to 7, above each that plays.
fn seat_rises(antes: [u16; 7], bytes: &[u8]) -> bool
    ensures { result ≡ seat_rises antes bytes.now }
{
    let seat = byte_at(bytes, 1);
    is_between(1, 7, seat) & is_above(antes, seat)
}

impl Wagers {
    // The refusal of what a seat record says.
    #[tactic(auto, unfolding(crate::specs::Seat::seat_refusal))]
    pub fn seat_refusal(self, table: Table, bytes: &[u8]) -> Result<(), Refusal>
        ensures { number_of result ≡ seat_refusal table self bytes.now }
    {
        if !is_zero_from(bytes, 12) {
            return Err(Refusal::ByteNotZero);
        }
        if !seat_rises(self.antes, bytes) {
            return Err(Refusal::SeatNumber);
        }
        let seat = seat_of(bytes);
        if !table.ante_fits(seat.ante) {
            return Err(Refusal::Ante);
        }
        if !table.sides_fit(seat) {
            return Err(Refusal::SideWager);
        }
        Ok(())
    }

    // The wagers with those of a seat record.
    pub fn with_seat(self, bytes: &[u8]) -> Wagers
        ensures { result ≡ with_seat self bytes.now }
    {
        let k = place_of(byte_at(bytes, 1)) as usize;
        let seat = seat_of(bytes);
        Wagers {
            antes: put(self.antes, k, seat.ante),
            board: put(self.board, k, seat.board),
            pocket: put(self.pocket, k, seat.pocket),
            lo: put(self.lo, k, seat.lo),
            six: put(self.six, k, seat.six),
        }
    }

    // What the seat at place `k` has wagered.
    fn seat_at(self, k: usize) -> SeatWagers
        ensures { result ≡ seat_at self k }
    {
        SeatWagers {
            ante: at(&self.antes, k, 0),
            board: at(&self.board, k, 0),
            pocket: at(&self.pocket, k, 0),
            lo: at(&self.lo, k, 0),
            six: at(&self.six, k, 0),
        }
    }

    // The seat at place `k` has wagered nothing, or within the limits of a table that was read.
    #[tactic(auto, unfolding(crate::specs::Seat::no_wager, crate::specs::Seat::wagers_fit))]
    fn seat_fits(self, table: Table, k: usize) -> bool
        ensures { result ≡ seat_fits table self k }
    {
        let seat = self.seat_at(k);
        (seat == SeatWagers::default())
            | (table.is_read() & (table.ante_fits(seat.ante) & table.sides_fit(seat)))
    }

    // Each seat has wagered nothing, or within the limits of a table that was read.
    pub fn fit(self, table: Table) -> bool
        ensures { result ≡ seats_fit table self }
    {
        (0..7).all(|k| self.seat_fits(table, k))
    }
}
