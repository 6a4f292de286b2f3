// The pay tables: what a wager's pay table says of a name.
//
// The tables are constant arrays, laid out as the rule sheet prints them: a line for each name, and in it the odds of each
// pay table at the place of its number. base_pay, lo_pay, board_pay, pocket_pay and six_pay choose by the table's number and
// answer NoTable where there is none. No function has a `requires`.
//
// proofs/Above.antt has the rule that only a royal flush and a straight flush are paid at odds above 50, shown once, over
// the whole base table.

#![tactic(auto)]

ghost use Rattle.std.specs.Prelude.{◌≡◌, ◌&&◌, ◌+◌, ◌-◌, leb, ltb, if◌then◌else◌};
ghost use Rattle.names.specs.Five.{five_place};
ghost use Rattle.names.specs.Board.{board_place};
ghost use Rattle.names.specs.Pocket.{pocket_place};
ghost use Rattle.odds.specs.Pays.{pay_in, pay_at, lo_place, six_line, base_pay, lo_pay, board_pay, pocket_pay, six_pay};

use allsix::SixName;
use counting::at;
use names::{BoardName, FiveName, LoName, PocketName, five_place};
use pays::Pay::{self, Loss, NoTable, Push, ThreeToTwo, To, To200000};

const BASE: [[Pay; 5]; 11] = [
    [To(500), To(500), To(500), To(500), To(500)], // royal flush
    [To(100), To(100), To(100), To(100), To(100)], // straight flush
    [To(40), To(40), To(40), To(40), To(40)], // four
    [To(10), To(10), To(11), To(11), To(10)], // full house
    [To(6), To(6), To(7), To(7), To(8)], // flush
    [To(4), To(4), To(4), To(5), To(4)], // straight
    [To(3), To(3), To(3), To(3), To(3)], // three
    [ThreeToTwo, To(2), ThreeToTwo, ThreeToTwo, ThreeToTwo], // two pair
    [To(1), To(1), To(1), To(1), To(1)], // jacks to aces
    [Push, Push, Push, Push, Push], // sixes to tens
    [Loss, Loss, Loss, Loss, Loss], // other
];

const LO: [[Pay; 2]; 7] = [
    [To(100), To(100)], // 7 high
    [To(50), To(50)], // 8 high
    [To(15), To(10)], // 9 high
    [To(5), To(5)], // 10 high
    [To(1), To(1)], // jack high
    [Loss, Push], // queen high
    [Loss, Loss], // other
];

const BOARD: [[Pay; 4]; 7] = [
    [To(50), To(50), To(40), To(50)], // royal
    [To(40), To(40), To(40), To(40)], // straight flush
    [To(30), To(30), To(30), To(30)], // three of a kind
    [To(6), To(5), To(5), To(6)], // straight
    [To(3), To(4), To(4), To(4)], // flush
    [To(1), To(1), To(1), To(1)], // pair
    [Loss, Loss, Loss, Loss], // other
];

const POCKET: [[Pay; 3]; 5] = [
    [To(25), To(30), To(30)], // pair of aces
    [To(20), To(20), To(20)], // ace with K, Q or J suited
    [To(10), To(10), To(10)], // the same unsuited
    [To(5), To(5), To(4)], // other pair
    [Loss, Loss, Loss], // nothing
];

const SIX: [[Pay; 5]; 10] = [
    [To(1000), To(1000), To(1000), To(1000), To200000], // six-card royal in diamonds
    [To(1000), To(1000), To(1000), To(1000), To(20000)], // in another suit
    [To(1000), To(1000), To(1000), To(1000), To(1000)], // royal flush
    [To(200), To(200), To(200), To(200), To(200)], // straight flush
    [To(50), To(50), To(100), To(100), To(50)], // four
    [To(25), To(25), To(20), To(20), To(20)], // full house
    [To(20), To(15), To(15), To(15), To(15)], // flush
    [To(10), To(10), To(9), To(10), To(10)], // straight
    [To(5), To(5), To(8), To(7), To(5)], // three
    [Loss, Loss, Loss, Loss, Loss], // other
];

// A name's line in its table, from 0 for the highest.
pub fn board_place(name: BoardName) -> usize
    ensures { result ≡ board_place name }
{
    name as usize
}

pub fn pocket_place(name: PocketName) -> usize
    ensures { result ≡ pocket_place name }
{
    name as usize
}

pub fn lo_place(name: LoName) -> usize
    ensures { result ≡ lo_place name }
{
    match name {
        LoName::High(rank) => lo_line(rank),
        LoName::Nothing => 6,
    }
}

// 7 high to queen high have a line each; the last line is for every other rank.
fn lo_line(rank: u8) -> usize
    ensures { result ≡ (if leb 5 rank && leb rank 10 then rank - 5 else 6) }
{
    match rank {
        5..=10 => rank as usize - 5,
        _ => 6,
    }
}

// The six-card royals and the names of five cards to three of a kind have a line each; the last line is for every other name.
fn best_line(name: FiveName) -> usize
    ensures { result ≡ (if ltb (five_place name) 7 then five_place name + 2 else 9) }
{
    let place = five_place(name);
    if place < 7 { place + 2 } else { 9 }
}

pub fn six_line(name: SixName) -> usize
    ensures { result ≡ six_line name }
{
    match name {
        SixName::RoyalOfDiamonds => 0,
        SixName::Royal => 1,
        SixName::Five(five) => best_line(five),
    }
}

// What pay table `table`, numbered from 1, says in a line.
fn pay_in(line: &[Pay], table: u8) -> Pay
    ensures { result ≡ pay_in line.now table }
{
    if table == 0 {
        return NoTable;
    }
    at(line, table as usize - 1, NoTable)
}

// What pay table `table` says in the line at a place.
fn pay_at<const TABLES: usize>(lines: &[[Pay; TABLES]], place: usize, table: u8) -> Pay
    ensures { result ≡ pay_at lines.now table place }
{
    match lines.get(place) {
        Some(line) => pay_in(line, table),
        None => NoTable,
    }
}

pub fn base_pay(table: u8, name: FiveName) -> Pay
    ensures { result ≡ base_pay table name }
{
    pay_at(&BASE, five_place(name), table)
}

pub fn lo_pay(table: u8, name: LoName) -> Pay
    ensures { result ≡ lo_pay table name }
{
    pay_at(&LO, lo_place(name), table)
}

pub fn board_pay(table: u8, name: BoardName) -> Pay
    ensures { result ≡ board_pay table name }
{
    pay_at(&BOARD, board_place(name), table)
}

pub fn pocket_pay(table: u8, name: PocketName) -> Pay
    ensures { result ≡ pocket_pay table name }
{
    pay_at(&POCKET, pocket_place(name), table)
}

pub fn six_pay(table: u8, name: SixName) -> Pay
    ensures { result ≡ six_pay table name }
{
    pay_at(&SIX, six_line(name), table)
}
