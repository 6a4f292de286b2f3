// The results of a round by value: the pool, full and as paid, and the amounts of the seven seats.
//
// results_of answers for any round. Wins beyond the pool's limits, which no accepted records lead to, are refused by the pool and share
// nothing. specs/Results.antt has the pool and the results list.

#![tactic(auto)]

ghost use Rattle.std.specs.Prelude.{◌≡◌, ◌<◌};
ghost use Rattle.results.specs.Results.{maximum, base_amount, results, judged_of, amounts_of, results_of};

use amounts::{Bases, base_wager, bases_of, board_pay_of, lo_amount, pocket_amount, six_amount};
use counting::at;
use pays::{Pay, handed_back};
use pool::{Pool, pool_of};
use round::Round;
use seating::Table;

// How many amounts a seat has: base, Board, Pocket, Lo Ball, All-Six.
pub const SEAT_WAGERS: usize = 5;

// How many numbers the results list has: those of seats 1 to 7.
pub const RESULTS: usize = 35;

// What settling a round gives.
#[derive(Clone, Copy)]
pub struct Results {
    // The pool in dollars, full and as paid.
    pub full: u64,
    pub paid: u64,
    // The results list, in cents.
    pub amounts: [u64; RESULTS],
}

// What is worked out once for all seats: the wins in the pool and what comes back besides, the pool, and what the Board pays.
#[derive(Clone, Copy)]
pub struct Judged {
    pub bases: Bases,
    pub pool: Pool,
    pub board: Pay,
}

// The amounts of a seat.
#[derive(Clone, Copy)]
pub struct Amounts {
    pub base: u64,
    pub board: u64,
    pub pocket: u64,
    pub lo: u64,
    pub six: u64,
}

// The round maximum of a table, in dollars.
pub fn maximum_of(table: Table) -> u64
    ensures { result ≡ maximum table }
{
    5000 * (table.smallest as u64)
}

fn judge(round: Round) -> Judged
    ensures { result ≡ judged_of round }
{
    let bases = bases_of(round);
    let pool = pool_of(bases.wins, maximum_of(round.table));
    let board = board_pay_of(round);
    Judged { bases, pool, board }
}

// In the pool the wager and the share, else what was kept.
fn base_amount(round: &Round, judged: &Judged, k: u8) -> u64
    requires { (k < 7) × (judged.now ≡ judged_of round.now) }
    ensures { result ≡ base_amount round.now k }
{
    let place = k as usize;
    if 0 < judged.bases.wins[place] {
        return 100 * (base_wager(*round, k) as u64 + judged.pool.shares[place]);
    }
    judged.bases.kept[place]
}

fn amounts_of(round: &Round, judged: &Judged, k: u8) -> Amounts
    requires { (k < 7) × (judged.now ≡ judged_of round.now) }
    ensures { result ≡ amounts_of round.now k }
{
    let wager = at(&round.wagers.board, k as usize, 0);
    Amounts {
        base: base_amount(round, judged, k),
        board: handed_back(judged.board, wager as u32),
        pocket: pocket_amount(*round, k),
        lo: lo_amount(*round, k),
        six: six_amount(*round, k),
    }
}

fn list_of(round: &Round, judged: &Judged) -> [u64; RESULTS]
    requires { judged.now ≡ judged_of round.now }
    ensures { result ≡ results round.now }
{
    let mut list = [0u64; RESULTS];
    for k in 0..7 {
        let seat = amounts_of(round, judged, k as u8);
        let first = SEAT_WAGERS * k;
        list[first] = seat.base;
        list[first + 1] = seat.board;
        list[first + 2] = seat.pocket;
        list[first + 3] = seat.lo;
        list[first + 4] = seat.six;
    }
    list
}

// The pool and the results list of a round. It stays a call of its own, so that its frame is not part of its callers'.
#[inline(never)]
pub fn results_of(round: Round) -> Results
    ensures { result ≡ results_of round }
{
    let judged = judge(round);
    let amounts = list_of(&round, &judged);
    Results {
        full: judged.pool.full,
        paid: judged.pool.paid,
        amounts,
    }
}
