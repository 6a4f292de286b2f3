// What each wager of a round hands back, seat by seat, before the pool is shared.
//
// A base win at odds above 50 goes into the pool: of such a seat `Base` has the full win, and the wager that comes back besides. Of any other
// seat it has what the pay table hands back, and nothing where the seat has folded. Side wagers are settled whether the seat has folded or
// not. Each function answers for any round and any place; a seat that doesn't play has no wager, and so nothing back.

#![tactic(auto)]

ghost use Rattle.std.specs.Prelude.{◌≡◌, ◌+◌, ◌*◌, get_or};
ghost use Rattle.pays.specs.declared.Pay.{Pay};
ghost use Rattle.pays.specs.Amounts.{handed_back};
ghost use Rattle.amounts.specs.Base.{base_wager, hand_of, base_at, base_of, bases_of};
ghost use Rattle.amounts.specs.Sides.{board_pay_of, pocket_pay_of, lo_pay_of, six_pay_of, pocket_amount, lo_amount, six_amount};

use counting::at;
use holding::Deal;
use names::FiveName;
use pays::{Pay, handed_back, is_above_fifty, win_at};
use round::Round;

// A seat's win in the pool, in dollars, and what its base wager hands back besides a share of the pool, in cents.
#[derive(Clone, Copy)]
pub struct Base {
    pub win: u64,
    pub kept: u64,
}

// The same of the seven seats.
#[derive(Clone, Copy)]
pub struct Bases {
    pub wins: [u64; 7],
    pub kept: [u64; 7],
}

// Its deck, and what says whose its cards are.
fn deal_of(round: &Round) -> Deal<'_>
    ensures offer { result.offer ≡ round.now.table.six }
    ensures antes { result.antes.now ≡ round.now.wagers.antes }
    ensures cards { result.cards.now ≡ round.now.deck.cards }
{
    Deal {
        offer: round.table.six,
        antes: &round.wagers.antes,
        cards: &round.deck.cards,
    }
}

fn with_raises(ante: u16, first: u8, second: u8, third: u8) -> u32
    ensures { result ≡ ante + (first + second + third) * ante }
{
    let raised = first as u32 + second as u32 + third as u32;
    ante as u32 + raised * (ante as u32)
}

// The ante and the raises of the seat at place `k`, as one sum.
pub fn base_wager(round: Round, k: u8) -> u32
    ensures { result ≡ base_wager round k }
{
    let play = round.play;
    let ante = at(&round.wagers.antes, k as usize, 0);
    with_raises(
        ante,
        play.raise_on(0, k),
        play.raise_on(1, k),
        play.raise_on(2, k),
    )
}

// What the five cards of the seat at place `k` are called.
pub fn hand_of(round: Round, k: u8) -> FiveName
    ensures { result ≡ hand_of round k }
{
    names::five_by_word(&deal_of(&round).five(k))
}

// The base of a seat that is still in, by what its pay table says of its hand.
fn base_at(pay: Pay, wager: u32) -> Base
    ensures { result ≡ base_at pay wager }
{
    if is_above_fifty(pay) {
        return Base {
            win: win_at(pay, wager),
            kept: 100 * (wager as u64),
        };
    }
    Base {
        win: 0,
        kept: handed_back(pay, wager),
    }
}

pub fn base_of(round: Round, k: u8) -> Base
    ensures { result ≡ base_of round k }
{
    let antes = round.wagers.antes;
    let play = round.play;
    if !play.is_in(antes, k) {
        return Base { win: 0, kept: 0 };
    }
    let pay = odds::base_pay(round.table.base, hand_of(round, k));
    base_at(pay, base_wager(round, k))
}

pub fn bases_of(round: Round) -> Bases
    ensures { result ≡ bases_of round }
{
    let mut wins = [0u64; 7];
    let mut kept = [0u64; 7];
    for k in 0..7 {
        let base = base_of(round, k as u8);
        wins[k] = base.win;
        kept[k] = base.kept;
    }
    Bases { wins, kept }
}

// What the Board pay table says of the community cards.
pub fn board_pay_of(round: Round) -> Pay
    ensures { result ≡ board_pay_of round }
{
    let name = names::board_by_word(&deal_of(&round).community());
    odds::board_pay(round.table.board, name)
}

// What the Pocket pay table says of the two cards of the seat at place `k`.
fn pocket_pay_of(round: &Round, k: u8) -> Pay
    ensures { result ≡ pocket_pay_of round.now k }
{
    let name = names::pocket_by_word(&deal_of(round).hole(k));
    odds::pocket_pay(round.table.pocket, name)
}

// What the Lo Ball pay table says of its five.
fn lo_pay_of(round: &Round, k: u8) -> Pay
    ensures { result ≡ lo_pay_of round.now k }
{
    let name = names::lo_by_word(&deal_of(round).five(k));
    odds::lo_pay(round.table.lo, name)
}

// What the All-Six pay table says of its six.
fn six_pay_of(round: &Round, k: u8) -> Pay
    ensures { result ≡ six_pay_of round.now k }
{
    let name = allsix::six_by_word(&deal_of(round).six(k));
    odds::six_pay(round.table.six, name)
}

// What the wager of the seat at place `k` hands back. Its pay is only asked for where there is a wager, so no cards are named for nothing.
fn amount<F: FnOnce() -> Pay>(wagers: &[u16; 7], k: u8, pay: F) -> u64
    requires { F.IsAlwaysCallable pay }
    ensures none { get_or wagers.now k 0 ≡ 0 → result ≡ 0 }
    ensures some { (get_or wagers.now k 0 ≡ 0 → ⊥) → (said : Pay) × F.post pay said × (result ≡ handed_back said (get_or wagers.now k 0)) }
{
    let wager = at(wagers, k as usize, 0);
    if wager == 0 {
        0
    } else {
        handed_back(pay(), wager as u32)
    }
}

pub fn pocket_amount(round: Round, k: u8) -> u64
    ensures { result ≡ pocket_amount round k }
{
    amount(&round.wagers.pocket, k, || pocket_pay_of(&round, k))
}

pub fn lo_amount(round: Round, k: u8) -> u64
    ensures { result ≡ lo_amount round k }
{
    amount(&round.wagers.lo, k, || lo_pay_of(&round, k))
}

pub fn six_amount(round: Round, k: u8) -> u64
    ensures { result ≡ six_amount round k }
{
    amount(&round.wagers.six, k, || six_pay_of(&round, k))
}
