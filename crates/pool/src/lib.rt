// The sharing of the round maximum among the base wins at odds above 50.
//
// share is the entry on lent lists, pool_of the same of seven wins by value. Each answers every input and has no `requires`.
// specs/Pool.antt says what is answered and what the lent list then holds; specs/Shares.antt has the laws of a share, the only
// things that callers cite. All wins, shares and maximums are whole dollars.

#![tactic(auto)]

ghost use Rattle.std.specs.Prelude.{◌≡◌, true, map, ◌≤◌, ◌<◌, length};
ghost use Rattle.causes.specs.Refusal.{number_of, answered};
ghost use Rattle.counting.specs.Choose.{one};
ghost use Rattle.counting.specs.Count.{total};
ghost use Rattle.pool.specs.Pool.{rounded_down, shares_of, wins_fit, share_refusal, share_answer, share_list, pool_of};
ghost use Rattle.pool.specs.Standings.{standings, gets_dollar, given};

use causes::Refusal;
use counting::{above_of, one_where};

// How a pool is paid that isn't refused.
#[derive(Clone, Copy, PartialEq, Eq, Debug)]
pub enum Shared {
    // Every win is paid in full.
    Full,
    // The pool exceeds the maximum: each win is cut to its share.
    Cut,
}

// The pool of seven wins: its total in full and as paid, and the share of each.
#[derive(Clone, Copy)]
pub struct Pool {
    // 20 where it is refused, else 0.
    pub number: u8,
    pub full: u64,
    pub paid: u64,
    pub shares: [u64; 7],
}

// No win is above 500,000.
fn wins_fit(wins: &[u64]) -> bool
    ensures { result ≡ wins_fit wins.now }
{
    wins.iter().all(|win| *win <= 500000)
}

// Why the wins may not be shared into a list of this length.
fn share_refusal(wins: &[u64], maximum: u64, room: usize) -> Result<(), Refusal>
    ensures { result ≡ answered (share_refusal wins.now maximum room) tt }
{
    if wins.len() != room || 7 < wins.len() {
        return Err(Refusal::SharingLists);
    }
    if !wins_fit(wins) || 75000 < maximum {
        return Err(Refusal::SharingLimit);
    }
    Ok(())
}

// The pool's total.
fn total_of(wins: &[u64]) -> u64
    requires { total wins.now ≤ 3500000 }
    ensures { result ≡ total wins.now }
{
    wins.iter().sum()
}

// Each win's share rounded down, into a list as long; and where each win stands, as one number: the larger, the earlier.
fn round_down(wins: &[u64], maximum: u64, pool: u64, shares: &mut [u64]) -> [u64; 7]
    requires wins_len { (length wins.now ≡ length shares.old) × (length wins.now ≤ 7) × (wins_fit wins.now ≡ true) }
    requires maximum_bound { (maximum ≤ 75000) × (maximum < pool) × (pool ≤ 3500000) }
    ensures standings { result ≡ standings maximum pool wins.now (length wins.now) }
    ensures list { shares.new ≡ map (rounded_down maximum pool) wins.now }
{
    let mut stand = [0u64; 7];
    for (i, win) in wins.iter().enumerate() {
        let product = maximum * *win;
        shares[i] = product / pool;
        stand[i] = product % pool * 8 + (7 - i as u64);
    }
    stand
}

// The dollar that falls to a win, by where it stands: none where it has no fraction, as below 8.
fn dollar_to(left: u64, stand: &[u64], own: u64) -> u64
    ensures { (result ≡ one (gets_dollar left stand.now own)) × (result ≤ 1) }
{
    one_where(8 <= own && above_of(stand, own) < left)
}

// The dollars left, one each to those who stand first.
fn give(left: u64, stand: &[u64], shares: &mut [u64])
    requires { (length shares.old ≤ length stand.now) × (total shares.old ≤ 3500000) }
    ensures { shares.new ≡ given left stand.now shares.old }
{
    for (k, share) in shares.iter_mut().enumerate() {
        *share += dollar_to(left, stand, stand[k]);
    }
}

// Every win's share, into a list as long: cut where the pool exceeds the maximum, else in full.
fn fill(wins: &[u64], maximum: u64, pool: u64, shares: &mut [u64])
    requires wins_len { (length wins.now ≡ length shares.old) × (length wins.now ≤ 7) × (wins_fit wins.now ≡ true) }
    requires maximum_bound { (maximum ≤ 75000) × (pool ≡ total wins.now) }
    ensures { shares.new ≡ shares_of maximum wins.now }
{
    if maximum < pool {
        let stand = round_down(wins, maximum, pool, shares);
        let left = maximum - total_of(shares);
        give(left, &stand, shares);
    } else {
        for (i, win) in wins.iter().enumerate() {
            shares[i] = *win;
        }
    }
}

// Shares the maximum among up to seven wins, and writes each win's share at its place of an equally long list. A refusal, 19 or 20, leaves the list as it was.
pub fn share(wins: &[u64], maximum: u64, shares: &mut [u64]) -> Result<Shared, Refusal>
    ensures answer { result ≡ share_answer wins.now maximum (length shares.old) }
    ensures number { number_of result ≡ share_refusal wins.now maximum (length shares.old) }
    ensures list { shares.new ≡ share_list wins.now maximum shares.old }
{
    share_refusal(wins, maximum, shares.len())?;
    let pool = total_of(wins);
    fill(wins, maximum, pool, shares);
    Ok(if pool <= maximum {
        Shared::Full
    } else {
        Shared::Cut
    })
}

// Shares the maximum among seven wins; a place that has no win has a win of 0.
pub fn pool_of(wins: [u64; 7], maximum: u64) -> Pool
    ensures { result ≡ pool_of wins maximum }
{
    let mut shares = [0u64; 7];
    if let Err(refusal) = share_refusal(&wins, maximum, 7) {
        return Pool {
            number: refusal.number(),
            full: 0,
            paid: 0,
            shares,
        };
    }
    let full = total_of(&wins);
    fill(&wins, maximum, full, &mut shares);
    let paid = total_of(&shares);
    Pool {
        number: 0,
        full,
        paid,
        shares,
    }
}
