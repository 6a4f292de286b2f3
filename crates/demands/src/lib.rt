// The three demands on the settler, as theorems over the definitions that its contracts cite: proofs/Demands.antt has them.
//
// The code here works out the floor of the third demand, as specs/Floor.antt defines it. It answers for any table and any win.

#![tactic(auto)]

ghost use Rattle.std.specs.Prelude.{◌≡◌};
ghost use Rattle.demands.specs.Floor.{other_win, floor_of};

use results::maximum_of;
use seating::Table;

// The largest win that another seat can have in the pool beside this one.
fn other_win(table: Table, royal: bool) -> u32
    ensures { result ≡ other_win table royal }
{
    if royal {
        return 1000 * (table.largest as u32);
    }
    5000 * (table.largest as u32)
}

// What a win in the pool is sure of at a table, in dollars, however the others stake or choose.
pub fn sure_of(table: Table, royal: bool, win: u32) -> u64
    ensures { result ≡ floor_of table royal win }
{
    if win == 0 {
        return 0;
    }
    let most = maximum_of(table);
    let other = other_win(table, royal);
    let part = most * (win as u64) / (win as u64 + other as u64);
    (win as u64).min(part)
}
