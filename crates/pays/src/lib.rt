// What a pay table says of a hand, and what that hands back.
//
// A pay table says a win at some odds, a push or a loss; handed_back gives the cents of it, win_at the win that may go into the pool, and
// is_above_fifty whether it does. No function has a `requires`.

#![tactic(auto)]

ghost use Rattle.std.specs.Prelude.{◌≡◌, ◌+◌, ◌*◌};
ghost use Rattle.pays.specs.Amounts.{handed_back, win_at, above_fifty};

// What a pay table says of a name.
#[derive(Clone, Copy)]
pub enum Pay {
    // A win at these odds to 1.
    To(u16),
    // A win at 3 to 2.
    ThreeToTwo,
    // A win at 200,000 to 1, which All-Six alone has.
    To200000,
    Push,
    Loss,
    // The wager has no pay table of this number.
    NoTable,
}

fn times(odds: u16, wager: u32) -> u64
    ensures { result ≡ odds * wager }
{
    odds as u64 * wager as u64
}

// The cents that a win at odds to 1 hands back.
fn won(odds: u16, wager: u32) -> u64
    ensures { result ≡ 100 * wager + 100 * (odds * wager) }
{
    100 * (wager as u64) + 100 * times(odds, wager)
}

// What is handed back, in cents, of a wager in dollars.
pub fn handed_back(pay: Pay, wager: u32) -> u64
    ensures { result ≡ handed_back pay wager }
{
    match pay {
        Pay::To(odds) => won(odds, wager),
        Pay::ThreeToTwo => 100 * (wager as u64) + 150 * (wager as u64),
        Pay::To200000 => 100 * (wager as u64) + 20000000 * (wager as u64),
        Pay::Push => 100 * (wager as u64),
        Pay::Loss | Pay::NoTable => 0,
    }
}

// The win without the wager, in dollars.
pub fn win_at(pay: Pay, wager: u32) -> u64
    ensures { result ≡ win_at pay wager }
{
    match pay {
        Pay::To(odds) => times(odds, wager),
        Pay::ThreeToTwo => 3 * (wager as u64) / 2,
        Pay::To200000 => 200000 * (wager as u64),
        Pay::Push | Pay::Loss | Pay::NoTable => 0,
    }
}

pub fn is_above_fifty(pay: Pay) -> bool
    ensures { result ≡ above_fifty pay }
{
    match pay {
        Pay::To(odds) => 50 < odds,
        Pay::To200000 => true,
        Pay::ThreeToTwo | Pay::Push | Pay::Loss | Pay::NoTable => false,
    }
}
