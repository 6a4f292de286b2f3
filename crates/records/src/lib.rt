// What the four kinds of record share: their bytes, and seats and their places.
//
// A record is any list of bytes: past its end it reads as zeros, so that no reader owes a length. A seat is its number;
// its place in a list of seven is one less. A seat plays where it has an ante.

#![tactic(auto)]

ghost use Rattle.std.specs.Prelude.{◌≡◌};
ghost use Rattle.records.specs.Bytes.{byte, word, zero_from, between};
ghost use Rattle.records.specs.Seats.{place, any_plays};

use counting::{at, rest_from};

pub fn byte_at(bytes: &[u8], n: usize) -> u8
    ensures { result ≡ byte bytes.now n }
{
    at(bytes, n, 0)
}

// The two bytes at `n`, low byte first. The places of a record are far below the limit on `n`.
pub fn word_at(bytes: &[u8], n: u8) -> u16
    ensures { result ≡ word bytes.now n }
{
    let low = byte_at(bytes, n as usize);
    let high = byte_at(bytes, n as usize + 1);
    low as u16 + 256 * (high as u16)
}

// Every byte from `from` on is zero.
pub fn is_zero_from(bytes: &[u8], from: usize) -> bool
    ensures { result ≡ zero_from from bytes.now }
{
    rest_from(bytes, from).iter().all(|byte| *byte == 0)
}

pub fn is_between(low: u8, high: u8, n: u8) -> bool
    ensures { result ≡ between low high n }
{
    (low <= n) & (n <= high)
}

pub fn place_of(seat: u8) -> u8
    ensures { result ≡ place seat }
{
    if seat == 0 { 0 } else { seat - 1 }
}

// Some seat plays.
pub fn any_plays(antes: [u16; 7]) -> bool
    ensures { result ≡ any_plays antes }
{
    antes.iter().any(|ante| *ante != 0)
}
