// Columns of numbers in lines of text, for programs that read their cases as text.
//
// A column is four characters: a blank, and a number of up to three digits. Every function here answers for any bytes: what is no
// digit counts as 0, and past its end a line reads as zeros, as a record does.

#![tactic(auto)]

ghost use Rattle.std.specs.Prelude.{ℕ, ◌<◌, ◌≡◌, get_or};
ghost use Rattle.columns.specs.Columns.{digit_at, number_at, line_end};

use counting::rest_from;
use records::{byte_at, is_between};

pub fn digit_at(line: &[u8], place: usize) -> u8
    ensures { result ≡ digit_at line.now place }
{
    let c = byte_at(line, place);
    if is_between(b'0', b'9', c) {
        c - b'0'
    } else {
        0
    }
}

pub fn number_at(line: &[u8], k: u8) -> u8
    ensures { result ≡ number_at line.now k }
{
    let at = 4 * (k as usize);
    let hundreds = digit_at(line, at + 1);
    let tens = digit_at(line, at + 2);
    let ones = digit_at(line, at + 3);
    let number = 100 * (hundreds as u16) + 10 * (tens as u16) + (ones as u16);
    (number % 256) as u8
}

// The numbers in the first 21 columns.
pub fn numbers_of(line: &[u8]) -> [u8; 21]
    ensures { (k : ℕ) → k < 21 → get_or result k 0 ≡ number_at line.now k }
{
    let mut numbers = [0u8; 21];
    for k in 0..21 {
        numbers[k as usize] = number_at(line, k);
    }
    numbers
}

// Where the line that begins at `from` ends.
pub fn line_end(text: &[u8], from: usize) -> usize
    ensures { result ≡ line_end text.now from }
{
    let rest = rest_from(text, from).iter();
    from + rest.take_while(|character| **character != b'\n').count()
}
