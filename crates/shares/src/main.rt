// Pools whose shares are known from outside, and pools that are refused, asked of the public entry.
//
// Example:
//     ./run shares | tail -n 1
// prints
//     share 25000 1 2 3 4 5 6 7: full 1 2 3 4 5 6 7
//
// The file stdout beside src/ has what this must print. It was worked out by hand from the rule sheet and not by this code:
// docs/COUNTS.md has the working. Every function here is proved safe and ending; what the program prints is tested and
// not proved.

#![tactic(auto)]

use causes::Refusal;
use pipes::{Fault, Outcome, called, end, print};
use pool::Shared;
use text::Page;

const NAME: [u8; 6] = *b"shares";

// The maximum, how long the lent list is, the wins.
const POOLS: [(u64, usize, &[u64]); 27] = [
    (25000, 2, &[1, 1, 1]), // lists of 3 and 2
    (25000, 8, &[1, 1, 1, 1, 1, 1, 1, 1]), // 8 wins
    (25000, 8, &[1, 1, 1, 1, 1, 1, 1, 500001]), // 8 wins, and one too large
    (25000, 1, &[]), // no wins, room for one
    (25000, 1, &[500001]), // a win above its limit
    (25000, 1, &[u64::MAX]), // the largest win there is
    (75001, 2, &[1, 1]), // a maximum above its limit
    (u64::MAX, 1, &[1]), // the largest maximum there is
    (75001, 0, &[]), // no wins, a maximum above its limit
    (25000, 0, &[]), // no wins
    (75000, 1, &[500000]), // both at their limits
    (25000, 3, &[20000, 10000, 500]), // the house's own example
    (25000, 2, &[20000, 5000]), // a pool exactly at the maximum
    (25000, 2, &[20000, 5001]), // one dollar above it
    (25000, 1, &[25001]), // one win, one dollar above it
    (0, 1, &[10]), // nothing to share
    (0, 3, &[10, 20, 30]), // the same of three wins
    (25, 2, &[20, 20]), // equal wins, a dollar left
    (20, 7, &[5, 5, 5, 5, 5, 5, 5]), // seven equal wins, six dollars left
    (4, 3, &[1, 3, 4]), // wins of 1 and 3 with equal fractions
    (4, 3, &[3, 1, 4]), // the other way round
    (1, 2, &[499999, 500000]), // fractions one part in 999,999 apart
    (1, 2, &[500000, 499999]), // the other way round
    (25000, 3, &[500, 10000, 20000]), // the house's example, the other way round
    (20, 3, &[0, 10, 11]), // a win of 0
    (
        75000,
        7,
        &[500000, 500000, 500000, 500000, 500000, 500000, 500000],
    ), // seven wins
    (25000, 7, &[1, 2, 3, 4, 5, 6, 7]), // seven in full
];

fn put_shared(page: &mut Page<'_>, answer: Result<Shared, Refusal>) {
    match answer {
        Ok(Shared::Full) => page.put(b": full"),
        Ok(Shared::Cut) => page.put(b": cut"),
        Err(refusal) => page.put_named(b": refused ", refusal.number()),
    }
}

// The maximum and the wins; then the answer, and what a lent list of this length, whose amounts were 77, then holds.
fn ask(rt: &(impl Print + Eprint), maximum: u64, wins: &[u64], room: usize) -> Result<(), Fault> {
    let mut lent = [77u64; 8];
    let list: &mut [u64] = &mut lent[..room.min(8)];
    let answer = pool::share(wins, maximum, list);
    let mut line = [0u8; 1024];
    let mut page = Page::new(&mut line);
    page.put_named(b"share ", maximum);
    page.put_list(b"", wins);
    put_shared(&mut page, answer);
    page.put_line(b"", list);
    print(rt, &NAME, page.text())
}

fn ask_all(rt: &(impl Print + Eprint)) -> Result<Outcome, Fault> {
    for (maximum, room, wins) in POOLS {
        ask(rt, maximum, wins, room)?;
    }
    Ok(Outcome::Done)
}

fn main(rt: HostRuntime) {
    if let Some(call) = called(&rt, &NAME, false) {
        end(&rt, &NAME, call, ask_all(&rt));
    }
}
