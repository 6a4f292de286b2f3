// Rounds that are joined end to end, cut into the rounds again.
//
// Record 0 starts a round, and so does every later record of kind 1. A round is a part of the caller's own file, told by its length; nothing of it is copied. An odd
// tail is in no round. specs/Rounds.antt says which rounds a file has.

#![tactic(auto)]

ghost use Rattle.std.specs.Prelude.{◌≡◌, length};
ghost use Rattle.cutting.specs.Rounds.{starts_round, first_round, round_count};

use records::byte_at;

// A record of kind 1.
fn starts_round(bytes: &[u8]) -> bool
    ensures { result ≡ starts_round bytes.now }
{
    byte_at(bytes, 0) == 1
}

// How many bytes the first round has: 0 where there is no round.
pub fn first_round(file: &[u8]) -> usize
    ensures { result ≡ length (first_round file.now) }
{
    if file.len() < 16 {
        return 0;
    }
    let later = file.chunks_exact(16).skip(1);
    let more = later.take_while(|record| !starts_round(record)).count();
    16 + 16 * more
}

// How many rounds there are.
pub fn count_rounds(file: &[u8]) -> usize
    ensures { result ≡ round_count file.now }
{
    let mut records = file.chunks_exact(16);
    match records.next() {
        None => 0,
        Some(_) => 1 + records.filter(|record| starts_round(record)).count(),
    }
}
