// Settling: the results of a finished round, in a list that the caller lends.
//
// settle takes a round that a pad holds; settle_file and settle_prefix take a file of its records. Each answers every input and has no `requires`:
// specs/Settle.antt says what is answered and what the lent list then holds. The results are worked out by value, without a heap, and
// copied into the lent list once; a refusal is known before, and changes nothing there.

#![tactic(auto)]

ghost use Rattle.std.specs.Prelude.{◌≡◌, true, ◌+◌, ◌/◌, length};
ghost use Rattle.counting.specs.Choose.{unless_refused};
ghost use Rattle.led.specs.Held.{is_held};
ghost use Rattle.held.specs.Take.{Decides};
ghost use Rattle.reading.specs.File.{read_file, read_prefix};
ghost use Rattle.results.specs.Results.{results_long};
ghost use Rattle.settlement.specs.Settle.{settle_refusal, settle_answer, settle_list, settle_number, settle_pool, full_and_paid, read_refusal, read_answer, read_list, file_answer, file_list, prefix_answer, prefix_list, file_number, file_place, file_pool, counted_place, read_pool};

use causes::Refusal;
use held::is_held;
use reading::{Reading, read_file, read_prefix};
use results::{RESULTS, results_of};
use round::Round;

// The pool of a settled round in dollars, full and as paid.
#[derive(Clone, Copy)]
pub struct Paid {
    pub full: u64,
    pub paid: u64,
}

// The refusal of a file: its number, and the place of the record that it is for. The lent list is as it was.
#[derive(Clone, Copy)]
pub struct Faulty {
    pub number: u8,
    pub place: usize,
}

// The refusal's number of an answer to a file, 0 where it is paid.
pub fn file_number(answer: Result<Paid, Faulty>) -> u8
    ensures { result ≡ file_number answer }
{
    match answer {
        Ok(_) => 0,
        Err(faulty) => faulty.number,
    }
}

// Its place, 0 where it is paid.
pub fn file_place(answer: Result<Paid, Faulty>) -> usize
    ensures { result ≡ file_place answer }
{
    match answer {
        Ok(_) => 0,
        Err(faulty) => faulty.place,
    }
}

// A round that may be held, and a list of the right length: 16, or its results.
fn settle_held(round: Round, results: &mut [u64]) -> Result<Paid, Refusal>
    requires { (is_held round ≡ true) × (length results.old ≡ results_long) }
    ensures answer { result ≡ settle_answer round (length results.old) }
    ensures list { results.new ≡ settle_list round results.old }
{
    if !round.is_finished() {
        return Err(Refusal::NotFinished);
    }
    let settled = results_of(round);
    results.copy_from_slice(&settled.amounts);
    Ok(Paid {
        full: settled.full,
        paid: settled.paid,
    })
}

// Settles a round that a pad holds: 17, 1, 16.
pub fn settle(round: Round, results: &mut [u64]) -> Result<Paid, Refusal>
    ensures answer { result ≡ settle_answer round (length results.old) }
    ensures number { settle_number result ≡ settle_refusal round (length results.old) }
    ensures pool { settle_pool result ≡ unless_refused (settle_refusal round (length results.old)) (full_and_paid round) }
    ensures list { results.new ≡ settle_list round results.old }
    ensures held { Decides round (is_held round) }
{
    if !is_held(round) {
        return Err(Refusal::NotHeld);
    }
    if results.len() != RESULTS {
        return Err(Refusal::ListLength);
    }
    settle_held(round, results)
}

// What was read of a file.
fn settle_reading(reading: Reading, results: &mut [u64]) -> Result<Paid, Faulty>
    requires { is_held reading.round ≡ true }
    ensures answer { result ≡ read_answer reading (length results.old) }
    ensures list { results.new ≡ read_list reading results.old }
{
    if results.len() != RESULTS {
        return Err(Faulty {
            number: Refusal::ListLength.number(),
            place: 0,
        });
    }
    let number = reading.number;
    let place = reading.place;
    if number != 0 {
        return Err(Faulty { number, place });
    }
    settle_held(reading.round, results).map_err(|refusal| Faulty {
        number: refusal.number(),
        place,
    })
}

// Settles a file: 1, 2, then record by record, 16.
pub fn settle_file(file: &[u8], results: &mut [u64]) -> Result<Paid, Faulty>
    ensures answer { result ≡ file_answer file.now (length results.old) }
    ensures number { file_number result ≡ read_refusal (read_file file.now) (length results.old) }
    ensures place { file_place result ≡ counted_place (read_file file.now) (length file.now / 16) (length results.old) }
    ensures pool { file_pool result ≡ read_pool (read_file file.now) (length results.old) }
    ensures list { results.new ≡ file_list file.now results.old }
{
    settle_reading(read_file(file), results)
}

// Settles a file of which the first bytes are held, and of the rest how many come after. With the first 34 records, whatever comes after them,
// the answer is that of the whole file.
pub fn settle_prefix(first: &[u8], after: usize, results: &mut [u64]) -> Result<Paid, Faulty>
    ensures answer { result ≡ prefix_answer first.now after (length results.old) }
    ensures number { file_number result ≡ read_refusal (read_prefix first.now after) (length results.old) }
    ensures place { file_place result ≡ counted_place (read_prefix first.now after) ((length first.now + after) / 16) (length results.old) }
    ensures pool { file_pool result ≡ read_pool (read_prefix first.now after) (length results.old) }
    ensures list { results.new ≡ prefix_list first.now after results.old }
{
    settle_reading(read_prefix(first, after), results)
}
