// The settler for a pad that is written in C or in Rust: functions on numbers and slices, under names that begin with the product's.
//
// ripplehatch.h declares them, and crate ripplehatch_c exports each. Each answers a refusal's number, or 0, and tells the rest in what the caller lends; what is not told is left as it was,
// so a refusal changes nothing that was lent but the place. None has a `requires`.

#![tactic(auto)]

ghost use Rattle.std.specs.Prelude.{◌≡◌, ◌*◌, length};
ghost use Rattle.causes.specs.Refusal.{number_of};
ghost use Rattle.allsix.specs.Six.{answer_six, six_told};
ghost use Rattle.cutting.specs.Rounds.{round_count};
ghost use Rattle.hands.specs.Hand.{hand_refusal};
ghost use Rattle.filing.specs.Filed.{file_take_refusal, file_takes, finished_told, rewrite_refusal, rewrite_list};
ghost use Rattle.names.specs.Five.{answer_five};
ghost use Rattle.names.specs.Lo.{answer_lo, lo_high};
ghost use Rattle.pool.specs.Pool.{share_answer, share_list};
ghost use Rattle.reading.specs.File.{read_file, refused_part};
ghost use Rattle.settlement.specs.Settle.{file_answer, file_list, file_number};
ghost use Rattle.shifts.specs.Shift.{round_amounts, round_answer, lists_fit, shift_refusal, shift_answer, shift_list, rounds_told, place_told as shift_place_told};
ghost use Rattle.ripplehatch.specs.Told.{full_told, paid_told, place_told, name_told, lo_told};

use allsix::name_six_told;
use causes::number_of;
use cutting::count_rounds;
use filing::{rewrite_told, take_told};
use names::{LoName, five_place, name_five, name_lo};
use pool::share;
use reading::{read_file, refused_part};
use settlement::settle_file;
use shifts::settle_told;

// Settles a file into a list of 35 numbers. Answers 0 and tells the pool in dollars, full and as paid; or answers the refusal's number and tells its
// place.
pub fn ripplehatch_settle_file(
    file: &[u8],
    results: &mut [u64],
    full: &mut u64,
    paid: &mut u64,
    place: &mut usize,
) -> u8
    ensures number { result ≡ file_number (file_answer file.now (length results.old)) }
    ensures list { results.new ≡ file_list file.now results.old }
    ensures full { full.new ≡ full_told (file_answer file.now (length results.old)) full.old }
    ensures paid { paid.new ≡ paid_told (file_answer file.now (length results.old)) paid.old }
    ensures place { place.new ≡ place_told (file_answer file.now (length results.old)) place.old }
{
    match settle_file(file, results) {
        Ok(settled) => {
            *full = settled.full;
            *paid = settled.paid;
            0
        }
        Err(faulty) => {
            *place = faulty.place;
            faulty.number
        }
    }
}

// The byte of the file at which its refused part begins, and how long it is: 16 for a refused record, the odd bytes for 2, else 0, at the end.
pub fn ripplehatch_refused_part(file: &[u8], long: &mut usize) -> usize
    ensures begins { result ≡ 16 * (read_file file.now).place }
    ensures long { long.new ≡ length (refused_part file.now) }
{
    *long = refused_part(file).len();
    let reading = read_file(file);
    16 * reading.place
}

// How many rounds a shift has: it is lent 35 amounts and two numbers for each.
pub fn ripplehatch_count_rounds(file: &[u8]) -> usize
    ensures { result ≡ round_count file.now }
{
    count_rounds(file)
}

// Settles a shift into a list of 35 numbers a round and one of two numbers a round, its refusal's number and place. Answers 0 and tells how many rounds there are; or answers 2 or 1
// and tells its place.
pub fn ripplehatch_settle_shift(
    file: &[u8],
    amounts: &mut [u64],
    answers: &mut [u64],
    rounds: &mut usize,
    place: &mut usize,
) -> u8
    ensures number { result ≡ shift_refusal file.now (lists_fit file.now amounts.old answers.old) }
    ensures amounts { amounts.new ≡ shift_list round_amounts file.now (lists_fit file.now amounts.old answers.old) amounts.old }
    ensures answers { answers.new ≡ shift_list round_answer file.now (lists_fit file.now amounts.old answers.old) answers.old }
    ensures rounds { rounds.new ≡ rounds_told (shift_answer file.now (lists_fit file.now amounts.old answers.old)) rounds.old }
    ensures place { place.new ≡ shift_place_told (shift_answer file.now (lists_fit file.now amounts.old answers.old)) place.old }
{
    settle_told(file, amounts, answers, rounds, place)
}

// Answers one record to a round that is held as the file of it. Answers 0 where the record is accepted, and tells whether the round is then finished, 1 or
// 0; or answers the refusal's number, 17 where the held bytes are no file of accepted records.
pub fn ripplehatch_take(held: &[u8], bytes: &[u8], finished: &mut u8) -> u8
    ensures number { result ≡ file_take_refusal held.now bytes.now }
    ensures finished { finished.new ≡ finished_told (file_takes held.now bytes.now) finished.old }
{
    take_told(held, bytes, finished)
}

// Writes a held file in the writer's order into a room as long. Answers 0, or 17, 16 or 1.
pub fn ripplehatch_write(held: &[u8], room: &mut [u8]) -> u8
    ensures number { result ≡ rewrite_refusal held.now (length room.old) }
    ensures list { room.new ≡ rewrite_list held.now room.old }
{
    rewrite_told(held, room)
}

// Names five cards. Answers 0 and tells the name's place in the list of names, 0 for a royal flush to 10 for other; or answers 18 or 11.
pub fn ripplehatch_name_five(cards: &[u8], name: &mut usize) -> u8
    ensures number { result ≡ number_of (answer_five cards.now) }
    ensures name { name.new ≡ name_told (answer_five cards.now) name.old }
{
    match name_five(cards) {
        Ok(hand) => {
            *name = five_place(hand);
            0
        }
        Err(refusal) => refusal.number(),
    }
}

fn lo_high(name: LoName) -> usize
    ensures { result ≡ lo_high name }
{
    match name {
        LoName::High(rank) => rank as usize,
        LoName::Nothing => 13,
    }
}

// Names five cards for Lo Ball. Answers 0 and tells the high rank, 0 for a two to 12 for an ace, or 13 for nothing; or answers 18 or 11.
pub fn ripplehatch_name_lo(cards: &[u8], high: &mut usize) -> u8
    ensures number { result ≡ number_of (answer_lo cards.now) }
    ensures high { high.new ≡ lo_told (answer_lo cards.now) high.old }
{
    match name_lo(cards) {
        Ok(low) => {
            *high = lo_high(low);
            0
        }
        Err(refused) => refused.number(),
    }
}

// Names six cards for All-Six. Answers 0 and tells the name's place: 0 for nine to ace of diamonds, 1 for nine to ace of another suit, 2 for a royal flush to 12 for
// other; or answers 18 or 11.
pub fn ripplehatch_name_six(cards: &[u8], name: &mut usize) -> u8
    ensures number { result ≡ hand_refusal 6 cards.now }
    ensures name { name.new ≡ six_told (answer_six cards.now) name.old }
{
    name_six_told(cards, name)
}

// Shares a maximum among up to seven wins, into a list as long: in full, or to exactly the maximum. Answers 0, or 19 or 20.
pub fn ripplehatch_share(wins: &[u64], maximum: u64, shares: &mut [u64]) -> u8
    ensures number { result ≡ number_of (share_answer wins.now maximum (length shares.old)) }
    ensures list { shares.new ≡ share_list wins.now maximum shares.old }
{
    number_of(share(wins, maximum, shares))
}
