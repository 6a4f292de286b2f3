// A shift in one call: rounds joined end to end, each settled as its own file is.
//
// One lent list takes the amounts of each round, the other its refusal's number and place within the round. A refused round's amounts are zeros, and it spoils no
// other. The file is gone over twice from the front, once to count its rounds and once to settle them; nothing of it is held. A refusal is known before anything is
// written. specs/Shift.antt says what is answered and what the lists then hold.

#![tactic(auto)]

ghost use Rattle.std.specs.Prelude.{◌≡◌, ◌&&◌, ◌∷◌, [], ◌<◌, ◌*◌, eqb, length};
ghost use Rattle.counting.specs.Choose.{unless_refused};
ghost use Rattle.cutting.specs.Rounds.{round_count};
ghost use Rattle.results.specs.Results.{results_long};
ghost use Rattle.shifts.specs.Shift.{round_amounts, round_answer, answer_long, in_turn, lists_fit, shift_refusal, shift_place, shift_answer, shift_list, shift_number, answer_place, answer_rounds, rounds_told, place_told};

use causes::Refusal;
use cutting::{count_rounds, first_round};
use results::RESULTS;
use settlement::{Faulty, file_number, file_place, settle_file};

// How many numbers a round has in the second list: its refusal's number and place.
pub const ANSWER: usize = 2;

// One round into its own part of each list.
fn settle_one(file: &[u8], amounts: &mut [u64], answer: &mut [u64])
    requires { (length amounts.old ≡ results_long) × (length answer.old ≡ answer_long) }
    ensures amounts { amounts.new ≡ round_amounts file.now }
    ensures answer { answer.new ≡ round_answer file.now }
{
    amounts.fill(0);
    let settlement = settle_file(file, amounts);
    let number = file_number(settlement) as u64;
    let place = file_place(settlement) as u64;
    answer.copy_from_slice(&[number, place]);
}

// Every round, into lists that are as long as they all need.
fn settle_rounds(file: &[u8], rounds: usize, amounts: &mut [u64], answers: &mut [u64])
    requires { (rounds ≡ round_count file.now) × (length amounts.old ≡ results_long * rounds) × (length answers.old ≡ answer_long * rounds) }
    ensures amounts { amounts.new ≡ in_turn round_amounts file.now }
    ensures answers { answers.new ≡ in_turn round_answer file.now }
{
    let mut rest = file;
    for k in 0..rounds {
        let (round, after) = rest.split_at(first_round(rest));
        let at = RESULTS * k;
        let told = ANSWER * k;
        settle_one(
            round,
            &mut amounts[at..at + RESULTS],
            &mut answers[told..told + ANSWER],
        );
        rest = after;
    }
}

// A list has so many numbers for each round, and no more. The product of both could be too large for a number.
fn fits(rounds: usize, each: usize, room: usize) -> bool
    requires { 0 < each }
    ensures { result ≡ eqb room (each * rounds) }
{
    (room % each == 0) & (room / each == rounds)
}

fn lists_fit(rounds: usize, room: usize, told: usize) -> bool
    ensures { result ≡ (eqb room (results_long * rounds) && eqb told (answer_long * rounds)) }
{
    fits(rounds, RESULTS, room) & fits(rounds, ANSWER, told)
}

// Settles a shift: 2, then 1, with its place, and both lists are as they were; else how many rounds it has, and both lists hold what each of them gives. count_rounds
// tells how long the lists have to be, 35 amounts and two numbers for each round.
pub fn settle_shift(file: &[u8], amounts: &mut [u64], answers: &mut [u64]) -> Result<usize, Faulty>
    ensures answer { result ≡ shift_answer file.now (lists_fit file.now amounts.old answers.old) }
    ensures number { shift_number result ≡ shift_refusal file.now (lists_fit file.now amounts.old answers.old) }
    ensures place { answer_place result ≡ shift_place file.now }
    ensures rounds { answer_rounds result ≡ unless_refused (shift_refusal file.now (lists_fit file.now amounts.old answers.old)) (round_count file.now ∷ []) }
    ensures amounts { amounts.new ≡ shift_list round_amounts file.now (lists_fit file.now amounts.old answers.old) amounts.old }
    ensures answers { answers.new ≡ shift_list round_answer file.now (lists_fit file.now amounts.old answers.old) answers.old }
{
    if file.len() % 16 != 0 {
        return Err(Faulty {
            number: Refusal::RecordLength.number(),
            place: file.len() / 16,
        });
    }
    let rounds = count_rounds(file);
    if !lists_fit(rounds, amounts.len(), answers.len()) {
        return Err(Faulty {
            number: Refusal::ListLength.number(),
            place: 0,
        });
    }
    settle_rounds(file, rounds, amounts, answers);
    Ok(rounds)
}

// The same in numbers, as C has it: the refusal's number, or 0; how many rounds there are, of a settled shift; the place, of a refused one.
pub fn settle_told(
    file: &[u8],
    amounts: &mut [u64],
    answers: &mut [u64],
    rounds: &mut usize,
    place: &mut usize,
) -> u8
    ensures number { result ≡ shift_refusal file.now (lists_fit file.now amounts.old answers.old) }
    ensures amounts { amounts.new ≡ shift_list round_amounts file.now (lists_fit file.now amounts.old answers.old) amounts.old }
    ensures answers { answers.new ≡ shift_list round_answer file.now (lists_fit file.now amounts.old answers.old) answers.old }
    ensures rounds { rounds.new ≡ rounds_told (shift_answer file.now (lists_fit file.now amounts.old answers.old)) rounds.old }
    ensures place { place.new ≡ place_told (shift_answer file.now (lists_fit file.now amounts.old answers.old)) place.old }
{
    match settle_shift(file, amounts, answers) {
        Ok(count) => {
            *rounds = count;
            0
        }
        Err(faulty) => {
            *place = faulty.place;
            faulty.number
        }
    }
}
