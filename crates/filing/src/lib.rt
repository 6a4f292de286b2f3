// A round that is held as the file of it, for pads that hold bytes and no `Round`.
//
// The held file is of accepted records, one after the other; the empty file is the fresh round. Taking a record reads the held file once and changes
// nothing: the pad puts an accepted record behind the others itself, and the file is then again one of accepted records (proofs/Laws.antt). Records
// stand in it as they came; writing it gives the same round's file in the writer's order, in as many bytes.

#![tactic(auto)]

ghost use Rattle.std.specs.Prelude.{◌≡◌, length};
ghost use Rattle.causes.specs.Refusal.{number_of as refused_number};
ghost use Rattle.round.specs.Feed.{number_of};
ghost use Rattle.filing.specs.Filed.{file_take_refusal, file_takes, rewrite_refusal, rewrite_answer, rewrite_list, finished_told};

use causes::Refusal;
use reading::read_file;
use round::Answer;
use writing::write_round;

// Answers one record to a held file: 17, 2, then the rest.
#[tactic(auto, unfolding(crate::specs::Filed::file_takes, crate::specs::Filed::file_take_refusal))]
pub fn take_to_file(file: &[u8], bytes: &[u8]) -> Answer
    ensures answer { result ≡ file_takes file.now bytes.now }
    ensures number { number_of result ≡ file_take_refusal file.now bytes.now }
{
    let reading = read_file(file);
    if reading.number != 0 {
        return Answer::Refused(Refusal::NotHeld.number());
    }
    reading.round.feed(bytes).answer
}

// Writes a held file in the writer's order: 17, 16, 1.
#[tactic(auto, unfolding(crate::specs::Filed::rewrite_answer, crate::specs::Filed::rewrite_refusal, crate::specs::Filed::rewrite_list))]
pub fn rewrite_file(file: &[u8], room: &mut [u8]) -> Result<(), Refusal>
    ensures answer { result ≡ rewrite_answer file.now (length room.old) }
    ensures number { refused_number result ≡ rewrite_refusal file.now (length room.old) }
    ensures list { room.new ≡ rewrite_list file.now room.old }
{
    let reading = read_file(file);
    if reading.number != 0 {
        return Err(Refusal::NotHeld);
    }
    write_round(reading.round, room)
}

// ---- the same in numbers, as C has it

// One record to a held file: the refusal's number, or 0, and whether the round is then finished, 1 or 0.
pub fn take_told(file: &[u8], bytes: &[u8], finished: &mut u8) -> u8
    ensures number { result ≡ file_take_refusal file.now bytes.now }
    ensures finished { finished.new ≡ finished_told (file_takes file.now bytes.now) finished.old }
{
    match take_to_file(file, bytes) {
        Answer::Next => {
            *finished = 0;
            0
        }
        Answer::Finished => {
            *finished = 1;
            0
        }
        Answer::Refused(number) => number,
    }
}

// A held file in the writer's order: the refusal's number, or 0.
pub fn rewrite_told(file: &[u8], room: &mut [u8]) -> u8
    ensures number { result ≡ rewrite_refusal file.now (length room.old) }
    ensures list { room.new ≡ rewrite_list file.now room.old }
{
    causes::number_of(rewrite_file(file, room))
}
