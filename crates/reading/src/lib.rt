// A round file, read record by record: where reading ends, and the refused record as a part of the caller's own file.
//
// A file is a run of 16-byte records with no header. Reading goes over it once and holds one round. Of a longer file than is ever accepted the
// first 34 records, and how many bytes come after them, are enough for the same answer.

#![tactic(auto)]

ghost use Rattle.std.specs.Prelude.{◌≡◌, ◌+◌, ◌*◌, ◌/◌, ◌%◌};
ghost use Rattle.reading.specs.File.{file_records, read_records, read_file, read_prefix, refused_part};

use causes::Refusal;
use round::Round;

// Where reading ends: the round that is then held, the refusal's number or 0, and its place.
#[derive(Clone, Copy)]
pub struct Reading {
    pub round: Round,
    pub number: u8,
    pub place: usize,
}

// The records of a file, fed one at a time from the fresh round until the first refusal. An odd tail is not looked at. It stays a call of its own, so that its frame is
// off the stack before a round is settled or written.
#[inline(never)]
fn read_records(file: &[u8]) -> Reading
    ensures { result ≡ read_records (file_records file.now) }
{
    let mut round = Round::fresh();
    for (place, record) in file.chunks_exact(16).enumerate() {
        if let Err(refusal) = round.refusal(record) {
            return Reading {
                round,
                number: refusal.number(),
                place,
            };
        }
        round = round.next(record);
    }
    Reading {
        round,
        number: 0,
        place: file.len() / 16,
    }
}

// How many whole records so many bytes and so many after them are.
fn count_of(bytes: usize, after: usize) -> usize
    ensures { result ≡ (bytes + after) / 16 }
{
    bytes / 16 + after / 16 + (bytes % 16 + after % 16) / 16
}

// How many odd bytes those have at the end.
fn odd_of(bytes: usize, after: usize) -> usize
    ensures { result ≡ (bytes + after) % 16 }
{
    (bytes % 16 + after % 16) % 16
}

// A file of which the first bytes are held, and of the rest how many come after.
#[tactic(auto, unfolding(crate::specs::File::read_prefix))]
pub fn read_prefix(first: &[u8], after: usize) -> Reading
    ensures { result ≡ read_prefix first.now after }
{
    let count = count_of(first.len(), after);
    if odd_of(first.len(), after) != 0 {
        return Reading {
            round: Round::fresh(),
            number: Refusal::RecordLength.number(),
            place: count,
        };
    }
    let mut reading = read_records(first);
    if (reading.number == 0) & (first.len() / 16 < count) {
        reading.number = Refusal::OutOfPlace.number();
    }
    reading
}

// A whole file.
#[tactic(auto, using(crate::proofs::Prefix::prefix_none))]
pub fn read_file(file: &[u8]) -> Reading
    ensures { result ≡ read_file file.now }
{
    read_prefix(file, 0)
}

// The refused record as a part of the caller's own file: for 2 the odd bytes at the end, for no refusal the empty part at the end.
#[tactic(auto, using(crate::proofs::Parts::part_in, crate::proofs::Parts::part_taken))]
pub fn refused_part(file: &[u8]) -> &[u8]
    ensures contents { result.now ≡ refused_part file.now }
    ensures lies { (result.ref_ptr.0 ≡ file.entry.ref_ptr.0) × (result.ref_ptr.1 ≡ file.entry.ref_ptr.1 + 16 * (read_file file.now).place) }
{
    let reading = read_file(file);
    let at = 16 * reading.place;
    let rest = &file[at..];
    &rest[..rest.len().min(16)]
}
