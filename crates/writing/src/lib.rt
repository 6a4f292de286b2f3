// Writing round files: a pad holds a round and needs the file of it, to send, to keep, to print again.
//
// The file is the round's own records, one after the other, as far as the round has come: finished or not, it reads back to the same round (crate
// `again`). Each record is put into the lent room once, at its place, with no copy of the file; a refusal is known before, and changes nothing there.
// specs/Write.antt says what is answered and what the room then holds.

#![tactic(auto)]

ghost use Rattle.std.specs.Prelude.{◌≡◌, true, ◌∷◌, [], ◌+◌, ◌≤◌, ◌<◌, length, option_to_list};
ghost use Rattle.std.proofs.lemmas.List.Edits.{sets};
ghost use Rattle.counting.specs.Count.{tally};
ghost use Rattle.records.specs.Seats.{plays};
ghost use Rattle.seating.specs.Table.{has_table, table_record};
ghost use Rattle.seating.specs.Seat.{seat_record};
ghost use Rattle.dealing.specs.Part.{part_record};
ghost use Rattle.choosing.specs.Streets.{has_chosen};
ghost use Rattle.choosing.specs.Choice.{choice_record};
ghost use Rattle.led.specs.Held.{is_held};
ghost use Rattle.led.specs.Records.{only, seat_records, part_records, choice_in, choice_records, records_taken};
ghost use Rattle.held.specs.Take.{Decides};
ghost use Rattle.reading.specs.Joined.{joined};
ghost use Rattle.causes.specs.Refusal.{number_of};
ghost use Rattle.writing.specs.Write.{file_of, file_long, write_refusal, write_answer, write_list};

use causes::Refusal;
use choosing::Play;
use counting::at;
use dealing::Deck;
use held::is_held;
use holding::playing_before;
use round::Round;
use seating::Table;

// How many bytes a record has.
const RECORD: usize = 16;

// ---- the records, each where the round has it

#[tactic(auto, using(crate::proofs::Stores::only_some), unfolding(seating::specs::Table::table_record))]
fn table_record(table: Table) -> Option<[u8; RECORD]>
    ensures { option_to_list result ≡ only (has_table table) (table_record table) }
{
    let t = table;
    let bytes = [
        1, t.smallest, t.largest, t.base, t.lo, t.board, t.pocket, t.six, 0, 0, 0, 0, 0, 0, 0, 0,
    ];
    table.is_read().then_some(bytes)
}

// That of the seat at place `k`. No wager of a held round is above 100, so the high bytes are zero.
#[tactic(auto, using(crate::proofs::Seats::low_wagers, crate::proofs::Stores::only_some), unfolding(seating::specs::Seat::seat_record))]
fn seat_record(round: Round, k: u8) -> Option<[u8; RECORD]>
    requires { (is_held round ≡ true) × (k < 7) }
    ensures { option_to_list result ≡ only (plays round.wagers.antes k) (seat_record round.wagers k) }
{
    let w = round.wagers;
    let place = k as usize;
    let ante = at(&w.antes, place, 0) as u8;
    let board = at(&w.board, place, 0) as u8;
    let pocket = at(&w.pocket, place, 0) as u8;
    let lo = at(&w.lo, place, 0) as u8;
    let six = at(&w.six, place, 0) as u8;
    let seat = k + 1;
    let bytes = [
        2, seat, ante, 0, board, 0, pocket, 0, lo, 0, six, 0, 0, 0, 0, 0,
    ];
    (ante != 0).then_some(bytes)
}

// Deck part `n`.
fn part_record(deck: Deck, n: u8) -> Option<[u8; RECORD]>
    requires { n < 4 }
    ensures { option_to_list result ≡ part_record deck n ∷ [] }
{
    let from = 13 * (n as usize);
    let mut bytes = [0; RECORD];
    bytes[0] = 3;
    bytes[1] = n;
    bytes[2..15].copy_from_slice(&deck.cards[from..from + 13]);
    Some(bytes)
}

// The seat at place `k` has chosen on street `s`: it raised or folded.
#[tactic(auto, unfolding(choosing::specs::Streets::has_chosen))]
fn has_chosen(play: Play, s: u8, k: u8) -> bool
    requires { s < 3 }
    ensures { result ≡ has_chosen play s k }
{
    (play.raise_on(s, k) != 0) | (at(&play.folds, k as usize, 0) == s + 1)
}

// The choice of the seat at place `k` on street `s`.
#[tactic(auto, using(crate::proofs::Stores::only_some), unfolding(choosing::specs::Choice::choice_record))]
fn choice_record(play: Play, s: u8, k: u8) -> Option<[u8; RECORD]>
    requires { (s < 3) × (k < 7) }
    ensures { option_to_list result ≡ choice_in play s k }
{
    let choice = play.raise_on(s, k);
    let bytes = [4, k + 1, choice, 0, 0, 0, 0, 0, 0, 0, 0, 0, 0, 0, 0, 0];
    has_chosen(play, s, k).then_some(bytes)
}

// ---- how many there are

fn choices_on(play: Play, s: u8) -> usize
    requires { s < 3 }
    ensures choices { result ≡ tally 7 (has_chosen play s) }
    ensures most { result ≤ 7 }
{
    (0..7).filter(|k| has_chosen(play, s, *k)).count()
}

// How many records a round has taken.
fn records_taken(round: Round) -> usize
    ensures taken { result ≡ records_taken round }
    ensures most { result ≤ 284 }
{
    let play = round.play;
    let seats = playing_before(round.wagers.antes, 7) as usize;
    let parts = round.deck.parts as usize;
    let choices = choices_on(play, 0) + choices_on(play, 1) + choices_on(play, 2);
    round.table.is_read() as usize + seats + parts + choices
}

// How long the file of a round is. The file of a held round has at most 33 records, so 528 bytes are always room enough.
pub fn file_length(round: Round) -> usize
    ensures { result ≡ file_long round }
{
    RECORD * records_taken(round)
}

// ---- the records into a room, from byte `at` on: each gives the place after what it puts

fn put(room: &mut [u8], at: usize, record: Option<[u8; RECORD]>) -> usize
    requires { at + length (joined (option_to_list «record»)) ≤ length room.old }
    ensures list { room.new ≡ sets room.old at (joined (option_to_list «record»)) }
    ensures end { result ≡ at + length (joined (option_to_list «record»)) }
{
    let Some(bytes) = record else {
        return at;
    };
    room[at..at + RECORD].copy_from_slice(&bytes);
    at + RECORD
}

fn put_seats(room: &mut [u8], at: usize, round: Round) -> usize
    requires { (is_held round ≡ true) × (at + length (joined (seat_records round)) ≤ length room.old) }
    ensures list { room.new ≡ sets room.old at (joined (seat_records round)) }
    ensures end { result ≡ at + length (joined (seat_records round)) }
{
    let mut end = at;
    for k in 0..7 {
        end = put(room, end, seat_record(round, k));
    }
    end
}

fn put_parts(room: &mut [u8], at: usize, round: Round) -> usize
    requires { (is_held round ≡ true) × (at + length (joined (part_records round)) ≤ length room.old) }
    ensures list { room.new ≡ sets room.old at (joined (part_records round)) }
    ensures end { result ≡ at + length (joined (part_records round)) }
{
    let deck = round.deck;
    let mut end = at;
    for n in 0..deck.parts {
        end = put(room, end, part_record(deck, n));
    }
    end
}

// By street and by rising seat.
fn put_choices(room: &mut [u8], at: usize, round: Round) -> usize
    requires { at + length (joined (choice_records round)) ≤ length room.old }
    ensures list { room.new ≡ sets room.old at (joined (choice_records round)) }
    ensures end { result ≡ at + length (joined (choice_records round)) }
{
    let play = round.play;
    let mut end = at;
    for i in 0..21 {
        end = put(room, end, choice_record(play, i / 7, i % 7));
    }
    end
}

// All of them, into a room that is just long enough.
fn put_records(room: &mut [u8], round: Round)
    requires { (is_held round ≡ true) × (length room.old ≡ length (file_of round)) }
    ensures { room.new ≡ file_of round }
{
    let seats = put(room, 0, table_record(round.table));
    let parts = put_seats(room, seats, round);
    let choices = put_parts(room, parts, round);
    put_choices(room, choices, round);
}

// Writes the file of a held round. NotHeld, NotFinished where it has no table record, then ListLength; the room is then as it was.
pub fn write_round(round: Round, room: &mut [u8]) -> Result<(), Refusal>
    ensures answer { result ≡ write_answer round (length room.old) }
    ensures number { number_of result ≡ write_refusal round (length room.old) }
    ensures list { room.new ≡ write_list round room.old }
    ensures held { Decides round (is_held round) }
{
    if !is_held(round) {
        return Err(Refusal::NotHeld);
    }
    if !round.table.is_read() {
        return Err(Refusal::NotFinished);
    }
    let long = file_length(round);
    if room.len() != long {
        return Err(Refusal::ListLength);
    }
    put_records(room, round);
    Ok(())
}
