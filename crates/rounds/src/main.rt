// Answers a stream of round files, one line a file, to be compared with what another settler answers.
//
// Each file of the stream comes after its length, two bytes, low byte first. Printed are, of an accepted file, `paid`, the 35 amounts in cents, `pool`
// and the pool in dollars, full and as paid; of a refused one `refused N at R`, the refusal's number and its place. Then comes `part` with the
// byte at which the refused part begins and its bytes as hexadecimal digits; of an accepted file the part is the empty one at the end. Then the file is held: `take`
// with what all of it but the last record, or the odd bytes at its end, answers to these, `next`, `finished` or `refused N`; `written` with `refused N`, or with
// how many first records stand as they came when the whole file is written, and the records from there on, each as hexadecimal digits without the zero bytes at
// its end. A stream that ends inside a length or a file is told on standard error.
//
// Example:
//     printf '\1\0x' | ./run rounds
// prints
//     refused 2 at 0 part 0 78 take refused 2 written refused 17
//
// The files in stdin beside src/ and the lines in stdout come from the settler in oracle/, which makes both again at every test. Every function
// here is proved safe and ending; what the program prints is tested and not proved.

#![tactic(auto)]

ghost use Rattle.std.specs.Prelude.{◌*◌, ◌≤◌, length};

use digits::{put_digits, put_records};
use pipes::{Fault, Outcome, called, end, print, read_next, read_whole, take_turns};
use reading::refused_part;
use records::{byte_at, word_at};
use results::RESULTS;
use ripplehatch::{ripplehatch_refused_part, ripplehatch_take, ripplehatch_write};
use settlement::settle_file;
use text::Page;

const NAME: [u8; 6] = *b"rounds";

// The bytes of 33 records.
const FILE: usize = 528;

fn put_settled(page: &mut Page<'_>, file: &[u8]) {
    let mut amounts = [0u64; RESULTS];
    match settle_file(file, &mut amounts) {
        Ok(pool) => {
            page.put_list(b"paid", &amounts);
            page.put_list(b" pool", &[pool.full, pool.paid]);
        }
        Err(faulty) => {
            page.put_named(b"refused ", faulty.number);
            page.put_named(b" at ", faulty.place);
        }
    }
}

// The byte at which the refused part begins, and its bytes.
fn put_part(page: &mut Page<'_>, file: &[u8]) {
    let mut long = 0;
    page.put_named(b" part ", ripplehatch_refused_part(file, &mut long));
    let part = refused_part(file);
    if !part.is_empty() {
        page.put(b" ");
        put_digits(page, part);
    }
}

// Where the last record begins, or the odd bytes at the end; 0 for the empty file.
fn last_of(bytes: usize) -> usize
    ensures { result ≤ bytes }
{
    16 * (bytes.saturating_sub(1) / 16)
}

fn put_taken(page: &mut Page<'_>, file: &[u8]) {
    let (held, last) = file.split_at(last_of(file.len()));
    let mut finished = 0;
    match ripplehatch_take(held, last, &mut finished) {
        0 if finished == 0 => page.put(b" take next"),
        0 => page.put(b" take finished"),
        number => page.put_named(b" take refused ", number),
    }
}

// How many first records of the file stand as they came in what was written of it.
fn same_records(file: &[u8], written: &[u8]) -> usize
    ensures { 16 * result ≤ length written.now }
{
    for (i, byte) in written.iter().enumerate() {
        if byte_at(file, i) != *byte {
            return i / 16;
        }
    }
    written.len() / 16
}

fn put_written(page: &mut Page<'_>, file: &[u8], written: &[u8]) {
    let same = same_records(file, written);
    page.put_named(b" written ", same);
    put_records(page, &written[16 * same..]);
}

// Into a room of 33 records: a longer file is none of accepted records.
fn put_rewritten(page: &mut Page<'_>, file: &[u8]) {
    let mut room = [0u8; FILE];
    let lent: &mut [u8] = &mut room[..file.len().min(FILE)];
    match ripplehatch_write(file, lent) {
        0 => put_written(page, file, lent),
        number => page.put_named(b" written refused ", number),
    }
}

// A line is at most 35 amounts of 20 digits, the pool, a part of 16 bytes and 33 records, so it fits its room.
fn write_answer(rt: &(impl Print + Eprint), file: &[u8]) -> Result<(), Fault> {
    let mut line = [0u8; 2048];
    let mut page = Page::new(&mut line);
    put_settled(&mut page, file);
    put_part(&mut page, file);
    put_taken(&mut page, file);
    put_rewritten(&mut page, file);
    page.put(b"\n");
    print(rt, &NAME, page.text())
}

// Answers the next file, where there is one. It is read into a room that is lent, which is not cleared for each.
fn answer_next(rt: &(impl Input + Print + Eprint), room: &mut [u8; 65536]) -> Result<bool, Fault> {
    let mut length = [0u8; 2];
    if !read_next(rt, &NAME, &mut length, b"the stream ends inside a length")? {
        return Ok(false);
    }
    let file: &mut [u8] = &mut room[..word_at(&length, 0) as usize];
    read_whole(rt, &NAME, file, b"the stream ends inside a file")?;
    write_answer(rt, file)?;
    Ok(true)
}

fn run(rt: &(impl Input + Print + Eprint)) -> Result<Outcome, Fault> {
    let mut room = [0u8; 65536];
    take_turns(|| answer_next(rt, &mut room))
}

fn main(rt: HostRuntime) {
    if let Some(call) = called(&rt, &NAME, true) {
        end(&rt, &NAME, call, run(&rt));
    }
}
