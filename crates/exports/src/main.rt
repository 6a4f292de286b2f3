// Calls the functions behind those that pads in C and in Rust link, each on inputs that are answered and on inputs that are refused. Those that settle a shift are called by `nights`.
//
// Standard input is the round file of document 01. Printed is a line for each call: the answer, then what is told in what was lent, where 7 stood before. The file
// is settled whole (`file`), without its last byte (`odd`), without its table (`late`), and into 28 numbers: the number, the pool, the place, the list. Then comes
// where each refused part begins and its length (`part`); what a file that is held answers to a record, and whether the round is then finished (`take`): the empty
// file to the table, and twelve records to the last one, to the one before it again, and to that one's first 15 bytes; the whole file to one more, and the file
// without its last byte. Then the writing of a held file, and the room as hexadecimal digits (`write`): the table alone, into 16 bytes
// and into 15, the empty file, and a seat alone. Then what a royal flush, a straight flush, a repeat and four cards are called (`name`); what 2-3-4-5-7 and
// 2-3-4-5-6 of mixed suits, a repeat and four cards are for Lo Ball (`lo`); what nine to ace of diamonds and of hearts, eight to king of
// hearts, a repeat and five cards are for All-Six (`six`); and how the house's own example is shared, into two numbers, and under 75,001
// (`share`). A refusal leaves each 7 but the place.
//
// Example:
//     ./run exports samples/whole-round.bin | tail -n 1
// prints
//     share 20, list 7 7 7
//
// stdout beside src/ is worked out from document 01. Every function here is proved safe and ending; what the program prints is tested and not proved.

#![tactic(auto)]

ghost use Rattle.std.specs.Prelude.{◌≤◌};

use digits::put_digits;
use pipes::{Fault, Outcome, called, end, print, read_all, tell};
use ripplehatch::{
    ripplehatch_name_five, ripplehatch_name_lo, ripplehatch_name_six, ripplehatch_refused_part,
    ripplehatch_settle_file, ripplehatch_share, ripplehatch_take, ripplehatch_write,
};
use text::Page;

// The round file's bytes.
const WHOLE: usize = 208;

const NAME: [u8; 7] = *b"exports";

const LINE: usize = 1024;

// What stands in what is lent, before.
const BEFORE: u64 = 7;

fn write_numbers(rt: &(impl Print + Eprint), what: &[u8], numbers: &[u64]) -> Result<(), Fault> {
    let mut line = [0u8; LINE];
    let mut page = Page::new(&mut line);
    page.put_line(what, numbers);
    print(rt, &NAME, page.text())
}

// The answer, what is told besides, and what the lent list then holds.
fn write_list(
    rt: &(impl Print + Eprint),
    what: &[u8],
    number: u8,
    told: &[u64],
    list: &[u64],
) -> Result<(), Fault> {
    let mut line = [0u8; LINE];
    let mut page = Page::new(&mut line);
    page.put_list(what, &[number]);
    page.put_list(b"", told);
    page.put_line(b", list", list);
    print(rt, &NAME, page.text())
}

fn ask_settle(
    rt: &(impl Print + Eprint),
    what: &[u8],
    file: &[u8],
    room: usize,
) -> Result<(), Fault>
    requires { room ≤ 35 }
{
    let mut results = [BEFORE; 35];
    let lent: &mut [u64] = &mut results[0..room];
    let mut full = BEFORE;
    let mut paid = BEFORE;
    let mut place = 7;
    let number = ripplehatch_settle_file(file, lent, &mut full, &mut paid, &mut place);
    write_list(rt, what, number, &[full, paid, place as u64], lent)
}

fn ask_part(rt: &(impl Print + Eprint), what: &[u8], file: &[u8]) -> Result<(), Fault> {
    let mut long = 7;
    let begins = ripplehatch_refused_part(file, &mut long);
    write_numbers(rt, what, &[begins as u64, long as u64])
}

fn ask_take(rt: &(impl Print + Eprint), held: &[u8], bytes: &[u8]) -> Result<(), Fault> {
    let mut finished = 7u8;
    let number = ripplehatch_take(held, bytes, &mut finished);
    write_numbers(rt, b"take", &[number as u64, finished as u64])
}

// The answer, and the bytes of the room.
fn write_room(rt: &(impl Print + Eprint), number: u8, room: &[u8]) -> Result<(), Fault> {
    let mut line = [0u8; LINE];
    let mut page = Page::new(&mut line);
    page.put_named(b"write ", number);
    page.put(b", room ");
    put_digits(&mut page, room);
    page.put(b"\n");
    print(rt, &NAME, page.text())
}

fn ask_write(rt: &(impl Print + Eprint), held: &[u8], room: usize) -> Result<(), Fault>
    requires { room ≤ 16 }
{
    let mut bytes = [7u8; 16];
    let lent: &mut [u8] = &mut bytes[0..room];
    let number = ripplehatch_write(held, lent);
    write_room(rt, number, lent)
}

fn ask_name(rt: &(impl Print + Eprint), what: &[u8], cards: &[u8]) -> Result<(), Fault> {
    let mut name = 7;
    let number = ripplehatch_name_five(cards, &mut name);
    write_numbers(rt, what, &[number as u64, name as u64])
}

fn ask_lo(rt: &(impl Print + Eprint), what: &[u8], cards: &[u8]) -> Result<(), Fault> {
    let mut high = 7;
    let number = ripplehatch_name_lo(cards, &mut high);
    write_numbers(rt, what, &[number as u64, high as u64])
}

fn ask_six(rt: &(impl Print + Eprint), what: &[u8], cards: &[u8]) -> Result<(), Fault> {
    let mut name = 7;
    let number = ripplehatch_name_six(cards, &mut name);
    write_numbers(rt, what, &[number as u64, name as u64])
}

fn ask_share(
    rt: &(impl Print + Eprint),
    what: &[u8],
    wins: &[u64],
    maximum: u64,
    room: usize,
) -> Result<(), Fault>
    requires { room ≤ 3 }
{
    let mut shares = [BEFORE; 3];
    let lent: &mut [u64] = &mut shares[0..room];
    let number = ripplehatch_share(wins, maximum, lent);
    write_list(rt, what, number, &[], lent)
}

fn ask_files(rt: &(impl Print + Eprint), file: [u8; WHOLE]) -> Result<(), Fault> {
    ask_settle(rt, b"file", &file, 35)?;
    ask_settle(rt, b"odd", &file[0..207], 35)?;
    ask_settle(rt, b"late", &file[16..208], 35)?;
    ask_settle(rt, b"file", &file, 28)
}

fn ask_parts(rt: &(impl Print + Eprint), file: [u8; WHOLE]) -> Result<(), Fault> {
    ask_part(rt, b"part", &file)?;
    ask_part(rt, b"part", &file[0..207])?;
    ask_part(rt, b"part", &file[16..208])
}

fn ask_refused(
    rt: &(impl Print + Eprint),
    file: [u8; WHOLE],
    more: [u8; WHOLE],
) -> Result<(), Fault> {
    ask_take(rt, &file[0..192], &more[176..192])?;
    ask_take(rt, &file[0..192], &more[192..207])?;
    ask_take(rt, &file, &more[192..208])?;
    ask_take(rt, &file[0..207], &more[192..208])
}

// The records are handed from a copy of the file.
fn ask_held(rt: &(impl Print + Eprint), file: [u8; WHOLE], more: [u8; WHOLE]) -> Result<(), Fault> {
    ask_take(rt, &file[0..0], &more[0..16])?;
    ask_take(rt, &file[0..192], &more[192..208])?;
    ask_refused(rt, file, more)
}

fn ask_written(rt: &(impl Print + Eprint), file: [u8; WHOLE]) -> Result<(), Fault> {
    ask_write(rt, &file[0..16], 16)?;
    ask_write(rt, &file[0..16], 15)?;
    ask_write(rt, &file[0..0], 0)?;
    ask_write(rt, &file[16..32], 16)
}

fn ask_names(rt: &(impl Print + Eprint)) -> Result<(), Fault> {
    ask_name(rt, b"name", &[50, 46, 34, 38, 42])?;
    ask_name(rt, b"name", &[26, 30, 34, 38, 42])?;
    ask_name(rt, b"name", &[50, 50, 34, 38, 42])?;
    ask_name(rt, b"name", &[50, 50, 34, 38])
}

fn ask_los(rt: &(impl Print + Eprint)) -> Result<(), Fault> {
    ask_lo(rt, b"lo", &[0, 5, 10, 15, 20])?;
    ask_lo(rt, b"lo", &[0, 5, 10, 15, 16])?;
    ask_lo(rt, b"lo", &[0, 5, 10, 15, 0])?;
    ask_lo(rt, b"lo", &[0, 5, 10, 0])
}

fn ask_sixes(rt: &(impl Print + Eprint)) -> Result<(), Fault> {
    ask_six(rt, b"six", &[29, 33, 37, 41, 45, 49])?;
    ask_six(rt, b"six", &[30, 34, 38, 42, 46, 50])?;
    ask_six(rt, b"six", &[26, 30, 34, 38, 42, 46])?;
    ask_six(rt, b"six", &[29, 33, 37, 41, 45, 29])?;
    ask_six(rt, b"six", &[29, 33, 37, 41, 45])
}

fn ask_shares(rt: &(impl Print + Eprint)) -> Result<(), Fault> {
    let wins = [20000u64, 10000, 500];
    ask_share(rt, b"share", &wins, 25000, 3)?;
    ask_share(rt, b"share", &wins, 25000, 2)?;
    ask_share(rt, b"share", &wins, 75001, 3)
}

// Stops at the first line that can't be written.
fn ask_all(rt: &(impl Print + Eprint), file: [u8; WHOLE]) -> Result<Outcome, Fault> {
    ask_files(rt, file)?;
    ask_parts(rt, file)?;
    ask_held(rt, file, file)?;
    ask_written(rt, file)?;
    ask_names(rt)?;
    ask_los(rt)?;
    ask_sixes(rt)?;
    ask_shares(rt)?;
    Ok(Outcome::Done)
}

fn asked(rt: &(impl Input + Print + Eprint)) -> Result<Outcome, Fault> {
    let mut file = [0u8; WHOLE];
    let bytes = read_all(rt, &NAME, &mut file, b"reads a file of 208 bytes")?;
    if bytes < WHOLE {
        tell(rt, &NAME, b"reads a file of 208 bytes");
        return Err(Fault);
    }
    ask_all(rt, file)
}

fn main(rt: HostRuntime) {
    if let Some(call) = called(&rt, &NAME, true) {
        end(&rt, &NAME, call, asked(&rt));
    }
}
