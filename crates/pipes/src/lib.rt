// What programs read and write: standard input and output, a line for each fault, and the status.
//
// A read or a write that the system only puts off (EINTR, EAGAIN) is tried again. One that fails is told on standard error, with the program's name
// and the reason. What is read and written can't be said in a contract; how many bytes are can.
//
// A program's own exit status is 0. Called with the one argument `--status`, it writes a digit and a newline to file descriptor 3 as it ends: 0 where it
// did its work, 1 where its answer is a refusal, 2 for a fault of the call, of reading or of writing.

#![tactic(auto)]

ghost use Rattle.std.specs.Prelude.{◌≡◌, ◌≤◌, MatchResult, IfOk};
ghost use Rattle.std.specs.Io.{ReadsAtMost, WritesAtMost};
ghost use Rattle.pipes.specs.Counts.{IsPrefixLen};

use std::env::{Env, FillError};
use std::fs::OpenOptions;
use std::io;
use std::io::{Error, ErrorKind, Read, Write, writer};
use std::rt::Files;
use std::str::from_utf8;
use std::thread::yield_now;
use text::Page;

// How often in a row a call that is put off is tried again, with a turn for other processes before each: some seconds, on a machine of today.
const TRIES: usize = 4000000;

// Every loop must end: one over a stream after 2^40 turns.
const TURNS: usize = 1099511627776;

// File descriptor 3. It is opened by name, since a program is handed no descriptor by its number, and what is written goes behind what is there.
const STATUS_FILE: &str = "/dev/fd/3";

// A read that failed: how many bytes came before it, and why.
#[derive(Clone, Copy)]
pub struct Unread {
    pub bytes: usize,
    pub reason: Error,
}

// Of a file of which the room holds the first bytes: how many these are, and how many come after them.
#[derive(Clone, Copy)]
pub struct First {
    pub bytes: usize,
    pub after: usize,
}

// How a program was called: with `--status` or without.
#[derive(Clone, Copy)]
pub struct Call {
    pub status: bool,
}

// What a program comes to that did its work.
#[derive(Clone, Copy)]
pub enum Outcome {
    Done,
    Refused,
}

// A fault that was told on standard error.
#[derive(Clone, Copy)]
pub struct Fault;

// A fault of reading that was told: how many bytes the room has all the same.
#[derive(Clone, Copy)]
pub struct Untaken {
    pub bytes: usize,
}

impl From<Untaken> for Fault {
    fn from(_untaken: Untaken) -> Fault {
        Fault
    }
}

// A call's answer says that it failed, and why that it may be tried again.
fn is_put_off(answer: io::Result<usize>) -> bool {
    match answer {
        Ok(_) => false,
        Err(error) => matches!(error.kind(), ErrorKind::Interrupted | ErrorKind::WouldBlock),
    }
}

// One read, tried again while it is put off.
fn read_some(from: &mut impl Read, room: &mut [u8]) -> io::Result<usize>
    ensures { ReadsAtMost result room.new }
{
    for _ in 0..TRIES {
        let answer = from.read(room);
        if !is_put_off(answer) {
            return answer;
        }
        yield_now();
    }
    from.read(room)
}

// One write, tried again while it is put off: how many bytes were taken.
fn write_some(to: &mut impl Write, text: &[u8]) -> io::Result<usize>
    ensures { WritesAtMost result text.now }
{
    for _ in 0..TRIES {
        let answer = to.write(text);
        if !is_put_off(answer) {
            return answer;
        }
        yield_now();
    }
    to.write(text)
}

// Writes until all is written or a write fails.
fn write_whole(to: &mut impl Write, text: &[u8]) -> io::Result<()> {
    let mut rest = text;
    while !rest.is_empty() {
        let more = write_some(to, rest)?;
        if more == 0 {
            return Err(Error::from(ErrorKind::WriteZero));
        }
        rest = &rest[more..];
    }
    Ok(())
}

// Writes a text whole to standard output.
pub fn write_out(rt: &impl Print, text: &[u8]) -> io::Result<()> {
    write_whole(&mut writer(rt), text)
}

// Reads standard input into the room until it is full, the input ends or a read fails. Fewer bytes than the room has are the end of the input.
pub fn read_into(rt: &impl Input, room: &mut [u8]) -> Result<usize, Unread>
    ensures { MatchResult result (λ bytes. IsPrefixLen bytes room.new) (λ unread. IsPrefixLen unread.bytes room.new) }
{
    let mut input = rt.reader();
    let mut bytes = 0;
    while bytes < room.len() {
        match read_some(&mut input, &mut room[bytes..]) {
            Ok(0) => return Ok(bytes),
            Ok(more) => bytes += more,
            Err(reason) => return Err(Unread { bytes, reason }),
        }
    }
    Ok(bytes)
}

// The bytes that one more read finds.
fn find_more(from: &mut impl Read) -> io::Result<usize>
    ensures { IfOk result (λ bytes. bytes ≤ 4096) }
{
    let mut room = [0u8; 4096];
    read_some(from, &mut room)
}

// Counts the bytes to the end of standard input.
pub fn count_rest(rt: &impl Input) -> Result<usize, Unread>
    ensures { MatchResult result (λ bytes. bytes ≤ 4503599627370496) (λ unread. unread.bytes ≤ 4503599627370496) }
{
    let mut input = rt.reader();
    let mut bytes = 0;
    for _ in 0..TURNS {
        match find_more(&mut input) {
            Ok(0) => return Ok(bytes),
            Ok(more) => bytes += more,
            Err(reason) => return Err(Unread { bytes, reason }),
        }
    }
    Ok(bytes)
}

// The program's name, a colon and what is told of it.
fn put_told(page: &mut Page<'_>, name: &[u8], what: &[u8]) {
    page.put(name);
    page.put(b": ");
    page.put(what);
}

// Tells a fault on standard error, in one line: the program's name and what is wrong.
pub fn tell(rt: &impl Eprint, name: &[u8], what: &[u8]) {
    let mut room = [0u8; 128];
    let mut page = Page::new(&mut room);
    put_told(&mut page, name, what);
    page.put(b"\n");
    tell_text(rt, page.text());
}

// Tells a text on standard error, as it is. It is ASCII, as all that is told here.
pub fn tell_text(rt: &impl Eprint, text: &[u8]) {
    if let Ok(text) = from_utf8(text) {
        let _ = rt.eprint(text);
    }
}

// Tells, besides, why, where that is known.
fn tell_why(rt: &impl Eprint, name: &[u8], what: &[u8], reason: Option<Error>) {
    let mut room = [0u8; 128];
    let mut page = Page::new(&mut room);
    put_told(&mut page, name, what);
    tell_text(rt, page.text());
    let _ = match reason {
        Some(error) => rt.eprintln(format_args!(": {error}")),
        None => rt.eprintln(""),
    };
}

// Tells that a read failed, and why, where that is known.
pub fn tell_unread(rt: &impl Eprint, name: &[u8], reason: Option<Error>) -> Fault {
    tell_why(rt, name, b"cannot read standard input", reason);
    Fault
}

// Tells that a write failed, and why.
pub fn tell_unwritten(rt: &impl Eprint, name: &[u8], error: Error) -> Fault {
    tell_why(rt, name, b"cannot write to standard output", Some(error));
    Fault
}

// Reads all of standard input into the room, and answers how many bytes it has. A read that fails is told, of two the last, and so is input that goes on behind the
// room, in the given words.
pub fn read_all(
    rt: &(impl Input + Eprint),
    name: &[u8],
    room: &mut [u8],
    what: &[u8],
) -> Result<usize, Untaken>
    ensures { MatchResult result (λ bytes. IsPrefixLen bytes room.new) (λ untaken. IsPrefixLen untaken.bytes room.new) }
{
    let read = read_into(rt, room);
    let rest = count_rest(rt);
    let bytes = bytes_of(read);
    if let Err(unread) = rest.and(read) {
        tell_unread(rt, name, Some(unread.reason));
        return Err(Untaken { bytes });
    }
    if rest.is_ok_and(|after| after == 0) {
        return Ok(bytes);
    }
    tell(rt, name, what);
    Err(Untaken { bytes })
}

// How many bytes were read, whether or not a read failed after them.
fn bytes_of(read: Result<usize, Unread>) -> usize
    ensures { MatchResult read (λ bytes. result ≡ bytes) (λ unread. result ≡ unread.bytes) }
{
    match read {
        Ok(bytes) => bytes,
        Err(unread) => unread.bytes,
    }
}

// The bytes beyond the first `bytes` of a room: none where these don't fill it.
fn beyond(rt: &impl Input, bytes: usize, room: usize) -> Result<usize, Unread> {
    if bytes < room {
        return Ok(0);
    }
    count_rest(rt)
}

// Reads standard input into the room and counts the bytes that come after those. A read that fails is told.
pub fn read_first(
    rt: &(impl Input + Eprint),
    name: &[u8],
    room: &mut [u8],
) -> Result<First, Untaken>
    ensures { MatchResult result (λ first. IsPrefixLen first.bytes room.new) (λ untaken. IsPrefixLen untaken.bytes room.new) }
{
    let read = read_into(rt, room);
    let bytes = bytes_of(read);
    let rest = beyond(rt, bytes, room.len());
    if let Err(unread) = rest.and(read) {
        tell_unread(rt, name, Some(unread.reason));
        return Err(Untaken { bytes });
    }
    Ok(First {
        bytes,
        after: rest.unwrap_or(0),
    })
}

// Fills the room with the next bytes of a stream, and says whether there were any. A stream that ends inside the room is told, in the given words.
pub fn read_next(
    rt: &(impl Input + Eprint),
    name: &[u8],
    room: &mut [u8],
    what: &[u8],
) -> Result<bool, Fault> {
    let bytes = read_into(rt, room).map_err(|unread| tell_unread(rt, name, Some(unread.reason)))?;
    if bytes == 0 {
        return Ok(false);
    }
    if bytes < room.len() {
        tell(rt, name, what);
        return Err(Fault);
    }
    Ok(true)
}

// Fills the room with the next bytes of a stream. One that ends before the room is full is told, in the given words.
pub fn read_whole(
    rt: &(impl Input + Eprint),
    name: &[u8],
    room: &mut [u8],
    what: &[u8],
) -> Result<(), Fault> {
    let bytes = read_into(rt, room).map_err(|unread| tell_unread(rt, name, Some(unread.reason)))?;
    if bytes < room.len() {
        tell(rt, name, what);
        return Err(Fault);
    }
    Ok(())
}

// Takes turns until one says that the stream has ended.
pub fn take_turns<F: FnMut() -> Result<bool, Fault>>(mut turn: F) -> Result<Outcome, Fault>
    requires { F.IsAlwaysCallable turn }
    ensures { IfOk result (λ outcome. outcome ≡ Outcome.Done) }
{
    for _ in 0..TURNS {
        if !turn()? {
            break;
        }
    }
    Ok(Outcome::Done)
}

// Writes a text whole to standard output. Where that fails it is told.
pub fn print(rt: &(impl Print + Eprint), name: &[u8], text: &[u8]) -> Result<(), Fault> {
    write_out(rt, text).map_err(|error| tell_unwritten(rt, name, error))
}

// How many arguments there are, with the program's own name. Whether one fits the room, which is empty, doesn't matter.
fn count_args(rt: &impl Env) -> usize {
    for i in 0..usize::MAX {
        if let Err(FillError::NotPresent) = rt.arg(i, &mut []) {
            return i;
        }
    }
    usize::MAX
}

// The argument at place i is `--status`. A longer one does not fit, and reads as none.
fn is_status(rt: &impl Env, i: usize) -> bool {
    let mut word = [0u8; 8];
    match rt.arg(i, &mut word) {
        Ok(n) => word[..n] == b"--status"[..],
        Err(_) => false,
    }
}

fn tell_usage(rt: &impl Eprint, name: &[u8], reads: bool) {
    if reads {
        tell(rt, name, b"takes no arguments; it reads standard input");
    } else {
        tell(rt, name, b"takes no arguments");
    }
}

fn digit(outcome: Result<Outcome, Fault>) -> u8 {
    match outcome {
        Ok(Outcome::Done) => b'0',
        Ok(Outcome::Refused) => b'1',
        Err(Fault) => b'2',
    }
}

fn write_status(rt: &impl Files, line: &[u8]) -> io::Result<()> {
    let mut status = OpenOptions::new().append(true).open(rt, STATUS_FILE)?;
    write_whole(&mut status, line)
}

// Writes the status, where the call asked for it.
pub fn end(rt: &(impl Files + Eprint), name: &[u8], call: Call, outcome: Result<Outcome, Fault>) {
    if !call.status {
        return;
    }
    if let Err(error) = write_status(rt, &[digit(outcome), b'\n']) {
        tell_why(rt, name, b"cannot write the status", Some(error));
    }
}

// Looks at the arguments: none, or `--status` alone. Any other call is told, with whether the program reads standard input, and ends with a fault.
pub fn called(rt: &(impl Env + Files + Eprint), name: &[u8], reads: bool) -> Option<Call> {
    let many = count_args(rt);
    let call = Call {
        status: (1..many).any(|i| is_status(rt, i)),
    };
    if (many <= 1) | (call.status & (many == 2)) {
        return Some(call);
    }
    tell_usage(rt, name, reads);
    end(rt, name, call, Err(Fault));
    None
}
