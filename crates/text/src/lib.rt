// Text put together in a room that the caller lends: bytes, numbers in decimal, bytes in hexadecimal.
//
// What is put is written from the page's place on, as much as fits; the rest of the room stays as it was, and the place is then the one behind it. Every method
// answers for any room and any place, and none reads or prints anything.

#![tactic(auto)]

ghost use Rattle.std.specs.Prelude.{ℕ, ◌≤◌, ◌<◌, ◌≡◌, ◌++◌, ◌∷◌, [], length, map, take, drop};
ghost use Rattle.text.specs.Page.{Puts};
ghost use Rattle.text.specs.Text.{behind, written, decimal, listed, line_of, hex_digit, hex_of};

use itoa::Buffer;

// A number that a text may have.
pub trait Number: Copy {
    ghost value: { Self → ℕ };

    fn value(self) -> u64
        ensures { result ≡ value self };
}

impl Number for u8 {
    ghost value = { λ n. n };

    fn value(self) -> u64 {
        self as u64
    }
}

impl Number for u16 {
    ghost value = { λ n. n };

    fn value(self) -> u64 {
        self as u64
    }
}

impl Number for u32 {
    ghost value = { λ n. n };

    fn value(self) -> u64 {
        self as u64
    }
}

impl Number for u64 {
    ghost value = { λ n. n };

    fn value(self) -> u64 {
        self
    }
}

impl Number for usize {
    ghost value = { λ n. n };

    fn value(self) -> u64 {
        self as u64
    }
}

// A room, and the place from which on the next text is written.
#[derive(Drop)]
pub struct Page<'a> {
    pub room: &'a mut [u8],
    pub at: usize,
}

impl<'a> Page<'a> {
    // A page that begins with the room.
    pub fn new(room: &'a mut [u8]) -> Page<'a>
        ensures same_room { result.room.ghost_name ≡ room.entry.ghost_name }
        ensures place { result.at ≡ 0 }
        ensures text { result.room.now ≡ room.old }
    {
        Page { room, at: 0 }
    }

    pub fn put(&mut self, bytes: &[u8])
        ensures { Puts self.old self.new bytes.now }
    {
        self.at = store(self.room, self.at, bytes);
    }

    pub fn put_number<T: Number>(&mut self, n: T)
        ensures { Puts self.old self.new (decimal (T.value n)) }
    {
        self.put(Buffer::new().format(n.value()).as_bytes());
    }

    // Words, and a number behind them.
    pub fn put_named<T: Number>(&mut self, words: &[u8], n: T)
        ensures { Puts self.old self.new (words.now ++ decimal (T.value n)) }
    {
        self.put(words);
        self.put_number(n);
    }

    // Words, and numbers behind them, each after a blank.
    pub fn put_list<T: Number>(&mut self, words: &[u8], numbers: &[T])
        ensures { Puts self.old self.new (words.now ++ listed (map T.value numbers.now)) }
    {
        self.put(words);
        for number in numbers {
            self.put_named(b" ", *number);
        }
    }

    // Words, numbers behind them, each after a blank, and the end of the line.
    pub fn put_line<T: Number>(&mut self, words: &[u8], numbers: &[T])
        ensures { Puts self.old self.new (line_of words.now (map T.value numbers.now)) }
    {
        self.put_list(words, numbers);
        self.put(b"\n");
    }

    // A byte's two hexadecimal digits, in lower case.
    pub fn put_hex(&mut self, byte: u8)
        ensures { Puts self.old self.new (hex_of byte) }
    {
        self.put(&[hex_digit(byte / 16), hex_digit(byte % 16)]);
    }

    // The room up to the place: what was put, of a page that began with its room.
    pub fn text(&self) -> &[u8]
        ensures { result.now ≡ take self.now.at self.now.room.now }
    {
        up_to(self.room, self.at)
    }
}

// Stores bytes from a place on, as many as fit, and answers the place behind them.
fn store(room: &mut [u8], at: usize, bytes: &[u8]) -> usize
    ensures place { result ≡ behind room.old at bytes.now }
    ensures text { room.new ≡ written room.old at bytes.now }
{
    if room.len() <= at {
        return at;
    }
    let many = bytes.len().min(room.len() - at);
    room[at..at + many].copy_from_slice(&bytes[..many]);
    at + many
}

fn hex_digit(d: u8) -> u8
    requires { d < 16 }
    ensures { result ≡ hex_digit d }
{
    if d < 10 { b'0' + d } else { b'a' - 10 + d }
}

// The first bytes of a room, all where it has fewer: the text that ends at the place `end`.
pub fn up_to(room: &[u8], end: usize) -> &[u8]
    ensures { result.now ≡ take end room.now }
{
    room.get(..end).unwrap_or(room)
}
