// Records as hexadecimal digits, put on a page: what a program prints of a file that a person is to read.

#![tactic(auto)]

ghost use Rattle.std.specs.Prelude.{◌≡◌};
ghost use Rattle.reading.specs.File.{file_records};
ghost use Rattle.text.specs.Page.{Puts};
ghost use Rattle.digits.specs.Digits.{hexes, trimmed, spelled_one, spelled};

use records::is_zero_from;
use text::Page;

pub fn put_digits(page: &mut Page<'_>, bytes: &[u8])
    ensures { Puts page.old page.new (hexes bytes.now) }
{
    for byte in bytes {
        page.put_hex(*byte);
    }
}

// Bytes without the zeros at their end.
fn trim(bytes: &[u8]) -> &[u8]
    ensures { result.now ≡ trimmed bytes.now }
{
    for n in 0..bytes.len() {
        if is_zero_from(bytes, n) {
            return &bytes[..n];
        }
    }
    bytes
}

// A record after a blank, without the zero bytes at its end.
fn put_record(page: &mut Page<'_>, bytes: &[u8])
    ensures { Puts page.old page.new (spelled_one bytes.now) }
{
    page.put(b" ");
    put_digits(page, trim(bytes));
}

// The records of a file; an odd tail is none.
pub fn put_records(page: &mut Page<'_>, file: &[u8])
    ensures { Puts page.old page.new (spelled (file_records file.now)) }
{
    for record in file.chunks_exact(16) {
        put_record(page, record);
    }
}
