// Lowercase hexadecimal: fields of fixed width, read from a line and written into one.
#![tactic(auto)]

mod digit;

ghost use Rattle.std.specs.Prelude.{◌≡◌, ◌≤◌, length};
ghost use Rattle.digits.specs.Digits.{number_from, field_of, digits_of, write_of};

use digit::{digit, worth};

// The number of the digits of a part. std's `from_str_radix` takes capital letters and a sign too.
#[tactic(auto, using(crate::proofs::Reading::byte_read), unfolding(crate::specs::Digits::number_from))]
fn number(part: &[u8]) -> Option<u64>
    requires { length part.now ≤ 16 }
    ensures { result ≡ number_from 0 part.now }
{
    let mut n = 0;
    for b in part {
        n = n * 16 + worth(*b)?;
    }
    Some(n)
}

// The number of the field of width digits from a place of a line on: `field_of` speaks of the place, and so does the call.
#[tactic(auto, unfolding(crate::specs::Digits::field_of))]
pub fn read(line: &[u8], at: usize, width: usize) -> Option<u64>
    ensures { result ≡ field_of line.now at width }
{
    if 16 < width {
        return None;
    }
    let end = at.checked_add(width)?;
    number(line.get(at..end)?)
}

// A part filled with the last digits of a number, by index: what is written through `iter_mut` is not known to a proof.
#[tactic(auto, using(crate::proofs::Filling::fill_step), unfolding(crate::specs::Digits::digits_of))]
fn fill(part: &mut [u8], number: u64)
    ensures { part.new ≡ digits_of (length part.old) number }
{
    let mut left = number;
    for i in (0..part.len()).rev() {
        part[i] = digit(left % 16);
        left /= 16;
    }
}

// A field of width digits and the byte that ends it, from a place of a line on, if the line has room.
#[tactic(auto, using(crate::proofs::Placing::placed, crate::proofs::Placing::no_place))]
pub fn write(line: &mut [u8], at: usize, width: usize, number: u64, end: u8)
    ensures { line.new ≡ write_of line.old at width number end }
{
    if at < line.len() && width < line.len() - at {
        fill(&mut line[at..at + width], number);
        line[at + width] = end;
    }
}
