// The canonical decimal text of an amount.
ghost use Rattle.std.specs.Prelude.{◌≡◌, ℕ, ◌-◌, ◌/◌, ◌^◌, ◌≤◌, List, ◌++◌, length, take, Some};
ghost use Rattle.amount.specs.Numbers.{val};
ghost use Rattle.amount.specs.Canonical.{strip, width_of, last_digits, zeros, as_text, canonical_text};

use super::Amount;
use super::uint128::{Uint128, div_rem, power_of_ten};
use std::fmt;

// The longest text: a digit, a point and 255 digits behind it.
pub const TEXT_BYTES: usize = 257;

// A text: its first `len` bytes. The others are 0.
#[repr(C)]
#[derive(Clone, Copy)]
pub struct Text {
    pub bytes: [u8; TEXT_BYTES],
    pub len: u16,
}

impl Text {
    // The text itself, whatever `len` says.
    pub fn as_bytes(&self) -> &[u8]
        ensures { result.now ≡ take self.now.len self.now.bytes }
    {
        &self.bytes[..(self.len as usize).min(TEXT_BYTES)]
    }
}

impl Amount {
    pub fn to_canonical_string(self) -> Text
        ensures { result ≡ as_text (canonical_text self) }
    {
        let a = stripped(self);
        let mantissa = a.mantissa;
        let mut bytes = [0u8; TEXT_BYTES];
        if a.scale == 0 {
            let len = width(mantissa);
            put_digits(&mut bytes, len, len, mantissa);
            return Text {
                bytes,
                len: len as u16,
            };
        }
        let scale = a.scale as usize;
        let whole = whole_part(mantissa, a.scale);
        let digits = width(whole);
        let len = digits + 1 + scale;
        put_digits(&mut bytes, len, scale, mantissa);
        bytes[digits] = b'.';
        put_digits(&mut bytes, digits, digits, whole);
        Text {
            bytes,
            len: len as u16,
        }
    }
}

// The canonical text, which is ASCII, so reading it as UTF-8 does not fail.
impl fmt::Display for Amount {
    ghost output = { λ a. Some (canonical_text a) };

    fn fmt<W: fmt::Write>(&self, f: &mut fmt::Formatter<W>) -> fmt::Result {
        let text = self.to_canonical_string();
        let Ok(text) = str::from_utf8(text.as_bytes()) else {
            return Err(fmt::Error);
        };
        f.write_str(text)
    }
}

// A mantissa without its last `places` digits: `reduce` with one caller alone is inlined there.
fn whole_part(mantissa: Uint128, places: u8) -> Uint128
    ensures { val result ≡ val mantissa / 10 ^ places }
{
    let mut number = mantissa;
    let mut left = places;
    // a `while`: how many times nine, less than all, takes a division more to say
    while 9 < left {
        number = div_rem(number, 1_000_000_000).quotient;
        left -= 9;
    }
    div_rem(number, power_of_ten(left) as u32).quotient
}

// The same value with no trailing zero after the point.
fn stripped(a: Amount) -> Amount
    ensures { result ≡ strip a.scale (val a.mantissa) }
{
    let mut mantissa = a.mantissa;
    if mantissa.is_zero() {
        return Amount::ZERO;
    }
    let mut scale = a.scale;
    // a `while`: the scale that it counts down is what it answers
    while 0 < scale {
        let d = div_rem(mantissa, 10);
        if d.rest != 0 {
            return Amount { mantissa, scale };
        }
        mantissa = d.quotient;
        scale -= 1;
    }
    Amount { mantissa, scale }
}

// How many digits a whole number has: nine at a time, while it has an upper half.
fn width(n: Uint128) -> usize
    ensures { result ≡ width_of (val n) }
{
    let mut rest = n;
    let mut count: usize = 0;
    // a `while`: it counts digits, and the number says when it ends
    while 0 < rest.hi {
        let d = div_rem(rest, 1_000_000_000);
        rest = d.quotient;
        count += 9;
    }
    count + word_width(rest.lo)
}

// The same of a number of 64 bits.
fn word_width(n: u64) -> usize
    ensures { result ≡ width_of n }
{
    let mut rest = n;
    let mut count: usize = 0;
    // two `while`s, as in `width`
    while 1_000_000_000 <= rest {
        rest /= 1_000_000_000;
        count += 9;
    }
    while 10 <= rest {
        rest /= 10;
        count += 1;
    }
    count + 1
}

// The last `count` digits of a number, written before the place `at`: nine at a time, while the number has an upper half.
fn put_digits(out: &mut [u8], at: usize, count: usize, n: Uint128)
    requires { (count ≤ at) × (at ≤ length out.old) }
    ensures { (rest : List ℕ) → out.old ≡ zeros at ++ rest → out.new ≡ zeros (at - count) ++ (last_digits count (val n) ++ rest) }
{
    let mut rest = n;
    let mut k: usize = 0;
    // a `while`: the number says when it ends
    while 0 < rest.hi {
        let d = div_rem(rest, 1_000_000_000);
        if count - k <= 9 {
            put_word(out, at - k, count - k, d.rest as u64);
            return;
        }
        put_word(out, at - k, 9, d.rest as u64);
        rest = d.quotient;
        k += 9;
    }
    put_word(out, at - k, count - k, rest.lo);
}

// The same of a number of 64 bits.
fn put_word(out: &mut [u8], at: usize, count: usize, n: u64)
    requires { (count ≤ at) × (at ≤ length out.old) }
    ensures { (rest : List ℕ) → out.old ≡ zeros at ++ rest → out.new ≡ zeros (at - count) ++ (last_digits count n ++ rest) }
{
    let mut rest = n;
    // by index: a proof knows nothing of what `iter_mut().rev()` writes
    for k in 0..count {
        out[at - k - 1] = b'0' + (rest % 10) as u8;
        rest /= 10;
    }
}
