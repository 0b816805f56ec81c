// Exact decimal amounts: a mantissa of 128 bits and a scale, the port of amount.rs.
// The value is mantissa / 10^scale. Every scale of a byte is taken; the Rust's constructors stop at 18.
#![tactic(auto)]

ghost use Rattle.std.specs.Prelude.{◌≡◌, ℕ, ◌+◌, ◌*◌, ◌/◌, ◌%◌, ◌^◌, ◌≤◌, length, ◌==◌, Option, Result};
ghost use Rattle.std.specs.Cmp.{partial_equiv_from_equiv, partial_order_from_agreeing_total, eq_by_cmp_equiv};
ghost use Rattle.std.specs.Ordering.{eq_by_cmp, as_partial_cmp};
ghost use Rattle.std.proofs.Common.{refl};
ghost use Rattle.amount.specs.Order.{compare_total};
ghost use Rattle.amount.specs.Numbers.{val, order_of};
ghost use Rattle.amount.specs.Helpers.{checked, word_of, aligned_of, ReducedBy};
ghost use Rattle.amount.specs.Amounts.{given_of, refused_of, read_of, compare_of, min_of, sum_of, difference_of};

use std::cmp::Ordering;

mod text;
mod uint128;

pub use text::{TEXT_BYTES, Text};
pub use uint128::Uint128;
use uint128::{div_rem, mul_add, power_of_ten};

// The longest text that is read, in bytes: 2^128 - 1 has 39 digits.
pub const MAX_MANTISSA_DIGITS: usize = 39;

#[repr(C)]
#[derive(Clone, Copy, Debug)]
pub struct Amount {
    pub mantissa: Uint128,
    pub scale: u8,
}

// Why there is no amount.
#[derive(Clone, Copy, Debug, PartialEq, Eq)]
pub enum AmountError {
    NotWhole,
    Overflow,
    Underflow,
}

// An amount, or why there is none, for a caller that goes by numbers: 0 and the amount, or the refusal's number and `ZERO`. No refusal
// of an amount alone has a detail, so it is 0. C gets it in this layout.
#[repr(C)]
#[derive(Clone, Copy, Debug)]
pub struct Given {
    pub number: u8,
    pub detail: u8,
    pub amount: Amount,
}

impl From<Result<Amount, AmountError>> for Given {
    ghost from_gives = { λ r g. g ≡ given_of r };

    fn from(answer: Result<Amount, AmountError>) -> Given {
        match answer {
            Ok(amount) => Given {
                number: 0,
                detail: 0,
                amount,
            },
            Err(AmountError::NotWhole) => refused(10),
            Err(AmountError::Overflow) => refused(17),
            Err(AmountError::Underflow) => refused(18),
        }
    }
}

impl Amount {
    pub const ZERO: Amount = Amount {
        mantissa: Uint128::ZERO,
        scale: 0,
    };

    // The Rust's name for `== ZERO`, which is by value.
    pub fn is_zero(self) -> bool
        ensures { result ≡ (val self.mantissa == 0) }
    {
        self.mantissa.is_zero()
    }

    // Reads a whole number: 1 to 39 digits and nothing else. The first 19 make a word, then nine at a time are added.
    pub fn try_from_str(text: &[u8]) -> Result<Amount, AmountError>
        ensures { result ≡ read_of text.now }
    {
        if text.is_empty() || MAX_MANTISSA_DIGITS < text.len() {
            return Err(AmountError::NotWhole);
        }
        let (first, rest) = text.split_at(text.len().min(WORD_DIGITS));
        let Some(lo) = word_of(first) else {
            return Err(AmountError::NotWhole);
        };
        let mut mantissa = Uint128 { hi: 0, lo };
        for part in rest.chunks(9) {
            let Some(word) = word_of(part) else {
                return Err(AmountError::NotWhole);
            };
            let power = power_of_ten(part.len() as u8) as u32;
            let Some(next) = mul_add(mantissa, power, word as u32) else {
                return Err(AmountError::NotWhole);
            };
            mantissa = next;
        }
        Ok(Amount { mantissa, scale: 0 })
    }

    // The lesser by value; on a tie `other`.
    pub fn min(self, other: Amount) -> Amount
        ensures { result ≡ min_of self other }
    {
        if self < other { self } else { other }
    }

    // The sum at the larger scale.
    pub fn checked_add(self, other: Amount) -> Result<Amount, AmountError>
        ensures { result ≡ sum_of self other }
    {
        let pair = align(self, other).ok_or(AmountError::Overflow)?;
        let mantissa = pair
            .left
            .checked_add(pair.right)
            .ok_or(AmountError::Overflow)?;
        Ok(Amount {
            mantissa,
            scale: pair.scale,
        })
    }

    // The difference at the larger scale.
    pub fn checked_sub(self, other: Amount) -> Result<Amount, AmountError>
        ensures { result ≡ difference_of self other }
    {
        let pair = align(self, other).ok_or(AmountError::Underflow)?;
        let mantissa = pair
            .left
            .checked_sub(pair.right)
            .ok_or(AmountError::Underflow)?;
        Ok(Amount {
            mantissa,
            scale: pair.scale,
        })
    }
}

// `==` and the order are by value: 1.0 is 1.
impl PartialEq for Amount {
    ghost eq = { eq_by_cmp compare_of };

    ghost laws = { partial_equiv_from_equiv (eq_by_cmp_equiv compare_total) };

    fn eq(&self, other: &Amount) -> bool {
        self.cmp(other) == Ordering::Equal
    }
}

impl Eq for Amount {
    ghost laws = { eq_by_cmp_equiv compare_total };
}

impl PartialOrd for Amount {
    ghost partial_cmp = { as_partial_cmp compare_of };

    ghost laws = { partial_order_from_agreeing_total compare_of compare_total (λ a b. refl) (λ a b. refl) };

    fn partial_cmp(&self, other: &Amount) -> Option<Ordering> {
        Some(self.cmp(other))
    }
}

impl Ord for Amount {
    ghost cmp = { compare_of };

    ghost total = { compare_total };

    ghost matches_partial_cmp = { λ a b. refl };

    ghost matches_eq = { λ a b. refl };

    fn cmp(&self, other: &Amount) -> Ordering {
        compare(*self, *other)
    }
}

// `cmp` of copies: of a number behind a reference a proof knows no range. The finer mantissa is divided and none is multiplied, so
// nothing overflows.
fn compare(left: Amount, right: Amount) -> Ordering
    ensures { result ≡ compare_of left right }
{
    // one scale first, which most have: by a match of `cmp` it takes 51 instructions for 41
    if left.scale == right.scale {
        return left.mantissa.cmp(&right.mantissa);
    }
    match right.scale.checked_sub(left.scale) {
        Some(places) => cmp_rescaled(left.mantissa, right.mantissa, places),
        None => { cmp_rescaled(right.mantissa, left.mantissa, left.scale - right.scale).reverse() }
    }
}

// So many digits always make a number below 2^64.
const WORD_DIGITS: usize = 19;

// The number of a text of digits, where it is one.
fn word_of(text: &[u8]) -> Option<u64>
    requires { length text.now ≤ 19 }
    ensures { result ≡ word_of text.now }
{
    let mut number: u64 = 0;
    for &byte in text {
        if !byte.is_ascii_digit() {
            return None;
        }
        number = number * 10 + (byte - b'0') as u64;
    }
    Some(number)
}

// A refusal of this number.
fn refused(number: u8) -> Given
    ensures { result ≡ refused_of number }
{
    Given {
        number,
        detail: 0,
        amount: Amount::ZERO,
    }
}

// Two mantissas at one scale.
#[derive(Clone, Copy)]
struct Pair {
    left: Uint128,
    right: Uint128,
    scale: u8,
}

// Both mantissas at the larger scale, where 128 bits hold them.
fn align(a: Amount, b: Amount) -> Option<Pair>
    ensures { result ≡ aligned_of a b }
{
    let scale = a.scale.max(b.scale);
    let left = checked_rescale(a.mantissa, scale - a.scale)?;
    let right = checked_rescale(b.mantissa, scale - b.scale)?;
    Some(Pair { left, right, scale })
}

// A mantissa at a scale that is `places` larger.
fn checked_rescale(mantissa: Uint128, places: u8) -> Option<Uint128>
    ensures { result ≡ checked (val mantissa * 10 ^ places) }
{
    let mut number = mantissa;
    // no index: it is done so often
    for _ in 0..places {
        number = mul_add(number, 10, 0)?;
    }
    Some(number)
}

// A mantissa divided by a power of ten, and whether something was left. Both are always there, so it is no Option.
#[derive(Clone, Copy)]
struct Reduced {
    quotient: Uint128,
    rest: bool,
}

fn reduce(mantissa: Uint128, places: u8) -> Reduced
    ensures { ReducedBy (val mantissa) places result }
{
    let mut r = Reduced {
        quotient: mantissa,
        rest: false,
    };
    let mut left = places;
    // a `while`: it ends with the upper half, and its last step has a size of its own
    while 0 < r.quotient.hi {
        if left <= 9 {
            return reduce_by(r, left);
        }
        r = reduce_by(r, 9);
        left -= 9;
    }
    reduce_word(r, left)
}

// At most nine places more: 10^9 is below 2^32.
fn reduce_by(r: Reduced, places: u8) -> Reduced
    requires { places ≤ 9 }
    ensures { (n j : ℕ) → ReducedBy n j r → ReducedBy n (j + places) result }
{
    let d = div_rem(r.quotient, power_of_ten(places) as u32);
    reduced_to(r, d.quotient, d.rest as u64)
}

// Any number of places more of a word, which has at most 20 digits.
fn reduce_word(r: Reduced, places: u8) -> Reduced
    requires { r.quotient.hi ≡ 0 }
    ensures { (n j : ℕ) → ReducedBy n j r → ReducedBy n (j + places) result }
{
    let word = r.quotient.lo;
    if 19 < places {
        return reduced_to(r, Uint128::ZERO, word);
    }
    let power = power_of_ten(places);
    let quotient = Uint128 {
        hi: 0,
        lo: word / power,
    };
    reduced_to(r, quotient, word % power)
}

// One division more: its quotient, and what it left.
fn reduced_to(r: Reduced, quotient: Uint128, left: u64) -> Reduced
    ensures { (n j k : ℕ) → ReducedBy n j r → val quotient ≡ val r.quotient / 10 ^ k → left ≡ val r.quotient % 10 ^ k → ReducedBy n (j + k) result }
{
    Reduced {
        quotient,
        rest: r.rest || left != 0,
    }
}

// How a mantissa stands to one of a scale that is `places` larger.
fn cmp_rescaled(mantissa: Uint128, finer: Uint128, places: u8) -> Ordering
    ensures { result ≡ order_of (val mantissa * 10 ^ places) (val finer) }
{
    let r = reduce(finer, places);
    let tie = if r.rest {
        Ordering::Less
    } else {
        Ordering::Equal
    };
    mantissa.cmp(&r.quotient).then(tie)
}
