// Unsigned 128-bit numbers as two 64-bit halves: what `u128` is in the Rust.
ghost use Rattle.std.specs.Prelude.{◌≡◌, ◌+◌, ◌-◌, ◌*◌, ◌%◌, ◌^◌, ◌<◌, ◌≤◌, ◌==◌};
ghost use Rattle.amount.specs.Numbers.{val, limit, halves};
ghost use Rattle.amount.specs.Helpers.{checked, checked_less, division_of};

// The order by the upper half, then by the lower one, is that of the numbers (proofs/Halves.antt, `halves_order`).
#[repr(C)]
#[derive(Clone, Copy, Debug, PartialEq, Eq, PartialOrd, Ord)]
pub struct Uint128 {
    pub hi: u64,
    pub lo: u64,
}

// A quotient, and what is left.
#[derive(Clone, Copy)]
pub(crate) struct Division<Q> {
    pub(crate) quotient: Q,
    pub(crate) rest: u32,
}

impl Uint128 {
    pub const ZERO: Uint128 = Uint128 { hi: 0, lo: 0 };

    // The Rust's name for `== ZERO`.
    pub fn is_zero(self) -> bool
        ensures { result ≡ (val self == 0) }
    {
        self.hi == 0 && self.lo == 0
    }

    pub fn checked_add(self, other: Uint128) -> Option<Uint128>
        ensures { result ≡ checked (val self + val other) }
    {
        let (lo, carry) = self.lo.carrying_add(other.lo, false);
        let hi = self.hi.checked_add(other.hi)?.checked_add(carry as u64)?;
        Some(Uint128 { hi, lo })
    }

    pub fn checked_sub(self, other: Uint128) -> Option<Uint128>
        ensures { result ≡ checked_less (val self) (val other) }
    {
        let (lo, borrow) = self.lo.borrowing_sub(other.lo, false);
        let hi = self.hi.checked_sub(other.hi)?.checked_sub(borrow as u64)?;
        Some(Uint128 { hi, lo })
    }

    // The sum, as a u128 wraps it.
    pub fn wrapping_add(self, other: Uint128) -> Uint128
        ensures { result ≡ halves ((val self + val other) % limit) }
    {
        let (lo, carry) = self.lo.carrying_add(other.lo, false);
        let (hi, _) = self.hi.carrying_add(other.hi, carry);
        Uint128 { hi, lo }
    }

    // The difference, as a u128 wraps it.
    pub fn wrapping_sub(self, other: Uint128) -> Uint128
        ensures { result ≡ halves ((val self + (limit - val other)) % limit) }
    {
        let (lo, borrow) = self.lo.borrowing_sub(other.lo, false);
        let (hi, _) = self.hi.borrowing_sub(other.hi, borrow);
        Uint128 { hi, lo }
    }
}

// A word, and what passes it.
#[derive(Clone, Copy)]
struct Wide {
    carry: u32,
    low: u64,
}

// A number divided by one of 32 bits: the upper half, then the lower one with what that leaves.
pub(crate) fn div_rem(n: Uint128, divisor: u32) -> Division<Uint128>
    requires { 0 < divisor }
    ensures { result ≡ division_of (val n) divisor }
{
    let d = divisor as u64;
    if n.hi == 0 {
        return Division {
            quotient: Uint128 {
                hi: 0,
                lo: n.lo / d,
            },
            rest: (n.lo % d) as u32,
        };
    }
    let low = divide_word(n.hi % d, n.lo, d);
    Division {
        quotient: Uint128 {
            hi: n.hi / d,
            lo: low.quotient,
        },
        rest: low.rest,
    }
}

// 10^places, where a word holds it.
pub(crate) fn power_of_ten(places: u8) -> u64
    requires { places ≤ 19 }
    ensures { result ≡ 10 ^ places }
{
    match places {
        0 => 1,
        1 => 10,
        2 => 100,
        3 => 1_000,
        4 => 10_000,
        5 => 100_000,
        6 => 1_000_000,
        7 => 10_000_000,
        8 => 100_000_000,
        9 => 1_000_000_000,
        10 => 10_000_000_000,
        11 => 100_000_000_000,
        12 => 1_000_000_000_000,
        13 => 10_000_000_000_000,
        14 => 100_000_000_000_000,
        15 => 1_000_000_000_000_000,
        16 => 10_000_000_000_000_000,
        17 => 100_000_000_000_000_000,
        18 => 1_000_000_000_000_000_000,
        _ => 10_000_000_000_000_000_000,
    }
}

// A number times one of 32 bits, and another more: the lower half, then the upper one with what passes that.
pub(crate) fn mul_add(n: Uint128, factor: u32, add: u32) -> Option<Uint128>
    ensures { result ≡ checked (val n * factor + add) }
{
    let low = times_word(n.lo, factor, add);
    let high = times_word(n.hi, factor, low.carry);
    if 0 < high.carry {
        return None;
    }
    Some(Uint128 {
        hi: high.low,
        lo: low.low,
    })
}

// A word times a factor, and a number more, by halves of the word, so that no product leaves 64 bits.
fn times_word(x: u64, factor: u32, add: u32) -> Wide
    ensures { (result.carry * 2 ^ 64 + result.low ≡ x * factor + add) × (result.low < 2 ^ 64) }
{
    let f = factor as u64;
    let first = (x % 0x1_0000_0000) * f + add as u64;
    let second = (x / 0x1_0000_0000) * f + first / 0x1_0000_0000;
    Wide {
        carry: (second / 0x1_0000_0000) as u32,
        low: (second % 0x1_0000_0000) * 0x1_0000_0000 + first % 0x1_0000_0000,
    }
}

// A word with a number below the divisor before it, divided by halves of the word, so that nothing leaves 64 bits.
fn divide_word(before: u64, x: u64, divisor: u64) -> Division<u64>
    requires { (before < divisor) × (divisor < 2 ^ 32) }
    ensures { (before * 2 ^ 64 + x ≡ result.quotient * divisor + result.rest) × (result.rest < divisor) × (result.quotient < 2 ^ 64) }
{
    let high = before * 0x1_0000_0000 + x / 0x1_0000_0000;
    let low = (high % divisor) * 0x1_0000_0000 + x % 0x1_0000_0000;
    Division {
        quotient: (high / divisor) * 0x1_0000_0000 + low / divisor,
        rest: (low % divisor) as u32,
    }
}
