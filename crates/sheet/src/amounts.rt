// The 17 bytes of an amount: the mantissa's 16, the lowest first, and then the scale.
ghost use Rattle.std.specs.Prelude.{◌≡◌, ◌<◌, ◌^◌};
ghost use Rattle.sheet.specs.Amounts.{u64_at, amount_at, amount_bytes};

use super::byte;
use amount::{Amount, Uint128};

// The amount whose bytes start at `start`.
#[tactic(auto, unfolding(crate::specs::Amounts::amount_at))]
pub fn amount_at(s: &[u8], start: u16) -> Amount
    ensures { result ≡ amount_at s.now start }
{
    let i = start as usize;
    Amount {
        mantissa: Uint128 {
            hi: u64_at(s, i + 8),
            lo: u64_at(s, i),
        },
        scale: byte(s, i + 16),
    }
}

// The bytes of an amount.
pub fn amount_bytes(a: Amount) -> [u8; 17]
    ensures { result ≡ amount_bytes a }
{
    let l = a.mantissa.lo.to_le_bytes();
    let h = a.mantissa.hi.to_le_bytes();
    [
        l[0], l[1], l[2], l[3], l[4], l[5], l[6], l[7], h[0], h[1], h[2], h[3], h[4], h[5], h[6],
        h[7], a.scale,
    ]
}

// The number of the eight bytes at i. Where all of them are there, one test stands for theirs.
fn u64_at(s: &[u8], i: usize) -> u64
    requires { i < 2 ^ 31 }
    ensures { result ≡ u64_at s.now i }
{
    if let Some(b) = s.get(i..i + 8) {
        return u64::from_le_bytes([b[0], b[1], b[2], b[3], b[4], b[5], b[6], b[7]]);
    }
    u64::from_le_bytes([
        byte(s, i),
        byte(s, i + 1),
        byte(s, i + 2),
        byte(s, i + 3),
        byte(s, i + 4),
        byte(s, i + 5),
        byte(s, i + 6),
        byte(s, i + 7),
    ])
}
