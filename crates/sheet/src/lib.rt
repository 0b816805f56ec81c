// Sheets: a count, a table of six-byte entries, and the bodies. Read by slice and number; nothing is copied.
// Every function takes any bytes: a byte past the end counts as 0, and a part past the end is what is there.
#![tactic(auto)]

ghost use Rattle.std.specs.Prelude.{◌≡◌, ◌+◌, ◌<◌, ◌≤◌, get_or, length, take, drop};
ghost use Rattle.sheet.specs.Sheet.{u16_at, entry_at, table, lookup, part_of, body_of};

mod amounts;
mod reader;
mod soundness;

pub use amounts::{amount_at, amount_bytes};
pub use reader::Reader;
use reader::has_entry;
pub use soundness::{is_sound, state_of};

// The names of fields: document 01's numbers, which stand in sheets and in answers as bytes. An enum would need a variant for the other
// bytes, and a conversion both ways.
pub const SUBJECT: u8 = 1;

pub const UNIT: u8 = 2;

pub const QUANTITY: u8 = 3;

pub const BALANCE: u8 = 4;

pub const REMAINING: u8 = 5;

pub const MAXIMUM: u8 = 6;

pub const AMOUNT: u8 = 7;

pub const TO_SUBJECT: u8 = 8;

pub const TO_UNIT: u8 = 9;

pub const AUTHORIZED_BY: u8 = 10;

// The kinds of fields, bytes as the names are. `OTHER` is a value that is no string.
pub const KIND_TEXT: u8 = 1;

pub const KIND_OTHER: u8 = 2;

pub const KIND_AMOUNT: u8 = 3;

// One entry of the table: the body's offset from the sheet's start, and its length.
#[derive(Clone, Copy, Debug, PartialEq, Eq)]
pub struct Entry {
    pub name: u8,
    pub kind: u8,
    pub offset: u16,
    pub len: u16,
}

// What a sheet is read as.
#[derive(Clone, Copy, Debug, PartialEq, Eq)]
pub enum Shape {
    Input,
    Stack,
    Balance,
    Meter,
}

// What a state sheet is.
#[derive(Clone, Copy, Debug, PartialEq, Eq)]
pub enum State {
    Absent,
    Stack,
    Balance,
    Meter,
    Torn,
}

// The fields of a state: the subject's text, the field `second` of kind `kind`, and the amount `third`.
#[derive(Clone, Copy, Debug, PartialEq, Eq)]
pub struct Form {
    pub second: u8,
    pub kind: u8,
    pub third: u8,
}

pub const STACK_FORM: Form = Form {
    second: UNIT,
    kind: KIND_TEXT,
    third: QUANTITY,
};

pub const BALANCE_FORM: Form = Form {
    second: UNIT,
    kind: KIND_TEXT,
    third: BALANCE,
};

pub const METER_FORM: Form = Form {
    second: REMAINING,
    kind: KIND_AMOUNT,
    third: MAXIMUM,
};

// The byte at i, and 0 past the end.
pub fn byte(s: &[u8], i: usize) -> u8
    ensures { result ≡ get_or s.now i 0 }
{
    s.get(i).copied().unwrap_or(0)
}

// The little-endian 16-bit number at i.
pub fn u16_at(s: &[u8], i: usize) -> u16
    ensures { result ≡ u16_at s.now i }
{
    match s.get(i..) {
        Some([lo, hi, ..]) => u16::from_le_bytes([*lo, *hi]),
        Some([lo]) => u16::from(*lo),
        _ => 0,
    }
}

// The first entry of that name.
#[tactic(auto, using(crate::proofs::Finding::lookup_here, crate::proofs::Finding::lookup_next, crate::proofs::Finding::lookup_end))]
pub fn find(s: &[u8], name: u8) -> Option<Entry>
    ensures { result ≡ lookup name (table s.now) }
{
    let mut k = 0;
    while has_entry(s, k) {
        // by the name alone: the other five bytes are read of the entry that is returned
        if byte(s, 1 + 6 * k) == name {
            return Some(entry_at(s, k));
        }
        k += 1;
    }
    None
}

// At most len bytes from start, as a part of the slice: fewer, or none, where the slice ends first.
pub fn part(s: &[u8], start: usize, len: usize) -> &[u8]
    ensures { result.now ≡ take len (drop start s.now) }
{
    let rest = &s[start.min(s.len())..];
    &rest[..len.min(rest.len())]
}

// The body of an entry, as a part of the sheet.
pub fn entry_body(s: &[u8], e: Entry) -> &[u8]
    ensures { result.now ≡ part_of s.now e }
{
    part(s, e.offset as usize, e.len as usize)
}

// The body of the field, as a part of the sheet; no bytes where there is none.
pub fn body(s: &[u8], name: u8) -> &[u8]
    ensures { result.now ≡ body_of s.now (lookup name (table s.now)) }
{
    let Some(e) = find(s, name) else {
        return &s[..0];
    };
    entry_body(s, e)
}

// Entry k of the table. Where it is there whole, one test stands for those of its six bytes.
#[tactic(auto, unfolding(crate::specs::Sheet::entry_at))]
fn entry_at(s: &[u8], k: usize) -> Entry
    requires { k < 256 }
    ensures { result ≡ entry_at s.now k }
{
    let p = 1 + 6 * k;
    if let Some(e) = s.get(p..p + 6) {
        return Entry {
            name: e[0],
            kind: e[1],
            offset: u16::from_le_bytes([e[2], e[3]]),
            len: u16::from_le_bytes([e[4], e[5]]),
        };
    }
    Entry {
        name: byte(s, p),
        kind: byte(s, p + 1),
        offset: u16_at(s, p + 2),
        len: u16_at(s, p + 4),
    }
}
