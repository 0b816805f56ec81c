// The book: 16 places, 8 transfer numbers and one unit, as document 01's section "Book" has it.
// Integers and arrays only: every pattern of bytes is a book, and test 28 says which are sound.
#![tactic(auto)]

ghost use Rattle.std.specs.Prelude.{◌≡◌, ◌≤◌, length};
ghost use Rattle.book.specs.Book.{name_bytes};

use amount::Amount;

pub mod error;

// How many places a book has, and how many transfer numbers; the most bytes of a name.
pub const PLACES: usize = 16;

pub const TRANSFERS: usize = 8;

pub const NAME_BYTES: usize = 32;

// A text of at most 32 bytes: the first `len` of `bytes`.
#[repr(C)]
#[derive(Clone, Copy)]
pub struct Name {
    pub bytes: [u8; NAME_BYTES],
    pub len: u8,
}

impl Name {
    // The text itself, whatever `len` says. amount's `Text` has the same for 257 bytes and a longer `len`: C gets both layouts.
    pub fn as_bytes(&self) -> &[u8]
        ensures text { result.now ≡ name_bytes self.now }
        ensures short { length result.now ≤ 32 }
    {
        &self.bytes[..(self.len as usize).min(NAME_BYTES)]
    }
}

#[repr(C)]
#[derive(Clone, Copy)]
pub struct Place {
    pub subject: Name,
    pub balance: Amount,
    pub reserved: Amount,
}

// Credits that have left `from` and have not reached `to`.
#[repr(C)]
#[derive(Clone, Copy)]
pub struct Transfer {
    pub from: u8,
    pub to: u8,
    pub amount: Amount,
}

// `opened` is document 01's set of open places, bit p for place p.
// `pending` is document 01's set of the transfers under way, bit t for transfer t.
#[repr(C)]
#[derive(Clone, Copy)]
pub struct Book {
    pub unit: Name,
    pub opened: u16,
    pub pending: u8,
    pub places: [Place; PLACES],
    pub transfers: [Transfer; TRANSFERS],
}
