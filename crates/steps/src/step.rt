// A step of the book without its sheet, and what a step looks at and leaves.
ghost use Rattle.std.specs.Prelude.{◌≡◌};
ghost use Rattle.steps.specs.Turn.{place_of, destination_of, transfer_of, subject_after, short_of};

use crate::names;
use amount::{Amount, Uint128};
use book::Name;
use book::error::BookError;
use registry::error::ProfileError;

// How many there are, for numbers that a caller gives.
pub const PLACES: u8 = book::PLACES as u8;

pub const TRANSFERS: u8 = book::TRANSFERS as u8;

// A sheet is passed beside it.
#[derive(Clone, Copy, Debug, PartialEq, Eq)]
pub enum Step {
    Open(u8),
    Act(u8, u8),
    Begin(u8, u8, u8),
    Finish(u8),
    Cancel(u8),
    Close(u8),
}

// What a step looks at and may alter, in words: what one place holds and has reserved, one transfer's ends and amount, the two sets, and the total,
// which a book that fails test 28 has not. `awaited` is whether a transfer under way names the place that a close closes; no step alters it, and it stands
// before the ends, so that they are read and stored as one word. Names are not here: the unit is passed beside it, `named` is how long the
// destination's subject is, always, and only an open and a close write one.
#[derive(Clone, Copy)]
pub struct View {
    pub held: Uint128,
    pub reserved: Uint128,
    pub carried: Uint128,
    pub total: Option<Uint128>,
    pub opened: u16,
    pub pending: u8,
    pub awaited: bool,
    pub from: u8,
    pub to: u8,
    pub named: u8,
}

impl Step {
    // The transfer that it looks at; 0 where it looks at none. The remainder keeps it on the book; an accepted step has no other number.
    pub fn transfer(self) -> u8
        ensures { result ≡ transfer_of self }
    {
        match self {
            Step::Open(_) | Step::Act(_, _) | Step::Close(_) => 0,
            Step::Begin(_, _, t) | Step::Finish(t) | Step::Cancel(t) => t % TRANSFERS,
        }
    }

    // The place that it may alter, where the transfer that it looks at goes from `from` to `to`.
    pub fn place(self, from: u8, to: u8) -> u8
        ensures { result ≡ place_of self from to }
    {
        match self {
            Step::Open(p) | Step::Act(p, _) | Step::Begin(p, _, _) | Step::Close(p) => p % PLACES,
            Step::Finish(_) => to % PLACES,
            Step::Cancel(_) => from % PLACES,
        }
    }

    // The place whose subject it looks at.
    pub fn destination(self) -> u8
        ensures { result ≡ destination_of self }
    {
        match self {
            Step::Begin(_, to, _) => to % PLACES,
            Step::Open(_) | Step::Act(_, _) | Step::Finish(_) | Step::Cancel(_) | Step::Close(_) =>
                0,
        }
    }

    // The subject of its place once it is accepted: an open writes its sheet's, and a close zeros.
    pub fn subject(self, subject: Name, sheet: &[u8]) -> Name
        ensures { result ≡ subject_after self subject sheet.now }
    {
        match self {
            Step::Open(_) => names::short_name(registry::text(sheet, sheet::SUBJECT)),
            Step::Close(_) => names::blank_name(),
            Step::Act(_, _) | Step::Begin(_, _, _) | Step::Finish(_) | Step::Cancel(_) => subject,
        }
    }
}

// Refusal 15: more is asked for than is held. Each that takes subtracts by itself, with `let .. else`: a `Result` of what is left would be taken apart by
// a call of std's `branch`, 60 instructions.
pub(crate) fn short(held: Uint128, asked: Uint128) -> BookError
    ensures { result ≡ short_of held asked }
{
    BookError::Profile(ProfileError::InsufficientQuantity {
        available: Amount {
            mantissa: held,
            scale: 0,
        },
        requested: Amount {
            mantissa: asked,
            scale: 0,
        },
    })
}
