// A step by what it looks at.
ghost use Rattle.std.specs.Prelude.{◌≡◌};
ghost use Rattle.book.specs.declared.Book.{Book};
ghost use Rattle.steps.specs.Turn.{Shows, Turned};

use crate::step::{Step, View};
use crate::{act, begin, close, land, open};
use book::Name;
use book::error::BookError;

// THE TURN, of any book: 28 first. What an accepted step leaves, or why it is refused; a refused one leaves all as it was. A match, not a
// table of functions: each kind takes what it needs of the step. The sheet is no part of the view: C lends it.
pub fn take_turn(step: Step, was: View, unit: Name, sheet: &[u8]) -> Result<View, BookError>
    ensures { (b : Book) → Shows b step was → unit ≡ b.unit → Turned b step sheet.now result }
{
    let total = was.total.ok_or(BookError::BadBook)?;
    match step {
        Step::Open(place) => open::open(was, total, unit, place, sheet),
        Step::Act(place, operation) => act::act(was, total, place, operation, sheet),
        Step::Begin(from, to, transfer) => begin::begin(was, from, to, transfer, sheet),
        Step::Finish(transfer) | Step::Cancel(transfer) => land::land(was, transfer),
        Step::Close(place) => close::close(was, place),
    }
}
