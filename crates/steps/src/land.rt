// The end of a transfer: its amount lands at the place that the step looks at, the destination of a finish and the source of a cancel, and its
// number is free again.
ghost use Rattle.std.specs.Prelude.{◌≡◌, Bool, true, List, ℕ};
ghost use Rattle.book.specs.Book.{is_well_formed};
ghost use Rattle.book.specs.declared.Book.{Book};
ghost use Rattle.steps.specs.Turn.{ending, Shows, Turned};

use crate::sets;
use crate::step::{TRANSFERS, View};
use amount::Uint128;
use book::error::BookError;

// Refusal 22: off the book; 23: not under way.
pub(crate) fn land(was: View, transfer: u8) -> Result<View, BookError>
    ensures { (b : Book) (i : List ℕ) (back : Bool) → is_well_formed b ≡ true → Shows b (ending transfer back) was → Turned b (ending transfer back) i result }
{
    if TRANSFERS <= transfer {
        return Err(BookError::OffTheBook);
    }
    if !audit::has(u16::from(was.pending), transfer) {
        return Err(BookError::Idle);
    }
    Ok(View {
        held: was.held.wrapping_add(was.carried),
        carried: Uint128::ZERO,
        pending: sets::without8(was.pending, transfer % TRANSFERS),
        from: 0,
        to: 0,
        ..was
    })
}
