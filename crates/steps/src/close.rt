// A close: an empty place that no transfer under way names is given up, and may be opened again.
ghost use Rattle.std.specs.Prelude.{◌≡◌, true, List, ℕ};
ghost use Rattle.book.specs.Book.{is_well_formed};
ghost use Rattle.book.specs.declared.Book.{Book};
ghost use Rattle.steps.specs.Turn.{Shows, Turned};
ghost use Rattle.steps.specs.declared.step.Step.TheVariants as Code;

use crate::sets;
use crate::step::{PLACES, View};
use amount::Uint128;
use book::error::BookError;
use registry::error::ProfileError;

// Refusal 22: off the book; 6: the place is closed; 29: it is not empty; 30: a transfer under way names it. The record
// becomes zeros; the caller stores the subject.
pub(crate) fn close(was: View, place: u8) -> Result<View, BookError>
    ensures { (b : Book) (i : List ℕ) → is_well_formed b ≡ true → Shows b (Code.Close place) was → Turned b (Code.Close place) i result }
{
    if PLACES <= place {
        return Err(BookError::OffTheBook);
    }
    if !audit::has(was.opened, place) {
        return Err(BookError::Profile(ProfileError::Unborn));
    }
    if !was.held.is_zero() || !was.reserved.is_zero() {
        return Err(BookError::NotEmpty);
    }
    if was.awaited {
        return Err(BookError::Awaited);
    }
    Ok(View {
        held: Uint128::ZERO,
        reserved: Uint128::ZERO,
        opened: sets::without16(was.opened, place % PLACES),
        ..was
    })
}
