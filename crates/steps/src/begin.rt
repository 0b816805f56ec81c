// A begin: the amount leaves the source and is under way to the destination.
ghost use Rattle.std.specs.Prelude.{◌≡◌, true, ◌||◌, leb};
ghost use Rattle.book.specs.Book.{is_well_formed};
ghost use Rattle.book.specs.declared.Book.{Book};
ghost use Rattle.steps.specs.Turn.{Shows, Turned};
ghost use Rattle.steps.specs.declared.step.Step.TheVariants as Code;

use crate::step::{PLACES, TRANSFERS, View};
use crate::{sets, step};
use book::error::BookError;
use registry::error::ProfileError;
use sheet::{AMOUNT, TO_SUBJECT};

// Refusal 22: off the book; 24: from a place to itself; 21: the number is under way; 6: a place is closed; 2: a torn sheet; then those of
// balance.transfer's check, whose to_subject is the destination's subject.
pub(crate) fn begin(
    was: View,
    from: u8,
    to: u8,
    transfer: u8,
    sheet: &[u8],
) -> Result<View, BookError>
    ensures { (b : Book) → is_well_formed b ≡ true → Shows b (Code.Begin from to transfer) was
        → Turned b (Code.Begin from to transfer) sheet.now result }
{
    if off_the_book(from, to, transfer) {
        return Err(BookError::OffTheBook);
    }
    if from == to {
        return Err(BookError::Itself);
    }
    if audit::has(u16::from(was.pending), transfer) {
        return Err(BookError::UnderWay);
    }
    if !audit::both(was.opened, from, to) {
        return Err(BookError::Profile(ProfileError::Unborn));
    }
    registry::require_sound_input(sheet)?;
    if was.named == 0 {
        return Err(BookError::Profile(ProfileError::Empty(TO_SUBJECT)));
    }
    let Some(amount) = registry::input_mantissa(sheet, AMOUNT) else {
        return Err(BookError::Profile(registry::amount_refusal(sheet, AMOUNT)));
    };
    if amount.is_zero() {
        return Err(BookError::Profile(ProfileError::NonPositiveAmount));
    }
    let Some(rest) = was.held.checked_sub(amount) else {
        return Err(step::short(was.held, amount));
    };
    Ok(View {
        held: rest,
        carried: amount,
        pending: sets::with8(was.pending, transfer % TRANSFERS),
        from,
        to,
        ..was
    })
}

// Refusal 22: a place or a transfer number off the book.
fn off_the_book(from: u8, to: u8, transfer: u8) -> bool
    ensures { result ≡ (leb 16 from || leb 16 to || leb 8 transfer) }
{
    PLACES <= from || PLACES <= to || TRANSFERS <= transfer
}
