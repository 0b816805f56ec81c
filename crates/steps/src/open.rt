// An opening of a place: a subject with its first balance.
ghost use Rattle.std.specs.Prelude.{◌≡◌};
ghost use Rattle.book.specs.declared.Book.{Book};
ghost use Rattle.steps.specs.Turn.{Shows, Turned};
ghost use Rattle.steps.specs.declared.step.Step.TheVariants as Code;

use crate::step::{PLACES, View};
use crate::{names, sets};
use amount::Uint128;
use book::error::BookError;
use book::{NAME_BYTES, Name};
use registry::error::ProfileError;
use sheet::{BALANCE, SUBJECT, UNIT};

// Refusal 22: off the book; 5: the place is open; 2: a torn sheet; those of create's check; 26: another unit; 27: a subject over 32 bytes;
// 25: too much. The caller stores the subject.
pub(crate) fn open(
    was: View,
    total: Uint128,
    unit: Name,
    place: u8,
    sheet: &[u8],
) -> Result<View, BookError>
    ensures { (b : Book) → Shows b (Code.Open place) was → was.total ≡ Some total → unit ≡ b.unit
        → Turned b (Code.Open place) sheet.now result }
{
    if PLACES <= place {
        return Err(BookError::OffTheBook);
    }
    if audit::has(was.opened, place) {
        return Err(BookError::Profile(ProfileError::Born));
    }
    registry::require_sound_input(sheet)?;
    registry::input_str(sheet, SUBJECT)?;
    registry::input_str(sheet, UNIT)?;
    let Some(balance) = registry::input_mantissa(sheet, BALANCE) else {
        return Err(BookError::Profile(registry::amount_refusal(sheet, BALANCE)));
    };
    if !names::is_named(unit, registry::text(sheet, UNIT)) {
        return Err(BookError::OtherUnit);
    }
    if NAME_BYTES < registry::text(sheet, SUBJECT).len() {
        return Err(BookError::LongName(SUBJECT));
    }
    // as in `act`
    let Some(sum) = total.checked_add(balance) else {
        return Err(BookError::TooMuch);
    };
    Ok(View {
        held: balance,
        reserved: Uint128::ZERO,
        total: Some(sum),
        opened: sets::with16(was.opened, place % PLACES),
        ..was
    })
}
