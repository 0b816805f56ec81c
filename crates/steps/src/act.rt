// An act: an operation of the balance profile at one place.
ghost use Rattle.std.specs.Prelude.{◌≡◌};
ghost use Rattle.book.specs.declared.Book.{Book};
ghost use Rattle.sheet.specs.Fields.{field};
ghost use Rattle.steps.specs.Turn.{Shows, Turned, authorizing, doing_of};
ghost use Rattle.steps.specs.declared.step.Step.TheVariants as Code;

use crate::step;
use crate::step::{PLACES, View};
use amount::Uint128;
use book::error::BookError;
use registry::error::ProfileError;
use registry::op;
use sheet::{AMOUNT, AUTHORIZED_BY};

// What an operation of act does with its amount: issues or takes it, or moves it from the balance to what is reserved, or back.
#[derive(Clone, Copy)]
enum Doing {
    Issuing,
    Taking,
    Reserving,
    Releasing,
}

// Refusal 22: off the book; 6: the place is closed; 2: a torn sheet; 4: no operation of act; those of the profile's check; then 25, too much, of what
// issues, and 31, not reserved, of a release.
pub(crate) fn act(
    was: View,
    total: Uint128,
    place: u8,
    operation: u8,
    sheet: &[u8],
) -> Result<View, BookError>
    ensures { (b : Book) → Shows b (Code.Act place operation) was → was.total ≡ Some total
        → Turned b (Code.Act place operation) sheet.now result }
{
    if PLACES <= place {
        return Err(BookError::OffTheBook);
    }
    if !audit::has(was.opened, place) {
        return Err(BookError::Profile(ProfileError::Unborn));
    }
    registry::require_sound_input(sheet)?;
    let Some(doing) = doing_of(operation) else {
        return Err(BookError::Profile(ProfileError::UnknownOperation));
    };
    require_authorized(operation, sheet)?;
    let Some(amount) = registry::input_mantissa(sheet, AMOUNT) else {
        return Err(BookError::Profile(registry::amount_refusal(sheet, AMOUNT)));
    };
    if amount.is_zero() {
        return Err(BookError::Profile(ProfileError::NonPositiveAmount));
    }
    match doing {
        Doing::Issuing => {
            // std's `ok_or` would be called, 57 instructions
            let Some(sum) = total.checked_add(amount) else {
                return Err(BookError::TooMuch);
            };
            Ok(View {
                held: was.held.wrapping_add(amount),
                total: Some(sum),
                ..was
            })
        }
        Doing::Taking => {
            let Some(held) = was.held.checked_sub(amount) else {
                return Err(step::short(was.held, amount));
            };
            Ok(View {
                held,
                total: Some(total.wrapping_sub(amount)),
                ..was
            })
        }
        Doing::Reserving => {
            let Some(held) = was.held.checked_sub(amount) else {
                return Err(step::short(was.held, amount));
            };
            Ok(View {
                held,
                reserved: was.reserved.wrapping_add(amount),
                ..was
            })
        }
        Doing::Releasing => {
            let Some(reserved) = was.reserved.checked_sub(amount) else {
                return Err(BookError::NotReserved);
            };
            Ok(View {
                held: was.held.wrapping_add(amount),
                reserved,
                ..was
            })
        }
    }
}

// None for an operation that is not one of act's.
fn doing_of(operation: u8) -> Option<Doing>
    ensures { result ≡ doing_of operation }
{
    match operation {
        op::BALANCE_MINT | op::BALANCE_CREDIT => Some(Doing::Issuing),
        op::BALANCE_DEBIT | op::BALANCE_SPEND | op::BALANCE_BURN => Some(Doing::Taking),
        op::BALANCE_RESERVE => Some(Doing::Reserving),
        op::BALANCE_RELEASE => Some(Doing::Releasing),
        _ => None,
    }
}

// Mint and burn name who authorized them.
fn require_authorized(operation: u8, sheet: &[u8]) -> Result<(), ProfileError>
    ensures { result ≡ authorizing operation (field sheet.now) }
{
    match operation {
        op::BALANCE_MINT | op::BALANCE_BURN => registry::input_str(sheet, AUTHORIZED_BY),
        _ => Ok(()),
    }
}
