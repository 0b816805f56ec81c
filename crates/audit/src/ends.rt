// The ends of the transfers under way.
ghost use Rattle.std.specs.Prelude.{◌≡◌, false, ◌||◌, eqb};
ghost use Rattle.book.specs.Book.{awaited};

use crate::sets;
use book::{Book, Transfer};

// Whether a transfer under way names the place, at either end.
pub fn is_awaited(book: &Book, place: u8) -> bool
    ensures { result ≡ awaited book.now place }
{
    for (t, transfer) in book.transfers.iter().enumerate() {
        if sets::has(u16::from(book.pending), t as u8) && names(*transfer, place) {
            return true;
        }
    }
    false
}

fn names(transfer: Transfer, place: u8) -> bool
    ensures { result ≡ (eqb transfer.from place || eqb transfer.to place) }
{
    transfer.from == place || transfer.to == place
}
