// The exports of book_calls.
ghost use Rattle.std.specs.Prelude.{◌≡◌};
ghost use Rattle.book.specs.Refusals.{book_answer_of};
ghost use Rattle.book.specs.Steps.{Open, Act, Begin, Finish, Cancel, Close, answer, next, start_answer, start_book};

use book::Book;
use credits::book_calls::Started;
use registry::error::Answer;

#[unsafe(no_mangle)]
pub extern "C" fn credits_book_start(unit: &[u8]) -> Started
    ensures { result ≡ record { answer = book_answer_of (start_answer unit.now); book = start_book unit.now } }
{
    credits::book_calls::credits_book_start(unit)
}

#[unsafe(no_mangle)]
pub extern "C" fn credits_book_size() -> u32
    ensures { result ≡ 1704 }
{
    credits::book_calls::credits_book_size()
}

#[unsafe(no_mangle)]
pub extern "C" fn credits_book_open(book: &mut Book, place: u8, sheet: &[u8]) -> Answer
    ensures { (result ≡ book_answer_of (answer book.old (Open place sheet.now)))
        × (book.new ≡ next book.old (Open place sheet.now)) }
{
    credits::book_calls::credits_book_open(book, place, sheet)
}

#[unsafe(no_mangle)]
pub extern "C" fn credits_book_act(
    book: &mut Book,
    place: u8,
    operation: u8,
    sheet: &[u8],
) -> Answer
    ensures { (result ≡ book_answer_of (answer book.old (Act place operation sheet.now)))
        × (book.new ≡ next book.old (Act place operation sheet.now)) }
{
    credits::book_calls::credits_book_act(book, place, operation, sheet)
}

#[unsafe(no_mangle)]
pub extern "C" fn credits_book_begin(
    book: &mut Book,
    from: u8,
    to: u8,
    transfer: u8,
    sheet: &[u8],
) -> Answer
    ensures { (result ≡ book_answer_of (answer book.old (Begin from to transfer sheet.now)))
        × (book.new ≡ next book.old (Begin from to transfer sheet.now)) }
{
    credits::book_calls::credits_book_begin(book, from, to, transfer, sheet)
}

#[unsafe(no_mangle)]
pub extern "C" fn credits_book_finish(book: &mut Book, transfer: u8) -> Answer
    ensures { (result ≡ book_answer_of (answer book.old (Finish transfer)))
        × (book.new ≡ next book.old (Finish transfer)) }
{
    credits::book_calls::credits_book_finish(book, transfer)
}

#[unsafe(no_mangle)]
pub extern "C" fn credits_book_cancel(book: &mut Book, transfer: u8) -> Answer
    ensures { (result ≡ book_answer_of (answer book.old (Cancel transfer)))
        × (book.new ≡ next book.old (Cancel transfer)) }
{
    credits::book_calls::credits_book_cancel(book, transfer)
}

#[unsafe(no_mangle)]
pub extern "C" fn credits_book_close(book: &mut Book, place: u8) -> Answer
    ensures { (result ≡ book_answer_of (answer book.old (Close place)))
        × (book.new ≡ next book.old (Close place)) }
{
    credits::book_calls::credits_book_close(book, place)
}
