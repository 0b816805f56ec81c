// The book behind C: a book is lent and one step is done in it. Each entry is one call of `lent`.
ghost use Rattle.std.specs.Prelude.{◌≡◌};
ghost use Rattle.book.specs.Refusals.{book_answer_of};
ghost use Rattle.book.specs.Steps.{Open, Act, Begin, Finish, Cancel, Close, answer, next, start_answer, start_book};

use book::Book;
use registry::error::Answer;
use steps::Step;

#[repr(C)]
#[derive(Clone, Copy)]
pub struct Started {
    pub answer: Answer,
    pub book: Book,
}

// A refused start gives a book of zeros.
pub fn credits_book_start(unit: &[u8]) -> Started
    ensures { result ≡ record { answer = book_answer_of (start_answer unit.now); book = start_book unit.now } }
{
    Started {
        answer: steps::start_answer(unit),
        book: steps::start_book(unit),
    }
}

// The bytes of a book, for C to compare with its own.
pub fn credits_book_size() -> u32
    ensures { result ≡ 1704 }
{
    1704
}

pub fn credits_book_open(book: &mut Book, place: u8, sheet: &[u8]) -> Answer
    ensures { (result ≡ book_answer_of (answer book.old (Open place sheet.now)))
        × (book.new ≡ next book.old (Open place sheet.now)) }
{
    lent::step_in(book, Step::Open(place), sheet)
}

pub fn credits_book_act(book: &mut Book, place: u8, operation: u8, sheet: &[u8]) -> Answer
    ensures { (result ≡ book_answer_of (answer book.old (Act place operation sheet.now)))
        × (book.new ≡ next book.old (Act place operation sheet.now)) }
{
    lent::step_in(book, Step::Act(place, operation), sheet)
}

pub fn credits_book_begin(book: &mut Book, from: u8, to: u8, transfer: u8, sheet: &[u8]) -> Answer
    ensures { (result ≡ book_answer_of (answer book.old (Begin from to transfer sheet.now)))
        × (book.new ≡ next book.old (Begin from to transfer sheet.now)) }
{
    lent::step_in(book, Step::Begin(from, to, transfer), sheet)
}

pub fn credits_book_finish(book: &mut Book, transfer: u8) -> Answer
    ensures { (result ≡ book_answer_of (answer book.old (Finish transfer)))
        × (book.new ≡ next book.old (Finish transfer)) }
{
    lent::free_in(book, Step::Finish(transfer))
}

pub fn credits_book_cancel(book: &mut Book, transfer: u8) -> Answer
    ensures { (result ≡ book_answer_of (answer book.old (Cancel transfer)))
        × (book.new ≡ next book.old (Cancel transfer)) }
{
    lent::free_in(book, Step::Cancel(transfer))
}

pub fn credits_book_close(book: &mut Book, place: u8) -> Answer
    ensures { (result ≡ book_answer_of (answer book.old (Close place)))
        × (book.new ≡ next book.old (Close place)) }
{
    lent::free_in(book, Step::Close(place))
}
