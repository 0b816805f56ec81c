// The book is lent to a step and altered there: what the step looks at is read, and what it leaves is stored, where it lies. Nothing of a
// refused step is stored.
#![tactic(auto)]

ghost use Rattle.std.specs.Prelude.{◌≡◌, Some, [], IfOk};
ghost use Rattle.audit.specs.Totals.{total_of};
ghost use Rattle.book.specs.Refusals.{book_answer_of};
ghost use Rattle.book.specs.Steps.{answer, next};
ghost use Rattle.steps.specs.Turn.{outcome_of, with_sheet, awaited_by};

use amount::Uint128;
use book::Book;
use book::error::BookError;
use registry::error::Answer;
use steps::{Step, View};

// Test 28 is judged at each step.
pub fn step_in(book: &mut Book, step: Step, sheet: &[u8]) -> Answer
    ensures { (result ≡ book_answer_of (answer book.old (with_sheet step sheet.now)))
        × (book.new ≡ next book.old (with_sheet step sheet.now)) }
{
    let total = audit::total_of(book);
    match turn_in(book, total, step, sheet) {
        Ok(_) => Answer::numbered(0, 0),
        Err(e) => Answer::from(e),
    }
}

// The same of a step that has no sheet.
pub fn free_in(book: &mut Book, step: Step) -> Answer
    ensures { (result ≡ book_answer_of (answer book.old (with_sheet step [])))
        × (book.new ≡ next book.old (with_sheet step [])) }
{
    step_in(book, step, b"")
}

// A step in a book whose total is known; it gives the total after it.
pub fn turn_in(
    book: &mut Book,
    total: Option<Uint128>,
    step: Step,
    sheet: &[u8],
) -> Result<Option<Uint128>, BookError>
    ensures { total ≡ total_of book.old
        → (outcome_of result ≡ answer book.old (with_sheet step sheet.now))
        × (book.new ≡ next book.old (with_sheet step sheet.now))
        × IfOk result (λ n. n ≡ total_of book.new) }
{
    let awaited = is_awaited(book, step);
    let transfer = &mut book.transfers[step.transfer() as usize];
    let subject = book.places[step.destination() as usize].subject;
    let named = subject.as_bytes().len() as u8;
    let place = &mut book.places[step.place(transfer.from, transfer.to) as usize];
    let was = View {
        held: place.balance.mantissa,
        reserved: place.reserved.mantissa,
        carried: transfer.amount.mantissa,
        total,
        opened: book.opened,
        pending: book.pending,
        awaited,
        from: transfer.from,
        to: transfer.to,
        named,
    };
    let left = steps::take_turn(step, was, book.unit, sheet)?;
    place.balance.mantissa = left.held;
    place.reserved.mantissa = left.reserved;
    place.subject = step.subject(place.subject, sheet);
    transfer.from = left.from;
    transfer.to = left.to;
    transfer.amount.mantissa = left.carried;
    book.opened = left.opened;
    book.pending = left.pending;
    Ok(left.total)
}

// Whether a transfer under way names the place that the step closes; another step does not ask.
fn is_awaited(book: &Book, step: Step) -> bool
    ensures { result ≡ awaited_by step book.now }
{
    match step {
        Step::Close(place) => audit::is_awaited(book, place),
        Step::Open(_)
        | Step::Act(_, _)
        | Step::Begin(_, _, _)
        | Step::Finish(_)
        | Step::Cancel(_) => false,
    }
}
