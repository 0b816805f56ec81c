// The run of a session: its entries' steps in their order, from its start.
ghost use Rattle.std.specs.Prelude.{◌≡◌, true};
ghost use Rattle.book.specs.Refusals.{book_refusal_of};
ghost use Rattle.session.specs.Session.{unit_of, brief, good, bad_run, good_run, run_of};

use super::{MAX_STEPS, Run, StepAnswer, layout};
use amount::Uint128;
use book::error::BookError;
use registry::error::Answer;

// An accepted step answers 0, as a step does that is not done.
const NO_ANSWER: StepAnswer = StepAnswer {
    number: 0,
    detail: 0,
};

impl From<BookError> for StepAnswer {
    ghost from_gives = { λ e a. a ≡ brief (book_refusal_of e) };

    fn from(e: BookError) -> StepAnswer {
        let a = Answer::from(e);
        StepAnswer {
            number: a.number,
            detail: a.detail,
        }
    }
}

// The run, as a call. A `Run` is made once and filled in place: each function that returns one keeps it on its stack and copies it out.
pub fn run(s: &[u8]) -> Run
    ensures { result ≡ run_of s.now }
{
    let mut run = bad_run();
    if is_good(s) {
        do_steps(s, &mut run);
    }
    run
}

// The body of entry one.
fn unit(s: &[u8]) -> &[u8]
    ensures { result.now ≡ unit_of s.now }
{
    layout::body(s, layout::line_at(s, 0))
}

// Whether the session does its steps: its layout is sound, and its start is accepted.
fn is_good(s: &[u8]) -> bool
    ensures { result ≡ good s.now }
{
    layout::is_sound(s) && steps::start_outcome(unit(s)).is_ok()
}

// A book of zeros, as a refused start gives it, and no steps.
fn bad_run() -> Run
    ensures { result ≡ bad_run }
{
    Run {
        number: 2,
        count: 0,
        steps: [NO_ANSWER; MAX_STEPS],
        book: steps::start_book(b""),
    }
}

// Each step on the book as the one before left it; the answers start as zeros. A fresh book has a total of 0, and the total moves with the book.
fn do_steps(s: &[u8], run: &mut Run)
    requires sound { good s.now ≡ true }
    requires blank { run.old ≡ bad_run }
    ensures { run.new ≡ good_run s.now }
{
    run.number = 0;
    run.count = sheet::u16_at(s, 0) - 1;
    run.book = steps::start_book(unit(s));
    let mut total = Some(Uint128::ZERO);
    // by index: a proof knows nothing of what an adapter of `iter_mut` writes
    for j in 0..run.count as usize {
        let l = layout::line_at(s, 1 + j);
        // every later entry of a good session is a step
        let step = layout::step_of(l).unwrap();
        match lent::turn_in(&mut run.book, total, step, layout::body(s, l)) {
            Ok(after) => total = after,
            Err(e) => run.steps[j] = StepAnswer::from(e),
        }
    }
}
