// The steps of the book. A step is decided and carried out by what it looks at, so that whoever keeps a book need not pass it on:
// `take_turn` is the whole of it. A kind of step is a variant of `Step`, its arms, and one function: its tests in document 01's order, and
// what it leaves. The contracts cite the definitions that the overlap claim of `book` is about.
#![tactic(auto)]

mod act;
mod begin;
mod close;
mod land;
mod names;
mod open;
mod sets;
mod start;
mod step;
mod turn;

pub use start::{start_answer, start_book, start_outcome};
pub use step::{Step, View};
pub use turn::take_turn;
