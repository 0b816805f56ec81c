// What is asked of a whole book, on any book value: test 28, the total, and whether a place is awaited.
#![tactic(auto)]

mod ends;
mod sets;
mod totals;

pub use ends::is_awaited;
pub use sets::{both, has};
pub use totals::{book_total, total_of};
