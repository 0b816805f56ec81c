// A reader judges the table of an input sheet: it holds the sheet, the next entry's number and `at`, where the body of that entry
// must start. Few and thin methods over functions on the slice and the numbers.
ghost use Rattle.std.specs.Prelude.{◌≡◌, ◌<◌, IsSome, IsTrue, ltb};
ghost use Rattle.sheet.specs.Sheet.{count};
ghost use Rattle.sheet.specs.Reading.{fitting_at, reader_of, next_fitting, behind, at_end};

use super::soundness::entry_fits;
use super::{Entry, byte, entry_at};

#[derive(Clone, Copy)]
pub struct Reader<'a> {
    pub sheet: &'a [u8],
    pub next: usize,
    pub at: usize,
}

impl<'a> Reader<'a> {
    // Before the first entry; the first body starts behind the table.
    pub fn new(sheet: &'a [u8]) -> Reader<'a>
        ensures { result ≡ reader_of sheet.entry }
    {
        let n = byte(sheet, 0) as usize;
        Reader {
            sheet,
            next: 0,
            at: 1 + 6 * n,
        }
    }

    // The next entry, if it fits above the name `last`; the reader is behind it then. An entry that fits has `at` as its 16-bit
    // offset, so that adding its length cannot overflow, whatever the fields were.
    pub fn next_if_fits(&mut self, last: u8) -> Option<Entry>
        ensures found { result ≡ next_fitting self.old last }
        ensures moved { self.new ≡ behind self.old (next_fitting self.old last) }
    {
        let e = fitting_at(self.sheet, self.next, last, self.at)?;
        self.next += 1;
        self.at += e.len as usize;
        Some(e)
    }

    // Whether it stands behind the last entry, its place the sheet's end.
    pub fn is_at_end(self) -> bool
        ensures { result ≡ at_end self.entry }
    {
        !has_entry(self.sheet, self.next) && self.at == self.sheet.len()
    }
}

// Whether the table has an entry k.
pub(crate) fn has_entry(s: &[u8], k: usize) -> bool
    ensures found { result ≡ ltb k (count s.now) }
    ensures below { IsTrue result → k < 255 }
{
    k < byte(s, 0) as usize
}

// Entry k, if the table has it and it fits above the name `last` with its body at `at`.
fn fitting_at(s: &[u8], k: usize, last: u8, at: usize) -> Option<Entry>
    ensures found { result ≡ fitting_at s.now k last at }
    ensures below { IsSome result → k < 255 }
{
    if !has_entry(s, k) {
        return None;
    }
    let e = entry_at(s, k);
    if entry_fits(e, last, at) {
        Some(e)
    } else {
        None
    }
}
