// The listing of a run: its answers, its open places, its figures.
ghost use Rattle.std.specs.Prelude.{◌≡◌, true, ◌+◌, ◌<◌, ◌≤◌, length};
ghost use Rattle.std.proofs.Math.Option.{some};
ghost use Rattle.std.proofs.lemmas.List.Edits.{sets};
ghost use Rattle.book.specs.Book.{is_well_formed};
ghost use Rattle.report.specs.Listing.{step_line, step_lines, place_line, place_lines, counts_text, last_line};
ghost use Rattle.report.specs.Writing.{HasRoom, Wrote, run_text};

use crate::page::Page;
use amount::Amount;
use book::{Book, Place};
use session::{Run, StepAnswer};

// The listing of a run, from the buffer's start on, and its length.
pub(crate) fn put_listing(out: &mut [u8], run: &Run) -> usize
    requires { run.now.number ≡ 0 → (run.now.count ≤ 255) × (is_well_formed run.now.book ≡ true) }
    ensures bytes { out.new ≡ sets out.old 0 (run_text run.now) }
    ensures behind { result ≡ length (run_text run.now) }
    ensures within { result ≤ 4608 }
{
    let mut page = Page { out, at: 0 };
    if run.number != 0 {
        page.put(b"bad session\n");
        return page.at;
    }
    page.put_steps(&run.steps[..run.count as usize]);
    page.put_places(&run.book);
    page.put_last(&run.book);
    page.at
}

// Each line needs room of its own size, so its premise is no field of the page.
impl Page<'_> {
    // What step k answered.
    fn put_step(&mut self, k: u16, a: StepAnswer)
        requires room { HasRoom self.old 12 }
        requires three_digits { k < 1000 }
        ensures { Wrote 12 self.old (step_line k a) self.new }
    {
        self.put_number(k);
        self.put(b" ");
        self.put_number(u16::from(a.number));
        self.put(b" ");
        self.put_number(u16::from(a.detail));
        self.put(b"\n");
    }

    // These answers, the first of them step 1's.
    fn put_steps(&mut self, answers: &[StepAnswer])
        requires room { HasRoom self.old 3060 }
        requires steps { length answers.now ≤ 255 }
        ensures { Wrote 3060 self.old (step_lines 1 answers.now) self.new }
    {
        for (i, a) in answers.iter().enumerate() {
            self.put_step(i as u16 + 1, *a);
        }
    }

    // An open place, its balance and what it has reserved.
    fn put_place(&mut self, p: u8, x: &Place)
        requires room { HasRoom self.old 90 }
        requires whole { (x.now.balance.scale ≡ 0) × (x.now.reserved.scale ≡ 0) }
        ensures { Wrote 90 self.old (place_line p (some x.now)) self.new }
    {
        self.put(b"place ");
        self.put_number(u16::from(p));
        self.put(b" ");
        self.put_amount(x.balance);
        self.put(b" ");
        self.put_amount(x.reserved);
        self.put(b"\n");
    }

    // The open places, lowest first.
    fn put_places(&mut self, book: &Book)
        requires room { HasRoom self.old 1440 }
        requires whole { is_well_formed book.now ≡ true }
        ensures { Wrote 1440 self.old (place_lines book.now 16) self.new }
    {
        for (p, place) in book.places.iter().enumerate() {
            let p = p as u8;
            if audit::has(book.opened, p) {
                self.put_place(p, place);
            }
        }
    }

    // How many places are open and how many transfers under way: the ones of a set are its members.
    fn put_counts(&mut self, opened: u16, pending: u8)
        requires { HasRoom self.old 16 }
        ensures { Wrote 16 self.old (counts_text opened pending) self.new }
    {
        self.put(b"held ");
        self.put_number(opened.count_ones() as u16);
        self.put(b" way ");
        self.put_number(pending.count_ones() as u16);
    }

    // The counts and the total.
    fn put_last(&mut self, book: &Book)
        requires room { HasRoom self.old 63 }
        requires whole { is_well_formed book.now ≡ true }
        ensures { Wrote 63 self.old (last_line book.now) self.new }
    {
        self.put_counts(book.opened, book.pending);
        self.put(b" total ");
        let mantissa = audit::book_total(book);
        self.put_amount(Amount { mantissa, scale: 0 });
        self.put(b"\n");
    }
}
