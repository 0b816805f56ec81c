// What lines are made of, written into a lent buffer.
ghost use Rattle.std.specs.Prelude.{◌≡◌, ◌<◌, length};
ghost use Rattle.amount.specs.Canonical.{whole_text, canonical_text};
ghost use Rattle.report.specs.Writing.{HasRoom, Wrote};

use amount::Amount;

// A lent buffer, and the place behind the text so far. What does not fit is not written but counted, so that a listing can
// be measured by writing it nowhere. A place is below 65,536, as a listing's length is 16 bits.
#[derive(Drop)]
pub(crate) struct Page<'a> {
    pub(crate) out: &'a mut [u8],
    pub(crate) at: usize,
}

impl Page<'_> {
    // Byte by byte: std's `copy_from_slice` would ask the C library for `memmove`.
    pub(crate) fn put(&mut self, text: &[u8])
        requires { HasRoom self.old (length text.now) }
        ensures { Wrote (length text.now) self.old text.now self.new }
    {
        let at = self.at;
        self.at = at + text.len();
        for (i, b) in text.iter().enumerate() {
            if self.out.len() <= at + i {
                return;
            }
            self.out[at + i] = *b;
        }
    }

    // A number in decimal. std's own text of a number asks for `memmove` too, or may fail.
    pub(crate) fn put_number(&mut self, n: u16)
        requires room { HasRoom self.old 3 }
        requires three_digits { n < 1000 }
        ensures { Wrote 3 self.old (whole_text n) self.new }
    {
        let ones = b'0' + (n % 10) as u8;
        if n < 10 {
            return self.put(&[ones]);
        }
        let tens = b'0' + (n / 10 % 10) as u8;
        if n < 100 {
            return self.put(&[tens, ones]);
        }
        self.put(&[b'0' + (n / 100) as u8, tens, ones]);
    }

    // An amount of whole credits, as all of a book are. Inlined, so that no call is passed the page: its place then stays in a
    // register, and a listing takes fewer instructions for each text.
    #[inline(always)]
    pub(crate) fn put_amount(&mut self, a: Amount)
        requires room { HasRoom self.old 39 }
        requires whole { a.scale ≡ 0 }
        ensures { Wrote 39 self.old (canonical_text a) self.new }
    {
        self.put(a.to_canonical_string().as_bytes());
    }
}
