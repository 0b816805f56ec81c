// Prints the listing of each example, by the function under C's export: standard input is every session of examples/ in the order of
// their names, each behind its length of 16 bits. tools/example_cases joins them.
#![tactic(auto)]

ghost use Rattle.std.specs.Iterator.{at_most};
ghost use Rattle.std.specs.Prelude.{length};

use std::io;
use std::io::{BufWriter, Read, Write};

// The sessions are read up to here.
const READ_BYTES: u64 = 65536;

// Prints one session's listing.
fn print(out: &mut impl Write, session: &[u8]) -> io::Result<()> {
    let mut listing = [0u8; 4608];
    let len = credits::session_calls::credits_session_listing(session, &mut listing) as usize;
    out.write_all(&listing[..len])
}

// The sessions, each behind its length of 16 bits. One that ends before its length is given as far as it goes.
#[derive(Drop)]
struct Sessions<'a>(&'a [u8]);

impl<'a> Iterator for Sessions<'a> {
    type Item = &'a [u8];

    ghost remaining = { λ s. at_most (length s.0.now) };

    fn next(&mut self) -> Option<&'a [u8]> {
        let (size, s) = self.0.split_first_chunk::<2>()?;
        let n = u16::from_le_bytes(*size) as usize;
        let (session, rest) = s.split_at(n.min(s.len()));
        self.0 = rest;
        Some(session)
    }
}

fn main(rt: HostRuntime) -> io::Result<()> {
    let mut sessions = Vec::new(rt.alloc());
    rt.reader().take(READ_BYTES).read_to_end(&mut sessions)?;
    let mut out = BufWriter::new(rt.alloc(), io::writer(&rt))?;
    for session in Sessions(&sessions) {
        print(&mut out, session)?;
    }
    out.flush()
}
