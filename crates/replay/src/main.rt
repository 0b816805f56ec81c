// Replays the Rust's recorded answers: standard input is the list that the oracle wrote (oracle/src/record.rs has its
// command and its form). Each record is put to the function that C callers get, and every field of the answer and every
// byte of the buffer is compared. tools/replay_expected.py counts what must be printed from the list alone.
#![tactic(auto)]

ghost use Rattle.std.specs.Prelude.{◌<◌, IfSome, length};

use registry::error::{Answer, NARROW};
use std::io;
use std::io::{BufWriter, Read, Write};
use tally::{Judge, Row, Tally};

// The list is read up to here.
const READ_BYTES: u64 = 1048576;

// The bytes of an answer, but for what it wrote.
const ANSWER_BYTES: usize = 38;

// The bytes of the space whose first part is lent as the buffer. The list's longest has 600.
const SPACE: usize = 1024;

// An answer's number is 0 or a refusal's.
const NUMBERS: usize = NARROW as usize + 1;

// ---- records

#[derive(Clone, Copy)]
enum Call {
    Check,
    Apply,
    Credit,
}

fn call_of(byte: u8) -> Option<Call> {
    match byte {
        1 => Some(Call::Check),
        2 => Some(Call::Apply),
        3 => Some(Call::Credit),
        _ => None,
    }
}

// Whose answer was recorded. A difference is document 01's, where the Rust has another.
#[derive(Clone, Copy, PartialEq, Eq)]
enum Source {
    Rust,
    Layer,
    Difference,
}

fn source_of(byte: u8) -> Option<Source> {
    match byte {
        0 => Some(Source::Rust),
        1 => Some(Source::Layer),
        2 => Some(Source::Difference),
        _ => None,
    }
}

// What is asked: a call, and how many bytes of buffer it is lent; and the answer that is expected, with what it writes.
#[derive(Clone, Copy)]
struct Record<'a> {
    call: Call,
    profile: u8,
    operation: u8,
    state: &'a [u8],
    destination: &'a [u8],
    input: &'a [u8],
    room: usize,
    answer: &'a [u8; ANSWER_BYTES],
    written: &'a [u8],
    source: Source,
}

impl<'a> Record<'a> {
    // The record that the bytes start with, and what follows it.
    fn split(s: &'a [u8]) -> Option<(Record<'a>, &'a [u8])>
        ensures { IfSome result (λ p. length p.1.now < length s.now) }
    {
        let (head, s) = s.split_first_chunk::<11>()?;
        let (state, s) = s.split_at_checked(sheet::u16_at(head, 3) as usize)?;
        let (destination, s) = s.split_at_checked(sheet::u16_at(head, 5) as usize)?;
        let (input, s) = s.split_at_checked(sheet::u16_at(head, 7) as usize)?;
        let (answer, s) = s.split_first_chunk::<ANSWER_BYTES>()?;
        let (written, s) = s.split_at_checked(sheet::u16_at(answer, 36) as usize)?;
        let (source, s) = s.split_first()?;
        if NARROW < answer[0] {
            return None;
        }
        let record = Record {
            call: call_of(head[0])?,
            profile: head[1],
            operation: head[2],
            state,
            destination,
            input,
            room: sheet::u16_at(head, 9) as usize,
            answer,
            written,
            source: source_of(*source)?,
        };
        Some((record, s))
    }

    // What the library says.
    fn ask(&self, out: &mut [u8]) -> Answer {
        match self.call {
            Call::Check => {
                credits::credits_check(self.profile, self.operation, self.state, self.input)
            }
            Call::Apply => {
                credits::credits_apply(self.profile, self.operation, self.state, self.input, out)
            }
            Call::Credit => credits::credits_credit(
                self.operation,
                self.state,
                self.destination,
                self.input,
                out,
            ),
        }
    }

    fn expects(&self, a: Answer) -> bool {
        let e = self.answer;
        a.number == e[0]
            && a.detail == e[1]
            && e[2..19] == sheet::amount_bytes(a.available)[..]
            && e[19..36] == sheet::amount_bytes(a.requested)[..]
            && a.length == sheet::u16_at(e, 36)
    }

    // Whether the library answers as the record says, on a buffer that holds `fill` at first, and leaves what stands behind what it writes.
    fn holds_over(&self, fill: u8) -> bool {
        let mut space = [fill; SPACE];
        if SPACE < self.room {
            return false;
        }
        let a = self.ask(&mut space[..self.room]);
        self.expects(a)
            && space
                .strip_prefix(self.written)
                .is_some_and(|rest| rest.iter().all(|b| *b == fill))
    }

    // Twice, since a byte that is written in error may be the one that was there.
    fn holds(&self) -> bool {
        self.holds_over(85) && self.holds_over(170)
    }
}

// ---- counts

// By the answers' numbers, by who gave them, and all. The recorded differences are left out of their number's counts.
#[derive(Clone, Copy, Default)]
struct Counts {
    numbers: Tally<NUMBERS>,
    rust: Row,
    layer: Row,
    differences: Row,
    all: Row,
}

impl Counts {
    fn count(&mut self, r: Record, equal: bool) {
        match r.source {
            Source::Rust => self.rust.count(equal),
            Source::Layer => self.layer.count(equal),
            Source::Difference => self.differences.count(equal),
        }
        if r.source != Source::Difference {
            self.numbers.count(r.answer[0] as usize, equal);
        }
        self.all.count(equal);
    }

    fn print(&self, out: &mut impl Write) -> io::Result<()> {
        for (number, row) in self.numbers.rows.iter().enumerate() {
            writeln!(out, "number {number}: {row}")?;
        }
        writeln!(out, "from the Rust: {}", self.rust)?;
        writeln!(out, "from the layer over it: {}", self.layer)?;
        writeln!(
            out,
            "recorded differences, to document 01: {}",
            self.differences
        )?;
        writeln!(out, "all records: {}", self.all)
    }
}

impl Judge for Counts {
    fn judge<'a>(&mut self, s: &'a [u8]) -> Option<(bool, &'a [u8])> {
        let (r, rest) = Record::split(s)?;
        let equal = r.holds();
        self.count(r, equal);
        Some((equal, rest))
    }
}

fn main(rt: HostRuntime) -> io::Result<()> {
    let mut list = Vec::new(rt.alloc());
    rt.reader().take(READ_BYTES).read_to_end(&mut list)?;
    let mut out = BufWriter::new(rt.alloc(), io::writer(&rt))?;
    let mut counts = Counts::default();
    let rest = tally::judge_all(&mut out, &list, &mut counts)?;
    counts.print(&mut out)?;
    let n = list.len();
    writeln!(out, "bytes {n}, left over {rest}")?;
    out.flush()
}
