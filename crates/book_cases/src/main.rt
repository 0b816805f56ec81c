// Puts the steps of random lists to the book: standard input is what tools/book_cases.py wrote (it has the records'
// form), with each answer that is expected and, at a list's end, the book. Then the list goes through the run of a session.
#![tactic(auto)]

ghost use Rattle.std.specs.Prelude.{◌<◌, IfSome, length};

use amount::{Amount, Uint128};
use book::error::{BAD_BOOK, NOT_RESERVED};
use book::{Book, Name, Place, TRANSFERS, Transfer};
use registry::error::{Answer, INSUFFICIENT_QUANTITY};
use session::{Run, running};
use std::io;
use std::io::{BufWriter, Read, Write};
use steps::Step;
use tally::{Judge, Row, Tally};

// The list is read up to here.
const READ_BYTES: u64 = 1703936;

// An answer's number is 0 or a refusal's.
const NUMBERS: usize = NOT_RESERVED as usize + 1;

// The kinds of steps, bytes as in a session.
const OPEN: u8 = 1;

const ACT: u8 = 2;

const BEGIN: u8 = 3;

const FINISH: u8 = 4;

const CANCEL: u8 = 5;

const CLOSE: u8 = 6;

// ---- records

#[derive(Clone, Copy)]
enum Kind {
    Start,
    Step,
    Alter,
    Look,
    Run,
}

// Those from 16 on are no steps.
fn kind_of(byte: u8) -> Option<Kind> {
    match byte {
        0 => Some(Kind::Start),
        1..=15 => Some(Kind::Step),
        16 => Some(Kind::Alter),
        17 => Some(Kind::Look),
        18 => Some(Kind::Run),
        _ => None,
    }
}

// How many bytes tell an answer of that number: the number, the detail, and behind 15 both amounts.
fn answer_bytes(number: u8) -> Option<usize> {
    match number {
        INSUFFICIENT_QUANTITY => Some(34),
        0..=NOT_RESERVED => Some(2),
        _ => None,
    }
}

// What is done, and what is expected of it. The head has the kind, a, b, t and the body's length.
#[derive(Clone, Copy)]
struct Record<'a> {
    kind: Kind,
    head: &'a [u8; 6],
    body: &'a [u8],
    expected: &'a [u8],
}

impl<'a> Record<'a> {
    // The record that the bytes start with, and what follows it.
    fn split(s: &'a [u8]) -> Option<(Record<'a>, &'a [u8])>
        ensures { IfSome result (λ p. length p.1.now < length s.now) }
    {
        let (head, s) = s.split_first_chunk::<6>()?;
        let kind = kind_of(head[0])?;
        let (body, s) = s.split_at_checked(sheet::u16_at(head, 4) as usize)?;
        let (expected, s) = match kind {
            Kind::Start | Kind::Step => s.split_at_checked(answer_bytes(*s.first()?)?)?,
            Kind::Alter | Kind::Look => s.split_at(0),
            Kind::Run => {
                let (size, s) = s.split_first_chunk::<2>()?;
                s.split_at_checked(u16::from_le_bytes(*size) as usize)?
            }
        };
        let record = Record {
            kind,
            head,
            body,
            expected,
        };
        Some((record, s))
    }
}

// The step of a record, without its sheet; another kind is none.
fn step_of(head: &[u8; 6]) -> Option<Step> {
    let [kind, a, b, t, ..] = *head;
    match kind {
        OPEN => Some(Step::Open(a)),
        ACT => Some(Step::Act(a, b)),
        BEGIN => Some(Step::Begin(a, b, t)),
        FINISH => Some(Step::Finish(t)),
        CANCEL => Some(Step::Cancel(t)),
        CLOSE => Some(Step::Close(a)),
        _ => None,
    }
}

// ---- the book

// A number whose highest byte is t.
fn high(t: u8) -> Uint128 {
    Uint128 {
        hi: (t as u64) << 56,
        lo: 0,
    }
}

// Sets field a to t, as no step would: of the book, of place i or of transfer i.
fn alter(book: &mut Book, a: u8, i: usize, t: u8) {
    match a {
        1 => book.unit.len = t,
        2 => book.opened = book.opened / 256 * 256 + t as u16,
        3 => book.opened = book.opened % 256 + 256 * t as u16,
        0 | 4 => book.pending = t,
        _ => {
            if i < TRANSFERS {
                alter_at(&mut book.places[i], &mut book.transfers[i], a, t);
            }
        }
    }
}

fn alter_at(place: &mut Place, transfer: &mut Transfer, a: u8, t: u8) {
    match a {
        5 => place.subject.len = t,
        6 => place.balance.scale = t,
        7 => place.balance.mantissa = high(t),
        8 => transfer.from = t,
        9 => transfer.to = t,
        10 => transfer.amount.scale = t,
        12 => place.reserved.scale = t,
        13 => place.reserved.mantissa = high(t),
        _ => transfer.amount.mantissa = high(t),
    }
}

// ---- what is compared: each function has what follows in `e`, where `e` starts with what is expected

fn past_number(e: &[u8], n: Uint128) -> Option<&[u8]> {
    e.strip_prefix(&n.lo.to_le_bytes())?
        .strip_prefix(&n.hi.to_le_bytes())
}

// All amounts of a step are whole.
fn past_amount(e: &[u8], a: Amount) -> Option<&[u8]> {
    if a.scale != 0 {
        return None;
    }
    past_number(e, a.mantissa)
}

// Amounts but 15's are zero, and are not there.
fn past_answer(e: &[u8], a: Answer) -> Option<&[u8]> {
    if a.length != 0 {
        return None;
    }
    let e = e.strip_prefix(&[a.number, a.detail])?;
    let amounts = if a.number == INSUFFICIENT_QUANTITY {
        e
    } else {
        &[0u8; 32]
    };
    past_amount(past_amount(amounts, a.available)?, a.requested)
}

fn past_name(e: &[u8], name: Name) -> Option<&[u8]> {
    e.strip_prefix(&name.bytes)?.strip_prefix(&[name.len])
}

fn past_place(e: &[u8], x: Place) -> Option<&[u8]> {
    let e = past_number(past_name(e, x.subject)?, x.balance.mantissa)?;
    past_number(e, x.reserved.mantissa)
}

fn past_transfer(e: &[u8], r: Transfer) -> Option<&[u8]> {
    past_number(e.strip_prefix(&[r.from, r.to])?, r.amount.mantissa)
}

// Of the places and transfers, those that are in use: by their bits, not by `audit`, which is judged here.
fn past_book(e: &[u8], book: Book) -> Option<&[u8]> {
    let mut e = e
        .strip_prefix(&book.opened.to_le_bytes())?
        .strip_prefix(&[book.pending])?;
    for (p, place) in book.places.iter().enumerate() {
        if (book.opened >> p) & 1 == 1 {
            e = past_place(e, *place)?;
        }
    }
    for (t, transfer) in book.transfers.iter().enumerate() {
        if (book.pending >> t) & 1 == 1 {
            e = past_transfer(e, *transfer)?;
        }
    }
    Some(e)
}

// The first n answers, each its number and detail. Those of steps that were not done must be zeros.
fn past_answers<'a>(e: &'a [u8], n: u8, run: &Run) -> Option<&'a [u8]> {
    let (done, undone) = run.steps.split_at(n as usize);
    let mut e = e;
    for a in done {
        e = e.strip_prefix(&[a.number, a.detail])?;
    }
    if undone.iter().any(|a| a.number != 0 || a.detail != 0) {
        return None;
    }
    Some(e)
}

// A run of n steps: the answers, and the book behind them.
fn past_run<'a>(e: &'a [u8], n: u8, run: &Run) -> Option<&'a [u8]> {
    if run.number != 0 || run.count != n as u16 {
        return None;
    }
    past_book(past_answers(e, n, run)?, run.book)
}

// Whether nothing follows.
fn is_whole(rest: Option<&[u8]>) -> bool {
    rest.is_some_and(|e| e.is_empty())
}

// ---- counts

// By the answers' numbers, and the books at a list's end; the alterations, and the altered books that met 28; the runs, and the answers in them.
#[derive(Clone, Copy, Default)]
struct Counts {
    numbers: Tally<NUMBERS>,
    books: Row,
    altered: u64,
    bad: u64,
    runs: Row,
    run_answers: Row,
}

impl Counts {
    // Of the numbers, those that occur.
    fn print(&self, out: &mut impl Write) -> io::Result<()> {
        for (number, row) in self.numbers.rows.iter().enumerate() {
            if *row != Row::default() {
                writeln!(out, "number {number}: {row}")?;
            }
        }
        writeln!(out, "books at a list's end: {}", self.books)?;
        writeln!(out, "alterations: {}", self.altered)?;
        writeln!(out, "altered books that met 28: {}", self.bad)?;
        writeln!(out, "lists through the run: {}", self.runs)?;
        writeln!(out, "answers in them: {}", self.run_answers.equal)
    }
}

// How a list's book came to be as it is: its steps left it so, or it was altered, and then may have met 28.
#[derive(Clone, Copy, PartialEq, Eq)]
enum State {
    AsLeft,
    Altered,
    MetBad,
}

// The list's book, as the record before left it, and the counts. Each method judges a record of one kind: whether it came out as expected.
#[derive(Clone, Copy)]
struct Keeper {
    book: Book,
    state: State,
    counts: Counts,
}

impl Keeper {
    fn new() -> Keeper {
        Keeper {
            book: steps::start_book(b""),
            state: State::AsLeft,
            counts: Counts::default(),
        }
    }

    fn judge_record(&mut self, r: Record) -> bool {
        match r.kind {
            Kind::Start => self.start(r),
            Kind::Step => self.step(r),
            Kind::Alter => self.alter(r),
            Kind::Look => self.look(r),
            Kind::Run => self.run(r),
        }
    }

    // Holds a step's or a start's answer to the record's, whose number is its first byte.
    fn answer(&mut self, r: Record, a: Answer) -> bool {
        let equal = is_whole(past_answer(r.expected, a));
        self.counts
            .numbers
            .count(sheet::byte(r.expected, 0) as usize, equal);
        equal
    }

    fn start(&mut self, r: Record) -> bool {
        self.book = steps::start_book(r.body);
        self.state = State::AsLeft;
        self.answer(r, steps::start_answer(r.body))
    }

    // A record of no kind that is known has no answer to be equal to.
    fn step(&mut self, r: Record) -> bool {
        let Some(step) = step_of(r.head) else {
            return false;
        };
        let a = lent::step_in(&mut self.book, step, r.body);
        if a.number == BAD_BOOK && self.state == State::Altered {
            self.state = State::MetBad;
        }
        self.answer(r, a)
    }

    fn alter(&mut self, r: Record) -> bool {
        let [_, a, i, t, ..] = *r.head;
        alter(&mut self.book, a, i as usize, t);
        if self.state == State::AsLeft {
            self.state = State::Altered;
        }
        self.counts.altered = self.counts.altered.wrapping_add(1);
        true
    }

    fn look(&mut self, r: Record) -> bool {
        let equal = is_whole(past_book(r.body, self.book));
        self.counts.books.count(equal);
        if self.state == State::MetBad {
            self.counts.bad = self.counts.bad.wrapping_add(1);
        }
        equal
    }

    // The list as a session, through the run. It has a book of its own.
    fn run(&mut self, r: Record) -> bool {
        let n = r.head[3];
        let equal = is_whole(past_run(r.expected, n, &running::run(r.body)));
        self.counts.runs.count(equal);
        self.counts.run_answers.add(equal, n as u64);
        equal
    }
}

impl Judge for Keeper {
    fn judge<'a>(&mut self, s: &'a [u8]) -> Option<(bool, &'a [u8])> {
        let (r, rest) = Record::split(s)?;
        Some((self.judge_record(r), rest))
    }
}

fn main(rt: HostRuntime) -> io::Result<()> {
    let mut list = Vec::new(rt.alloc());
    rt.reader().take(READ_BYTES).read_to_end(&mut list)?;
    let mut out = BufWriter::new(rt.alloc(), io::writer(&rt))?;
    let mut keeper = Keeper::new();
    let rest = tally::judge_all(&mut out, &list, &mut keeper)?;
    keeper.counts.print(&mut out)?;
    let n = list.len();
    writeln!(out, "bytes {n}, left over {rest}")?;
    out.flush()
}
