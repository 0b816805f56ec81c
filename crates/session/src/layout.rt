// The layout of a session, judged on any bytes.
ghost use Rattle.std.specs.Prelude.{◌≡◌, ◌&&◌, List, eqb, ℕ, ◌<◌};
ghost use Rattle.session.specs.Session.{line_at, line_body, start_fits, step_fits, line_fits, sound_session, step_of};
ghost use Rattle.session.specs.Entries.{entry_step};

use super::{Line, MAX_BYTES};
use steps::Step;

// The most entries of a session.
const MAX_ENTRIES: usize = 256;

// Entry k of the table.
#[tactic(auto, unfolding(crate::specs::Session::line_at))]
pub(crate) fn line_at(s: &[u8], k: usize) -> Line
    requires { k < 256 }
    ensures { result ≡ line_at s.now k }
{
    let p = 2 + 8 * k;
    // one test where the whole entry is there
    if let Some(e) = s.get(p..p + 8) {
        return Line {
            kind: e[0],
            a: e[1],
            b: e[2],
            t: e[3],
            offset: u16::from_le_bytes([e[4], e[5]]),
            len: u16::from_le_bytes([e[6], e[7]]),
        };
    }
    Line {
        kind: sheet::byte(s, p),
        a: sheet::byte(s, p + 1),
        b: sheet::byte(s, p + 2),
        t: sheet::byte(s, p + 3),
        offset: sheet::u16_at(s, p + 4),
        len: sheet::u16_at(s, p + 6),
    }
}

// The body of an entry, as a part of the session.
pub(crate) fn body(s: &[u8], l: Line) -> &[u8]
    ensures { result.now ≡ line_body s.now l }
{
    sheet::part(s, l.offset as usize, l.len as usize)
}

// The step of an entry, without its body; another kind is none. The kinds are those of documents 01 and 02, as they stand in a session.
#[tactic(auto, unfolding(crate::specs::Session::step_of))]
pub(crate) fn step_of(l: Line) -> Option<Step>
    ensures { (i : List ℕ) → entry_step result i ≡ step_of l i }
{
    let kind = l.kind;
    match kind {
        1 => Some(Step::Open(l.a)),
        2 => Some(Step::Act(l.a, l.b)),
        3 => Some(Step::Begin(l.a, l.b, l.t)),
        4 => Some(Step::Finish(l.t)),
        5 => Some(Step::Cancel(l.t)),
        6 => Some(Step::Close(l.a)),
        _ => None,
    }
}

// Whether the bytes are a session. `at` is where the next body must start, and moves by each entry's own length.
pub(crate) fn is_sound(s: &[u8]) -> bool
    ensures { result ≡ sound_session s.now }
{
    if MAX_BYTES < s.len() {
        return false;
    }
    let n = sheet::u16_at(s, 0) as usize;
    if n < 1 {
        return false;
    }
    if MAX_ENTRIES < n {
        return false;
    }
    let mut at = 2 + 8 * n;
    // by index, as `line_at` reads: an entry may be cut off
    for k in 0..n {
        let l = line_at(s, k);
        if !line_fits(k, l, at) {
            return false;
        }
        at += l.len as usize;
    }
    at == s.len()
}

// Entry one is kind 0 and uses no field.
fn start_fits(l: Line) -> bool
    ensures { result ≡ start_fits l }
{
    l.kind == 0 && l.a == 0 && open_fits(l)
}

// An open uses a alone: its b and t are 0.
fn open_fits(l: Line) -> bool
    ensures { result ≡ eqb l.b 0 && eqb l.t 0 }
{
    l.b == 0 && l.t == 0
}

// A finish and a cancel use t alone, and have no body.
fn end_fits(l: Line) -> bool
    ensures { result ≡ eqb l.a 0 && eqb l.b 0 && eqb l.len 0 }
{
    l.a == 0 && l.b == 0 && l.len == 0
}

// A close uses a alone, and has no body.
fn close_fits(l: Line) -> bool
    ensures { result ≡ eqb l.b 0 && eqb l.t 0 && eqb l.len 0 }
{
    open_fits(l) && l.len == 0
}

// A later entry; a second start is none of the steps.
fn step_fits(l: Line) -> bool
    ensures { result ≡ step_fits l }
{
    let kind = l.kind;
    match kind {
        1 => open_fits(l),
        2 => l.t == 0,
        3 => true,
        4 | 5 => end_fits(l),
        6 => close_fits(l),
        _ => false,
    }
}

// Entry k, whose body must start at `at`.
fn line_fits(k: usize, l: Line, at: usize) -> bool
    ensures { result ≡ line_fits k l at }
{
    if l.offset as usize != at {
        return false;
    }
    if k == 0 { start_fits(l) } else { step_fits(l) }
}
