// What the programs of the gate count: how many of the cases came out as expected, and how many did not.
#![tactic(auto)]

ghost use Rattle.std.specs.Prelude.{◌≡◌, ℕ, ◌<◌, IfOk, List, MatchOption, length, replicate, Some, ⊤};
ghost use Rattle.tally.specs.Judging.{Leads};
ghost use Rattle.tally.specs.Counts.{none, counted, counted_at, row_text};

use std::io::Write;
use std::{fmt, io};

// The cases of one kind.
#[derive(Clone, Copy, Debug, Default, PartialEq, Eq)]
pub struct Row {
    pub equal: u64,
    pub unequal: u64,
}

impl Row {
    // n cases more. A sum past 64 bits starts again at 0.
    pub fn add(&mut self, equal: bool, n: u64)
        ensures { self.new ≡ counted self.old equal n }
    {
        if equal {
            self.equal = self.equal.wrapping_add(n);
        } else {
            self.unequal = self.unequal.wrapping_add(n);
        }
    }

    pub fn count(&mut self, equal: bool)
        ensures { self.new ≡ counted self.old equal 1 }
    {
        self.add(equal, 1);
    }
}

impl fmt::Display for Row {
    ghost output = { λ r. Some (row_text r) };

    fn fmt<W: fmt::Write>(&self, f: &mut fmt::Formatter<W>) -> fmt::Result {
        write!(f, "{} equal, {} unequal", self.equal, self.unequal)
    }
}

// A row for each of N kinds that go by numbers.
#[derive(Clone, Copy)]
pub struct Tally<const N: usize> {
    pub rows: [Row; N],
}

impl<const N: usize> Default for Tally<N> {
    ghost is_default = { λ t. t.rows ≡ replicate N none };

    fn default() -> Self {
        Tally {
            rows: [Row::default(); N],
        }
    }
}

impl<const N: usize> Tally<N> {
    // One case more of the kind i; none where no kind has that number.
    pub fn count(&mut self, i: usize, equal: bool)
        ensures { self.new.rows ≡ counted_at self.old.rows i equal }
    {
        if i < N {
            self.rows[i].count(equal);
        }
    }
}

// A program's judge of cases that stand in its input one behind the other.
pub trait Judge {
    // Holds of bytes that start with no case.
    ghost ends: { List ℕ → Type 0 } = { λ _. ⊤ };

    // Holds of bytes that start with a case, and of what follows it.
    ghost follows: { List ℕ → List ℕ → Type 0 } = { λ _ _. ⊤ };

    // Judges the case that the bytes start with: whether it came out as expected, and what follows it. None where they start with none.
    fn judge<'a>(&mut self, s: &'a [u8]) -> Option<(bool, &'a [u8])>
        ensures { MatchOption result (ends s.now) (λ p. follows s.now p.1.now × (length p.1.now < length s.now)) };
}

// Judges each case, says of one that came out otherwise where it stands, and answers how many bytes are left over.
pub fn judge_all<J: Judge>(out: &mut impl Write, list: &[u8], judge: &mut J) -> io::Result<usize>
    ensures { IfOk result (λ n. (rest : List ℕ) × Leads J.follows list.now rest × J.ends rest × (n ≡ length rest)) }
{
    let mut rest = list;
    // a `while let`: where the next case starts the judge says
    while let Some((equal, behind)) = judge.judge(rest) {
        if !equal {
            let at = list.len() - rest.len();
            writeln!(out, "unequal: the record at byte {at}")?;
        }
        rest = behind;
    }
    Ok(rest.len())
}
