// Prints what `amount` answers on the cases of standard input, one to a line. tools/amount_cases.py makes the
// cases and what must be printed.
//   MANTISSA SCALE MANTISSA SCALE    order, min, sum, difference and texts of two amounts
//   rTEXT                            what reading TEXT gives
#![tactic(auto)]

use amount::{Amount, AmountError, Given};
use std::cmp::Ordering;
use std::io;
use std::io::{BufWriter, Read, Write};

// The cases are read up to here.
const READ_BYTES: u64 = 65536;

// An amount as it is stored: its mantissa, `@` and its scale.
fn put_stored(out: &mut impl Write, a: Amount) -> io::Result<()> {
    let mantissa = Amount { scale: 0, ..a };
    write!(out, "{mantissa}@{}", a.scale)
}

// The amount, or the refusal's number.
fn put_result(out: &mut impl Write, r: Result<Amount, AmountError>) -> io::Result<()> {
    let g = Given::from(r);
    if g.number == 0 {
        return put_stored(out, g.amount);
    }
    write!(out, "{}", g.number)
}

// The cases' words, which are not those that std prints.
fn put_order(out: &mut impl Write, o: Ordering) -> io::Result<()> {
    match o {
        Ordering::Less => write!(out, "less"),
        Ordering::Equal => write!(out, "equal"),
        Ordering::Greater => write!(out, "greater"),
    }
}

// The amount of two words, its mantissa and its scale; zero where they can't be read.
fn amount_of(mantissa: Option<&[u8]>, scale: Option<&[u8]>) -> Amount {
    let Ok(whole) = Amount::try_from_str(mantissa.unwrap_or(&[])) else {
        return Amount::ZERO;
    };
    let Ok(scale) = Amount::try_from_str(scale.unwrap_or(&[])) else {
        return Amount::ZERO;
    };
    Amount {
        scale: (scale.mantissa.lo % 256) as u8,
        ..whole
    }
}

fn judge_pair(out: &mut impl Write, line: &[u8]) -> io::Result<()> {
    let mut words = line.split(|byte| *byte == b' ');
    let a = amount_of(words.next(), words.next());
    let b = amount_of(words.next(), words.next());
    put_order(out, a.cmp(&b))?;
    write!(out, ", min ")?;
    put_stored(out, a.min(b))?;
    write!(out, ", sum ")?;
    put_result(out, a.checked_add(b))?;
    write!(out, ", difference ")?;
    put_result(out, a.checked_sub(b))?;
    write!(out, ", text {a} {b}")
}

fn judge(out: &mut impl Write, line: &[u8]) -> io::Result<()> {
    out.write_all(line)?;
    write!(out, ": ")?;
    match line {
        [] => Ok(()),
        [b'r', text @ ..] => put_result(out, Amount::try_from_str(text)),
        _ => judge_pair(out, line),
    }
}

fn judge_all(out: &mut impl Write, cases: &[u8]) -> io::Result<()> {
    for line in cases.split_inclusive(|byte| *byte == b'\n') {
        judge(out, line.strip_suffix(b"\n").unwrap_or(line))?;
        writeln!(out)?;
    }
    Ok(())
}

fn main(rt: HostRuntime) -> io::Result<()> {
    let mut cases = Vec::new(rt.alloc());
    rt.reader().take(READ_BYTES).read_to_end(&mut cases)?;
    let mut out = BufWriter::new(rt.alloc(), io::writer(&rt))?;
    judge_all(&mut out, &cases)?;
    out.flush()
}
