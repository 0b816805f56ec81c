// Reads cases from standard input and prints a line for each: what `sheet` makes of a sheet, or what a writer leaves in a
// buffer. The cases and the lines expected are made by tools/sheet_cases.py, which knows nothing of this code.
// What prints takes the output with what it prints, as std's do; tags are the cases' own bytes.
// A case is a tag, a length of three bytes and as many bytes. Tag 0 is a sheet; 1, 2 and 3 write a stack, a balance and a
// meter.
#![tactic(auto)]

use amount::Amount;
use sheet::{BALANCE_FORM, Reader, STACK_FORM, Shape, State};
use std::io;
use std::io::{BufWriter, Read, Write};

// The cases are read up to here.
const READ_BYTES: u64 = 524288;

fn print_amount(out: &mut impl Write, a: Amount) -> io::Result<()> {
    let m = a.mantissa;
    write!(out, "={},{},{}", m.hi, m.lo, a.scale)
}

fn print_input(out: &mut impl Write, s: &[u8]) -> io::Result<()> {
    if sheet::is_sound(s, Shape::Input) {
        write!(out, "sound")
    } else {
        write!(out, "torn")
    }
}

// The cases' words.
fn print_state(out: &mut impl Write, s: &[u8]) -> io::Result<()> {
    match sheet::state_of(s) {
        State::Absent => write!(out, " absent"),
        State::Stack => write!(out, " stack"),
        State::Balance => write!(out, " balance"),
        State::Meter => write!(out, " meter"),
        State::Torn => write!(out, " torn"),
    }
}

// Where a reader of the input stops, and the place that it keeps there.
fn print_walk(out: &mut impl Write, s: &[u8]) -> io::Result<()> {
    let mut reader = Reader::new(s);
    let mut last = 0;
    while let Some(e) = reader.next_if_fits(last) {
        last = e.name;
    }
    write!(out, " {}@{}", reader.next, reader.at)
}

// What lookup finds: name, kind, offset and length, the length of the body that is there, and an amount's value.
fn print_field(out: &mut impl Write, s: &[u8], name: u8) -> io::Result<()> {
    let Some(e) = sheet::find(s, name) else {
        return Ok(());
    };
    let body = sheet::body(s, name);
    write!(out, " {name}:{}@{}+{}", e.kind, e.offset, e.len)?;
    write!(out, "/{}", body.len())?;
    if e.kind == sheet::KIND_AMOUNT {
        print_amount(out, sheet::amount_at(body, 0))?;
    }
    Ok(())
}

fn judge(out: &mut impl Write, s: &[u8]) -> io::Result<()> {
    print_input(out, s)?;
    print_state(out, s)?;
    print_walk(out, s)?;
    for name in 1..=10 {
        print_field(out, s, name)?;
    }
    writeln!(out)
}

fn write_state(
    tag: u8,
    out: &mut [u8],
    subject: &[u8],
    unit: &[u8],
    a: Amount,
    b: Amount,
) -> Option<usize> {
    match tag {
        1 => writer::put_holding(out, STACK_FORM, subject, unit, a),
        2 => writer::put_holding(out, BALANCE_FORM, subject, unit, a),
        _ => writer::put_meter(out, subject, a, b),
    }
}

fn print_put(out: &mut impl Write, written: Option<usize>) -> io::Result<()> {
    match written {
        Some(n) => write!(out, "done {n} "),
        None => write!(out, "narrow "),
    }
}

// The first n bytes, by index: those past the end count as 0.
fn print_hex(out: &mut impl Write, bytes: &[u8], n: usize) -> io::Result<()> {
    for i in 0..n {
        write!(out, "{:02x}", sheet::byte(bytes, i))?;
    }
    writeln!(out)
}

// Lends the writer the first `room` bytes, and shows them and four bytes more.
fn write_within(
    out: &mut impl Write,
    tag: u8,
    space: &mut [u8],
    room: u16,
    subject: &[u8],
    unit: &[u8],
    a: Amount,
    b: Amount,
) -> io::Result<()> {
    let end = room as usize;
    if space.len() < end {
        return Ok(());
    }
    let written = write_state(tag, &mut space[..end], subject, unit, a, b);
    print_put(out, written)?;
    print_hex(out, space, end + 4)
}

// A writer's case: the room, the subject's and the unit's length, 16 bits each; then the subject, the unit and two
// amounts. The buffer holds 170 at first.
fn write(out: &mut impl Write, tag: u8, s: &[u8]) -> io::Result<()> {
    let room = sheet::u16_at(s, 0);
    let x = sheet::u16_at(s, 2) as usize;
    let y = sheet::u16_at(s, 4) as usize;
    let subject = sheet::part(s, 6, x);
    let unit = sheet::part(s, 6 + x, y);
    let a = sheet::amount_at(sheet::part(s, 6 + x + y, 17), 0);
    let b = sheet::amount_at(sheet::part(s, 23 + x + y, 17), 0);
    let mut space = [170u8; 1024];
    write_within(out, tag, &mut space, room, subject, unit, a, b)
}

fn case(out: &mut impl Write, tag: u8, s: &[u8]) -> io::Result<()> {
    match tag {
        0 => judge(out, s),
        _ => write(out, tag, s),
    }
}

fn cases(out: &mut impl Write, mut s: &[u8]) -> io::Result<()> {
    while let [tag, low, middle, high, rest @ ..] = s {
        let len = u32::from_le_bytes([*low, *middle, *high, 0]) as usize;
        let Some((body, behind)) = rest.split_at_checked(len) else {
            return Ok(());
        };
        case(out, *tag, body)?;
        s = behind;
    }
    Ok(())
}

fn main(rt: HostRuntime) -> io::Result<()> {
    let mut list = Vec::new(rt.alloc());
    rt.reader().take(READ_BYTES).read_to_end(&mut list)?;
    let mut out = BufWriter::new(rt.alloc(), io::writer(&rt))?;
    cases(&mut out, &list)?;
    out.flush()
}
