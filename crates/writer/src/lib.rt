// Writes state sheets into a lent buffer. A buffer that is too short keeps every byte, and bytes behind the sheet stay.
#![tactic(auto)]

ghost use Rattle.std.specs.Prelude.{SomeIff, ◌≡◌, ◌<◌, ◌≤◌, ◌+◌, ◌/◌, ◌%◌, length};
ghost use Rattle.writer.specs.Encode.{encode, form_items, holding_sheet, meter_sheet, put_into, put_answer};
ghost use Rattle.writer.specs.Helpers.{head_of, overlay};

use amount::Amount;
use sheet::{Form, KIND_AMOUNT, KIND_TEXT, METER_FORM, SUBJECT, amount_bytes};

// Writes a state of a subject, a unit and an amount: a stack by `STACK_FORM`, a balance by `BALANCE_FORM`. How many bytes were
// written, or None where they do not fit.
pub fn put_holding(
    out: &mut [u8],
    form: Form,
    subject: &[u8],
    unit: &[u8],
    amount: Amount,
) -> Option<usize>
    ensures { (result ≡ put_answer (holding_sheet form subject.now unit.now amount) out.old)
        × (out.new ≡ put_into (holding_sheet form subject.now unit.now amount) out.old) }
{
    let bytes = amount_bytes(amount);
    put_form(out, form, subject, unit, &bytes)
}

pub fn put_meter(
    out: &mut [u8],
    subject: &[u8],
    remaining: Amount,
    maximum: Amount,
) -> Option<usize>
    ensures { (result ≡ put_answer (meter_sheet subject.now remaining maximum) out.old)
        × (out.new ≡ put_into (meter_sheet subject.now remaining maximum) out.old) }
{
    let first = amount_bytes(remaining);
    let second = amount_bytes(maximum);
    put_form(out, METER_FORM, subject, &first, &second)
}

// The count and the table: the bodies' lengths x, y and z, and where the second and the third start.
fn head(form: Form, x: usize, second: usize, y: usize, third: usize, z: usize) -> [u8; 19]
    ensures { result ≡ head_of form x second y third z }
{
    let x = x.to_le_bytes();
    let second = second.to_le_bytes();
    let y = y.to_le_bytes();
    let third = third.to_le_bytes();
    let z = z.to_le_bytes();
    [
        3,
        SUBJECT,
        KIND_TEXT,
        19,
        0,
        x[0],
        x[1],
        form.second,
        form.kind,
        second[0],
        second[1],
        y[0],
        y[1],
        form.third,
        KIND_AMOUNT,
        third[0],
        third[1],
        z[0],
        z[1],
    ]
}

// Copies src into out from `at` on. std's `copy_from_slice` would ask the C library for `memmove`.
#[tactic(auto, using(std::proofs::lemmas::List::Edits::paste_more, std::proofs::lemmas::List::Edits::paste_all))]
fn copy_at(out: &mut [u8], at: usize, src: &[u8])
    requires { at + length src.now ≤ length out.old }
    ensures { out.new ≡ overlay out.old at src.now }
{
    for (i, b) in src.iter().enumerate() {
        out[at + i] = *b;
    }
}

// Where three bodies behind the table end, or None where that is past `room`: by differences, so that no sum wraps.
fn end_within(room: usize, x: usize, y: usize, z: usize) -> Option<usize>
    ensures { SomeIff result (19 + x + y + z ≤ room) (19 + x + y + z) }
{
    let free = room.checked_sub(19)?.checked_sub(x)?.checked_sub(y)?;
    if z <= free {
        Some(19 + x + y + z)
    } else {
        None
    }
}

// Writes the state of this form with the three bodies.
fn put_form(out: &mut [u8], form: Form, x: &[u8], y: &[u8], z: &[u8]) -> Option<usize>
    ensures { (result ≡ put_answer (encode (form_items form x.now y.now z.now)) out.old)
        × (out.new ≡ put_into (encode (form_items form x.now y.now z.now)) out.old) }
{
    let end = end_within(out.len(), x.len(), y.len(), z.len())?;
    let second = 19 + x.len();
    let third = second + y.len();
    let table = head(form, x.len(), second, y.len(), third, z.len());
    copy_at(out, 0, &table);
    copy_at(out, 19, x);
    copy_at(out, second, y);
    copy_at(out, third, z);
    Some(end)
}
