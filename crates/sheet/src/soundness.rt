// Whether a sheet is sound, and of which kind a state is: one reading of the table.
ghost use Rattle.std.specs.Prelude.{◌≡◌, ◌&&◌, eqb};
ghost use Rattle.sheet.specs.Sheet.{length_fits, input_allowed, entry_fits, sound_as, is_field, is_form, state_of};
ghost use Rattle.sheet.specs.declared.Shape.TheVariants.{Input};

use super::{
    AUTHORIZED_BY, BALANCE, BALANCE_FORM, Entry, Form, KIND_AMOUNT, KIND_OTHER, KIND_TEXT, MAXIMUM,
    METER_FORM, QUANTITY, Reader, STACK_FORM, SUBJECT, Shape, State, byte, entry_at,
};

// Whether the bytes are a sheet of this shape. A match: what differs is which constant form is tested.
#[tactic(auto, unfolding(crate::specs::Sheet::sound_as))]
pub fn is_sound(s: &[u8], shape: Shape) -> bool
    ensures { result ≡ sound_as shape s.now }
{
    match shape {
        Shape::Input => is_input(s),
        Shape::Stack => has_form(s, STACK_FORM),
        Shape::Balance => has_form(s, BALANCE_FORM),
        Shape::Meter => has_form(s, METER_FORM),
    }
}

// What the bytes are as a state. The third entry's name says of which form they can be.
#[tactic(auto, unfolding(crate::specs::Sheet::sound_as), using(crate::proofs::Forms::no_stack, crate::proofs::Forms::no_balance, crate::proofs::Forms::no_meter))]
pub fn state_of(s: &[u8]) -> State
    ensures { result ≡ state_of s.now }
{
    if s.is_empty() {
        return State::Absent;
    }
    match byte(s, 13) {
        QUANTITY if has_form(s, STACK_FORM) => State::Stack,
        BALANCE if has_form(s, BALANCE_FORM) => State::Balance,
        MAXIMUM if has_form(s, METER_FORM) => State::Meter,
        _ => State::Torn,
    }
}

// Whether a body of this kind may have this length.
fn length_fits(kind: u8, len: u16) -> bool
    ensures { result ≡ length_fits kind len }
{
    match kind {
        KIND_TEXT => len <= 256,
        KIND_OTHER => len == 0,
        KIND_AMOUNT => len == 17,
        _ => false,
    }
}

fn input_allows(name: u8, kind: u8) -> bool
    ensures { result ≡ input_allowed name kind }
{
    matches!(
        (name, kind),
        (SUBJECT..=AUTHORIZED_BY, KIND_TEXT | KIND_OTHER)
    )
}

// Whether the body of an entry has a length of its kind and starts at `at`.
fn body_fits(e: Entry, at: usize) -> bool
    ensures { result ≡ (length_fits e.kind e.len && eqb e.offset at) }
{
    length_fits(e.kind, e.len) && e.offset as usize == at
}

// Whether an entry of an input fits above the name `last`, its body starting at `at`.
pub(crate) fn entry_fits(e: Entry, last: u8, at: usize) -> bool
    ensures { result ≡ entry_fits e last at }
{
    last < e.name && input_allows(e.name, e.kind) && body_fits(e, at)
}

// Whether an entry is the field of that name and kind, its body starting at `at`.
#[tactic(auto, unfolding(crate::specs::Sheet::is_field))]
fn is_field(e: Entry, name: u8, kind: u8, at: usize) -> bool
    ensures { result ≡ is_field e name kind at }
{
    e.name == name && e.kind == kind && body_fits(e, at)
}

// Whether the bytes are an input: a reader finds every entry of the table sound, and the last body ends the sheet.
fn is_input(s: &[u8]) -> bool
    ensures { result ≡ sound_as Input s.now }
{
    let mut reader = Reader::new(s);
    let mut last = 0u8;
    while let Some(e) = reader.next_if_fits(last) {
        last = e.name;
    }
    reader.is_at_end()
}

// Whether the bytes are a state of this form. Its three fields stand in their order, so that no walk is needed; a
// shorter sheet has no table of three. Inlined, so that the numbers of each form are constants there.
#[inline]
#[tactic(auto, unfolding(crate::specs::Sheet::is_form), using(crate::proofs::Forms::short_form))]
fn has_form(s: &[u8], form: Form) -> bool
    ensures { result ≡ is_form form s.now }
{
    if s.len() < 19 || s[0] != 3 {
        return false;
    }
    let first = entry_at(s, 0);
    if !is_field(first, SUBJECT, KIND_TEXT, 19) {
        return false;
    }
    let at = 19 + first.len as usize;
    let second = entry_at(s, 1);
    if !is_field(second, form.second, form.kind, at) {
        return false;
    }
    let at = at + second.len as usize;
    let third = entry_at(s, 2);
    is_field(third, form.third, KIND_AMOUNT, at) && at + third.len as usize == s.len()
}
