// What rules are made of, the port of registry.rs: the readers of input and state sheets, the tests that profiles share,
// and which profile an operation is of.
// State and input are no struct: nothing links the two slices that C gives, and half of the readers take one with a field's name.
#![tactic(auto)]

ghost use Rattle.std.specs.Prelude.{◌≡◌, not, [], ◌∷◌, eqb, length};
ghost use Rattle.sheet.specs.Fields.{field, field_of};
ghost use Rattle.sheet.specs.Sheet.{state_of, sound_as};
ghost use Rattle.sheet.specs.declared.Shape.TheVariants.{Input};
ghost use Rattle.registry.specs.Readers.{text_in, text_of, bytes_of, marked, amount_in, amount_of};
ghost use Rattle.registry.specs.Helpers.{read_in, fault_in, mantissa_in, taking};
ghost use Rattle.registry.specs.Tests.{state_there, state_absent, above_zero, unless_less, held_by, up_to, first_of, creates, born, in_amount, ◌then◌};
ghost use Rattle.registry.specs.Call.{state_sound, input_sound, profile_of, operation_of, called};

pub mod error;
pub mod op;

use amount::{Amount, AmountError, Uint128};
use error::ProfileError;
use sheet::{Entry, Shape, State};
use std::cmp::Ordering;

// Refusal 1: the layout of a state is broken, `which` says of which.
pub fn require_sound_state(state: &[u8], which: u8) -> Result<(), ProfileError>
    ensures { result ≡ state_sound which (state_of state.now) }
{
    match sheet::state_of(state) {
        State::Absent | State::Stack | State::Balance | State::Meter => Ok(()),
        State::Torn => Err(ProfileError::TornState(which)),
    }
}

// Refusal 2: the layout of the input is broken.
pub fn require_sound_input(input: &[u8]) -> Result<(), ProfileError>
    ensures { result ≡ input_sound (sound_as Input input.now) }
{
    if sheet::is_sound(input, Shape::Input) {
        return Ok(());
    }
    Err(ProfileError::TornInput)
}

// What every call on a state and an input tests first: refusals 1 to 4.
#[tactic(auto, unfolding(crate::specs::Call::called))]
pub fn require_call(
    profile: u8,
    operation: u8,
    state: &[u8],
    input: &[u8],
) -> Result<(), ProfileError>
    ensures { result ≡ called profile operation state.now input.now }
{
    require_sound_state(state, 1)?;
    require_sound_input(input)?;
    require_operation(profile, operation)
}

// Refusal 6: the state is absent.
#[tactic(auto, unfolding(crate::specs::Tests::state_there))]
pub fn require_current(state: &[u8]) -> Result<(), ProfileError>
    ensures { result ≡ state_there (not (eqb (length state.now) 0)) }
{
    if state.is_empty() {
        return Err(ProfileError::Unborn);
    }
    Ok(())
}

// Refusal 5: there is a state already.
#[tactic(auto, unfolding(crate::specs::Tests::state_absent))]
pub fn require_unborn(state: &[u8]) -> Result<(), ProfileError>
    ensures { result ≡ state_absent (not (eqb (length state.now) 0)) }
{
    if state.is_empty() {
        return Ok(());
    }
    Err(ProfileError::Born)
}

// Whether an input holds a text that is not empty. `text` gives it. The readers take a lookup apart by `let .. else`, the form that
// document 01 names for them.
#[tactic(auto, unfolding(crate::specs::Readers::text_in, sheet::specs::Fields::field))]
pub fn input_str(input: &[u8], name: u8) -> Result<(), ProfileError>
    ensures { result ≡ text_in name (field input.now name) }
{
    let Some(e) = sheet::find(input, name) else {
        return Err(ProfileError::Missing(name));
    };
    if e.kind != sheet::KIND_TEXT {
        return Err(ProfileError::NotText(name));
    }
    if sheet::entry_body(input, e).is_empty() {
        return Err(ProfileError::Empty(name));
    }
    Ok(())
}

// Whether a state holds a text that is not empty. `text` gives it.
#[tactic(auto, unfolding(crate::specs::Readers::text_of, sheet::specs::Fields::field))]
pub fn state_str(state: &[u8], name: u8) -> Result<(), ProfileError>
    ensures { result ≡ text_of name (field state.now name) }
{
    let Some(e) = sheet::find(state, name) else {
        return Err(ProfileError::NoField(name));
    };
    if e.kind != sheet::KIND_TEXT {
        return Err(ProfileError::NoField(name));
    }
    if sheet::entry_body(state, e).is_empty() {
        return Err(ProfileError::Blank(name));
    }
    Ok(())
}

// The text of a field, as a part of the sheet; no bytes where there is none.
#[tactic(auto, unfolding(crate::specs::Readers::bytes_of, sheet::specs::Fields::field))]
pub fn text(s: &[u8], name: u8) -> &[u8]
    ensures { result.now ≡ bytes_of (field s.now name) }
{
    let Some(e) = sheet::find(s, name) else {
        return &s[..0];
    };
    if e.kind != sheet::KIND_TEXT {
        return &s[..0];
    }
    sheet::entry_body(s, e)
}

// The value of an entry as an amount: a text of digits.
#[tactic(auto, unfolding(crate::specs::Helpers::read_in))]
pub(crate) fn parse_amount_str(input: &[u8], e: Entry) -> Result<Amount, AmountError>
    ensures { result ≡ read_in (field_of input.now (Some e)) }
{
    if e.kind != sheet::KIND_TEXT {
        return Err(AmountError::NotWhole);
    }
    Amount::try_from_str(sheet::entry_body(input, e))
}

// The mantissa of an amount that an input gives as text, whose scale is 0; none where it gives no such amount, and `amount_refusal` says why.
// Beside a refusal, in one `Result`, it is copied by pieces that the processor waits for.
pub fn input_mantissa(input: &[u8], name: u8) -> Option<Uint128>
    ensures { result ≡ mantissa_in (amount_in name (field input.now name)) }
{
    let Some(e) = sheet::find(input, name) else {
        return None;
    };
    let Ok(a) = parse_amount_str(input, e) else {
        return None;
    };
    Some(a.mantissa)
}

// Why an input gives no amount of that name, where it gives none.
pub fn amount_refusal(input: &[u8], name: u8) -> ProfileError
    ensures { result ≡ fault_in name (field input.now name) }
{
    let Some(e) = sheet::find(input, name) else {
        return ProfileError::Missing(name);
    };
    amount_fault(input, e, name)
}

// An amount that an input gives as text.
pub fn input_amount(input: &[u8], name: u8) -> Result<Amount, ProfileError>
    ensures { result ≡ amount_in name (field input.now name) }
{
    let Some(mantissa) = input_mantissa(input, name) else {
        return Err(amount_refusal(input, name));
    };
    Ok(Amount { mantissa, scale: 0 })
}

// An amount that a state holds.
#[tactic(auto, unfolding(crate::specs::Readers::amount_of, sheet::specs::Fields::field))]
pub fn state_amount(state: &[u8], name: u8) -> Result<Amount, ProfileError>
    ensures { result ≡ amount_of name (field state.now name) }
{
    let Some(e) = sheet::find(state, name) else {
        return Err(ProfileError::NoField(name));
    };
    if e.kind != sheet::KIND_AMOUNT {
        return Err(ProfileError::NoField(name));
    }
    Ok(sheet::amount_at(sheet::entry_body(state, e), 0))
}

// Refusal 14: the amount is zero.
#[tactic(auto, unfolding(crate::specs::Tests::above_zero))]
pub fn require_positive(amount: Amount) -> Result<(), ProfileError>
    ensures { result ≡ above_zero amount }
{
    if amount.is_zero() {
        return Err(ProfileError::NonPositiveAmount);
    }
    Ok(())
}

// Refusal 16: remaining is above the maximum.
#[tactic(auto, unfolding(crate::specs::Tests::up_to))]
pub fn require_up_to(amount: Amount, maximum: Amount) -> Result<(), ProfileError>
    ensures { result ≡ up_to amount maximum }
{
    unless_less(maximum.cmp(&amount), ProfileError::OverMaximum)
}

// What all that take from an amount test. A profile reads what is held.
pub fn check_taking(
    state: &[u8],
    input: &[u8],
    held: Result<Amount, ProfileError>,
    asked: u8,
) -> Result<(), ProfileError>
    ensures { result ≡ (state_there (not (eqb (length state.now) 0)) then taking held (amount_in asked (field input.now asked))) }
{
    require_current(state)?;
    let available = held?;
    require_asked(input, available, asked)
}

// The same with an input text directly after born.
pub fn check_taking_with(
    state: &[u8],
    input: &[u8],
    name: u8,
    held: Result<Amount, ProfileError>,
    asked: u8,
) -> Result<(), ProfileError>
    ensures { result ≡ (state_there (not (eqb (length state.now) 0)) then text_in name (field input.now name) then taking held (amount_in asked (field input.now asked))) }
{
    require_current(state)?;
    input_str(input, name)?;
    let available = held?;
    require_asked(input, available, asked)
}

// Create of a stack or a balance: subject, unit, and the amount of that name.
pub fn check_creating(state: &[u8], input: &[u8], name: u8) -> Result<(), ProfileError>
    ensures { result ≡ first_of state.now input.now (creates name) }
{
    require_unborn(state)?;
    input_str(input, sheet::SUBJECT)?;
    input_str(input, sheet::UNIT)?;
    input_amount(input, name)?;
    Ok(())
}

// An amount set or added, zero or not: of a stack's credit and adjust and of a meter's maximum.
pub fn check_setting(state: &[u8], input: &[u8], name: u8) -> Result<(), ProfileError>
    ensures { result ≡ first_of state.now input.now (born ∷ in_amount name ∷ []) }
{
    require_current(state)?;
    input_amount(input, name)?;
    Ok(())
}

// The profile that an operation is of, by document 01's ranges; 0 for none, which no caller takes for a profile: `require_operation` has
// tested that there is one of that number.
fn profile_of(operation: u8) -> u8
    ensures { result ≡ profile_of operation }
{
    let op = operation;
    match op {
        op::STACK_CREATE..=op::STACK_ADJUST => op::STACK,
        op::BALANCE_CREATE..=op::BALANCE_CONVERT => op::BALANCE,
        op::METER_CREATE..=op::METER_EXPIRE => op::METER,
        _ => 0,
    }
}

// Refusal 3: no such profile; then 4: no operation of it.
#[tactic(auto, unfolding(crate::specs::Call::operation_of))]
fn require_operation(profile: u8, operation: u8) -> Result<(), ProfileError>
    ensures { result ≡ operation_of profile operation }
{
    if profile < op::STACK {
        return Err(ProfileError::UnknownProfile);
    }
    if op::METER < profile {
        return Err(ProfileError::UnknownProfile);
    }
    if profile_of(operation) != profile {
        return Err(ProfileError::UnknownOperation);
    }
    Ok(())
}

// Whether a text holds a point or an exponent's mark.
fn is_float(text: &[u8]) -> bool
    ensures { result ≡ marked text.now }
{
    text.iter().any(|b| matches!(*b, b'.' | b'e' | b'E'))
}

// Why the value of an entry is no amount: refusal 11 for a text with a point or an exponent's mark, else 10.
#[tactic(auto, unfolding(crate::specs::Helpers::fault_in))]
fn amount_fault(input: &[u8], e: Entry, name: u8) -> ProfileError
    ensures { result ≡ fault_in name (field_of input.now (Some e)) }
{
    if e.kind != sheet::KIND_TEXT {
        return ProfileError::NotWhole(name);
    }
    if is_float(sheet::entry_body(input, e)) {
        return ProfileError::FloatForbidden(name);
    }
    ProfileError::NotWhole(name)
}

// A refusal where one amount is less than another, and none on a tie.
fn unless_less(o: Ordering, e: ProfileError) -> Result<(), ProfileError>
    ensures { result ≡ unless_less o e }
{
    match o {
        Ordering::Less => Err(e),
        Ordering::Equal | Ordering::Greater => Ok(()),
    }
}

// Refusal 15: more is asked for than is held.
#[tactic(auto, unfolding(crate::specs::Tests::held_by))]
fn require_available(requested: Amount, available: Amount) -> Result<(), ProfileError>
    ensures { result ≡ held_by available requested }
{
    let short = ProfileError::InsufficientQuantity {
        available,
        requested,
    };
    unless_less(available.cmp(&requested), short)
}

// Refusal 14: the amount is zero; then 15: it is above what is held.
fn require_positive_available(requested: Amount, available: Amount) -> Result<(), ProfileError>
    ensures { result ≡ (above_zero requested then held_by available requested) }
{
    require_positive(requested)?;
    require_available(requested, available)
}

// The amount asked for is readable, not zero (refusal 14) and not above what is held (15).
fn require_asked(input: &[u8], available: Amount, asked: u8) -> Result<(), ProfileError>
    ensures { result ≡ taking (Ok available) (amount_in asked (field input.now asked)) }
{
    let requested = input_amount(input, asked)?;
    require_positive_available(requested, available)
}
