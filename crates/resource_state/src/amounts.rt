// The reads that operations share, in document 01's order: what is held and what is asked, by the names of their fields.
ghost use Rattle.std.specs.Prelude.{◌≡◌, [], ◌∷◌, ◌++◌};
ghost use Rattle.sheet.specs.Fields.{subject, unit, to_subject, to_unit, balance, amount};
ghost use Rattle.registry.specs.Tests.{first_of, born, in_text, in_amount, st_text};
ghost use Rattle.resource_state.specs.Next.{zero, given, the_sum, the_difference};
ghost use Rattle.resource_state.specs.Helpers.{amount_over};
ghost use Rattle.resource_state.specs.Apply.{holding, raising, lowering};

use amount::Amount;
use registry::error::ProfileError;
use registry::{input_amount, input_str, require_current, state_amount, state_str};
use sheet::{AMOUNT, BALANCE, SUBJECT, TO_SUBJECT, TO_UNIT, UNIT};

// What is held less what is asked. `let .. else`, as in `raised`: std's `or` copies the whole `Result` once more.
pub(crate) fn lowered(
    state: &[u8],
    input: &[u8],
    held: u8,
    asked: u8,
) -> Result<Amount, ProfileError>
    ensures { result ≡ amount_over state.now input.now (lowering held asked) (the_difference held asked) }
{
    let current = state_amount(state, held)?;
    let amount = input_amount(input, asked)?;
    let Ok(left) = current.checked_sub(amount) else {
        return Err(ProfileError::Underflow);
    };
    Ok(left)
}

// The amount of a create.
pub(crate) fn created(input: &[u8], name: u8) -> Result<Amount, ProfileError>
    ensures { result ≡ amount_over [] input.now (in_text subject ∷ in_text unit ∷ in_amount name ∷ []) (given name) }
{
    input_str(input, SUBJECT)?;
    input_str(input, UNIT)?;
    input_amount(input, name)
}

// With `debited`, and `raised` with `lowered`: one function over a closure would be no shorter than the two.
pub(crate) fn credited(
    state: &[u8],
    input: &[u8],
    held: u8,
    asked: u8,
) -> Result<Amount, ProfileError>
    ensures { result ≡ amount_over state.now input.now (holding ++ raising held asked) (the_sum held asked) }
{
    require_texts(state)?;
    raised(state, input, held, asked)
}

pub(crate) fn debited(
    state: &[u8],
    input: &[u8],
    held: u8,
    asked: u8,
) -> Result<Amount, ProfileError>
    ensures { result ≡ amount_over state.now input.now (holding ++ lowering held asked) (the_difference held asked) }
{
    require_texts(state)?;
    lowered(state, input, held, asked)
}

// The source of a transfer: in to_subject directly after born.
pub(crate) fn transferred(
    state: &[u8],
    input: &[u8],
    held: u8,
    asked: u8,
) -> Result<Amount, ProfileError>
    ensures { result ≡ amount_over state.now input.now (born ∷ in_text to_subject ∷ st_text subject ∷ st_text unit ∷ lowering held asked) (the_difference held asked) }
{
    require_ends(state, input)?;
    lowered(state, input, held, asked)
}

// Convert reads no unit of the state.
pub(crate) fn converted(state: &[u8], input: &[u8]) -> Result<Amount, ProfileError>
    ensures { result ≡ amount_over state.now input.now (born ∷ st_text subject ∷ in_text to_unit ∷ lowering balance amount) (the_difference balance amount) }
{
    require_current(state)?;
    state_str(state, SUBJECT)?;
    input_str(input, TO_UNIT)?;
    lowered(state, input, BALANCE, AMOUNT)
}

// Expire leaves zero.
pub(crate) fn expired(state: &[u8]) -> Result<Amount, ProfileError>
    ensures { result ≡ amount_over state.now [] holding zero }
{
    require_texts(state)?;
    Ok(Amount::ZERO)
}

// Adjust sets what the input says.
pub(crate) fn adjusted(state: &[u8], input: &[u8], asked: u8) -> Result<Amount, ProfileError>
    ensures { result ≡ amount_over state.now input.now (holding ++ (in_amount asked ∷ [])) (given asked) }
{
    require_texts(state)?;
    input_amount(input, asked)
}

// Born, st subject, st unit.
fn require_texts(state: &[u8]) -> Result<(), ProfileError>
    ensures { result ≡ first_of state.now [] holding }
{
    require_current(state)?;
    state_str(state, SUBJECT)?;
    state_str(state, UNIT)
}

// The texts of a transfer. Not inlined, so that its refusals are copied apart from the stack of `lowered`.
#[inline(never)]
fn require_ends(state: &[u8], input: &[u8]) -> Result<(), ProfileError>
    ensures { result ≡ first_of state.now input.now (born ∷ in_text to_subject ∷ st_text subject ∷ st_text unit ∷ []) }
{
    require_current(state)?;
    input_str(input, TO_SUBJECT)?;
    state_str(state, SUBJECT)?;
    state_str(state, UNIT)
}

// What is held and what is asked more.
fn raised(state: &[u8], input: &[u8], held: u8, asked: u8) -> Result<Amount, ProfileError>
    ensures { result ≡ amount_over state.now input.now (raising held asked) (the_sum held asked) }
{
    let current = state_amount(state, held)?;
    let amount = input_amount(input, asked)?;
    let Ok(sum) = current.checked_add(amount) else {
        return Err(ProfileError::Overflow);
    };
    Ok(sum)
}
