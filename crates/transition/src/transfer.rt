// The far end of a transfer. No profile is given; the operation says the kind.
ghost use Rattle.std.specs.Prelude.{◌≡◌};
ghost use Rattle.sheet.specs.Fields.{field, sight_of};
ghost use Rattle.registry.specs.Readers.{amount_in};
ghost use Rattle.transition.specs.Credit.{existing, credited_amount, credit_by};

use amount::Amount;
use registry::error::ProfileError;
use registry::{input_amount, input_str, op, require_current, state_amount, state_str};
use resource_state::holding::{balance, stack};
use resource_state::{Part, ResourceState};
use sheet::{AMOUNT, BALANCE, QUANTITY, TO_SUBJECT, UNIT};

pub(crate) fn transfer_after_state(
    operation: u8,
    source: &[u8],
    destination: &[u8],
    input: &[u8],
) -> Result<ResourceState, ProfileError>
    ensures { result ≡ credit_by amount_in (sight_of source.now) (sight_of destination.now) (field input.now) operation }
{
    if operation == op::STACK_TRANSFER {
        return stack(
            Part::Input(TO_SUBJECT),
            Part::State(UNIT),
            credited_amount(source, destination, input, QUANTITY, QUANTITY),
        );
    }
    if operation == op::BALANCE_TRANSFER {
        return balance(
            Part::Input(TO_SUBJECT),
            Part::State(UNIT),
            credited_amount(source, destination, input, BALANCE, AMOUNT),
        );
    }
    Err(ProfileError::NoCredit)
}

// What the destination has; nothing where it is absent.
fn existing_amount(destination: &[u8], held: u8) -> Result<Amount, ProfileError>
    ensures { result ≡ existing held (sight_of destination.now) }
{
    if destination.is_empty() {
        return Ok(Amount::ZERO);
    }
    state_amount(destination, held)
}

// Refusal 6: no source; then the input's to_subject, the source's unit, the amount asked for, what the destination has, the sum.
fn credited_amount(
    source: &[u8],
    destination: &[u8],
    input: &[u8],
    held: u8,
    asked: u8,
) -> Result<Amount, ProfileError>
    ensures { result ≡ credited_amount amount_in (sight_of source.now) (sight_of destination.now) (field input.now) held asked }
{
    require_current(source)?;
    input_str(input, TO_SUBJECT)?;
    state_str(source, UNIT)?;
    let amount = input_amount(input, asked)?;
    let existing = existing_amount(destination, held)?;
    existing.checked_add(amount).or(Err(ProfileError::Overflow))
}
