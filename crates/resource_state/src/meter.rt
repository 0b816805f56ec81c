// The next state of a meter.
ghost use Rattle.std.specs.Prelude.{◌≡◌, [], ◌∷◌, ◌++◌};
ghost use Rattle.sheet.specs.Fields.{field, sight_of, subject, remaining, maximum, amount};
ghost use Rattle.registry.specs.Readers.{amount_in};
ghost use Rattle.registry.specs.Tests.{born, in_text, in_amount, st_text, st_amount};
ghost use Rattle.resource_state.specs.Next.{meter_of, zero, given, kept, the_difference, lesser, a_meter};
ghost use Rattle.resource_state.specs.Helpers.{amount_over, next_over};
ghost use Rattle.resource_state.specs.Apply.{metering, lowering, meter_next};

use super::amounts::lowered;
use super::{MeterState, Part, ResourceState};
use amount::Amount;
use registry::error::ProfileError;
use registry::{input_amount, input_str, op, require_current, state_amount, state_str};
use sheet::{AMOUNT, MAXIMUM, REMAINING, SUBJECT};

#[tactic(auto, unfolding(crate::specs::Apply::meter_next))]
pub fn apply_meter(operation: u8, state: &[u8], input: &[u8]) -> Result<ResourceState, ProfileError>
    ensures { result ≡ meter_next amount_in (sight_of state.now) (field input.now) operation }
{
    let op = operation;
    match op {
        op::METER_CREATE => create(input),
        op::METER_CONSUME => consume(state, input),
        op::METER_REFILL => refill(state),
        op::METER_SET_MAXIMUM => set_maximum(state, input),
        op::METER_RESET => reset(state),
        op::METER_EXPIRE => reset(state),
        _ => Err(ProfileError::UnknownOperation),
    }
}

fn meter(subject: Part, remaining: Amount, maximum: Amount) -> ResourceState
    ensures { result ≡ meter_of subject remaining maximum }
{
    ResourceState::MeteredResource(MeterState {
        subject,
        remaining,
        maximum,
    })
}

fn create(input: &[u8]) -> Result<ResourceState, ProfileError>
    ensures { result ≡ next_over [] input.now (in_text subject ∷ in_amount remaining ∷ in_amount maximum ∷ []) (a_meter (Part.Input subject) (given remaining) (given maximum)) }
{
    input_str(input, SUBJECT)?;
    let remaining = input_amount(input, REMAINING)?;
    let maximum = input_amount(input, MAXIMUM)?;
    Ok(meter(Part::Input(SUBJECT), remaining, maximum))
}

// Born, st subject, st maximum.
fn current_maximum(state: &[u8]) -> Result<Amount, ProfileError>
    ensures { result ≡ amount_over state.now [] metering (kept maximum) }
{
    require_current(state)?;
    state_str(state, SUBJECT)?;
    state_amount(state, MAXIMUM)
}

fn consume(state: &[u8], input: &[u8]) -> Result<ResourceState, ProfileError>
    ensures { result ≡ next_over state.now input.now (metering ++ lowering remaining amount) (a_meter (Part.State subject) (the_difference remaining amount) (kept maximum)) }
{
    let maximum = current_maximum(state)?;
    let left = lowered(state, input, REMAINING, AMOUNT)?;
    Ok(meter(Part::State(SUBJECT), left, maximum))
}

fn refill(state: &[u8]) -> Result<ResourceState, ProfileError>
    ensures { result ≡ next_over state.now [] metering (a_meter (Part.State subject) (kept maximum) (kept maximum)) }
{
    let maximum = current_maximum(state)?;
    Ok(meter(Part::State(SUBJECT), maximum, maximum))
}

// On a tie remaining is kept as it was, its scale too.
fn set_maximum(state: &[u8], input: &[u8]) -> Result<ResourceState, ProfileError>
    ensures { result ≡ next_over state.now input.now (born ∷ st_text subject ∷ st_amount remaining ∷ in_amount maximum ∷ []) (a_meter (Part.State subject) (lesser maximum remaining) (given maximum)) }
{
    require_current(state)?;
    state_str(state, SUBJECT)?;
    let remaining = state_amount(state, REMAINING)?;
    let maximum = input_amount(input, MAXIMUM)?;
    Ok(meter(Part::State(SUBJECT), maximum.min(remaining), maximum))
}

// Reset and expire leave nothing.
fn reset(state: &[u8]) -> Result<ResourceState, ProfileError>
    ensures { result ≡ next_over state.now [] metering (a_meter (Part.State subject) zero (kept maximum)) }
{
    let maximum = current_maximum(state)?;
    Ok(meter(Part::State(SUBJECT), Amount::ZERO, maximum))
}
