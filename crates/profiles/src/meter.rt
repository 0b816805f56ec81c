// The meter's checks, the port of meter.rs.
// A function for each row of document 01, and for each amount of a state, by the Rust's name, where two are alike too.
ghost use Rattle.std.specs.Prelude.{◌≡◌, not, List, [], ◌∷◌, ℕ, eqb, length};
ghost use Rattle.sheet.specs.Fields.{field, sight_of, subject, remaining, maximum, amount};
ghost use Rattle.registry.specs.Readers.{amount_in, amount_of};
ghost use Rattle.registry.specs.Tests.{first_of, state_there, unborn, born, in_text, in_amount, st_amount, up_to_maximum, draws_on};
ghost use Rattle.profiles.specs.Meter.{meter_rules};

use amount::Amount;
use registry::error::ProfileError;
use registry::op;
use sheet::{AMOUNT, MAXIMUM, REMAINING, SUBJECT};

// The operation's list; 4 where it is not of this profile.
#[tactic(auto, unfolding(crate::specs::Meter::meter_rules))]
pub fn check(operation: u8, state: &[u8], input: &[u8]) -> Result<(), ProfileError>
    ensures { result ≡ meter_rules amount_in (sight_of state.now) (field input.now) operation }
{
    let op = operation;
    match op {
        op::METER_CREATE => check_create(state, input),
        op::METER_CONSUME => check_consume(state, input),
        op::METER_REFILL => check_refill(state),
        op::METER_SET_MAXIMUM => check_set_maximum(state, input),
        op::METER_RESET => check_reset(state),
        op::METER_EXPIRE => check_expire(state),
        _ => Err(ProfileError::UnknownOperation),
    }
}

fn check_create(state: &[u8], input: &[u8]) -> Result<(), ProfileError>
    ensures { result ≡ first_of state.now input.now (unborn ∷ in_text subject ∷ in_amount remaining ∷ in_amount maximum ∷ up_to_maximum remaining maximum ∷ []) }
{
    registry::require_unborn(state)?;
    registry::input_str(input, SUBJECT)?;
    let remaining = registry::input_amount(input, REMAINING)?;
    let maximum = registry::input_amount(input, MAXIMUM)?;
    registry::require_up_to(remaining, maximum)
}

fn check_consume(state: &[u8], input: &[u8]) -> Result<(), ProfileError>
    ensures { result ≡ first_of state.now input.now (born ∷ draws_on remaining amount) }
{
    registry::check_taking(state, input, current_remaining(state), AMOUNT)
}

fn check_refill(state: &[u8]) -> Result<(), ProfileError>
    ensures { (i : List ℕ) → result ≡ first_of state.now i (born ∷ st_amount remaining ∷ st_amount maximum ∷ []) }
{
    registry::require_current(state)?;
    current_remaining(state)?;
    current_maximum(state)?;
    Ok(())
}

fn check_set_maximum(state: &[u8], input: &[u8]) -> Result<(), ProfileError>
    ensures { result ≡ first_of state.now input.now (born ∷ in_amount maximum ∷ []) }
{
    registry::check_setting(state, input, MAXIMUM)
}

fn check_reset(state: &[u8]) -> Result<(), ProfileError>
    ensures { result ≡ state_there (not (eqb (length state.now) 0)) }
{
    registry::require_current(state)
}

fn check_expire(state: &[u8]) -> Result<(), ProfileError>
    ensures { result ≡ state_there (not (eqb (length state.now) 0)) }
{
    registry::require_current(state)
}

fn current_remaining(state: &[u8]) -> Result<Amount, ProfileError>
    ensures { result ≡ amount_of remaining (field state.now remaining) }
{
    registry::state_amount(state, REMAINING)
}

fn current_maximum(state: &[u8]) -> Result<Amount, ProfileError>
    ensures { result ≡ amount_of maximum (field state.now maximum) }
{
    registry::state_amount(state, MAXIMUM)
}
