// The profiles: the checks of stacks, balances and meters.
#![tactic(auto)]

ghost use Rattle.std.specs.Prelude.{◌≡◌};
ghost use Rattle.profiles.specs.Check.{check_of};

pub mod consumable_stack;
pub mod fungible_balance;
pub mod meter;

use registry::error::ProfileError;
use registry::op;

// Whether an operation of a profile may be done on a state with an input: refusals 1 to 3, then the profile's
// lists, which give 4. A match, not a table of functions: it says what the other numbers are.
#[tactic(auto, unfolding(crate::specs::Check::check_of, registry::specs::Call::called))]
pub fn check(profile: u8, operation: u8, state: &[u8], input: &[u8]) -> Result<(), ProfileError>
    ensures { result ≡ check_of profile operation state.now input.now }
{
    registry::require_sound_state(state, 1)?;
    registry::require_sound_input(input)?;
    match profile {
        op::STACK => consumable_stack::check(operation, state, input),
        op::BALANCE => fungible_balance::check(operation, state, input),
        op::METER => meter::check(operation, state, input),
        _ => Err(ProfileError::UnknownProfile),
    }
}
