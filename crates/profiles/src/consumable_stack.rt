// The stack's checks, the port of consumable_stack.rs.
// A function for each row of document 01, and for each amount of a state, by the Rust's name, where two are alike too.
ghost use Rattle.std.specs.Prelude.{◌≡◌, not, [], ◌∷◌, eqb, length};
ghost use Rattle.sheet.specs.Fields.{field, sight_of, quantity, to_subject};
ghost use Rattle.registry.specs.Readers.{amount_in, amount_of};
ghost use Rattle.registry.specs.Tests.{first_of, state_there, born, in_text, in_amount, positive, draws_on, creates};
ghost use Rattle.profiles.specs.Stack.{stack_rules};

use amount::Amount;
use registry::error::ProfileError;
use registry::op;
use sheet::{QUANTITY, TO_SUBJECT};

// The operation's list; 4 where it is not of this profile.
#[tactic(auto, unfolding(crate::specs::Stack::stack_rules))]
pub fn check(operation: u8, state: &[u8], input: &[u8]) -> Result<(), ProfileError>
    ensures { result ≡ stack_rules amount_in (sight_of state.now) (field input.now) operation }
{
    let op = operation;
    match op {
        op::STACK_CREATE => check_create(state, input),
        op::STACK_CREDIT => check_credit(state, input),
        op::STACK_DEBIT => check_debit(state, input),
        op::STACK_CONSUME => check_consume(state, input),
        op::STACK_TRANSFER => check_transfer(state, input),
        op::STACK_RESERVE => check_reserve(state, input),
        op::STACK_RELEASE => check_release(state, input),
        op::STACK_EXPIRE => check_expire(state),
        op::STACK_ADJUST => check_adjust(state, input),
        _ => Err(ProfileError::UnknownOperation),
    }
}

fn check_create(state: &[u8], input: &[u8]) -> Result<(), ProfileError>
    ensures { result ≡ first_of state.now input.now (creates quantity) }
{
    registry::check_creating(state, input, QUANTITY)
}

fn check_credit(state: &[u8], input: &[u8]) -> Result<(), ProfileError>
    ensures { result ≡ first_of state.now input.now (born ∷ in_amount quantity ∷ []) }
{
    registry::check_setting(state, input, QUANTITY)
}

fn check_debit(state: &[u8], input: &[u8]) -> Result<(), ProfileError>
    ensures { result ≡ first_of state.now input.now (born ∷ draws_on quantity quantity) }
{
    registry::check_taking(state, input, current_quantity(state), QUANTITY)
}

fn check_consume(state: &[u8], input: &[u8]) -> Result<(), ProfileError>
    ensures { result ≡ first_of state.now input.now (born ∷ draws_on quantity quantity) }
{
    check_debit(state, input)
}

fn check_transfer(state: &[u8], input: &[u8]) -> Result<(), ProfileError>
    ensures { result ≡ first_of state.now input.now (born ∷ in_text to_subject ∷ draws_on quantity quantity) }
{
    registry::check_taking_with(state, input, TO_SUBJECT, current_quantity(state), QUANTITY)
}

fn check_reserve(state: &[u8], input: &[u8]) -> Result<(), ProfileError>
    ensures { result ≡ first_of state.now input.now (born ∷ draws_on quantity quantity) }
{
    check_debit(state, input)
}

fn check_release(state: &[u8], input: &[u8]) -> Result<(), ProfileError>
    ensures { result ≡ first_of state.now input.now (born ∷ in_amount quantity ∷ positive quantity ∷ []) }
{
    registry::require_current(state)?;
    let requested = registry::input_amount(input, QUANTITY)?;
    registry::require_positive(requested)
}

fn check_expire(state: &[u8]) -> Result<(), ProfileError>
    ensures { result ≡ state_there (not (eqb (length state.now) 0)) }
{
    registry::require_current(state)
}

fn check_adjust(state: &[u8], input: &[u8]) -> Result<(), ProfileError>
    ensures { result ≡ first_of state.now input.now (born ∷ in_amount quantity ∷ []) }
{
    registry::check_setting(state, input, QUANTITY)
}

fn current_quantity(state: &[u8]) -> Result<Amount, ProfileError>
    ensures { result ≡ amount_of quantity (field state.now quantity) }
{
    registry::state_amount(state, QUANTITY)
}
