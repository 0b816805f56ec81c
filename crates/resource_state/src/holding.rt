// The next state of stacks and balances. Meters have a module of their own. A match, not a table of functions: it says what the other
// operations are.
ghost use Rattle.std.specs.Prelude.{◌≡◌, ◌||◌, eqb, false};
ghost use Rattle.sheet.specs.Fields.{field, sight_of, subject, unit};
ghost use Rattle.registry.specs.Readers.{amount_in};
ghost use Rattle.resource_state.specs.Next.{stack_of, balance_of, with_amount};
ghost use Rattle.resource_state.specs.Apply.{stack_next, balance_next};

use super::amounts::{adjusted, converted, created, credited, debited, expired, transferred};
use super::{ConsumableStackState, FungibleBalanceState, Part, ResourceState};
use amount::Amount;
use registry::error::ProfileError;
use registry::op;
use sheet::{AMOUNT, BALANCE, QUANTITY, SUBJECT, TO_UNIT, UNIT};

// A stack with these texts and the amount that was read. `balance` makes another variant of other fields, the Rust's. The question mark:
// std's `map` copies the whole `Result` once more, which the processor waits for.
pub fn stack(
    subject: Part,
    unit: Part,
    quantity: Result<Amount, ProfileError>,
) -> Result<ResourceState, ProfileError>
    ensures { result ≡ with_amount quantity (stack_of subject unit) }
{
    let quantity = quantity?;
    Ok(ResourceState::ConsumableStack(ConsumableStackState {
        subject,
        quantity,
        unit,
    }))
}

pub fn balance(
    subject: Part,
    unit: Part,
    amount: Result<Amount, ProfileError>,
) -> Result<ResourceState, ProfileError>
    ensures { result ≡ with_amount amount (balance_of subject unit) }
{
    let balance = amount?;
    Ok(ResourceState::FungibleBalance(FungibleBalanceState {
        subject,
        balance,
        unit,
    }))
}

#[tactic(auto, unfolding(crate::specs::Apply::stack_next))]
pub fn apply_stack(operation: u8, state: &[u8], input: &[u8]) -> Result<ResourceState, ProfileError>
    ensures { result ≡ stack_next amount_in (sight_of state.now) (field input.now) operation }
{
    match operation {
        op::STACK_CREATE => stack(
            Part::Input(SUBJECT),
            Part::Input(UNIT),
            created(input, QUANTITY),
        ),
        _ => stack(
            Part::State(SUBJECT),
            Part::State(UNIT),
            next_quantity(operation, state, input),
        ),
    }
}

// Of a stack that keeps its texts: every operation but create.
#[tactic(auto, unfolding(crate::specs::Apply::stack_next))]
fn next_quantity(operation: u8, state: &[u8], input: &[u8]) -> Result<Amount, ProfileError>
    ensures { eqb operation 1 ≡ false
        → with_amount result (stack_of (Part.State subject) (Part.State unit)) ≡ stack_next amount_in (sight_of state.now) (field input.now) operation }
{
    match operation {
        op::STACK_CREDIT => credited(state, input, QUANTITY, QUANTITY),
        op::STACK_DEBIT => debited(state, input, QUANTITY, QUANTITY),
        op::STACK_CONSUME => debited(state, input, QUANTITY, QUANTITY),
        op::STACK_TRANSFER => transferred(state, input, QUANTITY, QUANTITY),
        op::STACK_RESERVE => debited(state, input, QUANTITY, QUANTITY),
        op::STACK_RELEASE => credited(state, input, QUANTITY, QUANTITY),
        op::STACK_EXPIRE => expired(state),
        op::STACK_ADJUST => adjusted(state, input, QUANTITY),
        _ => Err(ProfileError::UnknownOperation),
    }
}

#[tactic(auto, unfolding(crate::specs::Apply::balance_next))]
pub fn apply_balance(
    operation: u8,
    state: &[u8],
    input: &[u8],
) -> Result<ResourceState, ProfileError>
    ensures { result ≡ balance_next amount_in (sight_of state.now) (field input.now) operation }
{
    match operation {
        op::BALANCE_CREATE => balance(
            Part::Input(SUBJECT),
            Part::Input(UNIT),
            created(input, BALANCE),
        ),
        op::BALANCE_CONVERT => balance(
            Part::State(SUBJECT),
            Part::Input(TO_UNIT),
            converted(state, input),
        ),
        _ => balance(
            Part::State(SUBJECT),
            Part::State(UNIT),
            next_balance(operation, state, input),
        ),
    }
}

// Of a balance that keeps its texts: every operation but create and convert.
#[tactic(auto, unfolding(crate::specs::Apply::balance_next))]
fn next_balance(operation: u8, state: &[u8], input: &[u8]) -> Result<Amount, ProfileError>
    ensures { eqb operation 11 || eqb operation 20 ≡ false
        → with_amount result (balance_of (Part.State subject) (Part.State unit)) ≡ balance_next amount_in (sight_of state.now) (field input.now) operation }
{
    match operation {
        op::BALANCE_MINT => credited(state, input, BALANCE, AMOUNT),
        op::BALANCE_CREDIT => credited(state, input, BALANCE, AMOUNT),
        op::BALANCE_DEBIT => debited(state, input, BALANCE, AMOUNT),
        op::BALANCE_TRANSFER => transferred(state, input, BALANCE, AMOUNT),
        op::BALANCE_RESERVE => debited(state, input, BALANCE, AMOUNT),
        op::BALANCE_RELEASE => credited(state, input, BALANCE, AMOUNT),
        op::BALANCE_SPEND => debited(state, input, BALANCE, AMOUNT),
        op::BALANCE_BURN => debited(state, input, BALANCE, AMOUNT),
        _ => Err(ProfileError::UnknownOperation),
    }
}
