// The balance's checks, the port of fungible_balance.rs.
// A function for each row of document 01, and for each amount of a state, by the Rust's name, where two are alike too.
ghost use Rattle.std.specs.Prelude.{◌≡◌, ◌∷◌};
ghost use Rattle.sheet.specs.Fields.{field, sight_of, balance, to_subject, to_unit, authorized_by};
ghost use Rattle.registry.specs.Readers.{amount_in, amount_of};
ghost use Rattle.registry.specs.Tests.{first_of, born, in_text, creates};
ghost use Rattle.profiles.specs.Balance.{credited, debited, balance_rules};

use amount::Amount;
use registry::error::ProfileError;
use registry::op;
use sheet::{AMOUNT, AUTHORIZED_BY, BALANCE, TO_SUBJECT, TO_UNIT};

// The operation's list; 4 where it is not of this profile.
#[tactic(auto, unfolding(crate::specs::Balance::balance_rules))]
pub fn check(operation: u8, state: &[u8], input: &[u8]) -> Result<(), ProfileError>
    ensures { result ≡ balance_rules amount_in (sight_of state.now) (field input.now) operation }
{
    let op = operation;
    match op {
        op::BALANCE_CREATE => check_create(state, input),
        op::BALANCE_MINT => check_mint(state, input),
        op::BALANCE_CREDIT => check_credit(state, input),
        op::BALANCE_DEBIT => check_debit(state, input),
        op::BALANCE_TRANSFER => check_transfer(state, input),
        op::BALANCE_RESERVE => check_reserve(state, input),
        op::BALANCE_RELEASE => check_release(state, input),
        op::BALANCE_SPEND => check_spend(state, input),
        op::BALANCE_BURN => check_burn(state, input),
        op::BALANCE_CONVERT => check_convert(state, input),
        _ => Err(ProfileError::UnknownOperation),
    }
}

fn check_create(state: &[u8], input: &[u8]) -> Result<(), ProfileError>
    ensures { result ≡ first_of state.now input.now (creates balance) }
{
    registry::check_creating(state, input, BALANCE)
}

fn check_mint(state: &[u8], input: &[u8]) -> Result<(), ProfileError>
    ensures { result ≡ first_of state.now input.now (born ∷ in_text authorized_by ∷ credited) }
{
    registry::require_current(state)?;
    registry::input_str(input, AUTHORIZED_BY)?;
    require_credited(state, input)
}

fn check_credit(state: &[u8], input: &[u8]) -> Result<(), ProfileError>
    ensures { result ≡ first_of state.now input.now (born ∷ credited) }
{
    registry::require_current(state)?;
    require_credited(state, input)
}

fn check_debit(state: &[u8], input: &[u8]) -> Result<(), ProfileError>
    ensures { result ≡ first_of state.now input.now (born ∷ debited) }
{
    registry::check_taking(state, input, current_balance(state), AMOUNT)
}

fn check_transfer(state: &[u8], input: &[u8]) -> Result<(), ProfileError>
    ensures { result ≡ first_of state.now input.now (born ∷ in_text to_subject ∷ debited) }
{
    registry::check_taking_with(state, input, TO_SUBJECT, current_balance(state), AMOUNT)
}

fn check_reserve(state: &[u8], input: &[u8]) -> Result<(), ProfileError>
    ensures { result ≡ first_of state.now input.now (born ∷ debited) }
{
    check_debit(state, input)
}

fn check_release(state: &[u8], input: &[u8]) -> Result<(), ProfileError>
    ensures { result ≡ first_of state.now input.now (born ∷ credited) }
{
    check_credit(state, input)
}

fn check_spend(state: &[u8], input: &[u8]) -> Result<(), ProfileError>
    ensures { result ≡ first_of state.now input.now (born ∷ debited) }
{
    check_debit(state, input)
}

fn check_burn(state: &[u8], input: &[u8]) -> Result<(), ProfileError>
    ensures { result ≡ first_of state.now input.now (born ∷ in_text authorized_by ∷ debited) }
{
    registry::check_taking_with(state, input, AUTHORIZED_BY, current_balance(state), AMOUNT)
}

fn check_convert(state: &[u8], input: &[u8]) -> Result<(), ProfileError>
    ensures { result ≡ first_of state.now input.now (born ∷ in_text to_unit ∷ debited) }
{
    registry::check_taking_with(state, input, TO_UNIT, current_balance(state), AMOUNT)
}

fn current_balance(state: &[u8]) -> Result<Amount, ProfileError>
    ensures { result ≡ amount_of balance (field state.now balance) }
{
    registry::state_amount(state, BALANCE)
}

// The amount asked for and the balance are readable, and the first is not zero (refusal 14): what mint, credit and release share.
fn require_credited(state: &[u8], input: &[u8]) -> Result<(), ProfileError>
    ensures { result ≡ first_of state.now input.now (credited) }
{
    let amount = registry::input_amount(input, AMOUNT)?;
    current_balance(state)?;
    registry::require_positive(amount)
}
