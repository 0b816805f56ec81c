// What an accepted operation writes: the port of apply and transfer_after_state of transition.rs. `apply` writes the next
// state, `credit` the far end of a transfer. Both take any bytes; a refusal leaves the buffer as it was.
#![tactic(auto)]

ghost use Rattle.std.specs.Prelude.{◌≡◌, ◌<◌, IfOk};
ghost use Rattle.std.specs.Option.{ForSome};
ghost use Rattle.sheet.specs.Fields.{field, sight_of};
ghost use Rattle.resource_state.specs.Next.{text_from};
ghost use Rattle.resource_state.specs.Apply.{next_by, next_of};
ghost use Rattle.transition.specs.Credit.{credit_of};
ghost use Rattle.transition.specs.Written.{written_of, put_of, state_answer, state_buffer, answer_to, buffer_after};
ghost use Rattle.transition.specs.Helpers.{ShortTexts};

mod transfer;

use amount::Amount;
use registry::error::{Answer, ProfileError};
use registry::op;
use resource_state::{Part, ResourceState};
use sheet::{BALANCE_FORM, STACK_FORM};

// Refusals 1 to 4, then those of the operation's reads and arithmetic, then 20: the buffer is too short.
pub fn apply<'a>(
    profile: u8,
    operation: u8,
    state: &'a [u8],
    input: &'a [u8],
    out: &mut [u8],
) -> Answer
    ensures { (result ≡ answer_to (next_of profile operation state.now input.now) state.now input.now out.old)
        × (out.new ≡ buffer_after (next_of profile operation state.now input.now) state.now input.now out.old) }
{
    written(next_of(profile, operation, state, input), state, input, out)
}

// Refusal 1 of the source, 1 of the destination, 2, 19: no transfer, those of the reads and the sum, then 20: the buffer is too short.
pub fn credit<'a>(
    operation: u8,
    source: &'a [u8],
    destination: &[u8],
    input: &'a [u8],
    out: &mut [u8],
) -> Answer
    ensures { (result ≡ answer_to (credit_of operation source.now destination.now input.now) source.now input.now out.old)
        × (out.new ≡ buffer_after (credit_of operation source.now destination.now input.now) source.now input.now out.old) }
{
    written(
        credit_of(operation, source, destination, input),
        source,
        input,
        out,
    )
}

#[tactic(auto, unfolding(resource_state::specs::Apply::next_of))]
fn next_of(
    profile: u8,
    operation: u8,
    state: &[u8],
    input: &[u8],
) -> Result<ResourceState, ProfileError>
    ensures { result ≡ next_of profile operation state.now input.now }
{
    registry::require_call(profile, operation, state, input)?;
    next_state(profile, operation, state, input)
}

#[tactic(auto, unfolding(crate::specs::Credit::credit_of))]
fn credit_of(
    operation: u8,
    source: &[u8],
    destination: &[u8],
    input: &[u8],
) -> Result<ResourceState, ProfileError>
    ensures { result ≡ credit_of operation source.now destination.now input.now }
{
    registry::require_sound_state(source, 1)?;
    registry::require_sound_state(destination, 2)?;
    registry::require_sound_input(input)?;
    transfer::transfer_after_state(operation, source, destination, input)
}

fn next_state(
    profile: u8,
    operation: u8,
    state: &[u8],
    input: &[u8],
) -> Result<ResourceState, ProfileError>
    ensures { result ≡ next_by profile operation (sight_of state.now) (field input.now) }
{
    match profile {
        op::STACK => resource_state::holding::apply_stack(operation, state, input),
        op::BALANCE => resource_state::holding::apply_balance(operation, state, input),
        _ => resource_state::meter::apply_meter(operation, state, input),
    }
}

// The answer to a next state whose texts stand in these two sheets, which is written where it fits.
#[tactic(auto, unfolding(crate::specs::Written::answer_to, crate::specs::Written::buffer_after))]
fn written<'a>(
    next: Result<ResourceState, ProfileError>,
    state: &'a [u8],
    input: &'a [u8],
    out: &mut [u8],
) -> Answer
    requires { IfOk next (λ _. ShortTexts state.now × ShortTexts input.now) }
    ensures { (result ≡ answer_to next state.now input.now out.old)
        × (out.new ≡ buffer_after next state.now input.now out.old) }
{
    match next {
        Ok(next) => put(next, state, input, out),
        Err(e) => Answer::from(e),
    }
}

fn put<'a>(next: ResourceState, state: &'a [u8], input: &'a [u8], out: &mut [u8]) -> Answer
    requires { ShortTexts state.now × ShortTexts input.now }
    ensures { (result ≡ state_answer next state.now input.now out.old)
        × (out.new ≡ state_buffer next state.now input.now out.old) }
{
    match next {
        ResourceState::ConsumableStack(n) => {
            let subject = part_text(n.subject, state, input);
            let unit = part_text(n.unit, state, input);
            fitted(writer::put_holding(out, STACK_FORM, subject, unit, n.quantity))
        }
        ResourceState::FungibleBalance(n) => {
            let subject = part_text(n.subject, state, input);
            let unit = part_text(n.unit, state, input);
            fitted(writer::put_holding(out, BALANCE_FORM, subject, unit, n.balance))
        }
        ResourceState::MeteredResource(n) => {
            let subject = part_text(n.subject, state, input);
            fitted(writer::put_meter(out, subject, n.remaining, n.maximum))
        }
    }
}

// A text of the next state, as a part of the sheet that has it.
fn part_text<'a>(part: Part, state: &'a [u8], input: &'a [u8]) -> &'a [u8]
    ensures { result.now ≡ text_from (field state.now) (field input.now) part }
{
    match part {
        Part::State(name) => registry::text(state, name),
        Part::Input(name) => registry::text(input, name),
    }
}

// Refusal 20: what was to be written does not fit.
fn fitted(written: Option<usize>) -> Answer
    requires { ForSome written (λ n. n < 65536) }
    ensures { result ≡ put_of written }
{
    match written {
        Some(n) => accepted(n as u16),
        None => Answer::from(ProfileError::Narrow),
    }
}

fn accepted(length: u16) -> Answer
    ensures { result ≡ written_of length }
{
    Answer {
        number: 0,
        detail: 0,
        available: Amount::ZERO,
        requested: Amount::ZERO,
        length,
    }
}
