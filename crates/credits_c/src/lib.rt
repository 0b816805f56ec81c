// The exports of `credits`, for C: include/credits.h declares them. Each is one call of the function of its name, under the same clauses.
#![tactic(auto)]

ghost use Rattle.std.specs.Prelude.{◌≡◌};
ghost use Rattle.amount.specs.Amounts.{read_of, compare_of, sum_of, difference_of, given_of};
ghost use Rattle.amount.specs.Canonical.{as_text, canonical_text};
ghost use Rattle.registry.specs.Refusals.{answer_of};
ghost use Rattle.profiles.specs.Check.{check_of};
ghost use Rattle.resource_state.specs.Apply.{next_of};
ghost use Rattle.transition.specs.Credit.{credit_of};
ghost use Rattle.transition.specs.Written.{answer_to, buffer_after};
ghost use Rattle.credits.specs.Numbers.{order_number};

use amount::{Amount, Given, Text};
use registry::error::Answer;

mod book_calls;
mod session_calls;

#[unsafe(no_mangle)]
pub extern "C" fn credits_amount_read(text: &[u8]) -> Given
    ensures { result ≡ given_of (read_of text.now) }
{
    credits::credits_amount_read(text)
}

#[unsafe(no_mangle)]
pub extern "C" fn credits_amount_compare(a: Amount, b: Amount) -> u8
    ensures { result ≡ order_number (compare_of a b) }
{
    credits::credits_amount_compare(a, b)
}

#[unsafe(no_mangle)]
pub extern "C" fn credits_amount_add(a: Amount, b: Amount) -> Given
    ensures { result ≡ given_of (sum_of a b) }
{
    credits::credits_amount_add(a, b)
}

#[unsafe(no_mangle)]
pub extern "C" fn credits_amount_sub(a: Amount, b: Amount) -> Given
    ensures { result ≡ given_of (difference_of a b) }
{
    credits::credits_amount_sub(a, b)
}

#[unsafe(no_mangle)]
pub extern "C" fn credits_amount_text(a: Amount) -> Text
    ensures { result ≡ as_text (canonical_text a) }
{
    credits::credits_amount_text(a)
}

#[unsafe(no_mangle)]
pub extern "C" fn credits_check(profile: u8, operation: u8, state: &[u8], input: &[u8]) -> Answer
    ensures { result ≡ answer_of (check_of profile operation state.now input.now) }
{
    credits::credits_check(profile, operation, state, input)
}

#[unsafe(no_mangle)]
pub extern "C" fn credits_apply<'a>(
    profile: u8,
    operation: u8,
    state: &'a [u8],
    input: &'a [u8],
    out: &mut [u8],
) -> Answer
    ensures { (result ≡ answer_to (next_of profile operation state.now input.now) state.now input.now out.old)
        × (out.new ≡ buffer_after (next_of profile operation state.now input.now) state.now input.now out.old) }
{
    credits::credits_apply(profile, operation, state, input, out)
}

#[unsafe(no_mangle)]
pub extern "C" fn credits_credit<'a>(
    operation: u8,
    source: &'a [u8],
    destination: &[u8],
    input: &'a [u8],
    out: &mut [u8],
) -> Answer
    ensures { (result ≡ answer_to (credit_of operation source.now destination.now input.now) source.now input.now out.old)
        × (out.new ≡ buffer_after (credit_of operation source.now destination.now input.now) source.now input.now out.old) }
{
    credits::credits_credit(operation, source, destination, input, out)
}
