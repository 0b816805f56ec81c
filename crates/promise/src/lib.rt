// Document 02's request 4: an accepted check is a promise, under what specs/Promise.antt asks; of the two functions that C's calls hand on to.
#![tactic(auto)]

ghost use Rattle.std.specs.Prelude.{◌≡◌};
ghost use Rattle.registry.specs.Refusals.{answer_of};
ghost use Rattle.profiles.specs.Check.{check_of};
ghost use Rattle.transition.specs.Written.{answer_to, buffer_after};
ghost use Rattle.promise.specs.Promise.{next_checked, Promise};

use credits::{credits_apply, credits_check};
use registry::error::Answer;

// Check, and where it accepts, apply, which alone does not ask what check asks. include/credits.h has the same lines in C, tested and not
// proved.
pub fn check_then_apply<'a>(
    profile: u8,
    operation: u8,
    state: &'a [u8],
    input: &'a [u8],
    out: &mut [u8],
) -> Answer
    ensures { (result ≡ answer_to (next_checked profile operation state.now input.now) state.now input.now out.old)
        × (out.new ≡ buffer_after (next_checked profile operation state.now input.now) state.now input.now out.old)
        × Promise profile operation state.now input.now out.old (answer_of (check_of profile operation state.now input.now)) result out.new }
{
    let checked = credits_check(profile, operation, state, input);
    if checked.number != 0 {
        return checked;
    }
    credits_apply(profile, operation, state, input, out)
}
