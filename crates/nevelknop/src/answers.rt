// The one number that C gets for an answer.
ghost use Rattle.std.specs.Prelude.{◌≡◌};
ghost use Rattle.nevelknop.specs.Calls.{run_number};
ghost use Rattle.nevelknop.specs.Inner.{PlaceFits};

use words::Refusal;

// One more than the highest place that an answer has room for.
const PLACES: u64 = 1 << 32;

// The count, or the refusal's number above its place; no place that a call gives reaches 2^32.
pub(crate) fn answer(told: Result<u32, Refusal>) -> u64
    requires { PlaceFits told }
    ensures { result ≡ run_number told }
{
    match told {
        Ok(count) => u64::from(count),
        Err(r) => u64::from(r.reason.number()) * PLACES + r.place as u64,
    }
}
