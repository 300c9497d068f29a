// Numbers in lists of words: little-endian words in bytes at every size, and the refusals that checks give.
// Every function is total, but that `scan` asks of its check that it can be called, and a caller's own `Word` may ask that a
// number fits it; and each promise settles its answer, that of `scan` where each call of its check has one, and those that make
// a word of any size at a `PlainWord`.
#![tactic(auto)]

ghost use Rattle.std.specs.Prelude.{◌≡◌, ◌<◌, ℕ, Some};
ghost use Rattle.words.specs.Refusals.{must as must_of, number_of, text_of, ScanIs};

mod little_endian;

pub use crate::little_endian::{PlainWord, Word, read, write};
use std::fmt;

// Why a call is refused, by the number that C and the report tell.
#[derive(Clone, Copy, Debug, PartialEq, Eq)]
pub enum Reason {
    WrongSize = 1,
    WrongSum = 2,
    WrongOrder = 3,
    WrongNumber = 4,
    WrongCount = 5,
    WrongEntry = 6,
    WrongRule = 7,
    WrongEdge = 8,
    UnknownKind = 9,
    TooShort = 10,
    WrongCell = 11,
    TooHigh = 12,
    TooLarge = 13,
    NoPath = 14,
    WrongArgument = 15,
}

impl Reason {
    pub fn number(self) -> u32
        ensures { result ≡ number_of self }
    {
        self as u32
    }
}

// A reason, and the place that it speaks of: one of the fifteen, unless the caller has its own.
#[derive(Clone, Copy, Debug, PartialEq, Eq)]
pub struct Refusal<R = Reason> {
    pub reason: R,
    pub place: usize,
}

impl fmt::Display for Refusal {
    ghost output = { λ r. Some (text_of r) };

    fn fmt<W: fmt::Write>(&self, f: &mut fmt::Formatter<W>) -> fmt::Result {
        let number = self.reason.number();
        let place = self.place;
        write!(f, "refused {number} at {place}")
    }
}

// A refusal for `reason` at `place`, unless `ok` holds. A reason is what the caller takes for one: here it is always a `Reason`.
#[tactic(auto, unfolding(crate::specs::Refusals::must))]
pub fn must<R: Copy>(ok: bool, reason: R, place: usize) -> Result<(), Refusal<R>>
    ensures { result ≡ must_of ok reason place }
{
    if ok {
        Ok(())
    } else {
        Err(Refusal { reason, place })
    }
}

// The checks of 0, 1, .., n - 1 in this order: of several refusals, the one at the lowest index.
pub fn scan<F: Fn(usize) -> Result<(), Refusal>>(n: usize, check: F) -> Result<(), Refusal>
    requires { (k : ℕ) → k < n → F.pre check k }
    ensures { ScanIs (λ k r. F.post check k r) n result }
{
    for k in 0..n {
        check(k)?;
    }
    Ok(())
}
