// The header numbers: their limits, the smaller ones of the report and the C calls, the room that a lent buffer needs, the
// number of cells.
// Every function is total; the promise of each is the definition it names.
#![tactic(auto)]

ghost use Rattle.std.specs.Prelude.{◌≡◌};
ghost use Rattle.meaning.specs.Table.{cell_count};
ghost use Rattle.numbers.specs.Numbers.{between as between_of, in_limits, limits_check, large_check, room_check};

use meaning::cell;
use words::{Reason, Refusal, must};

// The first three header numbers.
#[derive(Clone, Copy, Debug, PartialEq, Eq)]
pub struct Numbers {
    pub nodes: usize,
    pub nonterminals: usize,
    pub labels: usize,
}

pub fn between(low: usize, high: usize, x: usize) -> bool
    ensures { result ≡ between_of low high x }
{
    low <= x && x <= high
}

// Whether header word `word` may be `x`; a word past the seven is 0. A number and no enum: docs/STATEMENTS.md names the
// call, and a deck's words are counted.
pub fn in_limits(word: usize, x: usize) -> bool
    ensures { result ≡ in_limits word x }
{
    match word {
        0 => between(1, 64, x),
        1 => between(1, 32, x),
        2 => between(1, 255, x),
        3 => between(0, 256, x),
        4 => between(0, 256, x),
        5 => between(0, 4096, x),
        _ => between(0, 0, x),
    }
}

// The numbers, and the counts of lists of so many words, are within their limits.
#[tactic(auto, using(words::proofs::Refusals::refusing), unfolding(crate::specs::Numbers::limits_check))]
pub fn limits(numbers: Numbers, rules: usize, edges: usize) -> Result<(), Refusal>
    ensures { result ≡ limits_check numbers rules edges }
{
    must(in_limits(0, numbers.nodes), Reason::WrongNumber, 0)?;
    must(in_limits(1, numbers.nonterminals), Reason::WrongNumber, 1)?;
    must(in_limits(2, numbers.labels), Reason::WrongNumber, 2)?;
    must(in_limits(4, rules / 3), Reason::WrongNumber, 4)?;
    must(in_limits(5, edges / 3), Reason::WrongNumber, 5)
}

// No more nodes, nonterminals and edges than the report and the C calls take.
#[tactic(auto, using(words::proofs::Refusals::refusing), unfolding(crate::specs::Numbers::large_check))]
pub fn large(numbers: Numbers, edges: usize) -> Result<(), Refusal>
    ensures { result ≡ large_check numbers edges }
{
    must(numbers.nodes <= 16, Reason::TooLarge, 0)?;
    must(numbers.nonterminals <= 8, Reason::TooLarge, 1)?;
    must(edges <= 1024, Reason::TooLarge, 5)
}

// A lent buffer, named by `place`, of `have` words holds the `want` needed. A number and no enum: docs/STATEMENTS.md names
// the call, and the refusal's place is that number.
#[tactic(auto, unfolding(crate::specs::Numbers::room_check))]
pub fn room(place: usize, want: usize, have: usize) -> Result<(), Refusal>
    ensures { result ≡ room_check place want have }
{
    must(want <= have, Reason::TooShort, place)
}

// The number of cells, which is that of the first cell of one nonterminal more.
pub fn cells(nodes: u16, nonterminals: u16) -> usize
    ensures { result ≡ cell_count nodes nonterminals }
{
    cell(nodes, nonterminals, 0, 0)
}
