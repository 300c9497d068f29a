// The run: start, passes until still, lengths. It answers the depth.
// `run` is total. Its promise, specs/Runs.antt, settles its answer and every word of both lent slices (proofs/Settled.antt).
#![tactic(auto)]

ghost use Rattle.std.specs.Prelude.{◌≡◌, length};
ghost use Rattle.lists.specs.Lists.{net};
ghost use Rattle.closure.specs.Sizes.{count, RuleInside};
ghost use Rattle.closure.specs.Runs.{run_check, RunIs};

use crate::depth::depth_of;
use crate::lengths::Still;
use crate::passes::Grammar;
use lists::check;
use numbers::{Numbers, cells, room};
use start::{begin, clear};
use words::Refusal;

mod depth;
mod lengths;
mod passes;

// The numbers of nodes and nonterminals, once they are known to be small.
#[derive(Clone, Copy)]
struct Size {
    nodes: u16,
    nonterminals: u16,
}

impl Size {
    fn cells(self) -> usize
        ensures { result ≡ count self }
    {
        cells(self.nodes, self.nonterminals)
    }
}

// A pair rule of nonterminals that there are, read once, with its number.
#[derive(Clone, Copy)]
struct PairRule {
    size: Size,
    number: u16,
    head: u16,
    left: u16,
    right: u16,
    ghost inside: { RuleInside size head left right },
}

// Fills the table with the smallest key of each cell, by passes until one moves nothing, and then the lengths. Answers the
// depth. Refused as the lists are, then where the table, named 0, or the lengths, named 1, have too few words; a step that
// is too high would end the run with every cell empty and every length 0. A public call keeps its slices and numbers.
#[tactic(auto, using(words::proofs::Refusals::refusing, lists::proofs::Right::accepted, crate::proofs::Closing::run_refused), unfolding(crate::specs::Runs::run_check))]
pub fn run(
    numbers: Numbers,
    rules: &[u16],
    edges: &[u16],
    table: &mut [u64],
    lengths: &mut [u32],
) -> Result<u32, Refusal>
    ensures { RunIs (run_check numbers rules.now edges.now (length table.old) (length lengths.old)) (net numbers rules.now edges.now) table.old lengths.old table.new lengths.new result }
{
    // The lists are asked once: what the passes need of the answer is the invariant of Grammar.
    check(numbers, rules, edges)?;
    let size = Size {
        nodes: numbers.nodes as u16,
        nonterminals: numbers.nonterminals as u16,
    };
    let n = size.cells();
    room(0, n, table.len())?;
    room(1, n, lengths.len())?;
    let count = (rules.len() / 3) as u16;
    begin(size.nodes, size.nonterminals, rules, edges, table, count);
    let grammar = Grammar { size, rules };
    if let Err(refusal) = grammar.settle(table) {
        clear(table, n);
        lengths[..n].fill(0);
        return Err(refusal);
    }
    let still = Still { grammar, table };
    still.fill_all(lengths);
    Ok(depth_of(table, n))
}
