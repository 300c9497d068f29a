// A cell of a table, and the sides that it may have under a pair rule.
ghost use Rattle.std.specs.Prelude.{◌≡◌, ◌/◌, ◌<◌, IfErr, IfOk, Err};
ghost use Rattle.words.specs.Refusals.{Good};
ghost use Rattle.meaning.specs.Table.{cell as cell_of};
ghost use Rattle.witness.specs.Answers.{arguments_check};
ghost use Rattle.witness.specs.Walks.{left_spot, right_spot, spot_of};

use lists::Lists;
use meaning::cell;
use numbers::Numbers;
use words::{Reason, Refusal, must};

// The first argument out of range, if one is.
#[tactic(auto, using(words::proofs::Refusals::refusing), unfolding(crate::specs::Answers::arguments_check))]
fn arguments(numbers: Numbers, a: usize, i: usize, j: usize) -> Result<(), Refusal>
    ensures { result ≡ arguments_check numbers a i j }
{
    must(a < numbers.nonterminals, Reason::WrongArgument, 0)?;
    must(i < numbers.nodes, Reason::WrongArgument, 1)?;
    must(j < numbers.nodes, Reason::WrongArgument, 2)
}

// Cell (a, i, j) of a table over `nodes` nodes.
#[derive(Clone, Copy)]
pub struct Spot {
    pub(crate) nodes: u16,
    pub(crate) a: u16,
    pub(crate) i: u16,
    pub(crate) j: u16,
}

impl Spot {
    // The spot of cell number c.
    pub(crate) fn of(nodes: u16, c: usize) -> Self
        requires { (0 < nodes) × (c / nodes / nodes < 65536) }
        ensures { result ≡ spot_of nodes c }
    {
        let n = nodes as usize;
        Spot {
            nodes,
            a: (c / n / n) as u16,
            i: (c / n % n) as u16,
            j: (c % n) as u16,
        }
    }

    // The spot of three arguments, if they are in range.
    #[tactic(auto, using(crate::proofs::Accepts::sizes, crate::proofs::Accepts::in_range))]
    pub(crate) fn asked(lists: Lists, a: usize, i: usize, j: usize) -> Result<Self, Refusal>
        ensures ok { IfOk result (λ s. (s ≡ record { nodes = lists.entry.numbers.nodes; a = a; i = i; j = j }) × (arguments_check lists.entry.numbers a i j ≡ Good)) }
        ensures err { IfErr result (λ r. arguments_check lists.entry.numbers a i j ≡ Err r) }
    {
        arguments(lists.numbers, a, i, j)?;
        Ok(Spot {
            nodes: lists.numbers.nodes as u16,
            a: a as u16,
            i: i as u16,
            j: j as u16,
        })
    }

    pub(crate) fn cell(self) -> usize
        ensures { result ≡ cell_of self.nodes self.a self.i self.j }
    {
        cell(self.nodes, self.a, self.i, self.j)
    }

    // The left side of this cell, for a pair rule's left nonterminal and a middle.
    pub(crate) fn left(self, a: u16, middle: u16) -> Self
        ensures { result ≡ left_spot self a middle }
    {
        Spot {
            nodes: self.nodes,
            a,
            i: self.i,
            j: middle,
        }
    }

    pub(crate) fn right(self, a: u16, middle: u16) -> Self
        ensures { result ≡ right_spot self a middle }
    {
        Spot {
            nodes: self.nodes,
            a,
            i: middle,
            j: self.j,
        }
    }
}
