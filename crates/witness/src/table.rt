// The table check: whether each cell is right, whoever made the table.
ghost use Rattle.std.specs.Prelude.{◌≡◌, ◌*◌, ◌/◌, ◌<◌, ◌≤◌, ltb};
ghost use Rattle.key.specs.Keys.{EMPTY};
ghost use Rattle.words.specs.Refusals.{scan as scan_of};
ghost use Rattle.meaning.specs.Computed.{is_leaf, right_cell};
ghost use Rattle.witness.specs.Answers.{cell_check, table_check};
ghost use Rattle.witness.specs.Walks.{at_spot, found_edge, leaf_right, pair_right, sides_right};

use crate::edges::find_edge;
use crate::spot::Spot;
use key::{Key, Parts};
use lists::Lists;
use meaning::{EdgeWords, Rule, at, held_sum, pair_height};
use numbers::{cells, room};
use words::{Reason, Refusal, must, scan};

// A table and its lengths, as they are lent, over lists that are right.
#[derive(Clone, Copy)]
pub struct Held<'a> {
    pub lists: Lists<'a>,
    pub table: &'a [u64],
    pub lengths: &'a [u32],
}

impl<'a> Held<'a> {
    pub(crate) fn key(&self, s: Spot) -> Key
        ensures { result ≡ record { word = at_spot self.now.table.now s } }
    {
        Key::from(at(self.table, s.cell(), 0))
    }

    #[tactic(auto, using(crate::proofs::Rights::not_empty))]
    pub(crate) fn is_filled(&self, s: Spot) -> bool
        ensures { result ≡ ltb (at_spot self.now.table.now s) EMPTY }
    {
        !self.key(s).is_empty()
    }

    pub(crate) fn length(&self, s: Spot) -> u32
        ensures { result ≡ at_spot self.now.lengths.now s }
    {
        at(self.lengths, s.cell(), 0)
    }

    // The lowest edge along a cell with label x, if there is one.
    pub(crate) fn edge(&self, s: Spot, x: u16) -> Option<usize>
        ensures { result ≡ found_edge self.now.lists.edges.now s.i x s.j }
    {
        find_edge(
            self.lists.edges,
            EdgeWords {
                from: s.i,
                label: x,
                to: s.j,
            },
        )
    }

    // Whether rule r is a label rule for the cell's nonterminal, with an edge.
    #[tactic(auto, using(crate::proofs::Rights::leaf_past, crate::proofs::Rights::leaf_label, crate::proofs::Rights::leaf_other, crate::proofs::Rights::leaf_pair))]
    fn is_leaf(&self, s: Spot, r: u16) -> bool
        ensures { result ≡ is_leaf self.now.lists.rules.now self.now.lists.edges.now s.a s.i s.j r }
    {
        let rules = self.lists.rules;
        if rules.len() / 3 <= r as usize {
            return false;
        }
        match Rule::at(rules, r as usize) {
            Rule::Label { head, label } => head == s.a && self.edge(s, label).is_some(),
            Rule::Pair { .. } => false,
        }
    }

    // Whether a pair rule's left and right give a cell its height and its length at its key's middle.
    #[tactic(auto, unfolding(crate::specs::Walks::sides_right))]
    fn sides_right(&self, s: Spot, key: Parts, left: u16, right: u16, length: u32) -> bool
        ensures { result ≡ sides_right self.now.table.now self.now.lengths.now s key left right length }
    {
        let x = s.left(left, key.middle);
        let y = s.right(right, key.middle);
        let height = pair_height(self.key(x).split().height, self.key(y).split().height);
        1 < key.height
            && key.middle < s.nodes
            && self.is_filled(x)
            && self.is_filled(y)
            && key.height as u64 == height
            && length == held_sum(self.length(x), self.length(y))
    }

    // Whether a cell of height 1 has its rule, its edge, its middle and its length.
    #[tactic(auto, unfolding(crate::specs::Walks::leaf_right))]
    fn leaf_right(&self, s: Spot, key: Parts, length: u32) -> bool
        ensures { result ≡ leaf_right self.now.lists.rules.now self.now.lists.edges.now s key length }
    {
        self.is_leaf(s, key.rule) && key.middle == s.i && length == 1
    }

    // Whether a cell of greater height has its rule, its middle and its sides.
    #[tactic(auto, using(crate::proofs::Rights::pair_past, crate::proofs::Rights::pair_pair, crate::proofs::Rights::pair_other, crate::proofs::Rights::pair_label))]
    fn pair_right(&self, s: Spot, key: Parts, length: u32) -> bool
        ensures { result ≡ pair_right self.now.lists.rules.now self.now.table.now self.now.lengths.now s key length }
    {
        let rules = self.lists.rules;
        if rules.len() / 3 <= key.rule as usize {
            return false;
        }
        match Rule::at(rules, key.rule as usize) {
            Rule::Label { .. } => false,
            Rule::Pair { head, left, right } => {
                head == s.a && self.sides_right(s, key, left, right, length)
            }
        }
    }

    // Whether one cell is as the table check wants it. Key and length are read here once and handed on; a struct for the two
    // calls is no plainer.
    #[tactic(auto, using(crate::proofs::Rights::cell_leaf, crate::proofs::Rights::cell_pair), unfolding(meaning::specs::Computed::right_cell, meaning::specs::Computed::right_word))]
    fn cell_right(&self, s: Spot) -> bool
        ensures { result ≡ right_cell s.nodes self.now.lists.rules.now self.now.lists.edges.now self.now.table.now self.now.lengths.now s.a s.i s.j }
    {
        let held = self.key(s);
        let length = self.length(s);
        if held.is_empty() {
            return length == 0;
        }
        let key = held.split();
        if key.height == 1 {
            self.leaf_right(s, key, length)
        } else {
            self.pair_right(s, key, length)
        }
    }

    // Cell number c is right.
    #[tactic(auto, unfolding(crate::specs::Answers::cell_check))]
    fn cell_check(&self, nodes: u16, c: usize) -> Result<(), Refusal>
        requires { (0 < nodes) × (c / nodes / nodes < 65536) }
        ensures { result ≡ cell_check nodes self.now.lists.rules.now self.now.lists.edges.now self.now.table.now self.now.lengths.now c }
    {
        must(self.cell_right(Spot::of(nodes, c)), Reason::WrongCell, c)
    }

    fn cells_check(&self, nodes: u16, cells: usize) -> Result<(), Refusal>
        requires { (0 < nodes) × (cells ≤ 32 * nodes * nodes) }
        ensures { result ≡ scan_of (cell_check nodes self.now.lists.rules.now self.now.lists.edges.now self.now.table.now self.now.lengths.now) cells }
    {
        scan(cells, |c| self.cell_check(nodes, c))
    }

    // Table and lengths are long enough, and each cell is right.
    #[tactic(auto, using(words::proofs::Refusals::refusing, crate::proofs::Accepts::sizes), unfolding(crate::specs::Answers::table_check))]
    pub(crate) fn check(&self) -> Result<(), Refusal>
        ensures { result ≡ table_check self.now.lists.numbers self.now.lists.rules.now self.now.lists.edges.now self.now.table.now self.now.lengths.now }
    {
        let nodes = self.lists.numbers.nodes as u16;
        let cells = cells(nodes, self.lists.numbers.nonterminals as u16);
        room(0, cells, self.table.len())?;
        room(1, cells, self.lengths.len())?;
        self.cells_check(nodes, cells)
    }
}
