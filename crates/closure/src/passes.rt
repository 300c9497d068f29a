// Passes over the table: every possible step, until a whole pass moves nothing.
// A stretch of steps answers whether one of them wrote, or refuses a step that would win with a height over 131,072.
ghost use Rattle.std.specs.Prelude.{◌≡◌, ◌/◌, ◌<◌, ◌≤◌, length, get_or};
ghost use Rattle.key.specs.Keys.{EMPTY, HIGHEST, key, height_of};
ghost use Rattle.meaning.specs.Trees.{joined};
ghost use Rattle.meaning.specs.Table.{cell as cell_of};
ghost use Rattle.meaning.specs.Steps.{candidate};
ghost use Rattle.meaning.specs.Passes.{rule_steps, steps_of};
ghost use Rattle.closure.specs.Sizes.{LowTable, RulesInside};
ghost use Rattle.closure.specs.Passes.{StepMade, row_steps, node_steps, pair_steps, Swept, Settled};

use crate::{PairRule, Size};
use key::Key;
use meaning::{Rule, cell, pair_height};
use words::{Reason, Refusal, must};

// The key that two filled sides give.
fn joined_key(left: Key, right: Key, k: u16, r: u16) -> Key
    requires { (height_of left.word ≤ HIGHEST) × (height_of right.word ≤ HIGHEST) }
    ensures { result ≡ record { word = key (joined (height_of left.word) (height_of right.word)) k r } }
{
    let height = pair_height(left.split().height, right.split().height);
    Key::make(height as u32, k, r)
}

// One step: cell `to` is offered what a filled left side and the word of cell `from` give.
#[tactic(auto, using(words::proofs::Refusals::must_good, words::proofs::Refusals::must_bad, meaning::proofs::Cells::candidate_filled, meaning::proofs::Cells::candidate_right))]
fn join(
    table: &mut [u64],
    to: usize,
    left: Key,
    from: usize,
    k: u16,
    r: u16,
) -> Result<bool, Refusal>
    requires to_in_bounds { (to < length table.old) × (from < length table.old) }
    requires left_bound { (left.word < EMPTY) × (height_of left.word ≤ HIGHEST) }
    requires from_bound { get_or table.old from 0 < EMPTY → height_of (get_or table.old from 0) ≤ HIGHEST }
    ensures { StepMade table.old to (candidate left.word (get_or table.old from 0) k r) table.new result }
{
    let right = Key { word: table[from] };
    if right.is_empty() {
        return Ok(false);
    }
    let made = joined_key(left, right, k, r);
    if table[to] <= made.word {
        return Ok(false);
    }
    must(made.split().height <= Key::HIGHEST, Reason::TooHigh, to)?;
    table[to] = made.word;
    Ok(true)
}

// Each function that writes the table asks that it is low: a struct over the lent table would have that proved again at each
// write, which is no plainer.
impl PairRule {
    // Its steps at i and k, where the left side is filled.
    // That was read once: a step never wins at its own left side, since it is higher. Not inlined: on full tables the time then
    // hangs less on where the linker puts the loop.
    #[inline(never)]
    fn row(self, table: &mut [u64], i: u16, k: u16, left: Key) -> Result<bool, Refusal>
        requires low { LowTable self.size table.old }
        requires i_lt_nodes { (i < self.size.nodes) × (k < self.size.nodes) }
        requires k_value { (get_or table.old (cell_of self.size.nodes self.left i k) 0 ≡ left.word) × (left.word < EMPTY) }
        ensures { Swept self.size (row_steps self i k self.size.nodes) table.old table.new result }
    {
        let to = cell(self.size.nodes, self.head, i, 0);
        let from = cell(self.size.nodes, self.right, k, 0);
        let mut moved = false;
        for j in 0..self.size.nodes {
            // `moved |= join(..)?` would be a step of every turn: the row then took a fifth longer.
            if join(
                table,
                to + j as usize,
                left,
                from + j as usize,
                k,
                self.number,
            )? {
                moved = true;
            }
        }
        Ok(moved)
    }

    // Its steps at i. None wins where the left side is empty: that is seen before any call, since most cells of a thin table
    // are.
    fn node(self, table: &mut [u64], i: u16) -> Result<bool, Refusal>
        requires low { LowTable self.size table.old }
        requires i_lt_nodes { i < self.size.nodes }
        ensures { Swept self.size (node_steps self self.size.nodes i self.size.nodes) table.old table.new result }
    {
        let base = cell(self.size.nodes, self.left, i, 0);
        let mut moved = false;
        for k in 0..self.size.nodes {
            let left = Key {
                word: table[base + k as usize],
            };
            if !left.is_empty() {
                moved |= self.row(table, i, k, left)?;
            }
        }
        Ok(moved)
    }

    // All its steps. Not inlined: in one function with all that calls it, the loops lose their registers.
    #[inline(never)]
    fn steps(self, table: &mut [u64]) -> Result<bool, Refusal>
        requires low { LowTable self.size table.old }
        ensures { Swept self.size (pair_steps self self.size.nodes self.size.nodes) table.old table.new result }
    {
        let mut moved = false;
        for i in 0..self.size.nodes {
            moved |= self.node(table, i)?;
        }
        Ok(moved)
    }
}

// Rules of nonterminals that there are.
#[derive(Clone, Copy)]
pub(crate) struct Grammar<'a> {
    pub(crate) size: Size,
    pub(crate) rules: &'a [u16],
    pub(crate) ghost inside: { RulesInside size rules.now },
}

impl<'a> Grammar<'a> {
    // The steps of rule r, none if it is a label rule.
    fn rule(&self, table: &mut [u64], r: usize) -> Result<bool, Refusal>
        requires low { LowTable self.now.size table.old }
        requires r_in_bounds { r < length self.now.rules.now / 3 }
        ensures { Swept self.now.size (rule_steps self.now.rules.now self.now.size.nodes r) table.old table.new result }
    {
        match Rule::at(self.rules, r) {
            Rule::Label { .. } => Ok(false),
            Rule::Pair { head, left, right } => {
                let pair = PairRule {
                    size: self.size,
                    number: r as u16,
                    head,
                    left,
                    right,
                };
                pair.steps(table)
            }
        }
    }

    // Every possible step once.
    fn pass(&self, table: &mut [u64]) -> Result<bool, Refusal>
        requires { LowTable self.now.size table.old }
        ensures { Swept self.now.size (steps_of self.now.rules.now self.now.size.nodes) table.old table.new result }
    {
        let mut moved = false;
        for r in 0..self.rules.len() / 3 {
            moved |= self.rule(table, r)?;
        }
        Ok(moved)
    }

    // Passes until a whole one moves nothing. It ends, since every other lowers the total of the table's words.
    #[tactic(auto, using(crate::proofs::Swept::passing_none, crate::proofs::Swept::passing_still, crate::proofs::Swept::passing_moved))]
    pub(crate) fn settle(&self, table: &mut [u64]) -> Result<(), Refusal>
        requires { LowTable self.now.size table.old }
        ensures { Settled self.now.size self.now.rules.now table.old table.new result }
    {
        while self.pass(table)? {}
        Ok(())
    }
}
