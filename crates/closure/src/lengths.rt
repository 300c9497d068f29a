// Lengths of a still table: 1 for height 1, the sum of the sides otherwise, held at 4,294,967,295.
// A length word of 0 means not known yet, since a filled cell's length is at least 1.
ghost use Rattle.std.specs.Prelude.{◌≡◌, true, ◌<◌, ◌≤◌, length};
ghost use Rattle.closure.specs.Sizes.{count};
ghost use Rattle.closure.specs.Fills.{left_side, right_side, PairCell, Linked, KnownLengths, Wanted, LengthsFilled, Finished};

use crate::passes::Grammar;
use key::Key;
use meaning::{cell, held_sum, word};

// How many levels a fill goes down: enough for nearly every table, and few enough for the stack.
const LEVELS: u32 = 1000;

// The cells of a pair cell's two sides.
#[derive(Clone, Copy)]
struct Sides {
    left: usize,
    right: usize,
}

// A table that the passes leave still: the sides of its pair cells are cells.
#[derive(Clone, Copy)]
pub(crate) struct Still<'a> {
    pub(crate) grammar: Grammar<'a>,
    pub(crate) table: &'a [u64],
    pub(crate) ghost linked: { Linked grammar.size grammar.rules.now table.now },
}

// Each function that writes the lengths asks that those known are right: a struct over the lent lengths would have that proved
// again at each write, which is no plainer.
impl<'a> Still<'a> {
    // Words and no match on the rule, which would need an arm for the label rules that a pair cell never names. A key by its
    // literal, which is all of `Key::from`.
    fn sides(&self, c: usize) -> Sides
        requires { c < length self.now.table.now }
        ensures { (result.left ≡ left_side self.now.grammar.size self.now.grammar.rules.now self.now.table.now c) × (result.right ≡ right_side self.now.grammar.size self.now.grammar.rules.now self.now.table.now c) }
    {
        let parts = Key {
            word: self.table[c],
        }
        .split();
        let r = parts.rule as usize;
        let nodes = self.grammar.size.nodes;
        let n = nodes as usize;
        let i = (c / n % n) as u16;
        let j = (c % n) as u16;
        Sides {
            left: cell(nodes, word(self.grammar.rules, r, 1), i, parts.middle),
            right: cell(nodes, word(self.grammar.rules, r, 2), parts.middle, j),
        }
    }

    // Whether a cell's length is wanted: the cell is filled, and its length not known yet.
    fn wanted(&self, lengths: &[u32], c: usize) -> bool
        requires { (c < length self.now.table.now) × (c < length lengths.now) }
        ensures { Wanted self.now.table.now lengths.now c result }
    {
        !Key::from(self.table[c]).is_empty() && lengths[c] == 0
    }

    // The length of a cell, where it is not known and its sides' are. Answers whether it became known.
    fn take(&self, lengths: &mut [u32], c: usize) -> bool
        requires known { KnownLengths self.now.grammar.size self.now.grammar.rules.now self.now.table.now lengths.old }
        requires c_bound { c < count self.now.grammar.size }
        ensures { LengthsFilled self.now.grammar.size self.now.grammar.rules.now self.now.table.now lengths.old lengths.new (λ x. x ≡ c) result }
    {
        if !self.wanted(lengths, c) {
            return false;
        }
        let key = Key {
            word: self.table[c],
        }
        .split();
        if key.height == 1 {
            lengths[c] = 1;
            return true;
        }
        let sides = self.sides(c);
        let left = lengths[sides.left];
        let right = lengths[sides.right];
        if left == 0 || right == 0 {
            return false;
        }
        lengths[c] = held_sum(left, right);
        true
    }

    // Whether a cell's length waits for those of its sides, with levels left to go down.
    fn deeper(&self, lengths: &[u32], c: usize, levels: u32) -> bool
        requires { (c < length self.now.table.now) × (c < length lengths.now) }
        ensures { result ≡ true → PairCell self.now.table.now c × (0 < levels) }
    {
        0 < levels
            && self.wanted(lengths, c)
            && Key {
                word: self.table[c],
            }
            .split()
            .height
                != 1
    }

    // The length of a cell, after those of its sides where they are not known, and so on for as many levels.
    fn fill(&self, lengths: &mut [u32], c: usize, levels: u32) -> bool
        requires known { KnownLengths self.now.grammar.size self.now.grammar.rules.now self.now.table.now lengths.old }
        requires c_bound { c < count self.now.grammar.size }
        ensures { LengthsFilled self.now.grammar.size self.now.grammar.rules.now self.now.table.now lengths.old lengths.new (λ x. x ≡ c) result }
    {
        if !self.deeper(lengths, c, levels) {
            return self.take(lengths, c);
        }
        let sides = self.sides(c);
        let left = self.fill(lengths, sides.left, levels - 1);
        let more = rest(lengths, sides.left, levels);
        let right = self.fill(lengths, sides.right, more);
        let here = self.take(lengths, c);
        left || right || here
    }

    // One sweep over the cells. One that wants no length is passed over before any call, since most cells of a thin table
    // are empty.
    fn sweep(&self, lengths: &mut [u32]) -> bool
        requires known { KnownLengths self.now.grammar.size self.now.grammar.rules.now self.now.table.now lengths.old }
        ensures { LengthsFilled self.now.grammar.size self.now.grammar.rules.now self.now.table.now lengths.old lengths.new (λ x. x < count self.now.grammar.size) result }
    {
        let mut moved = false;
        for c in 0..self.grammar.size.cells() {
            if self.wanted(lengths, c) {
                moved |= self.fill(lengths, c, LEVELS);
            }
        }
        moved
    }

    // Every length, by sweeps until one finds none. It ends, since every other makes more lengths known; and there are few,
    // since one sweep reaches LEVELS levels above the lengths that are known.
    pub(crate) fn fill_all(&self, lengths: &mut [u32])
        requires { count self.now.grammar.size ≤ length lengths.old }
        ensures { Finished self.now.grammar.size self.now.grammar.rules.now self.now.table.now lengths.old lengths.new }
    {
        lengths[..self.grammar.size.cells()].fill(0);
        while self.sweep(lengths) {}
    }
}

// The levels left for the right side: none where the left side stays unknown, since the cell then waits anyway.
// So what a fill does in vain is one way down.
fn rest(lengths: &[u32], left: usize, levels: u32) -> u32
    requires { (left < length lengths.now) × (0 < levels) }
    ensures { result < levels }
{
    if lengths[left] == 0 { 0 } else { levels - 1 }
}
