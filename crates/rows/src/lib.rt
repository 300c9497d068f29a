// The second engine: the Boolean closure of a grammar and a graph on rows of 64 bits, worked by rounds.
// Bit j of word A × nodes + i stands for the cell (A, i, j). It knows nothing of the table or of its engine.
#![tactic(auto)]

ghost use Rattle.std.specs.Prelude.{◌≡◌, ℕ, ◌+◌, ◌*◌, ◌/◌, ◌≤◌, ◌<◌, length};
ghost use Rattle.meaning.specs.Rows.{bit};
ghost use Rattle.lists.specs.Lists.{net};
ghost use Rattle.rows.specs.Rounds.{Union, zeroed, entered, EdgeFits, LeafBits, AllLeafBits, Entered, Products, AllProducts, JoinFits, ProductTaken, Worked, RowsClosed, RowsReady};
ghost use Rattle.rows.specs.Calls.{RowsMade, RowsCall};

use lists::Lists;
use meaning::{EdgeWords, Rule};
use numbers::{Numbers, room};
use words::Refusal;

// The first `count` rows cleared.
fn clear(count: usize, rows: &mut [u64])
    requires { count ≤ length rows.old }
    ensures { rows.new ≡ zeroed count rows.old }
{
    rows[..count].fill(0);
}

// Edge `e` for a rule with `label` whose head's rows begin at `base`.
fn enter_edge(edges: &[u16], e: usize, base: usize, label: u16, rows: &mut [u64])
    requires { EdgeFits edges.now e base rows.old }
    ensures { rows.new ≡ entered edges.now e base label rows.old }
{
    // The label alone, and by index: `word` and `EdgeWords::at` at every edge test bounds again, and all rows took 1.13 and
    // 1.45 times the instructions.
    if edges[3 * e + 1] == label {
        let edge = EdgeWords::at(edges, e);
        rows[base + edge.from as usize] |= 1 << edge.to;
    }
}

// Rule `r`, if it is a label rule, at every edge. That the rows are long enough stays a clause: a struct over rows that are
// written would have it proved again at each write, which is no plainer.
fn enter_rule(lists: Lists, r: usize, rows: &mut [u64])
    requires rule { r < length lists.rules.now / 3 }
    requires nodes_in_bounds { lists.numbers.nonterminals * lists.numbers.nodes ≤ length rows.old }
    ensures { Entered lists.entry.numbers.nodes lists.entry.rules.now lists.entry.edges.now (LeafBits lists.entry.numbers.nodes lists.entry.rules.now lists.entry.edges.now r) rows.old rows.new }
{
    if let Rule::Label { head, label } = Rule::at(lists.rules, r) {
        let base = head as usize * lists.numbers.nodes;
        for e in 0..lists.edges.len() / 3 {
            enter_edge(lists.edges, e, base, label, rows);
        }
    }
}

// Every label rule at every edge.
#[tactic(auto, using(crate::proofs::Enters::entering_rules))]
fn enter(lists: Lists, rows: &mut [u64])
    requires { lists.numbers.nonterminals * lists.numbers.nodes ≤ length rows.old }
    ensures { Entered lists.entry.numbers.nodes lists.entry.rules.now lists.entry.edges.now (AllLeafBits lists.entry.numbers.nodes lists.entry.rules.now lists.entry.edges.now) rows.old rows.new }
{
    for r in 0..lists.rules.len() / 3 {
        enter_rule(lists, r, rows);
    }
}

// A loop over bits, which counts no index.
// The union of the rows from `base` on that the bits of `chosen` choose, the lowest bit first.
fn union(rows: &[u64], base: usize, chosen: u64) -> u64
    requires { (k : ℕ) → bit chosen k ≡ 1 → base + k < length rows.now }
    ensures { Union rows.now base chosen result }
{
    let mut row = 0;
    let mut left = chosen;
    // Each turn takes off the lowest bit that is left; a `for` over all 64 would look at the clear ones too.
    while left != 0 {
        let k = u64::trailing_zeros(left) as usize;
        row |= rows[base + k];
        left &= left - 1;
    }
    row
}

// Takes into row `a` the product of row `b` with the rows from `c` on, and says whether row `a` has changed.
// An empty row `b` brings nothing, so that no row of the right side is looked at.
#[tactic(auto, using(crate::proofs::Joins::joined, crate::proofs::Joins::joined_none), unfolding(crate::specs::Rounds::united))]
fn join(rows: &mut [u64], a: usize, b: usize, c: usize) -> bool
    requires { JoinFits rows.old a b c }
    ensures { ProductTaken rows.old a b c result rows.new }
{
    let chosen = rows[b];
    if chosen == 0 {
        return false;
    }
    let old = rows[a];
    let new = old | union(rows, c, chosen);
    rows[a] = new;
    new != old
}

// Rule `r`, if it is a pair rule, at every node; whether a row has changed.
fn join_rule(lists: Lists, r: usize, rows: &mut [u64]) -> bool
    requires { RowsReady lists.numbers lists.rules.now rows.old × (r < length lists.rules.now / 3) }
    ensures { Worked lists.entry.numbers.nodes lists.entry.rules.now (Products lists.entry.numbers.nodes lists.entry.rules.now r) rows.old result rows.new }
{
    let n = lists.numbers.nodes;
    match Rule::at(lists.rules, r) {
        Rule::Label { .. } => false,
        Rule::Pair { head, left, right } => {
            let a = head as usize * n;
            let b = left as usize * n;
            let c = right as usize * n;
            let mut changed = false;
            for i in 0..n {
                changed |= join(rows, a + i, b + i, c);
            }
            changed
        }
    }
}

// A round: every pair rule at every node; whether the rows are still changing. `RowsReady` stays a clause, as in `enter_rule`.
#[tactic(auto, using(crate::proofs::Works::rounding))]
fn round(lists: Lists, rows: &mut [u64]) -> bool
    requires { RowsReady lists.numbers lists.rules.now rows.old }
    ensures { Worked lists.entry.numbers.nodes lists.entry.rules.now (AllProducts lists.entry.numbers.nodes lists.entry.rules.now) rows.old result rows.new }
{
    let mut changing = false;
    for r in 0..lists.rules.len() / 3 {
        changing |= join_rule(lists, r, rows);
    }
    changing
}

// Rounds until one changes nothing. Each other one sets a bit and clears none, so there is a last.
#[tactic(auto, using(crate::proofs::Works::closing))]
fn close(lists: Lists, rows: &mut [u64])
    requires { RowsReady lists.numbers lists.rules.now rows.old }
    ensures { RowsClosed lists.entry.numbers.nodes lists.entry.rules.now rows.old rows.new }
{
    while round(lists, rows) {}
}

// The rows of checked lists.
#[tactic(auto, using(crate::proofs::Accepts::lists_sane, crate::proofs::Closure::entered_ready, crate::proofs::Closure::rows_made))]
fn make(lists: Lists, rows: &mut [u64])
    requires { lists.numbers.nonterminals * lists.numbers.nodes ≤ length rows.old }
    ensures { RowsMade (net lists.entry.numbers lists.entry.rules.now lists.entry.edges.now) rows.old rows.new }
{
    clear(lists.numbers.nonterminals * lists.numbers.nodes, rows);
    enter(lists, rows);
    close(lists, rows);
}

// The rows of a grammar and a graph. Refused as the lists are, then where the rows, named 5, are too few. A public call keeps
// its slices and numbers.
pub fn rows(numbers: Numbers, rules: &[u16], edges: &[u16], rows: &mut [u64]) -> Result<(), Refusal>
    ensures { RowsCall numbers rules.now edges.now rows.old result rows.new }
{
    let lists = Lists::new(numbers, rules, edges)?;
    room(5, numbers.nonterminals * numbers.nodes, rows.len())?;
    make(lists, rows);
    Ok(())
}
