// Grammars, graphs, derivation trees, paths and tables, and the mathematics that every engine cites: definitions in specs/,
// theorems in proofs/. The only code is that of a few definitions: a list's words and records, a cell's number, a pair's
// height and length.
#![tactic(auto)]

ghost use Rattle.std.specs.Prelude.{◌≡◌, get_or};
ghost use Rattle.meaning.specs.Net.{word as word_of};
ghost use Rattle.meaning.specs.Table.{cell as cell_of};
ghost use Rattle.meaning.specs.Trees.{joined};
ghost use Rattle.meaning.specs.Lengths.{held_sum};
ghost use Rattle.meaning.specs.Records.{rule_of, rule_at, edge_at};

// Word k of record r in a list of records of three words, 0 past the end.
pub fn word(list: &[u16], r: usize, k: usize) -> u16
    ensures { result ≡ word_of list.now r k }
{
    let n = list.len();
    if n <= r {
        return 0;
    }
    if n <= k {
        return 0;
    }
    let at = 3 * r + k;
    if n <= at {
        return 0;
    }
    list[at]
}

// The number of cell (a, i, j); no product of 16-bit numbers wraps here.
pub fn cell(nodes: u16, a: u16, i: u16, j: u16) -> usize
    ensures { result ≡ cell_of nodes a i j }
{
    let n = nodes as usize;
    (a as usize * n + i as usize) * n + j as usize
}

// Word c of a list, or `past` past its end.
pub fn at<T: Copy>(list: &[T], c: usize, past: T) -> T
    ensures { result ≡ get_or list.now c past }
{
    if c < list.len() { list[c] } else { past }
}

// 1 + the larger of two heights, which may be 2^32.
#[tactic(auto, unfolding(crate::specs::Trees::joined))]
pub fn pair_height(a: u32, b: u32) -> u64
    ensures { result ≡ joined a b }
{
    1 + a.max(b) as u64
}

// The sum of two lengths, held at 4,294,967,295.
#[tactic(auto, unfolding(crate::specs::Lengths::held_sum))]
pub fn held_sum(a: u32, b: u32) -> u32
    ensures { result ≡ held_sum a b }
{
    a.saturating_add(b)
}

// A rule of the grammar: its third word is 65,535 where it goes to a label, and else the right side.
#[derive(Clone, Copy, Debug, PartialEq, Eq)]
pub enum Rule {
    Label { head: u16, label: u16 },
    Pair { head: u16, left: u16, right: u16 },
}

impl Rule {
    // The third word of a rule that goes to a label.
    const MARK: u16 = 65535;

    // The rule of a record of three words.
    #[tactic(auto, unfolding(crate::specs::Records::rule_of))]
    pub fn of(head: u16, left: u16, right: u16) -> Rule
        ensures { result ≡ rule_of head left right }
    {
        if right == Rule::MARK {
            Rule::Label { head, label: left }
        } else {
            Rule::Pair { head, left, right }
        }
    }

    // Rule r of a list; past its end its words are 0.
    pub fn at(rules: &[u16], r: usize) -> Rule
        ensures { result ≡ rule_at rules.now r }
    {
        Rule::of(word(rules, r, 0), word(rules, r, 1), word(rules, r, 2))
    }
}

// An edge of the graph, as its record says it.
#[derive(Clone, Copy, Debug, PartialEq, Eq)]
pub struct EdgeWords {
    pub from: u16,
    pub label: u16,
    pub to: u16,
}

impl EdgeWords {
    // Edge e of a list; past its end its words are 0.
    pub fn at(edges: &[u16], e: usize) -> EdgeWords
        ensures { result ≡ edge_at edges.now e }
    {
        EdgeWords {
            from: word(edges, e, 0),
            label: word(edges, e, 1),
            to: word(edges, e, 2),
        }
    }
}
