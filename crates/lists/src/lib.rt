// The engine's own checks of its numbers and lists: whole records, limits, each rule, each edge, in this order; and lists
// that have passed them. Every public function is total; the promise of each is the definition it names.
#![tactic(auto)]

ghost use Rattle.std.specs.Prelude.{◌≡◌, ◌/◌, ◌<◌, length, IfOk, IfErr, Err};
ghost use Rattle.words.specs.Refusals.{Good, scan as scan_of};
ghost use Rattle.lists.specs.Lists.{right_rule, right_edge, whole_check, rule_check, edge_check, lists_check};

use meaning::Rule;
use numbers::{Numbers, between, limits};
use words::{Reason, Refusal, must, scan};

// Numbers and two lists that pass `check`: what an engine works on once it has asked, or who writes the struct has proved it.
#[derive(Clone, Copy)]
pub struct Lists<'a> {
    pub numbers: Numbers,
    pub rules: &'a [u16],
    pub edges: &'a [u16],
    ghost passed: { lists_check numbers rules.now edges.now ≡ Good },
}

impl<'a> Lists<'a> {
    // The lists as they are, or what they are refused for.
    pub fn new(numbers: Numbers, rules: &'a [u16], edges: &'a [u16]) -> Result<Lists<'a>, Refusal>
        ensures ok { IfOk result (λ l. (l.numbers ≡ numbers) × ((l.rules ≡ rules.entry) × (l.edges ≡ edges.entry))) }
        ensures err { IfErr result (λ r. lists_check numbers rules.now edges.now ≡ Err r) }
    {
        check(numbers, rules, edges)?;
        Ok(Lists {
            numbers,
            rules,
            edges,
        })
    }
}

// Whether the record (a, b, c) is a rule in range.
#[tactic(auto, unfolding(crate::specs::Lists::right_rule))]
pub fn right_rule(numbers: Numbers, a: u16, b: u16, c: u16) -> bool
    ensures { result ≡ right_rule numbers a b c }
{
    let m = numbers.nonterminals;
    if m <= a as usize {
        return false;
    }
    match Rule::of(a, b, c) {
        Rule::Label { label, .. } => between(1, numbers.labels, label as usize),
        Rule::Pair { left, right, .. } => (left as usize) < m && (right as usize) < m,
    }
}

// Whether the record (i, x, j) is an edge in range.
#[tactic(auto, unfolding(crate::specs::Lists::right_edge))]
fn right_edge(numbers: Numbers, i: u16, x: u16, j: u16) -> bool
    ensures { result ≡ right_edge numbers i x j }
{
    let n = numbers.nodes;
    if n <= i as usize {
        return false;
    }
    between(1, numbers.labels, x as usize) && (j as usize) < n
}

// Both lists hold whole records.
#[tactic(auto, using(words::proofs::Refusals::refusing), unfolding(crate::specs::Lists::whole_check))]
fn whole_records(rules: usize, edges: usize) -> Result<(), Refusal>
    ensures { result ≡ whole_check rules edges }
{
    must(rules % 3 == 0, Reason::WrongCount, 0)?;
    must(edges % 3 == 0, Reason::WrongCount, 1)
}

// By index: `word` tests bounds again, and a step, most of which is these checks, took 1.8 times the time.
#[tactic(auto, unfolding(crate::specs::Lists::rule_check, meaning::specs::Net::word))]
fn rule_check(numbers: Numbers, rules: &[u16], r: usize) -> Result<(), Refusal>
    requires { r < length rules.now / 3 }
    ensures { result ≡ rule_check numbers rules.now r }
{
    let at = 3 * r;
    let right = right_rule(numbers, rules[at], rules[at + 1], rules[at + 2]);
    must(right, Reason::WrongRule, r)
}

// By index, as `rule_check`.
#[tactic(auto, unfolding(crate::specs::Lists::edge_check, meaning::specs::Net::word))]
fn edge_check(numbers: Numbers, edges: &[u16], e: usize) -> Result<(), Refusal>
    requires { e < length edges.now / 3 }
    ensures { result ≡ edge_check numbers edges.now e }
{
    let at = 3 * e;
    let right = right_edge(numbers, edges[at], edges[at + 1], edges[at + 2]);
    must(right, Reason::WrongEdge, e)
}

// Beside `edges_check`: what the two share is `scan`, which takes the check of one record.
fn rules_check(numbers: Numbers, rules: &[u16]) -> Result<(), Refusal>
    ensures { result ≡ scan_of (rule_check numbers rules.now) (length rules.now / 3) }
{
    scan(rules.len() / 3, |r| rule_check(numbers, rules, r))
}

fn edges_check(numbers: Numbers, edges: &[u16]) -> Result<(), Refusal>
    ensures { result ≡ scan_of (edge_check numbers edges.now) (length edges.now / 3) }
{
    scan(edges.len() / 3, |e| edge_check(numbers, edges, e))
}

// What every engine call asks first. The first two checks bound what the others look through.
#[tactic(auto, using(words::proofs::Refusals::refusing, words::proofs::Refusals::and_assoc), unfolding(crate::specs::Lists::lists_check))]
pub fn check(numbers: Numbers, rules: &[u16], edges: &[u16]) -> Result<(), Refusal>
    ensures { result ≡ lists_check numbers rules.now edges.now }
{
    whole_records(rules.len(), edges.len())?;
    limits(numbers, rules.len(), edges.len())?;
    rules_check(numbers, rules)?;
    edges_check(numbers, edges)
}
