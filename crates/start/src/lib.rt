// The start of a table, on which the single steps work; and its two parts, by which the run begins too.
// Every function is total. What the start leaves is the start's table, which `StartCall` says; what each part does is one
// equation.
#![tactic(auto)]

ghost use Rattle.std.specs.Prelude.{◌≡◌};
ghost use Rattle.start.specs.Entering.{entered_in, cleared, leaf_in, rule_in, rules_in, begun};
ghost use Rattle.start.specs.Calls.{StartCall};

use key::Key;
use lists::check;
use meaning::{EdgeWords, Rule, cell, word};
use numbers::{Numbers, cells, room};
use words::Refusal;

// Writes a key into word c if it is smaller than what stands there.
#[tactic(auto, unfolding(crate::specs::Entering::entered_in))]
fn enter(table: &mut [u64], c: usize, key: Key)
    ensures { table.new ≡ entered_in table.old c key.word }
{
    if c < table.len() {
        table[c] = table[c].min(key.word);
    }
}

// Empties the first n words.
pub fn clear(table: &mut [u64], n: usize)
    ensures { table.new ≡ cleared n table.old }
{
    let end = n.min(table.len());
    table[..end].fill(Key::EMPTY.word);
}

// What the start's keys are made of: a grammar, a graph, and the node count that numbers the cells.
#[derive(Clone, Copy)]
struct Source<'a> {
    nodes: u16,
    rules: &'a [u16],
    edges: &'a [u16],
}

impl<'a> Source<'a> {
    // Enters edge e for rule r, head → label, if it has that label.
    #[tactic(auto, unfolding(crate::specs::Entering::leaf_in))]
    fn enter_edge(self, table: &mut [u64], r: u16, head: u16, label: u16, e: usize)
        ensures { table.new ≡ leaf_in self.entry.nodes self.entry.edges.now head label r table.old e }
    {
        // The label alone first: with the whole edge read for each test a start took 1.4 times as long.
        if word(self.edges, e, 1) == label {
            let edge = EdgeWords::at(self.edges, e);
            let key = Key::make(1, edge.from, r);
            enter(table, cell(self.nodes, head, edge.from, edge.to), key);
        }
    }

    // Enters every edge for rule r, if that is a label rule.
    #[tactic(auto, unfolding(crate::specs::Entering::rule_in, crate::specs::Entering::edges_in, meaning::specs::Records::rule_of))]
    fn enter_rule(self, table: &mut [u64], r: u16)
        ensures { table.new ≡ rule_in self.entry.nodes self.entry.rules.now self.entry.edges.now table.old r }
    {
        if let Rule::Label { head, label } = Rule::at(self.rules, r as usize) {
            for e in 0..self.edges.len() / 3 {
                self.enter_edge(table, r, head, label, e);
            }
        }
    }

    // Enters the first n rules.
    #[tactic(auto, unfolding(crate::specs::Entering::rules_in))]
    fn enter_rules(self, table: &mut [u64], n: u16)
        ensures { table.new ≡ rules_in self.entry.nodes self.entry.rules.now self.entry.edges.now table.old n }
    {
        for r in 0..n {
            self.enter_rule(table, r);
        }
    }
}

// What an accepted start does: empties the cells, and enters the first `count` rules.
// The run begins by it too, since it has checked its lists itself.
pub fn begin(
    nodes: u16,
    nonterminals: u16,
    rules: &[u16],
    edges: &[u16],
    table: &mut [u64],
    count: u16,
)
    ensures { table.new ≡ begun nodes nonterminals rules.now edges.now table.old count }
{
    clear(table, cells(nodes, nonterminals));
    let source = Source {
        nodes,
        rules,
        edges,
    };
    source.enter_rules(table, count);
}

// Fills the cells of height 1 and empties the others. Refused as the lists are, then where the table, named 0, is too short.
// A public call keeps its slices and numbers; `check` and no `Lists`, since `begin`, which is public too, takes the parts.
#[tactic(auto, using(words::proofs::Refusals::refusing, lists::proofs::Right::accepted, crate::proofs::Filling::start_refused, crate::proofs::Filling::start_done), unfolding(crate::specs::Calls::start_check))]
pub fn start(
    numbers: Numbers,
    rules: &[u16],
    edges: &[u16],
    table: &mut [u64],
) -> Result<(), Refusal>
    ensures { StartCall numbers rules.now edges.now table.old result table.new }
{
    check(numbers, rules, edges)?;
    let nodes = numbers.nodes as u16;
    let nonterminals = numbers.nonterminals as u16;
    room(0, cells(nodes, nonterminals), table.len())?;
    begin(
        nodes,
        nonterminals,
        rules,
        edges,
        table,
        (rules.len() / 3) as u16,
    );
    Ok(())
}
