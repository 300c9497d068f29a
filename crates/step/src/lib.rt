// The single step on a table that crate start began.
// Every function is total; what each does to the table is one equation.
#![tactic(auto)]

ghost use Rattle.std.specs.Prelude.{◌≡◌, ◌/◌, length, get_or};
ghost use Rattle.words.specs.Refusals.{Good};
ghost use Rattle.meaning.specs.Passes.{ask_of};
ghost use Rattle.meaning.specs.Steps.{Step, usable as usable_of};
ghost use Rattle.step.specs.Entering.{offered, taken, by_cells};
ghost use Rattle.step.specs.Calls.{is_pair_rule, argument_check, usable_check, cells_step, step_of};

use key::Key;
use lists::Lists;
use meaning::{Rule, at, cell, pair_height, word};
use numbers::{Numbers, cells, room};
use words::{Reason, Refusal, must};

// The arguments of a step: a pair rule, by its number, and the nodes that it goes from, over and to.
// Public, since what is proved of sequences of calls is stated over lists of them.
#[derive(Clone, Copy)]
pub struct Ask {
    pub rule: usize,
    pub from: usize,
    pub middle: usize,
    pub to: usize,
}

// A step by its cells: it may write the first and reads the other two.
#[derive(Clone, Copy)]
struct StepCells {
    rule: u16,
    middle: u16,
    target: usize,
    left: usize,
    right: usize,
}

// The key in word c of a table.
fn key_at(table: &[u64], c: usize) -> Key
    ensures { result ≡ record { word = get_or table.now c 0 } }
{
    Key::from(at(table, c, 0))
}

// The key that those of two sides offer, or EMPTY.
#[tactic(auto, using(crate::proofs::Entered::offered_left, crate::proofs::Entered::offered_right, crate::proofs::Entered::offered_high, crate::proofs::Entered::offered_key))]
fn candidate(left: Key, right: Key, middle: u16, rule: u16) -> Key
    ensures { result.word ≡ offered left.word right.word middle rule }
{
    if left.is_empty() || right.is_empty() {
        return Key::EMPTY;
    }
    let h = pair_height(left.split().height, right.split().height);
    match u32::try_from(h) {
        Ok(height) => Key::make(height, middle, rule),
        Err(_) => Key::EMPTY,
    }
}

// Enters a key in word c, and says whether it was smaller; refused where it would be and is too high.
#[tactic(auto, using(crate::proofs::Entered::taken_no, crate::proofs::Entered::taken_high, crate::proofs::Entered::taken_yes, words::proofs::Refusals::handed_on), unfolding(words::specs::Refusals::must))]
fn take(table: &mut [u64], c: usize, key: Key) -> Result<bool, Refusal>
    ensures { (result, table.new) ≡ taken table.old c key.word }
{
    if key_at(table, c) <= key {
        return Ok(false);
    }
    must(key.split().height <= Key::HIGHEST, Reason::TooHigh, c)?;
    table[c] = key.word;
    Ok(true)
}

// Whether a cell may hold a key, of so many nodes and rules.
#[tactic(auto, unfolding(meaning::specs::Steps::usable))]
fn usable(nodes: u16, rules: usize, key: Key) -> bool
    ensures { result ≡ usable_of nodes rules key.word }
{
    let parts = key.split();
    key.is_empty()
        || 1 <= parts.height
            && parts.height <= Key::HIGHEST
            && parts.middle < nodes
            && (parts.rule as usize) < rules
}

// Whether rule r is there and goes to a pair.
#[tactic(auto, unfolding(crate::specs::Calls::is_pair_rule, meaning::specs::Records::rule_of))]
fn is_pair_rule(rules: &[u16], r: usize) -> bool
    ensures { result ≡ is_pair_rule rules.now r }
{
    r < rules.len() / 3 && matches!(Rule::at(rules, r), Rule::Pair { .. })
}

// A pair rule and three nodes.
#[tactic(auto, using(words::proofs::Refusals::refusing), unfolding(crate::specs::Calls::argument_check))]
fn argument_check(nodes: usize, rules: &[u16], ask: Ask) -> Result<(), Refusal>
    ensures { result ≡ argument_check nodes rules.now ask.rule ask.from ask.middle ask.to }
{
    must(is_pair_rule(rules, ask.rule), Reason::WrongArgument, 0)?;
    must(ask.from < nodes, Reason::WrongArgument, 1)?;
    must(ask.middle < nodes, Reason::WrongArgument, 2)?;
    must(ask.to < nodes, Reason::WrongArgument, 3)
}

// The step that right arguments ask for.
#[tactic(auto, using(lists::proofs::Right::accepted, crate::proofs::Order::right_arguments), unfolding(meaning::specs::Passes::ask_of))]
fn cells_for(lists: Lists, ask: Ask) -> StepCells
    requires { argument_check lists.numbers.nodes lists.rules.now ask.rule ask.from ask.middle ask.to ≡ Good }
    ensures { result ≡ by_cells lists.entry.numbers.nodes (ask_of lists.entry.rules.now ask.rule ask.from ask.middle ask.to) }
{
    let nodes = lists.numbers.nodes as u16;
    let from = ask.from as u16;
    let middle = ask.middle as u16;
    let to = ask.to as u16;
    // Words and no match on the rule, which would need an arm for the label rules that the arguments exclude.
    let head = word(lists.rules, ask.rule, 0);
    let left = word(lists.rules, ask.rule, 1);
    let right = word(lists.rules, ask.rule, 2);
    StepCells {
        rule: ask.rule as u16,
        middle,
        target: cell(nodes, head, from, to),
        left: cell(nodes, left, from, middle),
        right: cell(nodes, right, middle, to),
    }
}

// The keys of the three cells are ones that cells may hold.
#[tactic(auto, using(words::proofs::Refusals::refusing), unfolding(crate::specs::Calls::usable_check))]
fn usable_check(nodes: u16, rules: usize, table: &[u64], step: StepCells) -> Result<(), Refusal>
    ensures { result ≡ usable_check nodes rules table.now step.target step.left step.right }
{
    let judge = |c: usize| must(usable(nodes, rules, key_at(table, c)), Reason::WrongCell, c);
    judge(step.target)?;
    judge(step.left)?;
    judge(step.right)
}

// The step itself, on cells that it judges first.
fn at_cells(nodes: u16, rules: usize, table: &mut [u64], step: StepCells) -> Result<bool, Refusal>
    ensures { (s : Step) → step ≡ by_cells nodes s → (result, table.new) ≡ cells_step nodes rules table.old s }
{
    usable_check(nodes, rules, table, step)?;
    let left = key_at(table, step.left);
    let right = key_at(table, step.right);
    take(
        table,
        step.target,
        candidate(left, right, step.middle, step.rule),
    )
}

// One step of a pair rule from i over k to j: whether it has changed the table. Eight parameters, since a public call keeps
// its slices and numbers. Refused as the lists are, then for an
// argument, for a table, named 0, that is too short, for a cell, and for a key that would win and be too high.
#[tactic(auto, using(lists::proofs::Right::accepted))]
pub fn step(
    numbers: Numbers,
    rules: &[u16],
    edges: &[u16],
    table: &mut [u64],
    rule: usize,
    i: usize,
    k: usize,
    j: usize,
) -> Result<bool, Refusal>
    ensures { (result, table.new) ≡ step_of numbers rules.now edges.now table.old rule i k j }
{
    let lists = Lists::new(numbers, rules, edges)?;
    let ask = Ask {
        rule,
        from: i,
        middle: k,
        to: j,
    };
    let nodes = numbers.nodes as u16;
    let count = cells(nodes, numbers.nonterminals as u16);
    argument_check(numbers.nodes, rules, ask)?;
    room(0, count, table.len())?;
    at_cells(nodes, rules.len() / 3, table, cells_for(lists, ask))
}
