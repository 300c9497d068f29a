// What C calls, through nevelknop_c: the run and the witness on numbers and byte slices, words packed little-endian and checked inside.
// The C interface fixes their parameters.
// Both take any input. The words go into local arrays: the limits of rules and edges keep these large enough for the lists,
// and no call that is not too large needs more than 2,048 words of a table or of lengths.
#![tactic(auto)]

ghost use Rattle.nevelknop.specs.Calls.{given_numbers, RunCall, WitnessCall};

use answers::answer;
use given::ByteLists;
use running::run_bytes;
use walking::{Arguments, witness_bytes};

mod answers;
mod given;
mod running;
mod walking;

// Closes a table and fills its lengths. include/nevelknop.h says the same to C.
pub fn nevelknop_run(
    nodes: u32,
    nonterminals: u32,
    labels: u32,
    rules: &[u8],
    edges: &[u8],
    table: &mut [u8],
    lengths: &mut [u8],
) -> u64
    ensures { RunCall (given_numbers nodes nonterminals labels) rules.now edges.now table.old lengths.old table.new lengths.new result }
{
    let given = ByteLists::new(nodes, nonterminals, labels, rules, edges);
    answer(run_bytes(given, table, lengths))
}

// Writes the path of cell (a, i, j) out of a table that is checked first. include/nevelknop.h says the same to C.
pub fn nevelknop_witness(
    nodes: u32,
    nonterminals: u32,
    labels: u32,
    rules: &[u8],
    edges: &[u8],
    a: u32,
    i: u32,
    j: u32,
    table: &[u8],
    lengths: &[u8],
    path: &mut [u8],
) -> u64
    ensures { WitnessCall (given_numbers nodes nonterminals labels) rules.now edges.now a i j table.now lengths.now path.old path.new result }
{
    let given = ByteLists::new(nodes, nonterminals, labels, rules, edges);
    let at = Arguments {
        a: a as usize,
        i: i as usize,
        j: j as usize,
    };
    answer(witness_bytes(given, at, table, lengths, path))
}
