// The C calls: each is the library's call, exported under its name. include/nevelknop.h says the same to C. The C interface
// fixes their parameters.
#![tactic(auto)]

ghost use Rattle.nevelknop.specs.Calls.{given_numbers, RunCall, WitnessCall};

#[unsafe(no_mangle)]
pub extern "C" fn nevelknop_run(
    nodes: u32,
    nonterminals: u32,
    labels: u32,
    rules: &[u8],
    edges: &[u8],
    table: &mut [u8],
    lengths: &mut [u8],
) -> u64
    ensures { RunCall (given_numbers nodes nonterminals labels) rules.now edges.now table.old lengths.old table.new lengths.new result }
{
    nevelknop::nevelknop_run(nodes, nonterminals, labels, rules, edges, table, lengths)
}

#[unsafe(no_mangle)]
pub extern "C" fn nevelknop_witness(
    nodes: u32,
    nonterminals: u32,
    labels: u32,
    rules: &[u8],
    edges: &[u8],
    a: u32,
    i: u32,
    j: u32,
    table: &[u8],
    lengths: &[u8],
    path: &mut [u8],
) -> u64
    ensures { WitnessCall (given_numbers nodes nonterminals labels) rules.now edges.now a i j table.now lengths.now path.old path.new result }
{
    nevelknop::nevelknop_witness(
        nodes,
        nonterminals,
        labels,
        rules,
        edges,
        a,
        i,
        j,
        table,
        lengths,
        path,
    )
}
