// The run on a table and lengths in bytes.
ghost use Rattle.nevelknop.specs.Calls.{RunCall};
ghost use Rattle.nevelknop.specs.Inner.{RunBack, Told};

use crate::given::{ByteLists, CELLS, ListWords, counts_check, unpack_front};
use closure::run;
use lists::Lists;
use packing::pack;
use words::Refusal;

// The run on the words that the bytes hold, and all of them packed again. Table and lengths stay two, as C lends them. A refused
// run has changed no word, so no byte changes.
fn run_lists(lists: Lists, table: &mut [u8], lengths: &mut [u8]) -> Result<u32, Refusal>
    ensures { RunBack lists.entry.numbers lists.entry.rules.now lists.entry.edges.now table.old lengths.old table.new lengths.new result }
{
    let mut cells = [0u64; CELLS];
    let mut counts = [0u32; CELLS];
    let t = unpack_front(table, &mut cells);
    let l = unpack_front(lengths, &mut counts);
    let answer = run(lists.numbers, lists.rules, lists.edges, t, l);
    pack(t, table);
    pack(l, lengths);
    answer
}

// The run on lists in bytes.
pub(crate) fn run_bytes(
    given: ByteLists,
    table: &mut [u8],
    lengths: &mut [u8],
) -> Result<u32, Refusal>
    ensures { Told (RunCall given.entry.numbers given.entry.rules.now given.entry.edges.now table.old lengths.old table.new lengths.new) result }
{
    counts_check(given.numbers, given.rules.len(), given.edges.len())?;
    let mut words = ListWords::new();
    let lists = words.lists(given)?;
    run_lists(lists, table, lengths)
}
