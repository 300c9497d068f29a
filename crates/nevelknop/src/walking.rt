// The witness on a table and lengths in bytes. No local array holds every path, so the path's bytes are written window by window.
ghost use Rattle.std.specs.Prelude.{◌*◌, ◌≤◌, length};
ghost use Rattle.nevelknop.specs.Calls.{cell_words, WitnessCall};
ghost use Rattle.nevelknop.specs.Inner.{OneWindow, PathTold, Told, net_of_path};

use crate::given::{ByteLists, CELLS, ListWords, counts_check, unpack_front};
use lists::Lists;
use numbers::room;
use packing::pack;
use witness::RecordedPath;
use words::Refusal;

// How many edges a window of the path has.
const WINDOW: usize = 16384;

// The cell that a witness is asked for: a nonterminal and two nodes.
#[derive(Clone, Copy)]
pub(crate) struct Arguments {
    pub(crate) a: usize,
    pub(crate) i: usize,
    pub(crate) j: usize,
}

// Writes the path's edges from number `from` on, as many as a window holds.
#[tactic(auto, using(crate::proofs::Windows::answer_short))]
fn write_window(found: RecordedPath, from: usize, path: &mut [u8])
    requires { 2 * from ≤ length path.old }
    ensures { OneWindow (net_of_path found.entry.held) found.entry.held.table.now found.entry.spot.a found.entry.spot.i found.entry.spot.j from path.old path.new }
{
    let mut part = [0u16; WINDOW];
    let count = found.window(from, &mut part);
    let at = 2 * from;
    pack(&part[..count], &mut path[at..]);
}

// Writes the whole path, if the bytes have room for it. Answers how many edges.
fn write_path(found: RecordedPath, path: &mut [u8]) -> Result<u32, Refusal>
    ensures { PathTold found.entry.held.lists.numbers found.entry.held.lists.rules.now found.entry.held.lists.edges.now found.entry.held.table.now found.entry.held.lengths.now found.entry.spot.a found.entry.spot.i found.entry.spot.j path.old path.new result }
{
    let many = found.length();
    let edges = many as usize;
    room(2, edges, path.len() / 2)?;
    for w in 0..edges.div_ceil(WINDOW) {
        write_window(found, w * WINDOW, path);
    }
    Ok(many)
}

// The witness on lists of words: every refusal comes before the first byte. Table and lengths stay two, as C lends them.
fn witness_lists(
    lists: Lists,
    at: Arguments,
    table: &[u8],
    lengths: &[u8],
    path: &mut [u8],
) -> Result<u32, Refusal>
    ensures { PathTold lists.entry.numbers lists.entry.rules.now lists.entry.edges.now (cell_words 8 table.now) (cell_words 4 lengths.now) at.a at.i at.j path.old path.new result }
{
    let mut cells = [0u64; CELLS];
    let mut counts = [0u32; CELLS];
    let t = unpack_front(table, &mut cells);
    let l = unpack_front(lengths, &mut counts);
    let found = RecordedPath::new(lists, at.a, at.i, at.j, t, l)?;
    write_path(found, path)
}

// The witness on lists in bytes.
pub(crate) fn witness_bytes(
    given: ByteLists,
    at: Arguments,
    table: &[u8],
    lengths: &[u8],
    path: &mut [u8],
) -> Result<u32, Refusal>
    ensures { Told (WitnessCall given.entry.numbers given.entry.rules.now given.entry.edges.now at.a at.i at.j table.now lengths.now path.old path.new) result }
{
    counts_check(given.numbers, given.rules.len(), given.edges.len())?;
    let mut words = ListWords::new();
    let lists = words.lists(given)?;
    witness_lists(lists, at, table, lengths, path)
}
