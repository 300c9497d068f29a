// The table check and the witness: whether a table is right, whoever made it, and the path that a right table records.
// A witness is written left side then right, whole or a window of it at a time.
#![tactic(auto)]

ghost use Rattle.std.specs.Prelude.{◌≡◌};
ghost use Rattle.witness.specs.Answers.{Windowed, Witnessed, check_answer};

mod checked;
mod edges;
mod path;
mod spot;
mod table;

pub use crate::checked::CheckedTable;
pub use crate::path::RecordedPath;
pub use crate::table::Held;
use lists::Lists;
use numbers::Numbers;
use words::Refusal;

// Whether the table is right, whoever made it: Ok exactly if it is. A public call keeps its slices and numbers.
#[tactic(auto, using(words::proofs::Refusals::refusing), unfolding(crate::specs::Answers::check_answer))]
pub fn check(
    numbers: Numbers,
    rules: &[u16],
    edges: &[u16],
    table: &[u64],
    lengths: &[u32],
) -> Result<(), Refusal>
    ensures { result ≡ check_answer numbers rules.now edges.now table.now lengths.now }
{
    let lists = Lists::new(numbers, rules, edges)?;
    let held = Held {
        lists,
        table,
        lengths,
    };
    held.check()
}

// Writes the part of the recorded path of (a, i, j) from position `from` on, as much of it as fits. Answers how many edges.
// Ten parameters, since a public call keeps its slices and numbers.
#[tactic(auto, using(words::proofs::Refusals::refusing, crate::proofs::Writes::window_refused), unfolding(crate::specs::Answers::window_check))]
pub fn window(
    numbers: Numbers,
    rules: &[u16],
    edges: &[u16],
    a: usize,
    i: usize,
    j: usize,
    table: &[u64],
    lengths: &[u32],
    from: usize,
    path: &mut [u16],
) -> Result<usize, Refusal>
    ensures { Windowed numbers rules.now edges.now a i j table.now lengths.now from path.old path.new result }
{
    let lists = Lists::new(numbers, rules, edges)?;
    let found = RecordedPath::new(lists, a, i, j, table, lengths)?;
    Ok(found.window(from, path))
}

// Writes the whole recorded path of (a, i, j). Answers how many edges. Nine parameters, as `window`.
#[tactic(auto, using(words::proofs::Refusals::refusing, crate::proofs::Writes::witness_refused), unfolding(crate::specs::Answers::window_check))]
pub fn witness(
    numbers: Numbers,
    rules: &[u16],
    edges: &[u16],
    a: usize,
    i: usize,
    j: usize,
    table: &[u64],
    lengths: &[u32],
    path: &mut [u16],
) -> Result<usize, Refusal>
    ensures { Witnessed numbers rules.now edges.now a i j table.now lengths.now path.old path.new result }
{
    let lists = Lists::new(numbers, rules, edges)?;
    let found = RecordedPath::new(lists, a, i, j, table, lengths)?;
    found.whole(path)
}
