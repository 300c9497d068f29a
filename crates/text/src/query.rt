// The queried nonterminal's cells in a table that the table check accepts.
ghost use Rattle.std.specs.Prelude.{◌≡◌, ◌<◌, ◌≤◌};
ghost use Rattle.meaning.specs.Table.{cell as cell_of};
ghost use Rattle.witness.specs.Answers.{Witnessed};
ghost use Rattle.text.specs.Queried.{checked_numbers, key_at, length_at};

use key::Key;
use meaning::{at, cell};
use witness::CheckedTable;
use words::Refusal;

// A small deck's table, and the queried nonterminal. That the table is final is asked where it is needed: that fact holds the
// trees of its cells, and a ghost field holds no data.
#[derive(Clone, Copy)]
pub(crate) struct Query<'a> {
    pub(crate) checked: CheckedTable<'a>,
    pub(crate) head: usize,
    ghost in_range: { head < (checked_numbers checked).nonterminals },
    ghost small: { (checked_numbers checked).nodes ≤ 16 },
}

impl Query<'_> {
    pub(crate) fn nodes(self) -> u16
        ensures { result ≡ (checked_numbers self.entry.checked).nodes }
    {
        self.checked.held.lists.numbers.nodes as u16
    }

    fn cell(self, i: u16, j: u16) -> usize
        ensures { result ≡ cell_of (checked_numbers self.entry.checked).nodes self.entry.head i j }
    {
        cell(self.nodes(), self.head as u16, i, j)
    }

    // `key` and `length` look up as the table check's own do, which are private to witness and take its `Spot`.
    pub(crate) fn key(self, i: u16, j: u16) -> Key
        ensures { result.word ≡ key_at self.entry.checked self.entry.head i j }
    {
        Key::from(at(self.checked.held.table, self.cell(i, j), 0))
    }

    pub(crate) fn length(self, i: u16, j: u16) -> u32
        ensures { result ≡ length_at self.entry.checked self.entry.head i j }
    {
        at(self.checked.held.lengths, self.cell(i, j), 0)
    }

    // Writes the path that the table records for (i, j). Answers how many edges it has.
    #[tactic(auto, using(words::proofs::Refusals::handed_on, witness::proofs::Writes::witness_refused))]
    pub(crate) fn write_path(self, i: u16, j: u16, room: &mut [u16]) -> Result<usize, Refusal>
        ensures { Witnessed (checked_numbers self.entry.checked) self.entry.checked.held.lists.rules.now self.entry.checked.held.lists.edges.now self.entry.head i j self.entry.checked.held.table.now self.entry.checked.held.lengths.now room.old room.new result }
    {
        self.checked
            .path(self.head, i as usize, j as usize)?
            .whole(room)
    }
}
