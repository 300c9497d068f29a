// The path that a right table records for a filled cell, written left side then right, as many edges as fit from a position on.
ghost use Rattle.std.specs.Prelude.{◌≡◌, [], ◌∷◌, IfErr, IfOk, Ok, Err};
ghost use Rattle.words.specs.Refusals.{Good};
ghost use Rattle.meaning.specs.Computed.{lowest_edge};
ghost use Rattle.meaning.specs.Table.{at};
ghost use Rattle.witness.specs.Answers.{Windowed, Witnessed, path_check, window_check};
ghost use Rattle.witness.specs.Walks.{EdgeReady, PartWritten, SidesWritten, Walkable, WordsWritten};

use crate::checked::CheckedTable;
use crate::spot::Spot;
use crate::table::Held;
use lists::Lists;
use meaning::Rule;
use numbers::room;
use words::{Reason, Refusal, must};

// A filled cell of a right table, whose path is no longer than we hold.
#[derive(Clone, Copy)]
pub struct RecordedPath<'a> {
    pub held: Held<'a>,
    pub spot: Spot,
    ghost nodes: { spot.nodes ≡ held.lists.numbers.nodes },
    ghost given: { window_check held.lists.numbers held.lists.rules.now held.lists.edges.now spot.a spot.i spot.j held.table.now held.lengths.now ≡ Good },
}

impl<'a> RecordedPath<'a> {
    // The path that is recorded for (a, i, j), or what a window of it is refused for: the arguments are asked before the table.
    #[tactic(auto, using(words::proofs::Refusals::refusing), unfolding(crate::specs::Answers::window_check))]
    pub fn new(
        lists: Lists<'a>,
        a: usize,
        i: usize,
        j: usize,
        table: &'a [u64],
        lengths: &'a [u32],
    ) -> Result<RecordedPath<'a>, Refusal>
        ensures ok { IfOk result (λ p. (p.held.lists ≡ lists.entry) × ((p.held.table ≡ table.entry) × ((p.held.lengths ≡ lengths.entry) × (p.spot ≡ record { nodes = lists.entry.numbers.nodes; a = a; i = i; j = j })))) }
        ensures err { IfErr result (λ r. window_check lists.entry.numbers lists.entry.rules.now lists.entry.edges.now a i j table.now lengths.now ≡ Err r) }
    {
        let spot = Spot::asked(lists, a, i, j)?;
        CheckedTable::new(lists, table, lengths)?.path_at(spot)
    }

    // How many edges the path has.
    pub fn length(&self) -> u32
        ensures { result ≡ at self.now.held.lists.numbers.nodes self.now.held.lengths.now self.now.spot.a self.now.spot.i self.now.spot.j }
    {
        self.held.length(self.spot)
    }

    // Writes the part of the path from position `from` on, as much of it as fits. Answers how many edges.
    #[tactic(auto, using(crate::proofs::Writes::window_ready, crate::proofs::Writes::window_wrote))]
    pub fn window(&self, from: usize, path: &mut [u16]) -> usize
        ensures { Windowed self.now.held.lists.numbers self.now.held.lists.rules.now self.now.held.lists.edges.now self.now.spot.a self.now.spot.i self.now.spot.j self.now.held.table.now self.now.held.lengths.now from path.old path.new (Ok result) }
    {
        self.held.walk(self.spot, from, path)
    }

    // Writes the whole path, if it has room. Answers how many edges.
    #[tactic(auto, using(words::proofs::Refusals::handed_on, crate::proofs::Writes::whole_wrote, crate::proofs::Writes::whole_refused))]
    pub fn whole(&self, path: &mut [u16]) -> Result<usize, Refusal>
        ensures { Witnessed self.now.held.lists.numbers self.now.held.lists.rules.now self.now.held.lists.edges.now self.now.spot.a self.now.spot.i self.now.spot.j self.now.held.table.now self.now.held.lengths.now path.old path.new result }
    {
        room(2, self.length() as usize, path.len())?;
        Ok(self.window(0, path))
    }
}

impl<'a> Held<'a> {
    // The cell is filled, and its path is no longer than any number we hold.
    #[tactic(auto, using(words::proofs::Refusals::refusing), unfolding(crate::specs::Answers::path_check))]
    pub(crate) fn path_check(&self, s: Spot) -> Result<(), Refusal>
        ensures { result ≡ path_check s.nodes s.a s.i s.j self.now.table.now self.now.lengths.now }
    {
        must(self.is_filled(s), Reason::NoPath, s.cell())?;
        must(self.length(s) < u32::MAX, Reason::TooShort, 2)
    }

    // Writes the edge of a cell of height 1, the lowest with its rule's label.
    #[tactic(auto, using(crate::proofs::Found::found_inside, crate::proofs::Found::found_written, crate::proofs::Found::found_never))]
    fn write_edge(&self, s: Spot, label: u16, path: &mut [u16]) -> usize
        requires { EdgeReady self.now.lists.edges.now s label path.old }
        ensures { WordsWritten (lowest_edge self.now.lists.edges.now s.i label s.j ∷ []) path.old path.new result }
    {
        match self.edge(s, label) {
            Some(e) => {
                path[0] = e as u16;
                1
            }
            None => 0,
        }
    }

    // Reads a cell and writes the edges of its path from position `from` on, as many as fit. Answers how many.
    // What lies before the window or past it is not walked. The stack is as deep as the cell is high.
    #[cycle(expand_walk)]
    #[tactic(auto, using(crate::proofs::Steps::edge_ready, crate::proofs::Steps::left_ready, crate::proofs::Steps::right_ready, crate::proofs::Steps::sides_fall))]
    pub(crate) fn walk(&self, s: Spot, from: usize, path: &mut [u16]) -> usize
        requires { Walkable self.now s }
        ensures { PartWritten self.now s from path.old path.new result }
    {
        if self.length(s) as usize <= from || path.is_empty() {
            return 0;
        }
        let key = self.key(s).split();
        match Rule::at(self.lists.rules, key.rule as usize) {
            Rule::Label { label, .. } => self.write_edge(s, label, path),
            Rule::Pair { left, right, .. } => {
                let x = s.left(left, key.middle);
                let y = s.right(right, key.middle);
                self.expand(x, y, from, path)
            }
        }
    }

    // Expands a pair rule: the left side's edges, and the right side's into the part of the path that the left left free.
    #[cycle(expand_walk)]
    #[tactic(auto, using(crate::proofs::Steps::left_falls, crate::proofs::Steps::right_falls))]
    fn expand(&self, left: Spot, right: Spot, from: usize, path: &mut [u16]) -> usize
        requires left { Walkable self.now left }
        requires right { Walkable self.now right }
        ensures { SidesWritten self.now left right from path.old path.new result }
    {
        let w = self.walk(left, from, path);
        let rest = from.saturating_sub(self.length(left) as usize);
        let v = self.walk(right, rest, &mut path[w..]);
        w + v
    }
}
