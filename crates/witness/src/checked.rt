// A table that the table check accepts: what was asked of it once, or proved, is not asked again.
ghost use Rattle.std.specs.Prelude.{◌≡◌, Err, IfErr, IfOk};
ghost use Rattle.words.specs.Refusals.{Good};
ghost use Rattle.witness.specs.Answers.{arguments_check, path_check, table_check, window_check};

use crate::path::RecordedPath;
use crate::spot::Spot;
use crate::table::Held;
use lists::Lists;
use words::Refusal;

#[derive(Clone, Copy)]
pub struct CheckedTable<'a> {
    pub held: Held<'a>,
    ghost right: { table_check held.lists.numbers held.lists.rules.now held.lists.edges.now held.table.now held.lengths.now ≡ Good },
}

impl<'a> CheckedTable<'a> {
    // The table as it is, if the table check accepts it, or what it is refused for.
    pub fn new(
        lists: Lists<'a>,
        table: &'a [u64],
        lengths: &'a [u32],
    ) -> Result<CheckedTable<'a>, Refusal>
        ensures ok { IfOk result (λ t. (t.held.lists ≡ lists.entry) × ((t.held.table ≡ table.entry) × (t.held.lengths ≡ lengths.entry))) }
        ensures err { IfErr result (λ r. table_check lists.entry.numbers lists.entry.rules.now lists.entry.edges.now table.now lengths.now ≡ Err r) }
    {
        let held = Held {
            lists,
            table,
            lengths,
        };
        held.check()?;
        Ok(CheckedTable { held })
    }

    // The path that is recorded for (a, i, j), or what a window of it is refused for. Three numbers until they are asked: what is
    // in range is a `Spot`.
    #[tactic(auto, using(words::proofs::Refusals::refusing), unfolding(crate::specs::Answers::window_check))]
    pub fn path(&self, a: usize, i: usize, j: usize) -> Result<RecordedPath<'a>, Refusal>
        ensures ok { IfOk result (λ p. (p.held ≡ self.now.held) × (p.spot ≡ record { nodes = self.now.held.lists.numbers.nodes; a = a; i = i; j = j })) }
        ensures err { IfErr result (λ r. window_check self.now.held.lists.numbers self.now.held.lists.rules.now self.now.held.lists.edges.now a i j self.now.held.table.now self.now.held.lengths.now ≡ Err r) }
    {
        let spot = Spot::asked(self.held.lists, a, i, j)?;
        self.path_at(spot)
    }

    // The path that is recorded for a cell.
    #[tactic(auto, using(words::proofs::Refusals::refusing), unfolding(crate::specs::Answers::window_check))]
    pub(crate) fn path_at(&self, spot: Spot) -> Result<RecordedPath<'a>, Refusal>
        requires nodes { spot.nodes ≡ self.now.held.lists.numbers.nodes }
        requires asked { arguments_check self.now.held.lists.numbers spot.a spot.i spot.j ≡ Good }
        ensures ok { IfOk result (λ p. (p.held ≡ self.now.held) × (p.spot ≡ spot)) }
        ensures err { IfErr result (λ r. path_check spot.nodes spot.a spot.i spot.j self.now.held.table.now self.now.held.lengths.now ≡ Err r) }
    {
        self.held.path_check(spot)?;
        Ok(RecordedPath {
            held: self.held,
            spot,
        })
    }
}
