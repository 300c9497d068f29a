// The lowest edge that fits a label.
ghost use Rattle.std.specs.Prelude.{◌≡◌, ◌/◌, ◌<◌, length};
ghost use Rattle.meaning.specs.Computed.{is_edge};
ghost use Rattle.witness.specs.Walks.{found_edge};

use meaning::EdgeWords;

// By its words in place: `EdgeWords::at(edges, e) == sought` reads each edge whole, and the table check took twice as long.
#[tactic(auto, unfolding(meaning::specs::Computed::is_edge, meaning::specs::Net::word))]
fn is_edge(edges: &[u16], sought: EdgeWords, e: usize) -> bool
    requires { e < length edges.now / 3 }
    ensures { result ≡ is_edge edges.now sought.from sought.label sought.to e }
{
    edges[3 * e] == sought.from && edges[3 * e + 1] == sought.label && edges[3 * e + 2] == sought.to
}

// The lowest edge with these words, if there is one. Kept a loop: docs/DECISIONS.md names the form, a search that
// ends by `break`.
#[tactic(auto, using(crate::proofs::Found::found_at, crate::proofs::Found::found_none))]
pub(crate) fn find_edge(edges: &[u16], sought: EdgeWords) -> Option<usize>
    ensures { result ≡ found_edge edges.now sought.from sought.label sought.to }
{
    let mut found = None;
    for e in 0..edges.len() / 3 {
        if is_edge(edges, sought, e) {
            found = Some(e);
            break;
        }
    }
    found
}
