// The deck reader: bytes to a list of rules and a list of edges.
// Its checks are asked in one order, stage by stage, and nothing is written before the last has passed.
#![tactic(auto)]

mod blocks;
mod copy;
mod reader;
mod records;

ghost use Rattle.std.specs.Prelude.{◌≡◌, length, IfOk, IfErr, Err};
ghost use Rattle.words.specs.Refusals.{Good};
ghost use Rattle.deck.specs.Reads.{numbers_in, size_check, deck_check, read_check, rules_of, edges_of, header_if, written};

use crate::reader::BLOCK_BYTES;
use crate::records::{Labels, Records};
use numbers::Numbers;
use words::{Reason, Refusal, must};

// The longest deck.
const DECK_BYTES: usize = 58 * BLOCK_BYTES;

// The seven header numbers.
#[derive(Clone, Copy, Debug, PartialEq, Eq)]
pub struct Header {
    pub nodes: usize,
    pub nonterminals: usize,
    pub labels: usize,
    pub entries: usize,
    pub rules: usize,
    pub edges: usize,
    pub query: usize,
}

// The first block of each type.
#[derive(Clone, Copy)]
struct Sections {
    header: usize,
    map: usize,
    rules: usize,
    edges: usize,
}

// The header's numbers as the engine takes them; a function and no `From`, since docs/STATEMENTS.md names it.
pub fn numbers_in(h: Header) -> Numbers
    ensures { result ≡ numbers_in h }
{
    Numbers {
        nodes: h.nodes,
        nonterminals: h.nonterminals,
        labels: h.labels,
    }
}

#[tactic(auto, unfolding(crate::specs::Reads::size_check))]
fn size_check(deck: &[u8]) -> Result<(), Refusal>
    ensures { result ≡ size_check deck.now }
{
    let n = deck.len();
    must(
        0 < n && n % BLOCK_BYTES == 0 && n <= DECK_BYTES,
        Reason::WrongSize,
        0,
    )
}

// Every check of the deck, in their order. What passes them all hands on its records and the labels of its kinds.
#[tactic(auto, using(words::proofs::Refusals::refusing, crate::proofs::Handed::sized, crate::proofs::Readers::framed_each), unfolding(crate::specs::Reads::deck_check))]
fn checked(deck: &[u8]) -> Result<Labels, Refusal>
    ensures ok { IfOk result (λ labels. (labels.records.deck.now ≡ deck.now) × (deck_check deck.now ≡ Good)) }
    ensures err { IfErr result (λ r. deck_check deck.now ≡ Err r) }
{
    size_check(deck)?;
    blocks::each(deck, |block| block.frame())?;
    let records = Records::new(deck)?;
    blocks::each(deck, |block| block.fill())?;
    records.totals()?;
    records.labels()
}

// Reads a deck into the fronts of the two lists; a refusal leaves both as they were. A public call keeps its slices.
#[tactic(auto, using(words::proofs::Refusals::handed_on, crate::proofs::Handed::read_stop, crate::proofs::Handed::read_next, crate::proofs::Handed::lists_fit, crate::proofs::Handed::right_deck))]
pub fn read(deck: &[u8], rules: &mut [u16], edges: &mut [u16]) -> Result<Header, Refusal>
    ensures value { result ≡ header_if (read_check deck.now (length rules.old) (length edges.old)) deck.now }
    ensures rules_after { rules.new ≡ written (read_check deck.now (length rules.old) (length edges.old)) (rules_of deck.now) rules.old }
    ensures edges_after { edges.new ≡ written (read_check deck.now (length rules.old) (length edges.old)) (edges_of deck.now) edges.old }
{
    let labels = checked(deck)?;
    let records = labels.records;
    records.room_check(rules.len(), edges.len())?;
    records.put_rules(rules);
    labels.put_edges(edges);
    Ok(records.header)
}
