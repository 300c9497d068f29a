// The report's text, to the byte, as one call: it reads a deck, closes its table and writes the report into a lent text.
#![tactic(auto)]

ghost use Rattle.std.specs.Prelude.{◌≡◌, MatchResult};
ghost use Rattle.meaning.specs.Lengths.{depth as depth_of};
ghost use Rattle.numbers.specs.Numbers.{cells_of};
ghost use Rattle.deck.specs.Reads.{numbers_in};
ghost use Rattle.text.specs.Report.{Report, ReportIs, Whole};
ghost use Rattle.text.specs.Penned.{Exact, QueryOf, ReportPenned, ShownIs, Small};

use closure::run;
use deck::{Header, numbers_in, read};
use lists::Lists;
use numbers::{cells, large};
use pen::Pen;
use query::Query;
use witness::{CheckedTable, Held};
use words::Refusal;

mod lines;
mod pairs;
mod pen;
mod query;

// Room for any report: at most 256 pairs, each with at most 1,024 edges of six bytes, and two lines more.
pub const ROOM: usize = 1650000;

// The report of a table that is closed.
fn whole(pen: &mut Pen, header: Header, query: Query, depth: u32)
    requires query_of { QueryOf header query }
    requires depth_value { depth ≡ depth_of query.checked.held.table.now (cells_of (numbers_in header)) }
    ensures { ReportPenned (Whole header query.entry.checked.held.lists.rules.now query.entry.checked.held.lists.edges.now) pen.old pen.new }
{
    pen.opening(header);
    let pairs = pairs::pairs(pen, query);
    pen.closing(pairs, u64::from(depth));
}

// Table and lengths stay two: the run writes both.
// Of lists that pass the engine's checks the run refuses nothing, and the table check accepts what it has made: that is proved,
// and the table check is not asked.
fn closed(
    pen: &mut Pen,
    header: Header,
    lists: Lists,
    table: &mut [u64],
    lengths: &mut [u32],
) -> Result<(), Refusal>
    requires numbers { lists.numbers ≡ numbers_in header }
    requires small { Small header lists.rules.now lists.edges.now }
    requires exact { Exact header table.old lengths.old }
    ensures { MatchResult result (λ _. ReportPenned (Whole header lists.entry.rules.now lists.entry.edges.now) pen.old pen.new) (λ _. ⊥) }
{
    let depth = run(lists.numbers, lists.rules, lists.edges, table, lengths)?;
    let checked = CheckedTable {
        held: Held {
            lists,
            table,
            lengths,
        },
    };
    let query = Query {
        checked,
        head: header.query,
    };
    whole(pen, header, query, depth);
    Ok(())
}

// The report of a small deck.
#[tactic(auto, using(crate::proofs::Reports::small_cells))]
fn accepted(pen: &mut Pen, header: Header, lists: Lists) -> Result<(), Refusal>
    requires numbers { lists.numbers ≡ numbers_in header }
    requires small { Small header lists.rules.now lists.edges.now }
    ensures { MatchResult result (λ _. ReportPenned (Whole header lists.entry.rules.now lists.entry.edges.now) pen.old pen.new) (λ _. ⊥) }
{
    let mut table = [0u64; 2048];
    let mut lengths = [0u32; 2048];
    let n = cells(header.nodes as u16, header.nonterminals as u16);
    closed(pen, header, lists, &mut table[..n], &mut lengths[..n])
}

// The report of a deck that the reader accepts and that is not too large.
// That the lists of such a deck pass the engine's checks is proved: the run alone asks them.
fn shown(pen: &mut Pen, deck: &[u8]) -> Result<(), Refusal>
    ensures { ShownIs deck.now pen.old pen.new result }
{
    // Room for the rules and the edges of any deck.
    let mut rules = [0u16; 768];
    let mut edges = [0u16; 12288];
    let header = read(deck, &mut rules, &mut edges)?;
    let numbers = numbers_in(header);
    large(numbers, header.edges)?;
    let m = 3 * header.rules;
    let n = 3 * header.edges;
    let lists = Lists {
        numbers,
        rules: &rules[..m],
        edges: &edges[..n],
    };
    accepted(pen, header, lists)
}

fn written(pen: &mut Pen, deck: &[u8])
    ensures { ReportPenned (Report deck.now) pen.old pen.new }
{
    if let Err(refusal) = shown(pen, deck) {
        pen.refused(refusal);
    }
}

// The report of a deck, and how many bytes it has; or None, and nothing is written, where the text might be too short for it.
pub fn report(deck: &[u8], text: &mut [u8]) -> Option<usize>
    ensures { ReportIs deck.now text.old text.new result }
{
    if text.len() < ROOM {
        return None;
    }
    let mut pen = Pen::new(text);
    written(&mut pen, deck);
    Some(pen.at())
}
