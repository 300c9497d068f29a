// The records of a deck: the map's entries, the rules and the edges, and the labels of the map's kinds.
ghost use Rattle.std.specs.Prelude.{◌≡◌, ◌+◌, ◌*◌, ◌/◌, ◌%◌, ◌≤◌, ◌<◌, length, IfOk, IfErr, Err};
ghost use Rattle.words.specs.Refusals.{Good, scan as scan_of};
ghost use Rattle.deck.specs.Blocks.{type_number, word_at, first_of, record_at};
ghost use Rattle.deck.specs.Reads.{size_check, header_check, header_of, right_totals, totals_check, rising as rising_of, entry_check, rule_record_check, edge_record_check};
ghost use Rattle.deck.specs.Stages.{sections_of, RightMap, HoldsKinds, label_at, records_check};

use crate::blocks::{header, limits, sections, total};
use crate::copy::put_front;
use crate::reader::{BLOCK_BYTES, BLOCK_RECORDS, BlockType, RECORD_WORDS, WORDS_AT};
use crate::{Header, Sections, numbers_in};
use lists::right_rule;
use numbers::between;
use words::{Reason, Refusal, must, read, scan};

// The entries of the largest map.
const MOST_ENTRIES: usize = 256;

// A deck whose header is within its limits, and where the records of each type begin.
#[derive(Clone, Copy)]
pub(crate) struct Records<'a> {
    pub deck: &'a [u8],
    pub header: Header,
    pub sections: Sections,
    pub ghost small: { length deck.now ≤ 29696 },
    pub ghost header_is: { header ≡ header_of deck.now },
    pub ghost sections_are: { sections ≡ sections_of deck.now },
    pub ghost entries_few: { header.entries ≤ 256 },
    pub ghost rules_few: { header.rules ≤ 256 },
    pub ghost edges_few: { header.edges ≤ 4096 },
}

// The kinds of a right map, side by side: a search reads nothing else. No heap here: an array of fixed size, as many of it as
// the header says.
#[derive(Clone, Copy)]
pub(crate) struct Labels<'a> {
    pub records: Records<'a>,
    pub kinds: [u16; MOST_ENTRIES],
    pub ghost right: { RightMap records.deck.now },
    pub ghost held: { HoldsKinds records.deck.now kinds },
}

impl<'a> Records<'a> {
    // The records of a deck whose header is within its limits.
    #[tactic(auto, using(words::proofs::Refusals::handed_on, crate::proofs::Handed::limits_are))]
    pub(crate) fn new(deck: &'a [u8]) -> Result<Records<'a>, Refusal>
        requires { size_check deck.now ≡ Good }
        ensures ok { IfOk result (λ records. (records.deck.now ≡ deck.now) × (header_check deck.now ≡ Good)) }
        ensures err { IfErr result (λ r. header_check deck.now ≡ Err r) }
    {
        let header = header(deck);
        limits(header)?;
        Ok(Records {
            deck,
            header,
            sections: sections(deck),
        })
    }

    // The counts of the blocks of each type add up to the header's.
    fn right_totals(&self) -> bool
        ensures { result ≡ right_totals self.now.deck.now }
    {
        total(self.deck, BlockType::Map) == self.header.entries
            && total(self.deck, BlockType::Rules) == self.header.rules
            && total(self.deck, BlockType::Edges) == self.header.edges
    }

    #[tactic(auto, unfolding(crate::specs::Reads::totals_check))]
    pub(crate) fn totals(&self) -> Result<(), Refusal>
        ensures { result ≡ totals_check self.now.deck.now }
    {
        must(self.right_totals(), Reason::WrongCount, 0)
    }

    // The block in which the records of a type begin.
    #[tactic(auto, using(crate::proofs::Handed::first_small))]
    fn first(&self, kind: BlockType) -> usize
        ensures is { result ≡ first_of self.now.deck.now (type_number kind) }
        ensures small { result ≤ 58 }
    {
        match kind {
            BlockType::Header => self.sections.header,
            BlockType::Map => self.sections.map,
            BlockType::Rules => self.sections.rules,
            BlockType::Edges => self.sections.edges,
        }
    }

    // Word k of record r of a type.
    #[tactic(auto, unfolding(crate::specs::Blocks::record_at))]
    pub(crate) fn word(&self, kind: BlockType, r: usize, k: usize) -> u16
        requires record { r ≤ 4096 }
        requires word { k < 3 }
        ensures { result ≡ record_at self.now.deck.now (type_number kind) r k }
    {
        let block = self.first(kind) + r / BLOCK_RECORDS;
        let word = RECORD_WORDS * (r % BLOCK_RECORDS) + k;
        read(self.deck, block * BLOCK_BYTES + WORDS_AT + 2 * word)
    }

    // The kind of a map entry is above that of the one before it.
    fn rising(&self, m: usize) -> bool
        requires { m < self.now.header.entries }
        ensures { result ≡ rising_of self.now.deck.now m }
    {
        m == 0 || self.word(BlockType::Map, m - 1, 0) < self.word(BlockType::Map, m, 0)
    }

    #[tactic(auto, unfolding(crate::specs::Reads::entry_check))]
    fn entry(&self, m: usize) -> Result<(), Refusal>
        requires { m < self.now.header.entries }
        ensures { result ≡ entry_check self.now.deck.now m }
    {
        let label = usize::from(self.word(BlockType::Map, m, 1));
        let right = self.rising(m)
            && between(1, self.header.labels, label)
            && self.word(BlockType::Map, m, 2) == 0;
        must(right, Reason::WrongEntry, m)
    }

    #[tactic(auto, unfolding(crate::specs::Reads::rule_record_check))]
    fn rule(&self, r: usize) -> Result<(), Refusal>
        requires { r < self.now.header.rules }
        ensures { result ≡ rule_record_check self.now.deck.now r }
    {
        let a = self.word(BlockType::Rules, r, 0);
        let b = self.word(BlockType::Rules, r, 1);
        let c = self.word(BlockType::Rules, r, 2);
        must(
            right_rule(numbers_in(self.header), a, b, c),
            Reason::WrongRule,
            r,
        )
    }

    // Writes the map's kinds, side by side.
    fn put_kinds(&self, kinds: &mut [u16])
        requires { self.now.header.entries ≤ length kinds.old }
        ensures { HoldsKinds self.now.deck.now kinds.new }
    {
        put_front(
            kinds,
            self.header.entries,
            |m| self.word(BlockType::Map, m, 0),
        );
    }

    // The labels of the map's kinds, once the map, the rules and the edges are right.
    #[tactic(auto, using(words::proofs::Refusals::refusing))]
    pub(crate) fn labels(self) -> Result<Labels<'a>, Refusal>
        ensures ok { IfOk result (λ labels. (labels.records.deck.now ≡ self.entry.deck.now) × (records_check self.entry.deck.now ≡ Good)) }
        ensures err { IfErr result (λ r. records_check self.entry.deck.now ≡ Err r) }
    {
        scan(self.header.entries, |m| self.entry(m))?;
        scan(self.header.rules, |r| self.rule(r))?;
        let labels = Labels::new(self);
        scan(self.header.edges, |e| labels.edge(e))?;
        Ok(labels)
    }
}

impl<'a> Labels<'a> {
    pub(crate) fn new(records: Records<'a>) -> Labels<'a>
        requires { RightMap records.deck.now }
        ensures { result.records.deck.now ≡ records.entry.deck.now }
    {
        let mut kinds = [0u16; MOST_ENTRIES];
        records.put_kinds(&mut kinds);
        Labels { records, kinds }
    }

    // The label of a kind, if a map entry has it.
    pub(crate) fn of(&self, kind: u16) -> Option<u16>
        ensures { result ≡ label_at self.now.records.deck.now kind }
    {
        let kinds = &self.kinds[..self.records.header.entries];
        match kinds.binary_search(&kind) {
            Ok(m) => Some(self.records.word(BlockType::Map, m, 1)),
            Err(_) => None,
        }
    }

    // The nodes of edge e, then its kind.
    #[tactic(auto, using(words::proofs::Refusals::refusing, crate::proofs::Map::label_some), unfolding(crate::specs::Reads::edge_record_check))]
    fn edge(&self, e: usize) -> Result<(), Refusal>
        requires { e < self.now.records.header.edges }
        ensures { result ≡ edge_record_check self.now.records.deck.now e }
    {
        let nodes = self.records.header.nodes;
        let from = usize::from(self.records.word(BlockType::Edges, e, 0));
        let kind = self.records.word(BlockType::Edges, e, 1);
        let to = usize::from(self.records.word(BlockType::Edges, e, 2));
        must(from < nodes && to < nodes, Reason::WrongEdge, e)?;
        must(self.of(kind).is_some(), Reason::UnknownKind, e)
    }
}
