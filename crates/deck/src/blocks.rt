// Blocks: their sum and order, what they hold, the header's numbers, and where the records of a type begin.
ghost use Rattle.std.specs.Prelude.{◌≡◌, ◌+◌, ◌*◌, ◌-◌, ◌≤◌, ◌<◌, length, sum};
ghost use Rattle.words.specs.Refusals.{scan, Good};
ghost use Rattle.deck.specs.Blocks.{blocks, type_number, right_sum, right_type, right_order, zeros_from, last_of_type, right_header, right_records, type_of, total as total_of, first_of};
ghost use Rattle.deck.specs.Reads.{header_of, frame_check, fill_check};
ghost use Rattle.deck.specs.Readers.{CanAskEach, EachIs};
ghost use Rattle.deck.specs.Stages.{limits_of, sections_of};

use crate::reader::{
    BLOCK_BYTES, BLOCK_RECORDS, Block, BlockType, RECORD_WORDS, Reader, SUM_AT, WORDS_AT,
};
use crate::{Header, Sections};
use numbers::in_limits;
use words::{Reason, Refusal, must, read};

// The records that a header uses.
const HEADER_RECORDS: usize = 3;

// The words of them that may be other than zero.
const HEADER_WORDS: usize = 7;

fn sum_of(bytes: &[u8]) -> usize
    requires { length bytes.now ≤ 508 }
    ensures { result ≡ sum bytes.now }
{
    bytes.iter().map(|b| usize::from(*b)).sum()
}

impl<'a> Block<'a> {
    fn has_right_sum(&self) -> bool
        ensures { result ≡ right_sum self.now.deck.now self.now.position }
    {
        let start = self.position * BLOCK_BYTES;
        let sum = sum_of(&self.deck[start..start + SUM_AT]);
        sum == read::<u32>(self.deck, start + SUM_AT) as usize
    }

    // Block 0 alone is a header, and types never fall; a byte that names no type breaks the order too.
    fn has_right_type(&self) -> bool
        ensures { result ≡ right_type self.now.deck.now self.now.position }
    {
        match BlockType::try_from(self.type_byte()) {
            Ok(BlockType::Header) => self.position == 0,
            Ok(kind) => self.position != 0
                && self.at(self.position - 1).type_byte() <= u8::from(kind),
            Err(_) => false,
        }
    }

    #[tactic(auto, unfolding(crate::specs::Blocks::right_order))]
    fn has_right_order(&self) -> bool
        ensures { result ≡ right_order self.now.deck.now self.now.position }
    {
        self.stated_number() == self.position && self.has_right_type()
    }

    // The block's sum, then its order.
    #[tactic(auto, using(words::proofs::Refusals::refusing))]
    pub(crate) fn frame(&self) -> Result<(), Refusal>
        ensures { result ≡ frame_check self.now.deck.now self.now.position }
    {
        must(self.has_right_sum(), Reason::WrongSum, self.position)?;
        must(self.has_right_order(), Reason::WrongOrder, self.position)
    }

    // Its words from one on, and whatever stands behind them, are zero: so is their sum, which takes fewer steps than a look at
    // each byte.
    fn has_zeros_from(&self, w: usize) -> bool
        requires { w ≤ 252 }
        ensures { result ≡ zeros_from self.now.deck.now self.now.position w }
    {
        let start = self.position * BLOCK_BYTES;
        sum_of(&self.deck[start + WORDS_AT + 2 * w..start + SUM_AT]) == 0
    }

    fn is_last_of_type(&self) -> bool
        ensures { result ≡ last_of_type self.now.deck.now self.now.position }
    {
        let next = self.position + 1;
        next == self.deck.len() / BLOCK_BYTES || self.at(next).type_byte() != self.type_byte()
    }

    fn has_right_header(&self) -> bool
        ensures { result ≡ right_header self.now.deck.now self.now.position }
    {
        self.used() == HEADER_RECORDS && self.has_zeros_from(HEADER_WORDS)
    }

    fn has_right_records(&self) -> bool
        ensures { result ≡ right_records self.now.deck.now self.now.position }
    {
        let used = self.used();
        (1..=BLOCK_RECORDS).contains(&used)
            && (used == BLOCK_RECORDS || self.is_last_of_type())
            && self.has_zeros_from(RECORD_WORDS * used)
    }

    // The type of a block whose order is right.
    fn kind(&self) -> BlockType
        requires { frame_check self.now.deck.now self.now.position ≡ Good }
        ensures { type_number result ≡ type_of self.now.deck.now self.now.position }
    {
        BlockType::try_from(self.type_byte()).unwrap()
    }

    // The type selects the check of the block's records: a byte that names none was refused with the order.
    #[tactic(auto, unfolding(crate::specs::Reads::fill_check))]
    pub(crate) fn fill(&self) -> Result<(), Refusal>
        requires { frame_check self.now.deck.now self.now.position ≡ Good }
        ensures { result ≡ fill_check self.now.deck.now self.now.position }
    {
        let kind = self.kind();
        let right = match kind {
            BlockType::Header => self.has_right_header(),
            BlockType::Map | BlockType::Rules | BlockType::Edges => self.has_right_records(),
        };
        must(right, Reason::WrongCount, self.position)
    }
}

// A check of block after block, as the reader hands them out: of several refusals, the one of the first block.
pub(crate) fn each<F: Fn(Block) -> Result<(), Refusal>>(
    deck: &[u8],
    check: F,
) -> Result<(), Refusal>
    requires { CanAskEach (λ block. F.pre check block) deck.now }
    ensures { EachIs (λ block r. F.post check block r) deck.now result }
{
    for block in Reader::open(deck) {
        check(block)?;
    }
    Ok(())
}

#[tactic(auto, using(words::proofs::Refusals::refusing), unfolding(crate::specs::Stages::limits_of))]
pub(crate) fn limits(header: Header) -> Result<(), Refusal>
    ensures { result ≡ limits_of header }
{
    must(in_limits(0, header.nodes), Reason::WrongNumber, 0)?;
    must(in_limits(1, header.nonterminals), Reason::WrongNumber, 1)?;
    must(in_limits(2, header.labels), Reason::WrongNumber, 2)?;
    must(in_limits(3, header.entries), Reason::WrongNumber, 3)?;
    must(in_limits(4, header.rules), Reason::WrongNumber, 4)?;
    must(in_limits(5, header.edges), Reason::WrongNumber, 5)?;
    must(header.query < header.nonterminals, Reason::WrongNumber, 6)
}

pub(crate) fn header(deck: &[u8]) -> Header
    requires { 512 ≤ length deck.now }
    ensures { result ≡ header_of deck.now }
{
    let block = Block { deck, position: 0 };
    Header {
        nodes: block.word(0),
        nonterminals: block.word(1),
        labels: block.word(2),
        entries: block.word(3),
        rules: block.word(4),
        edges: block.word(5),
        query: block.word(6),
    }
}

// How many records the blocks of a type have together.
pub(crate) fn total(deck: &[u8], kind: BlockType) -> usize
    ensures { result ≡ total_of deck.now (type_number kind) (blocks deck.now) }
{
    let mut sum = 0;
    for block in Reader::open(deck) {
        if block.type_byte() == u8::from(kind) {
            sum += block.used();
        }
    }
    sum
}

// The first block of a type or a later one.
fn first_of(deck: &[u8], kind: BlockType) -> usize
    ensures { result ≡ first_of deck.now (type_number kind) }
{
    for block in Reader::open(deck) {
        if u8::from(kind) <= block.type_byte() {
            return block.position;
        }
    }
    deck.len() / BLOCK_BYTES
}

pub(crate) fn sections(deck: &[u8]) -> Sections
    ensures { result ≡ sections_of deck.now }
{
    Sections {
        header: first_of(deck, BlockType::Header),
        map: first_of(deck, BlockType::Map),
        rules: first_of(deck, BlockType::Rules),
        edges: first_of(deck, BlockType::Edges),
    }
}
