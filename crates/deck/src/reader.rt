// A deck's blocks: what lies where in one, the types of blocks, and the reader that hands them out in turn.
ghost use Rattle.std.specs.Prelude.{◌≡◌, ◌+◌, ◌*◌, ◌≤◌, ◌<◌, length};
ghost use Rattle.deck.specs.Blocks.{type_number, TypeNumbered, type_of, used_of, stated_number, word_at};

use words::read;

// A block: 512 bytes.
pub(crate) const BLOCK_BYTES: usize = 512;

// Where in it the count of its records is; its type is byte 0.
const COUNT_AT: usize = 1;

// Where its own number is.
const NUMBER_AT: usize = 2;

// Where its 252 words of 16 bits begin.
pub(crate) const WORDS_AT: usize = 4;

// Where the sum of the bytes before is.
pub(crate) const SUM_AT: usize = 508;

// The words of a record.
pub(crate) const RECORD_WORDS: usize = 3;

// The records that fill a block.
pub(crate) const BLOCK_RECORDS: usize = 84;

// The types of blocks, in the order in which they follow one another.
#[derive(Clone, Copy, PartialEq, Eq)]
pub(crate) enum BlockType {
    Header = 1,
    Map = 2,
    Rules = 3,
    Edges = 4,
}

impl From<BlockType> for u8 {
    ghost from_gives = { λ kind number. number ≡ type_number kind };

    fn from(kind: BlockType) -> u8 {
        kind as u8
    }
}

impl TryFrom<u8> for BlockType {
    type Error = u8;

    ghost try_from_gives = { TypeNumbered };

    fn try_from(number: u8) -> Result<BlockType, u8> {
        match number {
            1 => Ok(BlockType::Header),
            2 => Ok(BlockType::Map),
            3 => Ok(BlockType::Rules),
            4 => Ok(BlockType::Edges),
            _ => Err(number),
        }
    }
}

// The block at a position of a deck that has it whole.
#[derive(Clone, Copy)]
pub(crate) struct Block<'a> {
    pub deck: &'a [u8],
    pub position: usize,
    pub ghost whole: { position * 512 + 512 ≤ length deck.now },
}

impl<'a> Block<'a> {
    // Another block of the same deck.
    pub(crate) fn at(&self, position: usize) -> Block<'a>
        requires { position * 512 + 512 ≤ length self.now.deck.now }
        ensures deck { result.deck.now ≡ self.now.deck.now }
        ensures position { result.position ≡ position }
    {
        Block {
            deck: self.deck,
            position,
        }
    }

    // The byte that names its type.
    pub(crate) fn type_byte(&self) -> u8
        ensures { result ≡ type_of self.now.deck.now self.now.position }
    {
        self.deck[self.position * BLOCK_BYTES]
    }

    // How many records it says it has.
    pub(crate) fn used(&self) -> usize
        ensures value { result ≡ used_of self.now.deck.now self.now.position }
        ensures byte { result < 256 }
    {
        usize::from(self.deck[self.position * BLOCK_BYTES + COUNT_AT])
    }

    // The number that it gives itself.
    pub(crate) fn stated_number(&self) -> usize
        ensures { result ≡ stated_number self.now.deck.now self.now.position }
    {
        usize::from(read::<u16>(self.deck, self.position * BLOCK_BYTES + NUMBER_AT))
    }

    pub(crate) fn word(&self, w: usize) -> usize
        requires { w < 252 }
        ensures { result ≡ word_at self.now.deck.now self.now.position w }
    {
        usize::from(read::<u16>(self.deck, self.position * BLOCK_BYTES + WORDS_AT + 2 * w))
    }
}

// The deck and the position of the block that comes next.
#[derive(Drop)]
pub(crate) struct Reader<'a> {
    deck: &'a [u8],
    next: usize,
}

impl<'a> Reader<'a> {
    // At block 0.
    pub(crate) fn open(deck: &'a [u8]) -> Reader<'a>
        ensures deck { result.deck.now ≡ deck.now }
        ensures next { result.next ≡ 0 }
    {
        Reader { deck, next: 0 }
    }
}

// Hands out the block at its position, and moves on.
impl<'a> Iterator for Reader<'a> {
    ghost use Rattle.std.specs.Iterator.{at_most};
    ghost use Rattle.deck.specs.Readers.{GivesNext, blocks_left};

    type Item = Block<'a>;

    ghost next_gives = { GivesNext };

    ghost remaining = { λ r. at_most (blocks_left r) };

    fn next(&mut self) -> Option<Block<'a>> {
        let position = self.next;
        if self.deck.len() / BLOCK_BYTES <= position {
            return None;
        }
        self.next = position + 1;
        Some(Block {
            deck: self.deck,
            position,
        })
    }
}
