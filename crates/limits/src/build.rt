// Decks built block by block, right unless a case damages them afterwards.
ghost use Rattle.std.specs.Prelude.{◌+◌, ◌≤◌, length};

use words::write;

// A block's bytes, and those of them that its check sums.
const BLOCK_BYTES: usize = 512;

const SUMMED_BYTES: usize = 508;

// What the records of a block are, by the type in its first byte.
#[derive(Clone, Copy)]
enum Kind {
    Entry = 2,
    Rule = 3,
    Edge = 4,
}

// Word w of block b. Deck and block stay two here: a struct of a lent deck would be made anew for each block.
pub(crate) fn put(deck: &mut [u8], b: u16, w: u16, x: u16) {
    write(
        deck,
        usize::from(b) * BLOCK_BYTES + 4 + 2 * usize::from(w),
        x,
    );
}

// Type, records used and number of block b. A byte and no `Kind`: some decks have a type that there is not.
pub(crate) fn head(deck: &mut [u8], b: u16, kind: u8, used: u8, number: u16) {
    let p = usize::from(b) * BLOCK_BYTES;
    write(deck, p, u16::from_le_bytes([kind, used]));
    write(deck, p + 2, number);
}

// The reader's own sum is not used here: it is what the decks are for.
fn sum_of(bytes: &[u8]) -> u32
    requires { length bytes.now ≤ 508 }
{
    bytes.iter().map(|x| u32::from(*x)).sum()
}

// The check of block b, from its bytes as they stand.
pub(crate) fn seal(deck: &mut [u8], b: u16) {
    let p = usize::from(b) * BLOCK_BYTES;
    if let Some(bytes) = deck.get(p..p + SUMMED_BYTES) {
        let sum = sum_of(bytes);
        write(deck, p + SUMMED_BYTES, sum);
    }
}

// Record r of a kind: map entry r → 1, rule 0 → 1, edge from 0 of kind 0 to 0.
fn record(deck: &mut [u8], b: u16, kind: Kind, r: u16) {
    let w = r % 84 * 3;
    match kind {
        Kind::Entry => {
            put(deck, b, w, r);
            put(deck, b, w + 1, 1);
        }
        Kind::Rule => {
            put(deck, b, w + 1, 1);
            put(deck, b, w + 2, 65535);
        }
        Kind::Edge => {}
    }
}

// The records of a kind from block `first` on; answers the next block.
fn records(deck: &mut [u8], first: u16, kind: Kind, count: u16) -> u16
    requires { first ≤ 1600 }
    ensures { result ≤ first + 782 }
{
    for r in 0..count {
        let b = first + r / 84;
        head(deck, b, kind as u8, (r % 84 + 1) as u8, b);
        record(deck, b, kind, r);
    }
    first + count.div_ceil(84)
}

// The right deck of the seven header numbers, into zeros; answers its bytes.
pub(crate) fn build(deck: &mut [u8], numbers: [u16; 7]) -> usize {
    head(deck, 0, 1, 3, 0);
    for (w, x) in (0..7).zip(numbers) {
        put(deck, 0, w, x);
    }
    let [_, _, _, entries, rules, edges, _] = numbers;
    let b = records(deck, 1, Kind::Entry, entries);
    let b = records(deck, b, Kind::Rule, rules);
    let end = records(deck, b, Kind::Edge, edges);
    for b in 0..end {
        seal(deck, b);
    }
    usize::from(end) * BLOCK_BYTES
}
