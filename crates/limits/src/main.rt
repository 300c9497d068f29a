// The limits of a deck, run over the reader: builds decks at each limit and past it, and one for each refusal that the
// reader can give, and writes a line each with what it answers. The stored output says what is right.
#![tactic(auto)]

use build::{build, head, put, seal};
use tell::{tell_front, tell_short};

mod build;
mod tell;

// What is done to a right deck before the reader sees it.
#[derive(Clone, Copy)]
enum Damage {
    Nothing,
    // In a block, a word, and what it is then.
    Word(u16, u16, u16),
    // A block's type, records used and number. The type is a byte and no `Kind`, as in `head`.
    Head(u16, u8, u8, u16),
    // The low half of a block's check.
    Sum(u16),
}

const HEADERS: [(&str, [u16; 7]); 16] = [
    ("0 nodes", [0, 1, 1, 0, 0, 0, 0]),
    ("64 nodes", [64, 1, 1, 0, 0, 0, 0]),
    ("65 nodes", [65, 1, 1, 0, 0, 0, 0]),
    ("0 nonterminals", [1, 0, 1, 0, 0, 0, 0]),
    ("32 nonterminals", [1, 32, 1, 0, 0, 0, 31]),
    ("33 nonterminals", [1, 33, 1, 0, 0, 0, 0]),
    ("0 labels", [1, 1, 0, 0, 0, 0, 0]),
    ("255 labels", [1, 1, 255, 0, 0, 0, 0]),
    ("256 labels", [1, 1, 256, 0, 0, 0, 0]),
    ("256 map entries", [1, 1, 1, 256, 0, 0, 0]),
    ("257 map entries", [1, 1, 1, 257, 0, 0, 0]),
    ("256 rules", [1, 1, 1, 0, 256, 0, 0]),
    ("257 rules", [1, 1, 1, 0, 257, 0, 0]),
    ("4,096 edges", [1, 1, 1, 1, 0, 4096, 0]),
    ("4,097 edges", [1, 1, 1, 1, 0, 4097, 0]),
    ("query 1 of 1 nonterminal", [1, 1, 1, 0, 0, 0, 1]),
];

// Of a deck of two blocks of map entries.
const BLOCKS: [(&str, Damage); 14] = [
    ("check of block 0 wrong", Damage::Sum(0)),
    ("check of block 4 wrong", Damage::Sum(4)),
    ("block 0 no header", Damage::Head(0, 2, 3, 0)),
    ("a header further on", Damage::Head(1, 1, 3, 1)),
    ("type 5", Damage::Head(4, 5, 1, 4)),
    ("types that fall", Damage::Head(4, 2, 1, 4)),
    ("wrong block number", Damage::Head(2, 2, 1, 3)),
    ("header of 2 records", Damage::Head(0, 1, 2, 0)),
    ("block of 0 records", Damage::Head(3, 3, 0, 3)),
    ("block of 85 records", Damage::Head(1, 2, 85, 1)),
    ("part-full block before the last", Damage::Head(1, 2, 83, 1)),
    ("header word 7 not zero", Damage::Word(0, 7, 1)),
    ("padding not zero", Damage::Word(2, 251, 1)),
    ("totals other than the header's", Damage::Word(0, 3, 84)),
];

// Of a deck of two map entries, a rule and an edge.
const RECORDS: [(&str, Damage); 10] = [
    ("kind 65535 mapped", Damage::Word(1, 3, 65535)),
    ("kinds that do not rise", Damage::Word(1, 3, 0)),
    ("label 0 in the map", Damage::Word(1, 1, 0)),
    ("label 2 of 1 in the map", Damage::Word(1, 4, 2)),
    ("map entry with a third word", Damage::Word(1, 5, 1)),
    ("rule with nonterminal 1 of 1", Damage::Word(2, 0, 1)),
    ("label rule with label 65535", Damage::Word(2, 1, 65535)),
    ("edge from node 1 of 1", Damage::Word(3, 0, 1)),
    ("edge to node 1 of 1", Damage::Word(3, 2, 1)),
    ("edge of kind 2 of 2", Damage::Word(3, 1, 2)),
];

// The deck of the header numbers with its damage.
fn told(name: &str, numbers: [u16; 7], damage: Damage) {
    let mut deck = [0u8; 30208];
    let n = build(&mut deck, numbers);
    match damage {
        Damage::Nothing => {}
        Damage::Word(b, w, x) => {
            put(&mut deck, b, w, x);
            seal(&mut deck, b);
        }
        Damage::Head(b, kind, used, number) => {
            head(&mut deck, b, kind, used, number);
            seal(&mut deck, b);
        }
        Damage::Sum(b) => put(&mut deck, b, 252, 0),
    }
    tell_front(name, &deck, n);
}

fn lengths() {
    let mut deck = [0u8; 30208];
    build(&mut deck, [1, 1, 1, 256, 256, 4096, 0]);
    tell_front("29,696 bytes", &deck, 29696);
    tell_front("29,697 bytes", &deck, 29697);
    tell_front("30,208 bytes", &deck, 30208);
    told("512 bytes", [1, 1, 1, 0, 0, 0, 0], Damage::Nothing);
    tell_front("511 bytes", &deck, 511);
    tell_front("0 bytes", &deck, 0);
}

fn room() {
    let mut deck = [0u8; 2048];
    build(&mut deck, [1, 1, 1, 1, 1, 1, 0]);
    tell_short(&deck);
}

fn main() {
    lengths();
    for (name, numbers) in HEADERS {
        told(name, numbers, Damage::Nothing);
    }
    for (name, damage) in BLOCKS {
        told(name, [1, 1, 1, 85, 1, 1, 0], damage);
    }
    told("kind 0 mapped", [1, 1, 1, 2, 1, 1, 0], Damage::Nothing);
    told("kind 0 unmapped", [1, 1, 1, 0, 1, 1, 0], Damage::Nothing);
    for (name, damage) in RECORDS {
        told(name, [1, 1, 1, 2, 1, 1, 0], damage);
    }
    room();
}
