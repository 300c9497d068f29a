// What the reader answers to a deck, as a line.
use deck::{Header, read};
use std::fmt;
use std::fmt::Write;
use words::Refusal;

// The standard output. Not `println!`, whose proof rests on more of the C library than `io::write_all`.
#[derive(Clone, Copy)]
struct Output;

impl Write for Output {
    fn write_str(&mut self, s: &str) -> fmt::Result {
        if io::write_all(1, s.as_bytes()) {
            Ok(())
        } else {
            Err(fmt::Error)
        }
    }
}

// What cannot be written is passed over.
fn answered(name: &str, answer: Result<Header, Refusal>) {
    let _ = match answer {
        Ok(_) => writeln!(Output, "{name} accepted"),
        Err(r) => writeln!(Output, "{name} {r}"),
    };
}

// Room for no rule, then for no edge.
pub(crate) fn tell_short(deck: &[u8]) {
    let mut one = [0u16; 3];
    let mut none = [0u16; 2];
    answered("2 words for 1 rule", read(deck, &mut none, &mut one));
    answered("2 words for 1 edge", read(deck, &mut one, &mut none));
}

// The deck of the first n bytes, or of all there are.
// The length comes beside, since `build` promises no bound on it.
pub(crate) fn tell_front(name: &str, deck: &[u8], n: usize) {
    let mut rules = [0u16; 768];
    let mut edges = [0u16; 12288];
    let front = &deck[..n.min(deck.len())];
    answered(name, read(front, &mut rules, &mut edges));
}
