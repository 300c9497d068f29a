// What no crate here calls, as a crate above would: words of a type of its own, and words of numbers that are too large.
// Each test answers with the name of what is wrong, and so rests on nothing but the runner of tests.
ghost use Rattle.std.specs.Prelude.{map};
ghost use Rattle.std.proofs.Common.{rules};
ghost use Rattle.std.proofs.lemmas.Grind.{common_steps};

use crate::{pack, unpack};
use words::{PlainWord, Word, read, write};

// Two bytes, and a mark that they do not tell: two words of one number may differ, so it is no plain word.
#[derive(Clone, Copy)]
struct Marked {
    bits: u16,
    mark: bool,
}

impl Word for Marked {
    ghost SIZE = { 2 };

    ghost value = { λ w. w.bits };

    ghost values = { λ l. map (λ w. w.bits) l };

    const SIZE: usize = 2;

    fn from_u64(x: u64) -> Marked {
        Marked {
            bits: x as u16,
            mark: false,
        }
    }

    fn to_u64(self) -> u64 {
        u64::from(self.bits)
    }

    ghost positive = { Prim.search rules };

    ghost small = { Prim.search rules };

    ghost each = { Prim.search (rules, common_steps) };
}

fn is(right: bool, what: &'static str) -> Result<(), &'static str> {
    if right { Ok(()) } else { Err(what) }
}

#[test]
fn numbers_that_fit() -> Result<(), &'static str> {
    let x = 0x0102_0304_0506_0708;
    is(u16::from_u64(0x0102) == 0x0102, "u16")?;
    is(u32::from_u64(0x0102_0304) == 0x0102_0304, "u32")?;
    is(u64::from_u64(x) == x, "u64")?;
    is(u64::from_low_bytes(x) == x, "all bytes of a u64")?;
    is(Marked::from_u64(0x0102).bits == 0x0102, "Marked")
}

#[test]
fn numbers_that_do_not_fit() -> Result<(), &'static str> {
    let x = 0x0102_0304_0506_0708;
    is(u16::from_u64(x) == 0x0708, "u16")?;
    is(u32::from_u64(x) == 0x0506_0708, "u32")?;
    is(u16::from_low_bytes(x) == 0x0708, "the low bytes of a u16")?;
    is(
        u32::from_low_bytes(x) == 0x0506_0708,
        "the low bytes of a u32",
    )
}

#[test]
fn a_word_of_the_caller() -> Result<(), &'static str> {
    let marked = Marked {
        bits: 0x0302,
        mark: true,
    };
    let front: Marked = read(&[1, 2, 3], 1);
    is(front.bits == 0x0302, "read")?;
    let mut bytes = [0; 5];
    write(&mut bytes, 1, marked);
    is(bytes == [0, 2, 3, 0, 0], "write")?;
    let mut words = [marked; 3];
    unpack(&[1, 2, 4, 5, 9], &mut words);
    is(words[0].bits == 0x0201 && !words[0].mark, "unpack")?;
    is(
        words[1].bits == 0x0504 && !words[1].mark,
        "unpack, the next",
    )?;
    is(
        words[2].bits == 0x0302 && words[2].mark,
        "unpack, past the bytes",
    )?;
    pack(&words, &mut bytes);
    is(bytes == [1, 2, 4, 5, 0], "pack")
}
