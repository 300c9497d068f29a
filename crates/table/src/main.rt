// The whole closed table of a deck of any size: what large comparisons run on. It reads a deck on standard input, refuses as
// the reader does, and else writes a line `A i j height middle rule length` for every filled cell, by cell number, and then
// `cells N depth D`; and `rows differ` where the second engine's answer is another.
#![tactic(auto)]

ghost use Rattle.std.specs.Prelude.{◌≤◌};

use closure::run;
use deck::{numbers_in, read};
use key::{Key, Parts};
use meaning::{at, cell};
use numbers::{Numbers, cells};
use out::Out;
use rows::rows;
use std::fmt;
use std::fmt::Write;
use words::Refusal;

mod out;

// The lines of the filled cells. A program over the public calls, which take slices and numbers.
fn lines(
    out: &mut Out,
    table: &[u64],
    lengths: &[u32],
    nodes: u16,
    nonterminals: u16,
) -> fmt::Result {
    for a in 0..nonterminals {
        for i in 0..nodes {
            for j in 0..nodes {
                let c = cell(nodes, a, i, j);
                let key = Key::from(at(table, c, 0));
                if key != Key::EMPTY {
                    let Parts {
                        height,
                        middle,
                        rule,
                    } = key.split();
                    let length = at(lengths, c, 0);
                    writeln!(out, "{a} {i} {j} {height} {middle} {rule} {length}")?;
                }
            }
        }
    }
    Ok(())
}

fn is_set(word: u64, j: u16) -> bool {
    j < 64 && word >> j & 1 == 1
}

// Whether bit j of every row is set exactly where its cell is filled.
fn agree(table: &[u64], bits: &[u64], nodes: u16, nonterminals: u16) -> bool {
    for a in 0..nonterminals {
        for i in 0..nodes {
            let row = at(
                bits,
                usize::from(a) * usize::from(nodes) + usize::from(i),
                0,
            );
            for j in 0..nodes {
                let key = Key::from(at(table, cell(nodes, a, i, j), 0));
                if is_set(row, j) == (key == Key::EMPTY) {
                    return false;
                }
            }
        }
    }
    true
}

fn closed(out: &mut Out, numbers: Numbers, rules: &[u16], edges: &[u16]) -> Result<(), Refusal>
    requires nodes_bound { numbers.nodes ≤ 64 }
    requires nonterminals_bound { numbers.nonterminals ≤ 32 }
{
    let mut table = [0u64; 131072];
    let mut lengths = [0u32; 131072];
    let depth = run(numbers, rules, edges, &mut table, &mut lengths)?;
    let nodes = numbers.nodes as u16;
    let nonterminals = numbers.nonterminals as u16;
    let _ = lines(out, &table, &lengths, nodes, nonterminals);
    let words = table.iter().take(cells(nodes, nonterminals));
    let filled = words.filter(|word| **word != Key::EMPTY.word).count();
    let _ = writeln!(out, "cells {filled} depth {depth}");
    let mut bits = [0u64; 2048];
    rows(numbers, rules, edges, &mut bits)?;
    if !agree(&table, &bits, nodes, nonterminals) {
        let _ = writeln!(out, "rows differ");
    }
    Ok(())
}

fn told(out: &mut Out, deck: &[u8]) -> Result<(), Refusal> {
    let mut rules = [0u16; 768];
    let mut edges = [0u16; 12288];
    let h = read(deck, &mut rules, &mut edges)?;
    let r = 3 * h.rules;
    let e = 3 * h.edges;
    closed(out, numbers_in(h), &rules[..r], &edges[..e])
}

fn main() {
    // One byte more than the longest deck, so that a longer input is refused.
    let mut deck = [0u8; 29697];
    let n = io::read_full(0, &mut deck);
    let mut out = Out::new();
    if let Err(refusal) = told(&mut out, &deck[..n]) {
        let _ = writeln!(out, "{refusal}");
    }
}
