// The lines of the pairs: the filled cells of the queried nonterminal, by i, then j.
ghost use Rattle.std.specs.Prelude.{◌*◌};
ghost use Rattle.text.specs.Queried.{checked_numbers};
ghost use Rattle.text.specs.Penned.{FinalQuery, PairAt, TailPenned, LinePenned, LinesPenned};

use crate::pen::Pen;
use crate::query::Query;

// What follows the colon: the path, or `long` where it has over 1,024 edges, which is all that it is refused for here.
fn tail(pen: &mut Pen, query: Query, i: u16, j: u16)
    requires final_query { FinalQuery query }
    requires pair_at { PairAt query i j }
    ensures { TailPenned query.entry i j pen.old pen.new }
{
    let mut room = [0u16; 1024];
    match query.write_path(i, j, &mut room) {
        Ok(n) => pen.path(&room[..n]),
        Err(_) => pen.letters(b" long"),
    }
}

// The line of a filled cell.
fn line(pen: &mut Pen, query: Query, i: u16, j: u16)
    requires final_query { FinalQuery query }
    requires pair_at { PairAt query i j }
    ensures { LinePenned query.entry i j pen.old pen.new }
{
    let parts = query.key(i, j).split();
    pen.pair(
        i as u64,
        j as u64,
        u64::from(parts.height),
        u64::from(parts.middle),
        u64::from(query.length(i, j)),
    );
    tail(pen, query, i, j);
    pen.letters(b"\n");
}

// Answers how many lines there are.
pub(crate) fn pairs(pen: &mut Pen, query: Query) -> u64
    requires { FinalQuery query }
    ensures { LinesPenned query.entry ((checked_numbers query.entry.checked).nodes * (checked_numbers query.entry.checked).nodes) pen.old pen.new result }
{
    let n = query.nodes();
    let mut pairs = 0;
    for i in 0..n {
        for j in 0..n {
            if !query.key(i, j).is_empty() {
                line(pen, query, i, j);
                pairs += 1;
            }
        }
    }
    pairs
}
