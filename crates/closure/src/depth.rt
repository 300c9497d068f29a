// The depth of a table: the largest height of its cells.
ghost use Rattle.std.specs.Prelude.{◌≡◌, cond, ◌≤◌, length, ltb};
ghost use Rattle.key.specs.Keys.{EMPTY, height_of};
ghost use Rattle.meaning.specs.Lengths.{depth};

use key::Key;

// The height of a cell, 0 for an empty one.
fn height(word: u64) -> u32
    ensures { result ≡ cond (ltb word EMPTY) (height_of word) 0 }
{
    let key = Key::from(word);
    if key.is_empty() {
        0
    } else {
        key.split().height
    }
}

// The largest height of the first n words, 0 if no cell is filled. A count beside, as the definition has it.
pub(crate) fn depth_of(table: &[u64], n: usize) -> u32
    requires { n ≤ length table.now }
    ensures { result ≡ depth table.now n }
{
    let mut deep = 0;
    for word in &table[..n] {
        deep = deep.max(height(*word));
    }
    deep
}
