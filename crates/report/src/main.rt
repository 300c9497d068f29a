// The report program: it reads one deck on standard input and writes its report to standard output.
#![tactic(auto)]

ghost use Rattle.std.specs.Prelude.{◌≡◌, length};

use text::{ROOM, report};

// Room for any report. A function of its own, since a proof that sees the elements of so long an array does not end.
fn room() -> [u8; ROOM]
    ensures { 1650000 ≡ length result }
{
    [0; ROOM]
}

fn main() {
    // One byte more than the longest deck, so that a longer input is refused.
    let mut deck = [0u8; 29697];
    let n = io::read_full(0, &mut deck);
    let mut text = room();
    if let Some(m) = report(&deck[..n], &mut text) {
        io::write_all(1, &text[..m]);
    }
}
