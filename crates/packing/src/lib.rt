// Lists of words packed in bytes: as many words as both lists have room for; what is past them keeps its value.
#![tactic(auto)]

ghost use Rattle.std.specs.Prelude.{◌≡◌};
ghost use Rattle.packing.specs.Packed.{unpacked_into, packed_into};

#[cfg(test)]
mod tests;

use words::{Word, read, write};

pub fn unpack<W: Word>(s: &[u8], ws: &mut [W])
    ensures { W.values ws.new ≡ unpacked_into W.SIZE s.now (W.values ws.old) }
{
    for w in 0..(s.len() / W::SIZE).min(ws.len()) {
        ws[w] = read(s, W::SIZE * w);
    }
}

pub fn pack<W: Word>(ws: &[W], s: &mut [u8])
    ensures { s.new ≡ packed_into W.SIZE (W.values ws.now) s.old }
{
    for w in 0..ws.len().min(s.len() / W::SIZE) {
        write(s, W::SIZE * w, ws[w]);
    }
}
