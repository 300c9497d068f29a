// Text on its way to the standard output, written out when the buffer is full and at the end. It takes every text: what cannot
// be written is passed over. Not `println!`, whose proof rests on more of the C library than `io::write_all`.
ghost use Rattle.std.specs.Prelude.{◌≤◌};

use std::fmt;
use std::fmt::Write;

const CAPACITY: usize = 65536;

// No heap here: a buffer of fixed size and how much of it is full.
pub(crate) struct Out {
    bytes: [u8; CAPACITY],
    len: usize,
    ghost in_range: { len ≤ 65536 },
}

impl Out {
    pub(crate) fn new() -> Out {
        Out {
            bytes: [0; CAPACITY],
            len: 0,
        }
    }
}

impl Drop for Out {
    fn drop(self) {
        let Out { bytes, len } = self;
        io::write_all(1, &bytes[..len]);
    }
}

impl Write for Out {
    fn write_str(&mut self, s: &str) -> fmt::Result {
        // A local count: the one in the struct would be stored again at each byte.
        let mut len = self.len;
        for b in s.as_bytes() {
            if len == CAPACITY {
                io::write_all(1, &self.bytes);
                len = 0;
            }
            self.bytes[len] = *b;
            len += 1;
        }
        self.len = len;
        Ok(())
    }
}
