// A pen: it writes pieces of text into a lent buffer, one behind the other, and stops at the buffer's end. No `fmt::Write`: what
// `write!` promises holds only where it answers Ok, and a report is written whole.
ghost use Rattle.std.specs.Prelude.{◌≡◌, [], ◌∷◌};
ghost use Rattle.text.specs.Text.{decimal};
ghost use Rattle.text.specs.Pen.{Fresh, Penned};

#[derive(Drop)]
pub(crate) struct Pen<'a> {
    text: &'a mut [u8],
    at: usize,
}

impl<'a> Pen<'a> {
    pub(crate) fn new(text: &'a mut [u8]) -> Pen<'a>
        ensures { Fresh text.entry result }
    {
        Pen { text, at: 0 }
    }

    // How many bytes are written.
    pub(crate) fn at(&self) -> usize
        ensures { result ≡ self.now.at }
    {
        self.at
    }

    fn byte(&mut self, b: u8)
        ensures { Penned self.old self.new (b ∷ []) }
    {
        if self.at < self.text.len() {
            self.text[self.at] = b;
            self.at += 1;
        }
    }

    pub(crate) fn letters(&mut self, s: &[u8])
        ensures { Penned self.old self.new s.now }
    {
        for b in s {
            self.byte(*b);
        }
    }

    // The digits of x, the last one behind those of x / 10.
    pub(crate) fn number(&mut self, x: u64)
        ensures { Penned self.old self.new (decimal x) }
    {
        if 10 <= x {
            self.number(x / 10);
        }
        self.byte(b'0' + (x % 10) as u8);
    }
}
