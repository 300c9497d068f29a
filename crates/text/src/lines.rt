// The report's lines.
ghost use Rattle.std.specs.Prelude.{◌++◌};
ghost use Rattle.words.specs.Refusals.{number_of};
ghost use Rattle.text.specs.Text.{decimal, closing_line, opening_line, pair_head, path_text, refused_line};
ghost use Rattle.text.specs.Text.{labelled as labelled_text};
ghost use Rattle.text.specs.Pen.{Penned};

use crate::pen::Pen;
use deck::Header;
use words::Refusal;

impl Pen<'_> {
    // A text and a number behind it.
    fn labelled(&mut self, s: &[u8], x: u64)
        ensures { Penned self.old self.new (s.now ++ decimal x) }
    {
        self.letters(s);
        self.number(x);
    }

    pub(crate) fn opening(&mut self, h: Header)
        ensures { Penned self.old self.new (opening_line h.nodes h.edges h.nonterminals h.rules) }
    {
        self.labelled(b"graph ", h.nodes as u64);
        self.labelled(b" nodes ", h.edges as u64);
        self.labelled(b" edges ", h.nonterminals as u64);
        self.labelled(b" nonterminals ", h.rules as u64);
        self.letters(b" rules\n");
    }

    pub(crate) fn closing(&mut self, pairs: u64, depth: u64)
        ensures { Penned self.old self.new (closing_line pairs depth) }
    {
        self.labelled(b"pairs ", pairs);
        self.labelled(b" depth ", depth);
        self.letters(b"\n");
    }

    pub(crate) fn refused(&mut self, r: Refusal)
        ensures { Penned self.old self.new (refused_line (number_of r.reason) r.place) }
    {
        self.labelled(b"refused ", u64::from(r.reason.number()));
        self.labelled(b" at ", r.place as u64);
        self.letters(b"\n");
    }

    // The edge numbers of a path, each behind a space.
    pub(crate) fn path(&mut self, edges: &[u16])
        ensures { Penned self.old self.new (path_text edges.now) }
    {
        for e in edges {
            self.labelled(b" ", u64::from(*e));
        }
    }

    // A pair's line up to its colon.
    pub(crate) fn pair(&mut self, i: u64, j: u64, height: u64, middle: u64, length: u64)
        ensures { Penned self.old self.new (pair_head i j height middle length) }
    {
        self.number(i);
        self.labelled(b" ", j);
        self.labelled(b" h ", height);
        self.labelled(b" m ", middle);
        self.labelled(b" l ", length);
        self.letters(b" :");
    }
}
