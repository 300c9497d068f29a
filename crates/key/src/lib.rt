// The key of a filled cell: height, middle and rule number packed into one 64-bit word, so that keys compare by height,
// then middle, then rule. Every function is total, and its promise is an equation, which settles its answer.
#![tactic(auto)]

ghost use Rattle.std.specs.Prelude.{◌≡◌, eqb};
ghost use Rattle.key.specs.Keys.{EMPTY, key, parts_of};

#[derive(Clone, Copy, Debug, PartialEq, Eq, PartialOrd, Ord)]
pub struct Key {
    pub word: u64,
}

#[derive(Clone, Copy, Debug, PartialEq, Eq)]
pub struct Parts {
    pub height: u32,
    pub middle: u16,
    pub rule: u16,
}

impl Key {
    // What an empty cell holds: larger than any key.
    pub const EMPTY: Key = Key {
        word: 0xffff_ffff_ffff_ffff,
    };

    // The greatest height that a key of a table may have.
    pub const HIGHEST: u32 = 131072;

    pub fn is_empty(self) -> bool
        ensures { result ≡ eqb self.word EMPTY }
    {
        self == Key::EMPTY
    }

    pub fn make(height: u32, middle: u16, rule: u16) -> Key
        ensures { result ≡ record { word = key height middle rule } }
    {
        Key {
            word: height as u64 * 4294967296 + middle as u64 * 65536 + rule as u64,
        }
    }

    pub fn split(self) -> Parts
        ensures { result ≡ parts_of self.word }
    {
        let word = self.word;
        Parts {
            height: (word / 4294967296) as u32,
            middle: (word / 65536 % 65536) as u16,
            rule: (word % 65536) as u16,
        }
    }
}

impl From<u64> for Key {
    ghost from_gives = { λ w k. k ≡ record { word = w } };

    fn from(word: u64) -> Key {
        Key { word }
    }
}

impl From<Key> for u64 {
    ghost from_gives = { λ k w. w ≡ k.word };

    fn from(key: Key) -> u64 {
        key.word
    }
}
