// Little-endian words in bytes, at every size. Both functions are total: a byte past the end reads as 0 and is not
// written. Each promise is an equation, which settles the number of the answer, and so the answer of a plain word, or every
// byte of the lent slice.

ghost use Rattle.std.specs.Prelude.{◌≡◌, ℕ, ◌+◌, ◌%◌, ◌^◌, ◌<◌, ◌≤◌, List, map, slice_index, slice_set};
ghost use Rattle.std.proofs.Common.{rules};
ghost use Rattle.std.proofs.lemmas.Grind.{common_steps};
ghost use Rattle.words.specs.Bytes.{le_at, put_le};

// An unsigned number of SIZE bytes. A caller's own type may keep more beside it.
pub trait Word: Copy {
    ghost SIZE: { ℕ };

    // its number, and the numbers of a list of words: at u16, u32 and u64 the words themselves
    ghost value: { Self → ℕ };

    ghost values: { List Self → List ℕ };

    const SIZE: usize;

    // The word of number x, which fits. At u16, u32 and u64 nothing is asked of x, and of a larger one the lowest bytes are
    // kept.
    fn from_u64(x: u64) -> Self
        requires { x < 256 ^ SIZE }
        ensures { value result ≡ x };

    // The number of a word.
    fn to_u64(self) -> u64
        ensures { result ≡ value self };

    ghost positive: { 0 < SIZE };

    ghost small: { SIZE ≤ 8 };

    ghost each: { (l : List Self) → values l ≡ map value l };
}

// A word that is its number and no more: u16, u32 and u64.
pub trait PlainWord: Word {
    // The word of number x, or of its lowest bytes where it has more than the word holds.
    fn from_low_bytes(x: u64) -> Self
        ensures { Self.value result ≡ x % 256 ^ Self.SIZE }
    {
        match 256u64.checked_pow(Self::SIZE as u32) {
            Some(count) => Self::from_u64(x % count),
            None => Self::from_u64(x),
        }
    }

    ghost one: { (x y : Self) → Self.value x ≡ Self.value y → x ≡ y };
}

// An impl for each size is written out: the gate takes none that a macro of the repository writes.
impl Word for u16 {
    ghost SIZE = { 2 };

    ghost value = { λ x. x };

    ghost values = { λ l. l };

    const SIZE: usize = 2;

    fn from_u64(x: u64) -> u16
        ensures { result ≡ x % 65536 }
    {
        (x % 65536) as u16
    }

    fn to_u64(self) -> u64 {
        u64::from(self)
    }

    ghost positive = { Prim.search rules };

    ghost small = { Prim.search rules };

    ghost each = { Prim.search (rules, common_steps) };
}

impl PlainWord for u16 {
    ghost one = { λ x y same. same };
}

impl Word for u32 {
    ghost SIZE = { 4 };

    ghost value = { λ x. x };

    ghost values = { λ l. l };

    const SIZE: usize = 4;

    fn from_u64(x: u64) -> u32
        ensures { result ≡ x % 4294967296 }
    {
        (x % 4294967296) as u32
    }

    fn to_u64(self) -> u64 {
        u64::from(self)
    }

    ghost positive = { Prim.search rules };

    ghost small = { Prim.search rules };

    ghost each = { Prim.search (rules, common_steps) };
}

impl PlainWord for u32 {
    ghost one = { λ x y same. same };
}

impl Word for u64 {
    ghost SIZE = { 8 };

    ghost value = { λ x. x };

    ghost values = { λ l. l };

    const SIZE: usize = 8;

    fn from_u64(x: u64) -> u64
        ensures { result ≡ x }
    {
        x
    }

    fn to_u64(self) -> u64 {
        self
    }

    ghost positive = { Prim.search rules };

    ghost small = { Prim.search rules };

    ghost each = { Prim.search (rules, common_steps) };
}

impl PlainWord for u64 {
    ghost one = { λ x y same. same };
}

// The byte k places behind position p. A position that does not fit a usize is past the end.
fn byte(s: &[u8], p: usize, k: usize) -> u8
    ensures { result ≡ slice_index s.now (p + k) }
{
    s.get(p.saturating_add(k)).copied().unwrap_or(0)
}

#[tactic(auto, using(crate::proofs::Bytes::le_at_more, crate::proofs::Bytes::le_at_none))]
pub fn read<W: Word>(s: &[u8], p: usize) -> W
    ensures { W.value result ≡ le_at W.SIZE s.now p }
{
    let mut number = 0;
    for k in (0..W::SIZE).rev() {
        number = number * 256 + u64::from(byte(s, p, k));
    }
    W::from_u64(number)
}

// Byte x put there.
fn put(s: &mut [u8], p: usize, k: usize, x: u8)
    ensures { s.new ≡ slice_set s.old (p + k) x }
{
    let i = p.saturating_add(k);
    if i < s.len() {
        s[i] = x;
    }
}

#[tactic(auto, using(crate::proofs::Bytes::put_le_more, crate::proofs::Bytes::put_le_none))]
pub fn write<W: Word>(s: &mut [u8], p: usize, x: W)
    ensures { s.new ≡ put_le W.SIZE s.old p (W.value x) }
{
    let mut rest = x.to_u64();
    for k in 0..W::SIZE {
        put(s, p, k, (rest % 256) as u8);
        rest /= 256;
    }
}
