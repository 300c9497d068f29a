// What a call is given: three numbers and two lists in bytes. The lists' words go into local arrays.
ghost use Rattle.std.specs.Prelude.{◌≡◌, ◌/◌, IfOk, IfErr, Err, length, min};
ghost use Rattle.words.specs.Refusals.{Good};
ghost use Rattle.packing.specs.Packed.{unpacked};
ghost use Rattle.nevelknop.specs.Calls.{given_numbers, bytes_check, words_of};
ghost use Rattle.nevelknop.specs.Inner.{counts_check, ready_check, given_check};

use lists::Lists;
use numbers::{Numbers, large, limits};
use packing::unpack;
use words::{Reason, Refusal, Word, must};

// The words of 256 rules.
const RULE_WORDS: usize = 768;

// The words of 4,096 edges.
const EDGE_WORDS: usize = 12288;

// The cells of 16 nodes and 8 nonterminals: no call that is not too large has more.
pub(crate) const CELLS: usize = 2048;

// The three numbers and the two lists of a call, as it is given them.
#[derive(Clone, Copy)]
pub(crate) struct ByteLists<'a> {
    pub(crate) numbers: Numbers,
    pub(crate) rules: &'a [u8],
    pub(crate) edges: &'a [u8],
}

impl<'a> ByteLists<'a> {
    pub(crate) fn new(
        nodes: u32,
        nonterminals: u32,
        labels: u32,
        rules: &'a [u8],
        edges: &'a [u8],
    ) -> Self
        ensures { (result.numbers ≡ given_numbers nodes nonterminals labels) × ((result.rules ≡ rules.entry) × (result.edges ≡ edges.entry)) }
    {
        ByteLists {
            numbers: Numbers {
                nodes: nodes as usize,
                nonterminals: nonterminals as usize,
                labels: labels as usize,
            },
            rules,
            edges,
        }
    }
}

// The words that the bytes hold, as many as there is room for: unpacked into the front of the room, which is lent back.
pub(crate) fn unpack_front<'a, W: Word>(bytes: &[u8], room: &'a mut [W]) -> &'a mut [W]
    ensures { W.values result.now ≡ unpacked W.SIZE bytes.now (min (length bytes.now / W.SIZE) (length room.old)) }
{
    let count = (bytes.len() / W::SIZE).min(room.len());
    unpack(bytes, room);
    &mut room[..count]
}

// Both lists hold whole records of bytes. lists asks the same of words: one function for both would take a unit that must
// not be 0.
#[tactic(auto, using(words::proofs::Refusals::refusing), unfolding(crate::specs::Calls::bytes_check))]
fn whole_records(rules: usize, edges: usize) -> Result<(), Refusal>
    ensures { result ≡ bytes_check rules edges }
{
    must(rules % 6 == 0, Reason::WrongCount, 0)?;
    must(edges % 6 == 0, Reason::WrongCount, 1)
}

// The checks that need no word. They come before there is room for the words: the local arrays hold no more than the limits,
// and a call that is refused here has none to clear.
#[tactic(auto, using(words::proofs::Refusals::refusing))]
pub(crate) fn counts_check(numbers: Numbers, rules: usize, edges: usize) -> Result<(), Refusal>
    ensures { result ≡ counts_check numbers rules edges }
{
    whole_records(rules, edges)?;
    limits(numbers, rules / 2, edges / 2)
}

// The lists that the words make, right and not too large.
#[tactic(auto, using(words::proofs::Refusals::refusing))]
fn small_lists<'a>(
    numbers: Numbers,
    rules: &'a [u16],
    edges: &'a [u16],
) -> Result<Lists<'a>, Refusal>
    ensures ok { IfOk result (λ l. (l.numbers ≡ numbers) × ((l.rules.now ≡ rules.now) × ((l.edges.now ≡ edges.now) × (ready_check numbers rules.now edges.now ≡ Good)))) }
    ensures err { IfErr result (λ r. ready_check numbers rules.now edges.now ≡ Err r) }
{
    let lists = Lists::new(numbers, rules, edges)?;
    large(numbers, edges.len() / 3)?;
    Ok(lists)
}

// Room for the words of a call's lists.
#[derive(Drop)]
pub(crate) struct ListWords {
    rules: [u16; RULE_WORDS],
    edges: [u16; EDGE_WORDS],
}

impl ListWords {
    pub(crate) fn new() -> Self {
        ListWords {
            rules: [0; RULE_WORDS],
            edges: [0; EDGE_WORDS],
        }
    }

    // The lists that a call is given, whose counts are right, or the first refusal of them that does not depend on the call.
    pub(crate) fn lists(&mut self, given: ByteLists) -> Result<Lists, Refusal>
        requires { counts_check given.numbers (length given.rules.now) (length given.edges.now) ≡ Good }
        ensures ok { IfOk result (λ l. (l.numbers ≡ given.entry.numbers) × ((l.rules.now ≡ words_of 2 given.entry.rules.now) × ((l.edges.now ≡ words_of 2 given.entry.edges.now) × (given_check given.entry.numbers given.entry.rules.now given.entry.edges.now ≡ Good)))) }
        ensures err { IfErr result (λ r. given_check given.entry.numbers given.entry.rules.now given.entry.edges.now ≡ Err r) }
    {
        let rule_room = &mut self.rules;
        let edge_room = &mut self.edges;
        small_lists(
            given.numbers,
            unpack_front(given.rules, rule_room),
            unpack_front(given.edges, edge_room),
        )
    }
}
