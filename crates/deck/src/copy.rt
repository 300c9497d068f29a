// The two lists: their room, and what is written into them once every check has passed.
ghost use Rattle.std.specs.Prelude.{◌≡◌, ℕ, ◌*◌, ◌≤◌, ◌<◌, length};
ghost use Rattle.words.specs.Tab.{over};
ghost use Rattle.deck.specs.Reads.{rules_of, edges_of, edge_word};
ghost use Rattle.deck.specs.Stages.{RightEdges, FrontIs, lists_room};

use crate::reader::{BlockType, RECORD_WORDS};
use crate::records::{Labels, Records};
use numbers::room;
use words::Refusal;

// Writes what `word` gives for 0, 1, .., n - 1 into the front of a list. A count beside: the definitions speak of the whole
// list and a count.
pub(crate) fn put_front<F: Fn(usize) -> u16>(list: &mut [u16], n: usize, word: F)
    requires given { (k : ℕ) → k < n → F.pre word k }
    requires room { n ≤ length list.old }
    ensures { FrontIs (λ k x. F.post word k x) n list.old list.new }
{
    for (k, place) in list[..n].iter_mut().enumerate() {
        *place = word(k);
    }
}

impl<'a> Records<'a> {
    // Room in the rule list, then in the edge list.
    #[tactic(auto, using(words::proofs::Refusals::refusing))]
    pub(crate) fn room_check(&self, rules: usize, edges: usize) -> Result<(), Refusal>
        ensures { result ≡ lists_room self.now.header rules edges }
    {
        room(3, RECORD_WORDS * self.header.rules, rules)?;
        room(4, RECORD_WORDS * self.header.edges, edges)
    }

    #[tactic(auto, unfolding(crate::specs::Reads::rules_of))]
    pub(crate) fn put_rules(&self, rules: &mut [u16])
        requires { 3 * self.now.header.rules ≤ length rules.old }
        ensures { rules.new ≡ over (rules_of self.now.deck.now) rules.old }
    {
        put_front(rules, RECORD_WORDS * self.header.rules, |w| {
            self.word(BlockType::Rules, w / RECORD_WORDS, w % RECORD_WORDS)
        });
    }
}

impl<'a> Labels<'a> {
    // Word k of edge e as the engine has it: its label stands for its kind.
    fn edge_word(&self, e: usize, k: usize) -> u16
        requires right { RightEdges self.now.records.deck.now }
        requires edge { e < self.now.records.header.edges }
        requires word { k < 3 }
        ensures { result ≡ edge_word self.now.records.deck.now e k }
    {
        let word = self.records.word(BlockType::Edges, e, k);
        if k == 1 { self.of(word).unwrap() } else { word }
    }

    #[tactic(auto, unfolding(crate::specs::Reads::edges_of))]
    pub(crate) fn put_edges(&self, edges: &mut [u16])
        requires right { RightEdges self.now.records.deck.now }
        requires room { 3 * self.now.records.header.edges ≤ length edges.old }
        ensures { edges.new ≡ over (edges_of self.now.records.deck.now) edges.old }
    {
        put_front(edges, RECORD_WORDS * self.records.header.edges, |w| {
            self.edge_word(w / RECORD_WORDS, w % RECORD_WORDS)
        });
    }
}
