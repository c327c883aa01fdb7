// The whole domain of a key, layer by layer in place. Node i stands at 2i, low half, and 2i + 1, high half; the children of
// node i are nodes 2i and 2i + 1 of the next layer. A layer is grown from its last node to its first, so that a node is read
// before its place is written. Meanings: specs/Nodes.antt.
// Kept: nodes two by two in u64; what may not change (`bare::spread_record` is lent such a slice, and its clause says what stands in it).
ghost use Rattle.std.specs.Prelude.{◌≡◌, Bool, true, false, [], ◌∷◌, ◌+◌, ◌-◌, ◌*◌, ◌/◌, ◌≤◌, ◌<◌, length};
ghost use Rattle.words.specs.declared.Word.{Word};
ghost use Rattle.words.specs.Bytes.{put};
ghost use Rattle.cipher.specs.TreeHash.{hash_by};
ghost use Rattle.single.specs.Rules as rule;
ghost use Rattle.single.specs.Keys.{words_of, record_of, worth};
ghost use Rattle.single.specs.Nodes.{nodes_from, children, layer, low_word, spread};

use crate::held::Held;
use crate::tree::{End, end_in, moved, share_of};
use cipher::TreeHash;
use words::Word;
use words::cells::word_no;

// ---- nodes

// Stores node i.
fn set_node(nodes: &mut [u64], i: usize, w: Word)
    requires { 2 * i + 1 < length nodes.old }
    ensures { nodes.new ≡ put nodes.old (2 * i) (w.lo ∷ w.hi ∷ []) }
{
    nodes[2 * i] = w.lo;
    nodes[2 * i + 1] = w.hi;
}

// Stores the children of node i in a layer of `next` nodes, the right one only where the layer has it.
fn set_children(nodes: &mut [u64], i: usize, next: usize, left: Word, right: Word)
    requires { (2 * i < next) × (2 * next ≤ length nodes.old) }
    ensures { nodes.new ≡ put nodes.old (2 * (2 * i)) (children next i left right) }
{
    set_node(nodes, 2 * i, left);
    if 2 * i + 1 < next {
        set_node(nodes, 2 * i + 1, right);
    }
}

// ---- one layer

// How a layer grows out of the one before.
trait Grow {
    ghost child: { Self → Bool → Word → Word };

    // The left child of a node and the right one.
    fn children(&self, s: Word) -> (Word, Word)
        ensures { result ≡ (child self.now false s, child self.now true s) };
}

// By a level but the last: both children come from one hash.
#[derive(Clone, Copy)]
struct Inner {
    h: TreeHash,
    cw: Word,
}

// By the last level: the shares of both cells, a hash each.
#[derive(Clone, Copy)]
struct Last {
    h: TreeHash,
    party: bool,
    end: End,
}

impl Grow for Inner {
    ghost child = { λ g a s. rule.step (hash_by g.h) a g.cw s };

    #[tactic(auto, unfolding(crate::specs::Rules::step))]
    fn children(&self, s: Word) -> (Word, Word) {
        let x = self.h.hash(s);
        (moved(x, false, self.cw, s), moved(x, true, self.cw, s))
    }
}

impl Grow for Last {
    ghost child = { λ g a s. low_word (worth (hash_by g.h) 64 g.party g.end a s) };

    fn children(&self, s: Word) -> (Word, Word) {
        let left = share_of(self.h, self.party, self.end, false, s);
        let right = share_of(self.h, self.party, self.end, true, s);
        (Word { lo: left, hi: 0 }, Word { lo: right, hi: 0 })
    }
}

// The next layer, of `next` nodes, in place of this one. This is the function to replace where many nodes are hashed at once.
fn expand<G: Grow>(growth: &G, next: usize, nodes: &mut [u64])
    requires { 2 * next ≤ length nodes.old }
    ensures { nodes.new ≡ layer (G.child growth.now) next nodes.old }
{
    for i in (0..next.div_ceil(2)).rev() {
        let (left, right) = growth.children(word_no(nodes, i));
        set_children(nodes, i, next, left, right);
    }
}

// ---- all layers

// All layers but the last: the nodes that half of an index leads to.
fn expand_inner(h: TreeHash, held: Held, nodes: &mut [u64])
    requires { (1 < held.key.size) × (2 * held.key.size ≤ length nodes.old) }
    ensures { nodes.new ≡ put nodes.old 0
        (nodes_from (λ y. rule.descend (hash_by h) y (words_of held.key) held.key.seed) 0 ((held.key.size - 1) / 2 + 1)) }
{
    let k = held.key;
    set_node(nodes, 0, k.seed);
    let n = k.count;
    let last = k.size - 1;
    for j in 0..n {
        let level = Inner { h, cw: k.word(j) };
        expand(&level, (last >> (n - j)) as usize + 1, nodes);
    }
}

// The shares of the whole domain, each as a node: the share at 2x, 0 at 2x + 1.
pub(crate) fn spread_shares(h: TreeHash, party: bool, held: Held, nodes: &mut [u64])
    requires { 2 * held.key.size ≤ length nodes.old }
    ensures { nodes.new ≡ put nodes.old 0 (spread (rule.share (hash_by h) 64 party (record_of held.key)) held.key.size) }
{
    let k = held.key;
    if k.size == 1 {
        set_node(nodes, 0, Word { lo: k.last, hi: 0 });
        return;
    }
    expand_inner(h, held, nodes);
    let end = end_in(k);
    expand(&Last { h, party, end }, k.size as usize, nodes);
}
