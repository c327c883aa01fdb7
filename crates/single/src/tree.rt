// One level of the tree, the last level, and the share of one cell of a key by value. Meanings: specs/Rules.antt.
// The tree hash is built once by whoever begins a call, and handed down by value.
ghost use Rattle.std.specs.Prelude.{◌≡◌, cond};
ghost use Rattle.words.specs.Word.{◌⊕◌, ◌when◌, odd};
ghost use Rattle.cipher.specs.TreeHash.{hash_by};
ghost use Rattle.single.specs.Rules as rule;
ghost use Rattle.single.specs.Keys.{words_of, record_of, end_in, worth};

use crate::SingleKey;
use crate::held::Held;
use cipher::TreeHash;
use words::{Word, sums};

// The last level of a key: both parts of its correction, and the last word.
// Kept: lcw0 and lcw1; what may not change (`end_in` of specs/Keys.antt and `end_of` of specs/Making.antt name them).
#[derive(Clone, Copy)]
pub(crate) struct End {
    pub hcw: Word,
    pub lcw0: bool,
    pub lcw1: bool,
    pub last: u64,
}

// ---- levels

// What the seed s becomes, from its hash: the seed where a is 1, the correction word where the seed is odd.
pub(crate) fn moved(hash: Word, a: bool, cw: Word, s: Word) -> Word
    ensures { result ≡ hash ⊕ s when a ⊕ cw when odd s }
{
    hash.xor(s.when(a)).xor(cw.when(s.is_odd()))
}

// The last level.
pub(crate) fn last_level(h: TreeHash, a: bool, hcw: Word, lcw: bool, s: Word) -> Word
    ensures { result ≡ rule.final (hash_by h) a hcw lcw s }
{
    let one = Word { lo: 1, hi: 0 };
    h.hash(s.xor(one.when(a)))
        .xor(hcw.or_bit(lcw).when(s.is_odd()))
}

// ---- one cell

// The seed before the last level, on the way of y, which is half of the index.
fn descend(h: TreeHash, held: Held, y: u64) -> Word
    ensures { result ≡ rule.descend (hash_by h) y (words_of held.key) held.key.seed }
{
    let k = held.key;
    let n = k.count;
    let mut s = k.seed;
    for i in 0..n {
        s = moved(
            h.hash(s),
            words::bit_of(n as u64, y, i as u64),
            k.word(i),
            s,
        );
    }
    s
}

// What a leaf is worth: its conversion, and the last word where it is odd.
#[tactic(auto, unfolding(crate::specs::Rules::value))]
fn value(last: u64, s: Word) -> u64
    ensures { result ≡ rule.value 64 last s }
{
    sums::plus(s.convert_shifted(), if s.is_odd() { last } else { 0 })
}

// The share of a cell: a is its last bit, s the seed before the last level.
#[tactic(auto, unfolding(crate::specs::Keys::worth))]
pub(crate) fn share_of(h: TreeHash, party: bool, e: End, a: bool, s: Word) -> u64
    ensures { result ≡ worth (hash_by h) 64 party e a s }
{
    let lcw = if a { e.lcw1 } else { e.lcw0 };
    let v = value(e.last, last_level(h, a, e.hcw, lcw, s));
    if party { sums::negated(v) } else { v }
}

// The last level that a key holds.
pub(crate) fn end_in(k: SingleKey) -> End
    ensures { result ≡ end_in (record_of k) }
{
    End {
        hcw: k.hcw,
        lcw0: k.lcw0,
        lcw1: k.lcw1,
        last: k.last,
    }
}

// The share of cell x.
#[tactic(auto, unfolding(crate::specs::Rules::share, crate::specs::Rules::leaf, crate::specs::Keys::worth, words::specs::Word::is_odd))]
pub(crate) fn share(h: TreeHash, party: bool, held: Held, x: u64) -> u64
    ensures { result ≡ rule.share (hash_by h) 64 party (record_of held.key) x }
{
    let k = held.key;
    if k.size == 1 {
        return k.last;
    }
    share_of(h, party, end_in(k), x % 2 == 1, descend(h, held, x / 2))
}
