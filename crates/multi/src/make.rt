// Making a pair of multi keys: the points are placed, a single key is made for each bucket, and two images are written.
// Rules: document 01, "Rules of buckets and placement". Meanings: specs/Calls.antt, specs/Making.antt, specs/Posted.antt.
ghost use Rattle.std.specs.Prelude.{◌≡◌, true, false, IfOk, [], ◌++◌, ℕ, ◌+◌, ◌-◌, ◌*◌, ◌^◌, ◌≤◌, ◌<◌, length, take, drop, get_or};
ghost use Rattle.words.specs.Limits.{largest_single, most_buckets};
ghost use Rattle.words.specs.Bytes.{put};
ghost use Rattle.words.specs.Refusals.{first, outcome};
ghost use Rattle.cipher.specs.TreeHash.{hash_by, tree_hash};
ghost use Rattle.bucket_hash.specs.BucketHash.{bucket_of};
ghost use Rattle.single.specs.Record as single-record;
ghost use Rattle.multi.specs.Rules as rule;
ghost use Rattle.multi.specs.Image as image;
ghost use Rattle.multi.specs.Calls as call;
ghost use Rattle.multi.specs.Making as spec;

use crate::calls::Made;
use crate::image::length_for;
use crate::image_write::{put_directory, put_header};
use bucket_hash::Hashes;
use cipher::TreeHash;
use placement::points::rising;
use single::pairs::make_keys;
use single::record::put_record;
use words::cells::{element, word_no};
use words::limits;
use words::refusals::Refusal;

// What making is given besides the slices that it writes, once no early test refuses it.
#[derive(Clone, Copy)]
pub(crate) struct Posting<'a> {
    domain: u64,
    buckets: u64,
    keys: [u8; 48],
    points: &'a [u64],
    values: &'a [u64],
    words: &'a [u64],
    ghost passes: { first (call.generate_early (call.given domain buckets keys points.now values.now words.now)
        (4 * buckets + length points.now)) ≡ 0 },
}

// What the placement laid out of it, a number for each bucket, and its evictions.
#[derive(Clone, Copy)]
struct Laid<'a> {
    posting: Posting<'a>,
    holders: &'a [u64],
    sizes: &'a [u64],
    spots: &'a [u64],
    evictions: u64,
    ghost few: { length sizes.now ≤ most_buckets },
    ghost small: { (c : ℕ) → get_or sizes.now c 0 ≤ largest_single },
    ghost inside: { (c : ℕ) → get_or spots.now c 0 ≤ get_or sizes.now c 0 - 1 },
}

// The random words that all records use, and the bytes of either image.
#[derive(Clone, Copy)]
struct Totals {
    used: u64,
    bytes: u64,
}

// The random words that a record of this size uses.
fn words_for(size: u64) -> u64
    ensures { result ≡ rule.words_for size }
{
    size.min(2)
}

// With the sizes known: Words, Room.
#[tactic(auto, unfolding(crate::specs::Making::room_rows, words::specs::Refusals::first))]
fn enough(words: usize, t: Totals, room0: usize, room1: usize) -> Result<(), Refusal>
    ensures { outcome result ≡ first (spec.room_rows words t room0 room1) }
{
    if ((words / 2) as u64) < t.used {
        return Err(Refusal::Words);
    }
    if (room0 as u64) < t.bytes || (room1 as u64) < t.bytes {
        return Err(Refusal::Room);
    }
    Ok(())
}

impl<'a> Laid<'a> {
    ghost use Rattle.multi.specs.Posted.{record_of, bytes_in, front_in, writing_of};

    // The value of the point that bucket c holds; 0 where it holds none.
    fn value(&self, c: usize) -> u64
        ensures { result ≡ spec.value_at self.now.posting.values.now (get_or self.now.holders.now c 0) }
    {
        let holder = element(self.holders, c);
        if holder == 0 {
            return 0;
        }
        element(self.posting.values, (holder - 1) as usize)
    }

    // What the records use and take up.
    fn totals(&self) -> Totals
        ensures { result ≡ spec.totals_of self.now.sizes.now }
    {
        let mut used: u64 = 0;
        let mut bytes: u64 = 72 + 8 * self.sizes.len() as u64;
        for size in self.sizes {
            used += words_for(*size);
            bytes += length_for(*size);
        }
        Totals { used, bytes }
    }

    // Both parties' records of bucket c, from `at` on, where there is room, with the random words from number `used` on.
    fn put_bucket(
        &self,
        h: TreeHash,
        c: usize,
        used: usize,
        at: usize,
        key0: &mut [u8],
        key1: &mut [u8],
    )
        requires { (used < 2 ^ 31) × (at + single-record.length_for (get_or self.now.sizes.now c 0) ≤ length key0.old)
            × (at + single-record.length_for (get_or self.now.sizes.now c 0) ≤ length key1.old) }
        ensures first { key0.new ≡ put key0.old at (image.bytes_of (record_of (hash_by h) self.now used false c)) }
        ensures second { key1.new ≡ put key1.old at (image.bytes_of (record_of (hash_by h) self.now used true c)) }
    {
        let size = element(self.sizes, c);
        let alpha = element(self.spots, c);
        let beta = self.value(c);
        let r0 = word_no(self.posting.words, used);
        let r1 = word_no(self.posting.words, used + 1);
        // Over no entries there are no keys.
        if size == 0 {
            return;
        }
        // Over any other number there are, so this always has them.
        let Ok(pair) = make_keys(h, size, alpha, beta, r0, r1) else {
            return;
        };
        // There is room in both.
        let _ = put_record(key0, at, pair.key0);
        let _ = put_record(key1, at, pair.key1);
    }

    // Both parties' records of all buckets, one behind the other.
    fn put_records(&self, h: TreeHash, key0: &mut [u8], key1: &mut [u8])
        requires { spec.Fitting self.now.sizes.now self.now.spots.now (length key0.old) (length key1.old) }
        ensures first { key0.new ≡ put key0.old (72 + 8 * length self.now.sizes.now)
            (image.records_bytes (bytes_in (hash_by h) self.now false) (length self.now.sizes.now)) }
        ensures second { key1.new ≡ put key1.old (72 + 8 * length self.now.sizes.now)
            (image.records_bytes (bytes_in (hash_by h) self.now true) (length self.now.sizes.now)) }
    {
        let mut at: usize = 72 + 8 * self.sizes.len();
        let mut used: usize = 0;
        for (c, size) in self.sizes.iter().enumerate() {
            self.put_bucket(h, c, used, at, key0, key1);
            at += length_for(*size) as usize;
            used += words_for(*size) as usize;
        }
    }

    // A party's header and directory.
    fn put_front(&self, party: u32, buf: &mut [u8])
        requires { image.multi_length (length self.now.sizes.now) (image.lengths_by self.now.sizes.now) ≤ length buf.old }
        ensures { buf.new ≡ put buf.old 0 (front_in self.now party) }
    {
        let p = self.posting;
        let buckets = self.sizes.len() as u32;
        put_header(party, buckets, p.domain, p.points.len() as u32, p.keys, buf);
        put_directory(self.sizes, buf);
    }

    // Both images, or Words or Room.
    #[tactic(auto, using(crate::proofs::WritingLaws::laid_refused))]
    fn write(&self, key0: &mut [u8], key1: &mut [u8]) -> Result<Made, Refusal>
        ensures { spec.writing (call.told_made result) key0.new key1.new ≡ writing_of tree_hash self.now key0.old key1.old }
    {
        let t = self.totals();
        enough(self.posting.words.len(), t, key0.len(), key1.len())?;
        self.put_front(0, key0);
        self.put_front(1, key1);
        self.put_records(TreeHash::new(), key0, key1);
        Ok(Made {
            length: t.bytes,
            words: t.used,
            evictions: self.evictions,
        })
    }
}

impl<'a> Posting<'a> {
    ghost use Rattle.multi.specs.Posted.{given_by};

    // What is given, if no early test refuses it: Domain, Buckets, Count, Point, Scratch.
    #[tactic(auto, unfolding(words::specs::Refusals::first))]
    pub(crate) fn checked(
        domain: u64,
        buckets: u64,
        keys: [u8; 48],
        points: &'a [u64],
        values: &'a [u64],
        words: &'a [u64],
        len: usize,
    ) -> Result<Posting<'a>, Refusal>
        ensures answer { outcome result
            ≡ first (call.generate_early (call.given domain buckets keys points.now values.now words.now) len) }
        ensures posting { IfOk result (λ posting. given_by posting
            ≡ call.given domain buckets keys points.now values.now words.now) }
    {
        if domain < 1 || limits::LARGEST_MULTI < domain {
            return Err(Refusal::Domain);
        }
        if buckets < 1 || limits::MOST_BUCKETS < buckets {
            return Err(Refusal::Buckets);
        }
        let n = points.len();
        if n < 1 || buckets < n as u64 || values.len() != n {
            return Err(Refusal::Count);
        }
        if !rising(points, domain) {
            return Err(Refusal::Point);
        }
        if (len as u64) < 4 * buckets + n as u64 {
            return Err(Refusal::Scratch);
        }
        Ok(Posting {
            domain,
            buckets,
            keys,
            points,
            values,
            words,
        })
    }

    // The elements of scratch that making needs: 4B + n.
    pub(crate) fn room(&self) -> usize
        ensures { result ≡ call.generate_room (given_by self.now) }
    {
        4 * self.buckets as usize + self.points.len()
    }

    // What was laid out, cut from the working slice: b holders, n counters, b sizes and b spots.
    fn laid<'b>(&'b self, evictions: u64, work: &'b [u64]) -> Laid<'b>
        requires long { self.now.buckets + length self.now.points.now + self.now.buckets + self.now.buckets ≤ length work.now }
        requires small { (c : ℕ) → get_or (take self.now.buckets (drop (self.now.buckets + length self.now.points.now) work.now)) c 0
            ≤ largest_single }
        requires inside { (c : ℕ)
            → get_or (take self.now.buckets (drop (self.now.buckets + length self.now.points.now + self.now.buckets) work.now)) c 0
            ≤ get_or (take self.now.buckets (drop (self.now.buckets + length self.now.points.now) work.now)) c 0 - 1 }
        ensures posting { result.posting ≡ self.now }
        ensures holders { result.holders.now ≡ take self.now.buckets work.now }
        ensures sizes { result.sizes.now ≡ take self.now.buckets (drop (self.now.buckets + length self.now.points.now) work.now) }
        ensures spots { result.spots.now
            ≡ take self.now.buckets (drop (self.now.buckets + length self.now.points.now + self.now.buckets) work.now) }
        ensures evictions { result.evictions ≡ evictions }
    {
        let b = self.buckets as usize;
        let (holders, rest) = work.split_at(b);
        let (_, rest) = rest.split_at(self.points.len());
        let (sizes, rest) = rest.split_at(b);
        let (spots, _) = rest.split_at(b);
        Laid {
            posting: *self,
            holders,
            sizes,
            spots,
            evictions,
        }
    }

    // All that is left behind the early refusals: the points are placed, and both images are written; or Place, Words or Room.
    // What the scratch holds then is for the caller to zero.
    pub(crate) fn make_in(
        &self,
        scratch: &mut [u64],
        key0: &mut [u8],
        key1: &mut [u8],
    ) -> Result<Made, Refusal>
        requires { call.generate_room (given_by self.now) ≤ length scratch.old }
        ensures { spec.writing (call.told_made result) key0.new key1.new
            ≡ spec.write_given tree_hash bucket_of (given_by self.now) key0.old key1.old }
    {
        let hashes = Hashes::new(self.keys);
        let (d, b) = (self.domain, self.buckets);
        let evictions = placement::lay_out(hashes, d, b, self.points, scratch)?;
        self.laid(evictions, scratch).write(key0, key1)
    }
}
