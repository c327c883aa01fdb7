// The multi image: its fields, the check, and a bucket's record as that part of the image (document 01, "Key images").
// Meanings: specs/Image.antt. A read takes bytes that are not there as none.
ghost use Rattle.std.specs.Prelude.{◌≡◌, true, not, cond, Some, None, IfOk, [], ◌∷◌, ◌+◌, ◌*◌, ◌≤◌, ◌<◌, eqb, length};
ghost use Rattle.words.specs.Limits.{most_buckets};
ghost use Rattle.words.specs.Refusals.{Key, every, first, outcome};
ghost use Rattle.bucket_hash.specs.BucketHash.{bucket_of, bucket_by};
ghost use Rattle.single.specs.Record as single-record;
ghost use Rattle.multi.specs.Image as spec;
ghost use Rattle.multi.specs.Calls.{side_in, functions_in};

use bucket_hash::Hashes;
use single::record::{record_length, record_ok};
use words::refusals::Refusal;
use words::{bytes, limits};

// Where the directory begins.
const DIRECTORY: u64 = 72;

// Where a bucket's record begins and how many bytes it has; zeros where there is none.
#[derive(Clone, Copy, Debug, PartialEq, Eq)]
pub struct RecordPlace {
    pub start: u64,
    pub bytes: u64,
}

// A multi image: bytes that pass the check.
#[derive(Clone, Copy)]
pub(crate) struct Image<'a> {
    pub(crate) bytes: &'a [u8],
    ghost ok: { spec.multi_ok bytes.now ≡ true },
}

impl<'a> Image<'a> {
    // The image, if the bytes are one, or Key.
    #[tactic(auto, unfolding(words::specs::Refusals::first))]
    pub(crate) fn read(bytes: &'a [u8]) -> Result<Image<'a>, Refusal>
        ensures answer { outcome result ≡ first ((not (spec.multi_ok bytes.now), Key) ∷ []) }
        ensures image { IfOk result (λ image. image.bytes.now ≡ bytes.now) }
    {
        if is_image(bytes) {
            return Ok(Image { bytes });
        }
        Err(Refusal::Key)
    }

    // Whether it is party 1's.
    pub(crate) fn side(&self) -> bool
        ensures { result ≡ side_in self.now.bytes.now }
    {
        bytes::get_u32(self.bytes, 0) == 1
    }

    pub(crate) fn buckets(&self) -> u64
        ensures { result ≡ spec.buckets_in self.now.bytes.now }
    {
        bytes::get_u32(self.bytes, 4)
    }

    pub(crate) fn domain(&self) -> u64
        ensures { result ≡ spec.domain_in self.now.bytes.now }
    {
        bytes::get_u64(self.bytes, 8)
    }

    // The bucket functions of the image's hash keys.
    pub(crate) fn hashes(&self) -> Hashes
        ensures { bucket_by result (spec.buckets_in self.now.bytes.now) ≡ functions_in bucket_of self.now.bytes.now }
    {
        Hashes::new(self.hash_keys())
    }

    // The three hash keys.
    #[tactic(auto, using(crate::proofs::ImageLaws::header_long), unfolding(crate::specs::Image::keys_in))]
    fn hash_keys(&self) -> [u8; 48]
        ensures { result ≡ spec.keys_in self.now.bytes.now }
    {
        let mut keys = [0u8; 48];
        keys.copy_from_slice(&self.bytes[24..72]);
        keys
    }

    // The part that is bucket c's record; empty where it has none.
    pub(crate) fn part(&self, c: usize) -> &'a [u8]
        requires { c ≤ most_buckets }
        ensures { result.now ≡ spec.bucket_part self.now.bytes.now c }
    {
        part(self.bytes, c)
    }

    // The size of bucket c's record; 0 where it has none.
    #[tactic(auto, unfolding(crate::specs::Image::bucket_size))]
    pub(crate) fn size(&self, c: usize) -> u64
        requires { c ≤ most_buckets }
        ensures { result ≡ spec.bucket_size self.now.bytes.now c }
    {
        bytes::get_u64(self.part(c), 0)
    }
}

// ---- the header

// Whether the header's numbers are within their limits, and the directory is there.
#[tactic(auto, unfolding(crate::specs::Image::header_tests, words::specs::Refusals::every))]
fn header_ok(key: &[u8]) -> bool
    ensures { result ≡ spec.header_ok key.now }
{
    let party = bytes::get_u32(key, 0);
    let b = bytes::get_u32(key, 4);
    let d = bytes::get_u64(key, 8);
    let n = bytes::get_u32(key, 16);
    let offset = bytes::get_u32(key, 20);
    party <= 1
        && 1 <= b
        && b <= limits::MOST_BUCKETS
        && 1 <= d
        && d <= limits::LARGEST_MULTI
        && 1 <= n
        && n <= b
        && offset == DIRECTORY
        && DIRECTORY + 8 * b <= key.len() as u64
}

// ---- the directory

// The bytes of a record over so many entries; 0 where there is no such record.
#[tactic(auto, using(crate::proofs::RecordPlaces::length_or_none))]
pub(crate) fn length_for(size: u64) -> u64
    ensures { result ≡ single-record.length_for size }
{
    record_length(size).unwrap_or(0)
}

// The entry of bucket c.
#[tactic(auto, unfolding(crate::specs::Image::entry_in))]
fn entry(key: &[u8], c: usize) -> u64
    requires { c ≤ most_buckets }
    ensures { result ≡ spec.entry_in key.now c }
{
    bytes::get_u64(key, 72 + 8 * c)
}

// What the record that begins at `at` takes up, by its size; as much of it as there is.
fn part_at(key: &[u8], at: usize) -> &[u8]
    ensures { result.now ≡ single-record.record_part key.now at }
{
    let n = length_for(bytes::get_u64(key, at)) as usize;
    let len = key.len();
    if len <= at {
        return &key[..0];
    }
    if len - at < n {
        return &key[at..];
    }
    let end = at + n;
    &key[at..end]
}

// The part of the image that is bucket c's record; empty where it has none.
fn part(key: &[u8], c: usize) -> &[u8]
    requires { c ≤ most_buckets }
    ensures { result.now ≡ spec.bucket_part key.now c }
{
    let e = entry(key, c);
    if e == 0 {
        return &key[..0];
    }
    part_at(key, e as usize)
}

// ---- the check

// Where the record behind bucket c's has to begin, if bucket c's has to begin at `at`; none where the slot of bucket c is not ok.
fn next_start(key: &[u8], c: usize, at: usize) -> Option<usize>
    requires c_le_most_buckets { c ≤ most_buckets }
    requires at_value { at ≡ spec.next_in key.now c }
    ensures { result ≡ cond (spec.slot_ok key.now c) (Some (spec.next_in key.now (c + 1))) None }
{
    let e = entry(key, c);
    if e == 0 {
        return Some(at);
    }
    if e != at as u64 {
        return None;
    }
    let record = part_at(key, at);
    if record_ok(record, limits::LARGEST_SINGLE) {
        return Some(at + record.len());
    }
    None
}

// Whether every slot is ok, and the last record ends the image.
fn slots_ok(key: &[u8], n: usize) -> bool
    requires { (n ≡ spec.buckets_in key.now) × (n ≤ most_buckets) }
    ensures { result ≡ every (spec.slots_ok key.now n
        ∷ eqb (spec.next_in key.now n) (length key.now) ∷ []) }
{
    let mut at: usize = 72 + 8 * n;
    for c in 0..n {
        let Some(next) = next_start(key, c, at) else {
            return false;
        };
        at = next;
    }
    at == key.len()
}

// Whether the bytes are a multi image: one pass over the directory.
fn is_image(key: &[u8]) -> bool
    ensures { result ≡ spec.multi_ok key.now }
{
    header_ok(key) && slots_ok(key, bytes::get_u32(key, 4) as usize)
}

// ---- handing out a bucket's record

// The image, if a bucket's record may be handed out: Key, then Index.
#[tactic(auto, unfolding(crate::specs::Image::record_number, words::specs::Refusals::first))]
fn with_bucket(key: &[u8], bucket: u64) -> Result<Image, Refusal>
    ensures answer { outcome result ≡ spec.record_number key.now bucket }
    ensures image { IfOk result (λ image. image.bytes.now ≡ key.now) }
{
    let image = Image::read(key)?;
    if image.buckets() <= bucket {
        return Err(Refusal::Index);
    }
    Ok(image)
}

// Whether a bucket's record may be handed out. Refusals: Key, then Index.
pub fn record_number(key: &[u8], bucket: u64) -> Result<(), Refusal>
    ensures { outcome result ≡ spec.record_number key.now bucket }
{
    with_bucket(key, bucket)?;
    Ok(())
}

// A bucket's record as that part of the image; empty where there is none, or the call refuses.
pub fn record(key: &[u8], bucket: u64) -> &[u8]
    ensures { result.now ≡ spec.record_given key.now bucket }
{
    let Ok(image) = with_bucket(key, bucket) else {
        return &key[..0];
    };
    image.part(bucket as usize)
}

// Where that part begins and how many bytes it has. Refusals: Key, then Index.
#[tactic(auto, using(crate::proofs::ImageLaws::place_refused))]
pub fn record_place(key: &[u8], bucket: u64) -> Result<RecordPlace, Refusal>
    ensures { spec.told_place result ≡ spec.place_of key.now bucket }
{
    let image = with_bucket(key, bucket)?;
    let c = bucket as usize;
    Ok(RecordPlace {
        start: entry(key, c),
        bytes: image.part(c).len() as u64,
    })
}
