// Morgnet: the calls that C and Rust link (include/morgnet.h). Each is one call of the layer that does the work, under that
// layer's contract, and demands nothing of its caller but what the header says of pointers.
#![tactic(auto)]

ghost use Rattle.std.specs.Prelude.{◌≡◌};
ghost use Rattle.words.specs.Height.{tree_for};
ghost use Rattle.cipher.specs.Fips197.{key_expansion, cipher};
ghost use Rattle.cipher.specs.Ccr.{hash_ccr};
ghost use Rattle.cipher.specs.TreeHash.{tree_hash};
ghost use Rattle.bucket_hash.specs.BucketHash.{bucket_of, bucket_for};
ghost use Rattle.placement.specs.Calls.{placed, placing};
ghost use Rattle.single.specs.Calls as single;
ghost use Rattle.multi.specs.Calls as multi;
ghost use Rattle.multi.specs.Image.{place_of};
ghost use Rattle.morgnet.specs.Face as face;

use bucket_hash::Hashes;
use cipher::{Aes, TreeHash};
use words::Word;
use words::refusals::number_in;

// ---- single keys

// `single::calls::generate_keys`; answer: the image's length, the random words used.
#[unsafe(no_mangle)]
pub extern "C" fn morgnet_single_generate_keys(
    domain: u64,
    point: u64,
    value: u64,
    words: &[u64],
    key0: &mut [u8],
    key1: &mut [u8],
    answer: &mut [u64; 2],
) -> u64
    ensures { (result, answer.new, key0.new, key1.new)
        ≡ face.pair_made (single.generate_keys tree_hash domain point value words.now key0.old key1.old) }
{
    let made = single::calls::generate_keys(domain, point, value, words, key0, key1);
    *answer = match made {
        Ok(m) => [m.length, m.words],
        Err(_) => [0, 0],
    };
    number_in(&made)
}

// `single::calls::evaluate_at`.
#[unsafe(no_mangle)]
pub extern "C" fn morgnet_single_evaluate_at(key: &[u8], index: u64, share: &mut u64) -> u64
    ensures answer { result ≡ (single.evaluate_at tree_hash key.now index).number }
    ensures share { share.new ≡ (single.evaluate_at tree_hash key.now index).share }
{
    let answer = single::calls::evaluate_at(key, index);
    *share = answer.unwrap_or(0);
    number_in(&answer)
}

// `single::calls::evaluate_domain`.
#[unsafe(no_mangle)]
pub extern "C" fn morgnet_single_evaluate_domain(
    key: &[u8],
    scratch: &mut [u64],
    out: &mut [u64],
) -> u64
    ensures { single.swept result scratch.new out.new
        ≡ single.evaluate_domain tree_hash key.now scratch.old out.old }
{
    number_in(&single::calls::evaluate_domain(key, scratch, out))
}

// `single::calls::add_to`.
#[unsafe(no_mangle)]
pub extern "C" fn morgnet_single_add_to(key: &[u8], scratch: &mut [u64], table: &mut [u64]) -> u64
    ensures { single.swept result scratch.new table.new
        ≡ single.add_to tree_hash key.now scratch.old table.old }
{
    number_in(&single::calls::add_to(key, scratch, table))
}

// ---- multi keys

// `multi::calls::generate_keys`; answer: the image's length, the random words used, all evictions.
#[unsafe(no_mangle)]
pub extern "C" fn morgnet_multi_generate_keys(
    domain: u64,
    buckets: u64,
    keys: &[u8; 48],
    points: &[u64],
    values: &[u64],
    words: &[u64],
    scratch: &mut [u64],
    key0: &mut [u8],
    key1: &mut [u8],
    answer: &mut [u64; 3],
) -> u64
    ensures { (result, answer.new, scratch.new, key0.new, key1.new)
        ≡ face.multi_made (multi.generate_keys tree_hash bucket_of
        (multi.given domain buckets keys.now points.now values.now words.now)
        scratch.old key0.old key1.old) }
{
    let made = multi::calls::generate_keys(
        domain, buckets, *keys, points, values, words, scratch, key0, key1,
    );
    *answer = match made {
        Ok(m) => [m.length, m.words, m.evictions],
        Err(_) => [0, 0, 0],
    };
    number_in(&made)
}

// `multi::calls::evaluate_at`.
#[unsafe(no_mangle)]
pub extern "C" fn morgnet_multi_evaluate_at(
    key: &[u8],
    index: u64,
    scratch: &mut [u64],
    share: &mut u64,
) -> u64
    ensures { multi.reading (record { number = result; share = share.new }) scratch.new
        ≡ multi.evaluate_at tree_hash bucket_of key.now index scratch.old }
{
    let answer = multi::calls::evaluate_at(key, index, scratch);
    *share = answer.unwrap_or(0);
    number_in(&answer)
}

// `multi::calls::evaluate_domain`.
#[unsafe(no_mangle)]
pub extern "C" fn morgnet_multi_evaluate_domain(
    key: &[u8],
    scratch: &mut [u64],
    out: &mut [u64],
) -> u64
    ensures { multi.swept result scratch.new out.new
        ≡ multi.evaluate_domain tree_hash bucket_of key.now scratch.old out.old }
{
    number_in(&multi::calls::evaluate_domain(key, scratch, out))
}

// `multi::calls::add_to`.
#[unsafe(no_mangle)]
pub extern "C" fn morgnet_multi_add_to(key: &[u8], scratch: &mut [u64], table: &mut [u64]) -> u64
    ensures { multi.swept result scratch.new table.new
        ≡ multi.add_to tree_hash bucket_of key.now scratch.old table.old }
{
    number_in(&multi::calls::add_to(key, scratch, table))
}

// `multi::image::record_place`; part: where the record begins, its length.
#[unsafe(no_mangle)]
pub extern "C" fn morgnet_multi_record(key: &[u8], bucket: u64, part: &mut [u64; 2]) -> u64
    ensures { (result, part.new) ≡ face.place_given (place_of key.now bucket) }
{
    let place = multi::image::record_place(key, bucket);
    *part = match place {
        Ok(p) => [p.start, p.bytes],
        Err(_) => [0, 0],
    };
    number_in(&place)
}

// ---- the layers below

// `words::height`.
#[unsafe(no_mangle)]
pub extern "C" fn morgnet_height(size: u64, height: &mut u64) -> u64
    ensures answer { result ≡ (tree_for size).number }
    ensures height { height.new ≡ (tree_for size).height }
{
    let answer = words::height(size);
    *height = answer.unwrap_or(0);
    number_in(&answer)
}

// `bucket_hash::bucket`.
#[unsafe(no_mangle)]
pub extern "C" fn morgnet_bucket(key: &[u8; 16], buckets: u64, item: u64, bucket: &mut u64) -> u64
    ensures answer { result ≡ (bucket_for key.now buckets item).number }
    ensures bucket { bucket.new ≡ (bucket_for key.now buckets item).bucket }
{
    let answer = bucket_hash::bucket(*key, buckets, item);
    *bucket = answer.unwrap_or(0);
    number_in(&answer)
}

// `placement::place` under three hash keys.
#[unsafe(no_mangle)]
pub extern "C" fn morgnet_place(
    domain: u64,
    buckets: u64,
    keys: &[u8; 48],
    points: &[u64],
    scratch: &mut [u64],
    evictions: &mut u64,
) -> u64
    ensures { placed (record { number = result; evictions = evictions.new }) scratch.new
        ≡ placing (bucket_of keys.now buckets) domain buckets points.now scratch.old }
{
    let answer = placement::place(Hashes::new(*keys), domain, buckets, points, scratch);
    *evictions = answer.unwrap_or(0);
    number_in(&answer)
}

// `cipher::Aes::encrypt_block` under a key.
#[unsafe(no_mangle)]
pub extern "C" fn morgnet_aes_encrypt(key: &[u8; 16], block: &[u8; 16], out: &mut [u8; 16])
    ensures { out.new ≡ cipher (key_expansion key.now) block.now }
{
    *out = Aes::new(*key).encrypt_block(*block);
}

// `cipher::Aes::hash_ccr` under a key.
#[unsafe(no_mangle)]
pub extern "C" fn morgnet_hash_ccr(key: &[u8; 16], x: &[u64; 2], out: &mut [u64; 2])
    ensures { out.new ≡ face.halves (hash_ccr (key_expansion key.now) (face.word x.now)) }
{
    let hashed = Aes::new(*key).hash_ccr(Word { lo: x[0], hi: x[1] });
    *out = [hashed.lo, hashed.hi];
}

// `cipher::TreeHash::hash`.
#[unsafe(no_mangle)]
pub extern "C" fn morgnet_tree_hash(x: &[u64; 2], out: &mut [u64; 2])
    ensures { out.new ≡ face.halves (tree_hash (face.word x.now)) }
{
    let hashed = TreeHash::new().hash(Word { lo: x[0], hi: x[1] });
    *out = [hashed.lo, hashed.hi];
}
