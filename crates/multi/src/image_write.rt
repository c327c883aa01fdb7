// Writing a multi image: the header, the directory from the sizes of the records, and then the records one behind the other
// (document 01, "Key images"). Meanings: specs/Image.antt. The caller has found that there is room for the whole image.
ghost use Rattle.std.specs.Prelude.{◌≡◌, cond, ◌≤◌, eqb, length};
ghost use Rattle.words.specs.Bytes.{put};
ghost use Rattle.multi.specs.Image as spec;

use crate::image::length_for;
use words::bytes;

// Where the hash keys begin.
const KEYS: usize = 24;

// ---- the header

// The three hash keys in their place.
#[tactic(auto, using(std::proofs::lemmas::List::append_assoc), unfolding(words::specs::Bytes::put))]
fn put_keys(keys: [u8; 48], buf: &mut [u8])
    requires { 72 ≤ length buf.old }
    ensures { buf.new ≡ put buf.old 24 keys }
{
    buf[KEYS..KEYS + 48].copy_from_slice(&keys);
}

// The first 72 bytes.
pub(crate) fn put_header(
    party: u32,
    buckets: u32,
    domain: u64,
    count: u32,
    keys: [u8; 48],
    buf: &mut [u8],
)
    requires { 72 ≤ length buf.old }
    ensures { buf.new ≡ put buf.old 0 (spec.header_bytes party buckets domain count keys) }
{
    // There is room for all of them.
    let _ = bytes::put_u32(buf, 0, party);
    let _ = bytes::put_u32(buf, 4, buckets);
    let _ = bytes::put_u64(buf, 8, domain);
    let _ = bytes::put_u32(buf, 16, count);
    let _ = bytes::put_u32(buf, 20, 72);
    put_keys(keys, buf);
}

// ---- the directory

// The entry for a record of so many bytes that would begin at `at`: 0 for none.
fn entry_for(len: u64, at: u64) -> u64
    ensures { result ≡ cond (eqb len 0) 0 at }
{
    if len == 0 {
        return 0;
    }
    at
}

// The directory of buckets whose records have these sizes; a size of 0 is no record.
pub(crate) fn put_directory(sizes: &[u64], buf: &mut [u8])
    requires { spec.multi_length (length sizes.now) (spec.lengths_by sizes.now) ≤ length buf.old }
    ensures { buf.new ≡ put buf.old 72
        (spec.directory_bytes (length sizes.now) (spec.lengths_by sizes.now) (length sizes.now)) }
{
    let mut at: u64 = 72 + 8 * sizes.len() as u64;
    for (c, size) in sizes.iter().enumerate() {
        let len = length_for(*size);
        // There is room for the directory.
        let _ = bytes::put_u64(buf, 72 + 8 * c, entry_for(len, at));
        at += len;
    }
}
