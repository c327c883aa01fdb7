// The public calls of multi keys: making a pair, one cell, all cells, and adding to a table.
// Rules: document 01, "Refusal numbers". Source: dpf/src/mpdpf.rs for the first three; the adding call is ours.
// Each promise is one equation: the answer and every lent slice at exit, together, are the function of specs/Calls.antt of what
// the call was given. A refusal leaves every slice as it was, but for scratch on 6, 7, 8 and 12, which is zeroed.
ghost use Rattle.std.specs.Prelude.{◌≡◌};
ghost use Rattle.cipher.specs.TreeHash.{tree_hash};
ghost use Rattle.bucket_hash.specs.BucketHash.{bucket_of};
ghost use Rattle.words.specs.Refusals.{outcome};
ghost use Rattle.multi.specs.Calls as spec;

use crate::make::Posting;
use crate::read;
use words::cells::{self as slices, Added, Written};
use words::refusals::Refusal;

// What making answers: the length of either image, the random words used and all evictions.
#[derive(Clone, Copy, Debug, PartialEq, Eq)]
pub struct Made {
    pub length: u64,
    pub words: u64,
    pub evictions: u64,
}

// ---- making a pair

// Makes both parties' keys of the values at the points, and answers the length of either image, the random words used and all
// evictions. Scratch: 4B + n elements, zeros at the end. Refusals: 1 to 8.
#[tactic(auto, using(crate::proofs::GenerateLaws::call_refused))]
pub fn generate_keys(
    domain: u64,
    buckets: u64,
    keys: [u8; 48],
    points: &[u64],
    values: &[u64],
    words: &[u64],
    scratch: &mut [u64],
    key0: &mut [u8],
    key1: &mut [u8],
) -> Result<Made, Refusal>
    ensures { spec.Generates tree_hash bucket_of
        (spec.given domain buckets keys points.now values.now words.now)
        scratch.old key0.old key1.old
        (spec.generating (spec.told_made result) scratch.new key0.new key1.new) }
{
    let posting = Posting::checked(domain, buckets, keys, points, values, words, scratch.len())?;
    let need = posting.room();
    let answer = posting.make_in(&mut scratch[..need], key0, key1);
    slices::zero_first(scratch, need);
    answer
}

// ---- one cell

// The share of a cell that the image's key gives. Scratch: an element a bucket, zeros at the end. Refusals: 9, 10, 5, 12.
#[tactic(auto, using(crate::proofs::CellReads::cell_refused))]
pub fn evaluate_at(key: &[u8], index: u64, scratch: &mut [u64]) -> Result<u64, Refusal>
    ensures { spec.EvaluatesAt tree_hash bucket_of key.now index scratch.old
        (spec.reading (spec.told_share result) scratch.new) }
{
    let image = read::for_cell(key, index, scratch.len())?;
    let answer = read::read_cell(image.hashes(), &image, index, scratch);
    slices::zero_first(scratch, image.buckets() as usize);
    answer
}

// ---- all cells

// The shares of all cells, in front of `out`. Scratch: 6D + 2B elements, zeros at the end. Refusals: 9, 5, 8, 12.
#[tactic(auto, using(crate::proofs::SweepLaws::domain_refused))]
pub fn evaluate_domain(key: &[u8], scratch: &mut [u64], out: &mut [u64]) -> Result<(), Refusal>
    ensures { spec.EvaluatesDomain tree_hash bucket_of key.now scratch.old out.old
        (spec.swept (outcome result) scratch.new out.new) }
{
    let image = read::for_domain(key, scratch.len(), out.len())?;
    read::sweep(&Written, &image, scratch, out)
}

// ---- adding to a table

// To each cell of the table the share that the image's key gives, modulo 2^64. Scratch: 6D + 2B elements, zeros at the end.
// Refusals: 9, 11, 5, 12.
#[tactic(auto, using(crate::proofs::SweepLaws::table_refused))]
pub fn add_to(key: &[u8], scratch: &mut [u64], table: &mut [u64]) -> Result<(), Refusal>
    ensures { spec.AddsTo tree_hash bucket_of key.now scratch.old table.old
        (spec.swept (outcome result) scratch.new table.new) }
{
    let image = read::for_table(key, table.len(), scratch.len())?;
    read::sweep(&Added, &image, scratch, table)
}
