// Reading a multi key: what is refused, sizes held against the image, one cell, and all cells over the shares of all buckets in
// lent scratch. Meanings: specs/Calls.antt, specs/Reading.antt.
ghost use Rattle.std.specs.Prelude.{◌≡◌, Bool, true, false, IfOk, ◌+◌, ◌*◌, ◌≤◌, ◌<◌, length, get_or};
ghost use Rattle.words.specs.Limits.{most_buckets};
ghost use Rattle.words.specs.Bytes.{put};
ghost use Rattle.words.specs.Cells.{zeroed};
ghost use Rattle.words.specs.Refusals.{first, outcome};
ghost use Rattle.cipher.specs.TreeHash.{hash_by, tree_hash};
ghost use Rattle.bucket_hash.specs.BucketHash.{bucket_of, bucket_by};
ghost use Rattle.single.specs.Rules as single-rule;
ghost use Rattle.multi.specs.Rules.{share_over, cell_share};
ghost use Rattle.multi.specs.Image.{buckets_in, domain_in, bucket_record, bucket_size};
ghost use Rattle.multi.specs.Calls.{told_share, side_in, alike, functions_in, domain_room, evaluate_at_early, evaluate_domain_early, add_to_early};
ghost use Rattle.multi.specs.Reading.{Here, found, with_sizes, cell_found, bucket_shares, Ready, spread_out, with_shares, Sweepable, Gathers, cells_filled};

use crate::image::Image;
use bucket_hash::Hashes;
use cipher::TreeHash;
use placement::{Spot, Spots, cells, gather};
use single::bare;
use words::cells::{Added, Written};
use words::refusals::Refusal;
use words::{cells as slices, sums};

// ---- refusals before anything is written

// The elements of scratch that the whole domain needs: 6D + 2B.
#[tactic(auto, using(crate::proofs::ImageLaws::few_cells_in, crate::proofs::ImageLaws::few_buckets_in))]
fn domain_room(image: &Image) -> u64
    ensures { result ≡ domain_room image.now.bytes.now }
{
    6 * image.domain() + 2 * image.buckets()
}

// The image of a call for one cell: Key, Index, Scratch.
#[tactic(auto, unfolding(words::specs::Refusals::first))]
pub(crate) fn for_cell(key: &[u8], index: u64, len: usize) -> Result<Image, Refusal>
    ensures answer { outcome result ≡ first (evaluate_at_early key.now index len) }
    ensures image { IfOk result (λ image. image.bytes.now ≡ key.now) }
{
    let image = Image::read(key)?;
    if image.domain() <= index {
        return Err(Refusal::Index);
    }
    if (len as u64) < image.buckets() {
        return Err(Refusal::Scratch);
    }
    Ok(image)
}

// The image of a call for the whole domain: Key, Scratch, Room.
#[tactic(auto, unfolding(words::specs::Refusals::first))]
pub(crate) fn for_domain(key: &[u8], len: usize, room: usize) -> Result<Image, Refusal>
    ensures answer { outcome result ≡ first (evaluate_domain_early key.now len room) }
    ensures image { IfOk result (λ image. image.bytes.now ≡ key.now) }
{
    let image = Image::read(key)?;
    if (len as u64) < domain_room(&image) {
        return Err(Refusal::Scratch);
    }
    if (room as u64) < image.domain() {
        return Err(Refusal::Room);
    }
    Ok(image)
}

// The image of a call that adds: Key, Table, Scratch.
#[tactic(auto, unfolding(words::specs::Refusals::first))]
pub(crate) fn for_table(key: &[u8], cells: usize, len: usize) -> Result<Image, Refusal>
    ensures answer { outcome result ≡ first (add_to_early key.now cells len) }
    ensures image { IfOk result (λ image. image.bytes.now ≡ key.now) }
{
    let image = Image::read(key)?;
    if cells as u64 != image.domain() {
        return Err(Refusal::Table);
    }
    if (len as u64) < domain_room(&image) {
        return Err(Refusal::Scratch);
    }
    Ok(image)
}

// ---- sizes

// Whether the record of each bucket has the size that was counted; no record counts as 0.
fn same_sizes(image: &Image, sizes: &[u64]) -> bool
    requires { length sizes.now ≤ most_buckets }
    ensures { result ≡ alike (bucket_size image.now.bytes.now) (λ c. get_or sizes.now c 0)
        (length sizes.now) }
{
    for (c, size) in sizes.iter().enumerate() {
        if image.size(c) != *size {
            return false;
        }
    }
    true
}

// ---- one cell

// The sum of the shares x, y and z of a cell's three buckets: where two are one bucket, it counts once.
#[tactic(auto, unfolding(crate::specs::Rules::share_over, placement::specs::Shares::each_once, words::specs::Ring::add))]
fn share_over(s: Spots, x: u64, y: u64, z: u64) -> u64
    ensures { result ≡ share_over 64 s.first.bucket s.second.bucket s.third.bucket x y z }
{
    let b = s.first.bucket;
    let c = s.second.bucket;
    let d = s.third.bucket;
    let second = gather::unless_counted(c == b, y);
    let third = gather::unless_counted(d == b, gather::unless_counted(d == c, z));
    sums::plus(x, sums::plus(second, third))
}

// The share of a bucket's record at the cell's position there.
fn bucket_share(h: TreeHash, image: &Image, spot: Spot) -> u64
    requires { Here image.now.bytes.now spot.bucket spot.at }
    ensures { result ≡ single-rule.share (hash_by h) 64 (side_in image.now.bytes.now)
        (bucket_record image.now.bytes.now spot.bucket) spot.at }
{
    let part = image.part(spot.bucket as usize);
    bare::record_share(h, image.side(), part, spot.at).unwrap_or(0)
}

// The share of the cell that has these buckets and positions.
#[tactic(auto, unfolding(crate::specs::Rules::cell_share))]
fn cell_share(image: &Image, s: Spots) -> u64
    requires { Here image.now.bytes.now s.first.bucket s.first.at × Here image.now.bytes.now s.second.bucket s.second.at
        × Here image.now.bytes.now s.third.bucket s.third.at }
    ensures { result ≡ cell_share tree_hash 64 (side_in image.now.bytes.now) (bucket_record image.now.bytes.now)
        s.first.bucket s.second.bucket s.third.bucket s.first.at s.second.at s.third.at }
{
    let h = TreeHash::new();
    let x = bucket_share(h, image, s.first);
    let y = bucket_share(h, image, s.second);
    let z = bucket_share(h, image, s.third);
    share_over(s, x, y, z)
}

// What one cell answers; the sizes of all buckets stay in scratch.
pub(crate) fn read_cell(
    hashes: Hashes,
    image: &Image,
    index: u64,
    scratch: &mut [u64],
) -> Result<u64, Refusal>
    requires { (index < domain_in image.now.bytes.now) × (buckets_in image.now.bytes.now ≤ length scratch.old) }
    ensures answer { told_share result
        ≡ cell_found tree_hash (bucket_by hashes (buckets_in image.now.bytes.now)) image.now.bytes.now index }
    ensures sizes { scratch.new ≡ with_sizes (bucket_by hashes (buckets_in image.now.bytes.now)) image.now.bytes.now
        scratch.old }
{
    let b = image.buckets();
    let spots = cells::spots(hashes, image.domain(), b, index, scratch)?;
    let n = b as usize;
    if !same_sizes(image, &scratch[..n]) {
        return Err(Refusal::Mismatch);
    }
    Ok(cell_share(image, spots))
}

// ---- all cells

// The shares of bucket c's record, from `from` on; nothing where it has none.
#[tactic(auto, using(crate::proofs::ImageLaws::few_buckets_in))]
fn expand_one(h: TreeHash, image: &Image, c: usize, from: usize, work: &mut [u64])
    requires { (c < buckets_in image.now.bytes.now)
        × (from + 2 * bucket_size image.now.bytes.now c ≤ length work.old) }
    ensures { work.new ≡ put work.old from (bucket_shares (hash_by h) (side_in image.now.bytes.now) image.now.bytes.now c) }
{
    let size = image.size(c) as usize;
    if size == 0 {
        return;
    }
    let end = from + 2 * size;
    // The record passes, and the part is just long enough.
    let _ = bare::spread_record(h, image.side(), image.part(c), &mut work[from..end]);
}

// The shares of all buckets, each from its start on.
fn expand(h: TreeHash, image: &Image, work: &mut [u64])
    requires { Ready image.now.bytes.now work.old }
    ensures { work.new
        ≡ spread_out (hash_by h) (side_in image.now.bytes.now) image.now.bytes.now (buckets_in image.now.bytes.now) work.old }
{
    let n = image.buckets() as usize;
    for c in 0..n {
        let start = work[c] as usize;
        expand_one(h, image, c, n + n + 2 * start, work);
    }
}

// The shares of all buckets in scratch, behind starts and sizes; or Mismatch with starts and sizes.
fn lay_shares(hashes: Hashes, image: &Image, scratch: &mut [u64]) -> Result<(), Refusal>
    requires { domain_room image.now.bytes.now ≤ length scratch.old }
    ensures answer { outcome result ≡ found (bucket_by hashes (buckets_in image.now.bytes.now)) image.now.bytes.now }
    ensures shares { scratch.new ≡ with_shares tree_hash (bucket_by hashes (buckets_in image.now.bytes.now))
        image.now.bytes.now scratch.old }
{
    let b = image.buckets();
    cells::starts(hashes, image.domain(), b, scratch)?;
    let n = b as usize;
    let end = n + n;
    if !same_sizes(image, &scratch[n..end]) {
        return Err(Refusal::Mismatch);
    }
    expand(TreeHash::new(), image, scratch);
    Ok(())
}

// Where the shares of all cells go: in an output, or to the cells of a table.
pub(crate) trait Gather {
    ghost adding: { Bool };

    // The sums of all cells over the shares that stand in scratch.
    fn gather(
        &self,
        hashes: Hashes,
        image: &Image,
        scratch: &mut [u64],
        cells: &mut [u64],
    ) -> Result<(), Refusal>
        requires { Sweepable adding image.now.bytes.now scratch.old cells.old }
        ensures answer { outcome result ≡ 0 }
        ensures sums { Gathers adding (bucket_by hashes (buckets_in image.now.bytes.now)) image.now.bytes.now
            scratch.old cells.old scratch.new cells.new };
}

impl Gather for Written {
    ghost adding = { false };

    fn gather(
        &self,
        hashes: Hashes,
        image: &Image,
        scratch: &mut [u64],
        cells: &mut [u64],
    ) -> Result<(), Refusal> {
        gather::gather(hashes, image.domain(), image.buckets(), scratch, cells)
    }
}

impl Gather for Added {
    ghost adding = { true };

    fn gather(
        &self,
        hashes: Hashes,
        image: &Image,
        scratch: &mut [u64],
        cells: &mut [u64],
    ) -> Result<(), Refusal> {
        gather::gather_into(hashes, image.domain(), image.buckets(), scratch, cells)
    }
}

// The share of each cell goes to its cell; or Mismatch and the cells as they were. Scratch is written, but nowhere behind the
// elements that are needed.
fn fill_cells<G: Gather>(
    by: &G,
    hashes: Hashes,
    image: &Image,
    scratch: &mut [u64],
    cells: &mut [u64],
) -> Result<(), Refusal>
    requires { Sweepable G.adding image.now.bytes.now scratch.old cells.old }
    ensures answer { outcome result ≡ found (bucket_by hashes (buckets_in image.now.bytes.now)) image.now.bytes.now }
    ensures behind { zeroed (domain_room image.now.bytes.now) scratch.new
        ≡ zeroed (domain_room image.now.bytes.now) scratch.old }
    ensures cells { cells.new
        ≡ cells_filled G.adding tree_hash (bucket_by hashes (buckets_in image.now.bytes.now)) image.now.bytes.now
        cells.old }
{
    lay_shares(hashes, image, scratch)?;
    by.gather(hashes, image, scratch, cells)
}

// The same by the image's own bucket functions, with the scratch that is needed zeroed.
pub(crate) fn sweep<G: Gather>(
    by: &G,
    image: &Image,
    scratch: &mut [u64],
    cells: &mut [u64],
) -> Result<(), Refusal>
    requires { Sweepable G.adding image.now.bytes.now scratch.old cells.old }
    ensures answer { outcome result ≡ found (functions_in bucket_of image.now.bytes.now) image.now.bytes.now }
    ensures scratch { scratch.new ≡ zeroed (domain_room image.now.bytes.now) scratch.old }
    ensures cells { cells.new ≡ cells_filled G.adding tree_hash (functions_in bucket_of image.now.bytes.now)
        image.now.bytes.now cells.old }
{
    let answer = fill_cells(by, image.hashes(), image, scratch, cells);
    slices::zero_first(scratch, domain_room(image) as usize);
    answer
}
