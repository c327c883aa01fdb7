// Kind 14: points are placed.
use crate::given;
use bucket_hash::Hashes;
use replay::{Account, Malformed, What, field};
use words::refusals::number_in;

// The most points and elements of scratch that a record may lend.
const POINTS: usize = 16;

const SCRATCH: usize = 64;

// The bytes in front of the points.
const HEAD: usize = 104;

pub(crate) fn place(account: &mut Account, fields: &[u8]) -> Result<(), Malformed> {
    let n = field(fields, 2) as usize;
    let m = field(fields, 3) as usize;
    let written = field(fields, 6) as usize;
    if POINTS < n || SCRATCH < m || m < written {
        return Err(account.malformed());
    }
    account.of_length(fields, HEAD + 8 * n + 8 * written)?;
    let mut points = [0; POINTS];
    replay::fill(&mut points, &fields[HEAD..]);
    let mut scratch = [replay::SCRATCH; SCRATCH];
    let hashes = Hashes::new(given::keys(fields, 56));
    let evictions = placement::place(
        hashes,
        field(fields, 0),
        field(fields, 1),
        &points[..n],
        &mut scratch[..m],
    );
    account.answered(field(fields, 4), number_in(&evictions));
    account.value(What::Evictions, field(fields, 5), evictions.unwrap_or(0));
    account.scratch(&fields[HEAD + 8 * n..], written, &scratch);
    Ok(())
}
