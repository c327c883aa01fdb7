// Runs multi keys, one case to a line: the case, then what the code gives. First the known sums of document 01 that are not
// shown of the rules themselves; then every limit of making, reading and adding with its neighbours. What is expected was
// computed by a separate program over another AES, written from document 01. Demand 3 from end to end is the program postings;
// pairs in many shapes and damaged images are those of oracle_replay.
// Source: document 01, "Numbers", "Rules of buckets and placement", "Key images", "Refusal numbers" and "Known sums".
#![tactic(auto)]

mod makers;
mod readers;

use std::io;
use tools::Lossy;

fn main(rt: HostRuntime) -> io::Result<()> {
    let rt = Lossy(&rt);
    makers::known_sums(&rt)?;
    makers::given(&rt)?;
    makers::lent_lengths(&rt)?;
    makers::order(&rt)?;
    readers::all(&rt)
}
