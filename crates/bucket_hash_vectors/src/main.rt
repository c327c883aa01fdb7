// Runs the bucket hash at its limits and on a few items, one to a line: the case, then what the code gives. The buckets were
// computed by a separate program over another AES: the low 64 bits of hash_ccr of the item, modulo B.
#![tactic(auto)]

use bucket_hash::Hashes;
use std::io;
use tools::{HASH_KEYS, Lossy};
use words::refusals::number_in;

// Buckets and items: B at its limits and outside, the items 0, 1, a few and the largest.
const CASES: [(u64, u64); 10] = [
    (0, 0),
    (1, 0),
    (2, 0),
    (2, 1),
    (3, 7),
    (1783, 0),
    (1783, 1),
    (65535, 0),
    (65535, u64::MAX),
    (65536, 0),
];

// The number and the bucket that an item answers under the first of the hash keys.
fn buckets(rt: &impl Print) -> io::Result<()> {
    let key = HASH_KEYS.first_chunk().copied().unwrap_or([0; 16]);
    for (b, item) in CASES {
        let bucket = bucket_hash::bucket(key, b, item);
        let number = number_in(&bucket);
        println!(rt;
            "bucket(B {b}, item {item})  number {number}, bucket {}",
            bucket.unwrap_or(0)
        )?;
    }
    Ok(())
}

// The low 64 bits by each of the three functions of 48 bytes of hash keys.
fn lows(rt: &impl Print) -> io::Result<()> {
    let hashes = Hashes::new(HASH_KEYS);
    for item in [0, 1, 4294967294] {
        print!(rt; "low 64 bits of item {item} by functions 0, 1, 2 ")?;
        for which in 0..3 {
            print!(rt; " {:016x}", hashes.low(which, item))?;
        }
        println!(rt)?;
    }
    Ok(())
}

fn main(rt: HostRuntime) -> io::Result<()> {
    let rt = Lossy(&rt);
    buckets(&rt)?;
    lows(&rt)
}
