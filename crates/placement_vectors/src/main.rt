// Runs placement at its limits, on lists that place and on one that gives up, one to a line: the case, the number and the
// evictions, then the scratch, whose elements are 9 before each call. What is expected was computed by a separate program
// over another AES: the walk and the counting of document 01, "Rules of buckets and placement".
#![tactic(auto)]

use bucket_hash::Hashes;
use placement::cells;
use std::io;
use tools::{HASH_KEYS, Lossy, Spaced};
use words::refusals::number_in;

// One key three times: byte i is 5 + 11 i, modulo 256. All three functions agree.
const SAME: [u8; 48] = [
    0x05, 0x10, 0x1b, 0x26, 0x31, 0x3c, 0x47, 0x52, 0x5d, 0x68, 0x73, 0x7e, 0x89, 0x94, 0x9f, 0xaa,
    0x05, 0x10, 0x1b, 0x26, 0x31, 0x3c, 0x47, 0x52, 0x5d, 0x68, 0x73, 0x7e, 0x89, 0x94, 0x9f, 0xaa,
    0x05, 0x10, 0x1b, 0x26, 0x31, 0x3c, 0x47, 0x52, 0x5d, 0x68, 0x73, 0x7e, 0x89, 0x94, 0x9f, 0xaa,
];

// What is placed: points of a domain, in buckets under hash keys.
#[derive(Clone, Copy)]
struct Case {
    name: &'static str,
    keys: [u8; 48],
    domain: u64,
    buckets: u64,
    points: &'static [u64],
}

impl Case {
    const fn new(
        name: &'static str,
        keys: [u8; 48],
        domain: u64,
        buckets: u64,
        points: &'static [u64],
    ) -> Self {
        Case {
            name,
            keys,
            domain,
            buckets,
            points,
        }
    }
}

// What a call answered: its number, the evictions, 0 where it has none, and the 13 elements of its scratch.
fn answered(
    rt: &impl Print,
    name: &str,
    number: u64,
    evictions: Option<u64>,
    scratch: &[u64; 13],
) -> io::Result<()> {
    let evictions = evictions.unwrap_or(0);
    println!(rt;
        "{name}  number {number}, evictions {evictions}, scratch{}",
        Spaced(scratch)
    )
}

// Places the points, in scratch of 13 elements.
fn places(rt: &impl Print) -> io::Result<()> {
    for case in [
        Case::new(
            "four points, eight buckets",
            HASH_KEYS,
            100,
            8,
            &[0, 1, 50, 99],
        ),
        Case::new(
            "four points, four buckets",
            HASH_KEYS,
            100,
            4,
            &[5, 17, 40, 99],
        ),
        Case::new("two points, one bucket", SAME, 10, 2, &[3, 7]),
        Case::new("one point, one bucket", HASH_KEYS, 1, 1, &[0]),
        Case::new("D 0", HASH_KEYS, 0, 1, &[0]),
        Case::new("D 2^32", HASH_KEYS, 4294967296, 1, &[0]),
        Case::new("D 2^32 - 1, no points", HASH_KEYS, 4294967295, 1, &[]),
        Case::new("B 0", HASH_KEYS, 5, 0, &[0]),
        Case::new("B 65536", HASH_KEYS, 5, 65536, &[0]),
        Case::new("more points than buckets", HASH_KEYS, 5, 1, &[0, 1]),
        Case::new("D 5, B 2, point 4 twice", HASH_KEYS, 5, 2, &[4, 4]),
        Case::new("points that fall", HASH_KEYS, 5, 2, &[3, 2]),
        Case::new("point outside the domain", HASH_KEYS, 5, 2, &[1, 5]),
        Case::new("scratch one short", HASH_KEYS, 100, 10, &[0, 1, 2, 3]),
        Case::new("scratch just enough", HASH_KEYS, 100, 10, &[0, 1, 2]),
    ] {
        let mut scratch = [9; 13];
        let evictions = placement::place(
            Hashes::new(case.keys),
            case.domain,
            case.buckets,
            case.points,
            &mut scratch,
        );
        answered(
            rt,
            case.name,
            number_in(&evictions),
            evictions.ok(),
            &scratch,
        )?;
    }
    Ok(())
}

// Counts the sizes of the buckets over a domain, in scratch of 13 elements.
fn sizes(rt: &impl Print) -> io::Result<()> {
    for (name, keys, domain, buckets) in [
        ("sizes of 100 cells, eight buckets", HASH_KEYS, 100, 8),
        ("sizes of 1 cell, one bucket", HASH_KEYS, 1, 1),
        ("sizes where all functions agree", SAME, 7, 3),
        ("sizes, D 0", HASH_KEYS, 0, 3),
        ("sizes, B 65536", HASH_KEYS, 7, 65536),
        ("sizes, scratch one short", HASH_KEYS, 7, 14),
    ] {
        let mut scratch = [9; 13];
        let sized = cells::sizes(Hashes::new(keys), domain, buckets, &mut scratch);
        answered(rt, name, number_in(&sized), None, &scratch)?;
    }
    Ok(())
}

fn main(rt: HostRuntime) -> io::Result<()> {
    let rt = Lossy(&rt);
    places(&rt)?;
    sizes(&rt)
}
