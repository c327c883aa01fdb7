// Making at every limit: refusals 1 to 8, each with the case beside it that is taken, what they leave in the lent slices, and
// their order. Before each call the scratch holds nines and the key buffers hold sevens.
use multi::calls;
use std::{fmt, io};
use tools::{fill, first, fold, keys, lent, zeros};
use words::refusals::{Refusal, number_in};

// ---- one call

// What is given, the hash keys as those of a seed, zeros of 0; and how many elements of words and scratch and how many bytes of
// either buffer are lent: at most 16, 16, 320 and 320.
#[derive(Clone, Copy)]
struct Case {
    name: &'static str,
    domain: u64,
    buckets: u64,
    seed: u64,
    points: &'static [u64],
    values: &'static [u64],
    words: usize,
    scratch: usize,
    rooms: [usize; 2],
}

// The posting 10 at cell 1, 20 at cell 4 among five cells in two buckets, with more than enough of everything.
const GIVEN: Case = Case {
    name: "",
    domain: 5,
    buckets: 2,
    seed: 7,
    points: &[1, 4],
    values: &[10, 20],
    words: 8,
    scratch: 12,
    rooms: [300, 300],
};

// What making answered: 0 and what it made, or a refusal's number and zeros.
// Kept: the new form is no plainer (one type with that of single_vectors: the two `Made` differ, and so do the lines).
#[derive(Clone, Copy)]
struct Told(Result<calls::Made, Refusal>);

impl fmt::Display for Told {
    fn fmt<W: fmt::Write>(&self, f: &mut fmt::Formatter<W>) -> fmt::Result {
        let (length, words, evictions) = self.0.map_or(
            (0, 0, 0),
            |made| (made.length, made.words, made.evictions),
        );
        write!(f, "number {}, length {length}", number_in(&self.0))?;
        write!(f, ", words {words}, evictions {evictions}")
    }
}

// What making answered, how many elements of scratch are 0 afterwards, and a fold of either buffer.
fn make(rt: &impl Print, case: &Case) -> io::Result<()> {
    let mut words = [0; 16];
    fill(&mut words, 5);
    let mut nines = [9; 16];
    let mut sevens0 = [7; 320];
    let mut sevens1 = [7; 320];
    let scratch = lent(&mut nines, case.scratch);
    let key0 = lent(&mut sevens0, case.rooms[0]);
    let key1 = lent(&mut sevens1, case.rooms[1]);
    let made = calls::generate_keys(
        case.domain,
        case.buckets,
        keys(case.seed),
        case.points,
        case.values,
        first(&words, case.words),
        scratch,
        key0,
        key1,
    );
    print!(rt; "make {}  {}", case.name, Told(made))?;
    print!(rt; "; zeros {} of {}", zeros(scratch), scratch.len())?;
    println!(rt; "; buffers {:016x} {:016x}", fold(key0), fold(key1))
}

// ---- what is given

// Cells, buckets, points and values.
type Given = (&'static str, u64, u64, &'static [u64], &'static [u64]);

// Document 01, "Known sums", the rows that are not marked: D and B pass where only the points are missing; a domain too large;
// a point twice.
const KNOWN_SUMS: [Given; 3] = [
    ("D 2^32 - 1, B 1, no points", 4294967295, 1, &[], &[]),
    ("D 2^32, B 1, no points", 4294967296, 1, &[], &[]),
    ("D 5, B 2, point 4 twice", 5, 2, &[4, 4], &[10, 20]),
];

const SMALL_DOMAINS: [Given; 2] = [
    ("D 0", 0, 2, &[1, 4], &[10, 20]),
    ("D 1, B 1", 1, 1, &[0], &[5]),
];

// One point in one bucket of a domain too large to make here: scratch is an element short.
const LARGE_DOMAINS: [Given; 3] = [
    ("D 2^32 - 1, last point", 4294967295, 1, &[4294967294], &[5]),
    (
        "D 2^32 - 1, a point more",
        4294967295,
        1,
        &[4294967295],
        &[5],
    ),
    ("D 2^32, last point", 4294967296, 1, &[4294967295], &[5]),
];

const COUNTS: [Given; 9] = [
    ("B 0", 5, 0, &[1, 4], &[10, 20]),
    ("B 65535", 5, 65535, &[1, 4], &[10, 20]),
    ("B 65536", 5, 65536, &[1, 4], &[10, 20]),
    ("no points, no values", 5, 2, &[], &[]),
    ("n 1, B 2", 5, 2, &[4], &[20]),
    ("n 2, B 2", 5, 2, &[1, 4], &[10, 20]),
    ("n 3, B 2", 5, 2, &[1, 2, 4], &[10, 20, 30]),
    ("n 2, 1 value", 5, 2, &[1, 4], &[10]),
    ("n 2, 3 values", 5, 2, &[1, 4], &[10, 20, 30]),
];

const ORDERS: [Given; 5] = [
    ("points 3 4", 5, 2, &[3, 4], &[10, 20]),
    ("points 3 3", 5, 2, &[3, 3], &[10, 20]),
    ("points 3 2", 5, 2, &[3, 2], &[10, 20]),
    ("points 3 5", 5, 2, &[3, 5], &[10, 20]),
    ("point 5", 5, 2, &[5], &[10]),
];

fn all_given(rt: &impl Print, cases: &[Given], scratch: usize) -> io::Result<()> {
    for (name, domain, buckets, points, values) in cases.iter().copied() {
        make(
            rt,
            &Case {
                name,
                domain,
                buckets,
                points,
                values,
                scratch,
                ..GIVEN
            },
        )?;
    }
    Ok(())
}

pub(crate) fn known_sums(rt: &impl Print) -> io::Result<()> {
    all_given(rt, &KNOWN_SUMS, 12)
}

pub(crate) fn given(rt: &impl Print) -> io::Result<()> {
    all_given(rt, &SMALL_DOMAINS, 12)?;
    all_given(rt, &LARGE_DOMAINS, 4)?;
    all_given(rt, &COUNTS, 12)?;
    all_given(rt, &ORDERS, 12)
}

// ---- what is lent

// Scratch 4B + n, words, and either buffer's room; what is beyond stays as it was. An odd last element of words is ignored.
pub(crate) fn lent_lengths(rt: &impl Print) -> io::Result<()> {
    for (name, words, scratch, rooms) in [
        ("scratch 9", 8, 9, [264, 264]),
        ("scratch 10", 8, 10, [264, 264]),
        ("scratch 11", 8, 11, [264, 264]),
        ("words 7", 7, 11, [264, 264]),
        ("words 8", 8, 11, [264, 264]),
        ("words 9", 9, 11, [264, 264]),
        ("room 263 and 264", 8, 11, [263, 264]),
        ("room 264 and 263", 8, 11, [264, 263]),
        ("room 265 and 264", 8, 11, [265, 264]),
        ("room 264 and 265", 8, 11, [264, 265]),
    ] {
        make(
            rt,
            &Case {
                name,
                words,
                scratch,
                rooms,
                ..GIVEN
            },
        )?;
    }
    Ok(())
}

// ---- the order

// Everything is wrong, and then one thing after the other is mended: refusals 1 to 8 in their order, first what is given, and
// then what is lent. Hash keys of zeros put both points into one bucket.
pub(crate) fn order(rt: &impl Print) -> io::Result<()> {
    let all_wrong = Case {
        name: "all wrong",
        domain: 0,
        buckets: 0,
        seed: 0,
        points: &[4],
        words: 0,
        scratch: 0,
        rooms: [0, 0],
        ..GIVEN
    };
    let domain = Case {
        name: "D mended",
        domain: 5,
        ..all_wrong
    };
    let buckets = Case {
        name: "B mended",
        buckets: 2,
        ..domain
    };
    let count = Case {
        name: "n mended",
        points: &[4, 1],
        ..buckets
    };
    let points = Case {
        name: "points mended",
        points: &[1, 4],
        ..count
    };
    let scratch = Case {
        name: "scratch mended",
        scratch: 11,
        ..points
    };
    let hash_keys = Case {
        name: "hash keys mended",
        seed: 7,
        ..scratch
    };
    let words = Case {
        name: "words mended",
        words: 8,
        ..hash_keys
    };
    let all = Case {
        name: "all mended",
        rooms: [264, 264],
        ..words
    };
    for case in [
        all_wrong, domain, buckets, count, points, scratch, hash_keys, words, all,
    ] {
        make(rt, &case)?;
    }
    Ok(())
}
