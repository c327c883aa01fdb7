// The desk: the postings, the keys made of them, the mails of the partners, and what all that was posted gives in clear.
use std::{fmt, io};
use tools::{Spaced, fill, fold, keys, part};
use words::refusals::{Refusal, number_in};
use words::sums;

// ---- the postings

// What is posted over so many cells.
#[derive(Clone, Copy)]
pub(crate) struct Posting {
    pub(crate) domain: u64,
    pub(crate) posted: Posted,
}

// One value at a point, or several values in buckets.
#[derive(Clone, Copy)]
pub(crate) enum Posted {
    Single {
        point: u64,
        value: u64,
    },
    Multi {
        buckets: u64,
        points: &'static [u64],
        values: &'static [u64],
    },
}

fn single(domain: u64, point: u64, value: u64) -> Posting {
    let posted = Posted::Single { point, value };
    Posting { domain, posted }
}

fn multi(domain: u64, buckets: u64, points: &'static [u64], values: &'static [u64]) -> Posting {
    let posted = Posted::Multi {
        buckets,
        points,
        values,
    };
    Posting { domain, posted }
}

// 0 to 5 are for the table of 40 cells, 6 and 7 are over other domains, and 8 is spoiled. In 0 one value wraps and one is 0;
// 2 has as many points as buckets; 4 has one point among many buckets.
pub(crate) fn postings() -> [Posting; 9] {
    [
        multi(40, 8, &[0, 1, 20, 39], &[1, u64::MAX, 0, 4]),
        single(40, 20, 7),
        multi(40, 3, &[1, 2, 20], &[10, 20, 30]),
        single(40, 39, 18446744073709551612),
        multi(40, 24, &[0], &[1000]),
        multi(
            40,
            12,
            &[0, 3, 6, 9, 12, 15, 18, 21, 24, 39],
            &[1, 2, 4, 8, 16, 32, 64, 128, 256, 512],
        ),
        multi(41, 3, &[1, 2, 20], &[10, 20, 30]),
        single(39, 20, 9),
        multi(40, 3, &[1, 2, 20], &[10, 20, 30]),
    ]
}

pub(crate) const SPOILED: usize = 8;

impl fmt::Display for Posting {
    fn fmt<W: fmt::Write>(&self, f: &mut fmt::Formatter<W>) -> fmt::Result {
        let domain = self.domain;
        match self.posted {
            Posted::Single { point, value } => {
                write!(f, "single, D {domain}, point {point}, value {value}")
            }
            Posted::Multi {
                buckets,
                points,
                values,
            } => {
                write!(
                    f,
                    "multi, D {domain}, B {buckets}, points{}",
                    Spaced(points)
                )?;
                write!(f, ", values{}", Spaced(values))
            }
        }
    }
}

// ---- making

// What making answered; of a single key there are no evictions.
#[derive(Clone, Copy, Default)]
struct Made {
    length: u64,
    words: u64,
    evictions: Option<u64>,
}

impl fmt::Display for Made {
    fn fmt<W: fmt::Write>(&self, f: &mut fmt::Formatter<W>) -> fmt::Result {
        write!(f, "length {}, words {}", self.length, self.words)?;
        match self.evictions {
            Some(evictions) => write!(f, ", evictions {evictions}"),
            None => Ok(()),
        }
    }
}

impl Posting {
    // Both images, at the front of what is lent: a single pair with words from its value, a multi pair with words and hash keys
    // from its bucket count.
    fn make(self, key0: &mut [u8], key1: &mut [u8]) -> Result<Made, Refusal> {
        let domain = self.domain;
        match self.posted {
            Posted::Single { point, value } => {
                let mut words = [0; 4];
                fill(&mut words, value);
                let made = single::calls::generate_keys(domain, point, value, &words, key0, key1)?;
                Ok(Made {
                    length: made.length,
                    words: made.words,
                    evictions: None,
                })
            }
            Posted::Multi {
                buckets,
                points,
                values,
            } => {
                let mut words = [0; 96];
                fill(&mut words, buckets);
                let made = multi::calls::generate_keys(
                    domain,
                    buckets,
                    keys(buckets),
                    points,
                    values,
                    &words,
                    &mut [0; 108],
                    key0,
                    key1,
                )?;
                Ok(Made {
                    length: made.length,
                    words: made.words,
                    evictions: Some(made.evictions),
                })
            }
        }
    }
}

// ---- the mails

// Where either image of a posting stands in the mail of its partner.
#[derive(Clone, Copy)]
pub(crate) struct Span {
    at: usize,
    length: usize,
}

// What a partner gets: for each posting the place of its image, and the images one behind the other.
// Kept: what may not change (8192 bytes and not a Vec of the images: `post_all` prints a fold of all of them, zeros too).
#[derive(Clone, Copy)]
pub(crate) struct Mail {
    spans: [Span; 9],
    bytes: [u8; 8192],
}

impl Mail {
    pub(crate) fn empty() -> Mail {
        Mail {
            spans: [Span { at: 0, length: 0 }; 9],
            bytes: [0; 8192],
        }
    }

    // The image of posting k, or so many of its bytes; none behind the last posting.
    pub(crate) fn image(&self, k: usize, cut: Option<usize>) -> &[u8] {
        match self.spans.get(k) {
            Some(span) => {
                let length = cut.unwrap_or(span.length).min(span.length);
                part(&self.bytes, span.at, length)
            }
            None => &[],
        }
    }

    // The bytes from `at` on, to be written.
    fn room(&mut self, at: usize) -> &mut [u8] {
        self.bytes.get_mut(at..).unwrap_or(&mut [])
    }

    // A byte of the hash keys of an image is another one.
    fn spoil(&mut self, k: usize) {
        if let Some(span) = self.spans.get(k) {
            if let Some(byte) = self.bytes.get_mut(span.at.saturating_add(24)) {
                *byte = 0;
            }
        }
    }
}

// Makes every posting into the mails of party 0 and of party 1, which are empty, spoils one, and prints what making answered and
// a fold of either mail.
pub(crate) fn post_all(rt: &impl Print, mail0: &mut Mail, mail1: &mut Mail) -> io::Result<()> {
    let mut at: usize = 0;
    for (k, posting) in postings().iter().enumerate() {
        let answer = posting.make(mail0.room(at), mail1.room(at));
        let made = answer.unwrap_or_default();
        println!(rt;
            "posting {k}: {posting}  number {}, {made}",
            number_in(&answer)
        )?;
        let length = made.length as usize;
        mail0.spans[k] = Span { at, length };
        mail1.spans[k] = Span { at, length };
        at = at.saturating_add(length);
    }
    mail0.spoil(SPOILED);
    mail1.spoil(SPOILED);
    println!(rt;
        "mail {:016x} {:016x}",
        fold(&mail0.bytes),
        fold(&mail1.bytes)
    )
}

// ---- the plain table

// A value at a point, in clear.
fn add(point: u64, value: u64, plain: &mut [u64; 40]) {
    if let Some(cell) = plain.get_mut(point as usize) {
        *cell = sums::plus(*cell, value);
    }
}

// All that was posted, over what the partners' tables held at first.
pub(crate) fn in_clear(plain: &mut [u64; 40]) {
    for posting in postings().iter().take(6) {
        match posting.posted {
            Posted::Single { point, value } => add(point, value, plain),
            Posted::Multi { points, values, .. } => {
                for (point, value) in points.iter().zip(values) {
                    add(*point, *value, plain);
                }
            }
        }
    }
}
