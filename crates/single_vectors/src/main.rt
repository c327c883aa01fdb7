// Runs single keys over small domains, odd and even, at the powers of two and on either side, and every limit of the calls with
// its neighbours, one case to a line: the case, then what the code gives. The shares of a pair sum to the value at its point
// and to 0 elsewhere, so a list of sums shows that point alone.
// Source: document 01, "Numbers", "Rules of the single key" and "Refusal numbers".
#![tactic(auto)]

mod limits;
mod pairs;

use single::calls;
use std::{fmt, io};
use tools::Lossy;
use words::refusals::{Refusal, number_in};

// The random words of every pair: two words, low half first.
pub(crate) const WORDS: [u64; 4] = [
    0x0123_4567_89ab_cdef,
    0xfedc_ba98_7654_3210,
    0x0f1e_2d3c_4b5a_6978,
    0x8796_a5b4_c3d2_e1f0,
];

// What making answered: 0 and what it made, or a refusal's number and zeros.
// Kept: the new form is no plainer (one type with that of multi_vectors: the two `Made` differ, and so do the lines).
#[derive(Clone, Copy)]
pub(crate) struct Told(pub(crate) Result<calls::Made, Refusal>);

impl fmt::Display for Told {
    fn fmt<W: fmt::Write>(&self, f: &mut fmt::Formatter<W>) -> fmt::Result {
        let (length, words) = self.0.map_or((0, 0), |made| (made.length, made.words));
        write!(
            f,
            "number {}, length {length}, words {words}",
            number_in(&self.0)
        )
    }
}

fn main(rt: HostRuntime) -> io::Result<()> {
    let rt = Lossy(&rt);
    pairs::all(&rt)?;
    limits::makers(&rt)?;
    limits::readers(&rt)
}
