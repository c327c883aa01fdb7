// What the programs of vectors share: how words and slices are printed, numbers that stand for all elements of a slice, words
// and hash keys, and parts of a slice. Every function is total. What each answers is in specs/Tools.antt.
#![tactic(auto)]

ghost use Rattle.std.specs.Prelude.{◌≡◌, ℕ, Some, IsOk, ◌%◌, length, take, map};
ghost use Rattle.words.specs.Cells.{tab};
ghost use Rattle.tools.specs.Tools as spec;

use std::{fmt, io};
use words::Word;

// ---- printing

// Output of a program that goes on where it cannot write: what is not taken is left out.
#[derive(Clone, Copy)]
pub struct Lossy<P: Print>(pub P);

impl<P: Print> Print for Lossy<P> {
    fn print<D: fmt::Display + Drop>(&self, value: D) -> io::Result<()>
        ensures { IsOk result }
    {
        self.0.print(value).or(Ok(()))
    }

    fn println<D: fmt::Display + Drop>(&self, value: D) -> io::Result<()>
        ensures { IsOk result }
    {
        self.0.println(value).or(Ok(()))
    }

    fn write_all(&self, bytes: &[u8]) -> io::Result<()>
        ensures { IsOk result }
    {
        self.0.write_all(bytes).or(Ok(()))
    }
}

// A word, 16 digits a half, the high half first.
#[derive(Clone, Copy)]
pub struct Halves(pub Word);

impl fmt::Display for Halves {
    ghost output = { λ w. Some (spec.halves w.0) };

    fn fmt<W: fmt::Write>(&self, f: &mut fmt::Formatter<W>) -> fmt::Result {
        write!(f, "{:016x} {:016x}", self.0.hi, self.0.lo)
    }
}

// Every element after a space.
#[derive(Clone, Copy)]
pub struct Spaced<'a>(pub &'a [u64]);

impl fmt::Display for Spaced<'_> {
    ghost output = { λ s. Some (spec.spaced s.0.now) };

    fn fmt<W: fmt::Write>(&self, f: &mut fmt::Formatter<W>) -> fmt::Result {
        for x in self.0 {
            write!(f, " {x}")?;
        }
        Ok(())
    }
}

// The cells that are not 0, each with what it holds, after a space.
#[derive(Clone, Copy)]
pub struct Held<'a>(pub &'a [u64]);

impl fmt::Display for Held<'_> {
    ghost output = { λ s. Some (spec.held s.0.now) };

    fn fmt<W: fmt::Write>(&self, f: &mut fmt::Formatter<W>) -> fmt::Result {
        for (i, x) in self.0.iter().enumerate() {
            if *x != 0 {
                write!(f, " {i}:{x}")?;
            }
        }
        Ok(())
    }
}

// ---- folds

// What stands for a number of 64 bits.
// Kept: what may not change (`fold` promises `folded` of the values `T.value`, and of `Into<u64>` only a relation is known).
pub trait Number: Copy {
    ghost value: { Self → ℕ };

    fn number(self) -> u64
        ensures { result ≡ value self };
}

impl Number for u64 {
    ghost value = { λ x. x };

    fn number(self) -> u64 {
        self
    }
}

impl Number for u8 {
    ghost value = { λ x. x };

    fn number(self) -> u64 {
        u64::from(self)
    }
}

// The number f turned left by one bit, plus x.
#[tactic(auto, using(crate::proofs::ToolLaws::rotated))]
fn turned(f: u64, x: u64) -> u64
    ensures { result ≡ spec.turned f x }
{
    f.rotate_left(1).wrapping_add(x)
}

// One number for all elements in their order; over numbers themselves `spec.folded 0 items.now`, as ToolLaws.fold_numbers says.
pub fn fold<T: Number>(items: &[T]) -> u64
    ensures { result ≡ spec.folded 0 (map T.value items.now) }
{
    let mut f = 0;
    for x in items {
        f = turned(f, x.number());
    }
    f
}

// How many elements are 0.
#[tactic(auto, using(crate::proofs::ToolLaws::zeros_count))]
pub fn zeros(cells: &[u64]) -> usize
    ensures { result ≡ spec.zeros_in cells.now }
{
    cells.iter().filter(|x| **x == 0).count()
}

// ---- what is given

// Three hash keys of 16 bytes: byte i of key k is 37 (k + 1) + 5 + 11 i, modulo 256.
pub const HASH_KEYS: [u8; 48] = [
    0x2a, 0x35, 0x40, 0x4b, 0x56, 0x61, 0x6c, 0x77, 0x82, 0x8d, 0x98, 0xa3, 0xae, 0xb9, 0xc4, 0xcf,
    0x4f, 0x5a, 0x65, 0x70, 0x7b, 0x86, 0x91, 0x9c, 0xa7, 0xb2, 0xbd, 0xc8, 0xd3, 0xde, 0xe9, 0xf4,
    0x74, 0x7f, 0x8a, 0x95, 0xa0, 0xab, 0xb6, 0xc1, 0xcc, 0xd7, 0xe2, 0xed, 0xf8, 0x03, 0x0e, 0x19,
];

// A word of its halves, the high half first.
pub fn word(hi: u64, lo: u64) -> Word
    ensures { result ≡ record { lo = lo; hi = hi } }
{
    Word { lo, hi }
}

// The number behind x in a fixed sequence.
#[tactic(auto, unfolding(crate::specs::Tools::behind))]
fn behind(x: u64) -> u64
    ensures { result ≡ spec.behind x }
{
    let a = x ^ (x << 13);
    let b = a ^ (a >> 7);
    b ^ (b << 17)
}

// Numbers of the sequence that begins behind the seed: zeros from 0.
pub fn fill(words: &mut [u64], seed: u64)
    ensures { words.new ≡ tab (spec.drawn seed) (length words.old) }
{
    let mut x = behind(behind(seed));
    for word in words {
        x = behind(x);
        *word = x;
    }
}

// Three hash keys: the low bytes of such a sequence.
pub fn keys(seed: u64) -> [u8; 48]
    ensures { result ≡ tab (λ i. spec.drawn seed i % 256) 48 }
{
    let mut words = [0; 48];
    fill(&mut words, seed);
    words.map(|x| (x % 256) as u8)
}

// ---- parts

// The n elements from `at` on; none where they are not all there.
#[tactic(auto, unfolding(crate::specs::Tools::part))]
pub fn part<T>(items: &[T], at: usize, n: usize) -> &[T]
    ensures { result.now ≡ spec.part items.now at n }
{
    let rest = items.get(at..).unwrap_or(&[]);
    rest.get(..n).unwrap_or(&[])
}

// The first n elements, to be read; all where there are fewer.
pub fn first<T>(items: &[T], n: usize) -> &[T]
    ensures { result.now ≡ take n items.now }
{
    &items[..n.min(items.len())]
}

// The first n elements, to be written; all where there are fewer.
pub fn lent<T>(items: &mut [T], n: usize) -> &mut [T]
    ensures { result.now ≡ take n items.old }
{
    let n = n.min(items.len());
    &mut items[..n]
}
