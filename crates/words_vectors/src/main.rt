// Runs the known sums of document 01 that concern words, and their neighbours, one to a line: the case, then what the code
// gives.
#![tactic(auto)]

use std::io;
use tools::{Halves, Lossy, word};
use words::refusals::number_in;
use words::{bytes, cells, sums};

// Known sums: heights of six sizes, the refused sizes, and what stands on either side of a power of two.
const SIZES: [u64; 13] = [
    0,
    1,
    2,
    3,
    4,
    5,
    0x1_0000_0000,
    0x1_0000_0001,
    0x2_0000_0000,
    0x2_0000_0001,
    0x4_0000_0000,
    0x4_0000_0001,
    u64::MAX,
];

fn heights(rt: &impl Print) -> io::Result<()> {
    for s in SIZES {
        let t = words::height(s);
        println!(rt;
            "height({s})  number {}, height {}",
            number_in(&t),
            t.unwrap_or(0)
        )?;
    }
    Ok(())
}

// Known sums: a word whose bit 64 must reach the low half; then no carry, and a carry alone.
fn shifts(rt: &impl Print) -> io::Result<()> {
    for (hi, lo) in [(1, 1), (0, 1), (1, 0)] {
        let x = word(hi, lo).convert_shifted();
        println!(rt; "converted after the shift (hi {hi}, lo {lo})  {x:016x}")?;
    }
    Ok(())
}

// A word of all bits and one of none, by each step.
fn steps(rt: &impl Print) -> io::Result<()> {
    let all = word(u64::MAX, u64::MAX);
    let none = word(0, 0);
    for (name, w) in [
        ("all bits, shifted  ", all.shr1()),
        ("all bits, cleared  ", all.cleared()),
        ("all bits, converted", word(0, all.convert())),
        ("no bits, marked    ", none.marked()),
        ("no bits or 1       ", none.or_bit(true)),
        ("all xor marked none", all.xor(none.marked())),
        ("all when not       ", all.when(false)),
    ] {
        println!(rt; "{name} {}", Halves(w))?;
    }
    Ok(())
}

// The four low bits of 6, most significant first, and what lies on either side of the list.
fn bits(rt: &impl Print) -> io::Result<()> {
    print!(rt; "bits of 6 in four   ")?;
    for i in 0..5 {
        print!(rt; "{}", u8::from(words::bit_of(4, 6, i)))?;
    }
    print!(rt; "\nbits 63, 64 of all  ")?;
    for i in 63..65 {
        print!(rt; "{}", u8::from(words::bit(i, u64::MAX)))?;
    }
    println!(rt)
}

// Sums modulo 2^64.
fn wrapped(rt: &impl Print) -> io::Result<()> {
    for (name, x) in [
        ("largest plus 2", sums::plus(u64::MAX, 2)),
        ("5 minus 7     ", sums::minus(5, 7)),
        ("negated 1     ", sums::negated(1)),
        ("negated 0     ", sums::negated(0)),
    ] {
        println!(rt; "{name}      {x:016x}")?;
    }
    Ok(())
}

// An index no slice has.
const FAR: usize = 0xffff_ffff_ffff_fffc;

// Stores into a slice of 20 bytes: one that fits and two that do not.
fn stores(rt: &impl Print, b: &mut [u8; 20]) -> io::Result<()> {
    let counted = word(0x0f0e_0d0c_0b0a_0908, 0x0706_0504_0302_0100);
    for (name, stored) in [
        ("store at 4 answers", bytes::put_word(b, 4, counted)),
        ("store at 5 answers", bytes::put_word(b, 5, word(0, 0))),
        ("store far off     ", bytes::put_u64(b, FAR, 0)),
    ] {
        println!(rt; "{name}  {:016x}", number_in(&stored))?;
    }
    Ok(())
}

// Fields of such a slice: at its start, across its end, behind it.
fn fields(rt: &impl Print, b: &[u8; 20]) -> io::Result<()> {
    for (name, x) in [
        ("four bytes at 2   ", bytes::get_u32(b, 2)),
        ("eight bytes at 4  ", bytes::get_u64(b, 4)),
        ("eight bytes at 15 ", bytes::get_u64(b, 15)),
        ("eight bytes at 20 ", bytes::get_u64(b, 20)),
    ] {
        println!(rt; "{name}  {x:016x}")?;
    }
    for (name, at) in [
        ("word at 4   ", 4),
        ("word at 10  ", 10),
        ("word far off", FAR),
    ] {
        println!(rt; "{name}        {}", Halves(bytes::get_word(b, at)))?;
    }
    Ok(())
}

// Zeroing two of three cells, and more cells than there are.
fn zeros(rt: &impl Print) -> io::Result<()> {
    let mut c = [7; 3];
    cells::zero_first(&mut c, 2);
    println!(rt; "third of 3 cells, 2 zeroed  {:016x}", c[2])?;
    println!(rt; "second                      {:016x}", c[1])?;
    cells::zero_first(&mut c, 9);
    println!(rt; "third, 9 zeroed             {:016x}", c[2])
}

fn main(rt: HostRuntime) -> io::Result<()> {
    let rt = Lossy(&rt);
    let mut b = [0x11; 20];
    heights(&rt)?;
    shifts(&rt)?;
    steps(&rt)?;
    bits(&rt)?;
    wrapped(&rt)?;
    stores(&rt, &mut b)?;
    fields(&rt, &b)?;
    zeros(&rt)
}
