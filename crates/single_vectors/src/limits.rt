// Every limit of making, reading and adding, with the case beside it that is taken.
use crate::{Told, WORDS};
use single::calls;
use std::io;
use tools::{Held, first, lent};
use words::refusals::number_in;
use words::{bytes, sums};

// ---- making

// With so many elements of words and so many bytes in either buffer: at most 4, 592 and 592. Shows the first four bytes of either
// buffer afterwards; before they are sevens.
fn make(
    rt: &impl Print,
    name: &str,
    domain: u64,
    point: u64,
    words: usize,
    rooms: [usize; 2],
) -> io::Result<()> {
    let mut sevens0 = [7; 592];
    let mut sevens1 = [7; 592];
    let key0 = lent(&mut sevens0, rooms[0]);
    let key1 = lent(&mut sevens1, rooms[1]);
    let made = calls::generate_keys(domain, point, 5, first(&WORDS, words), key0, key1);
    let field0 = bytes::get_u32(key0, 0);
    let field1 = bytes::get_u32(key1, 0);
    println!(rt;
        "make {name}  {}; first field {field0} and {field1}",
        Told(made)
    )
}

pub(crate) fn makers(rt: &impl Print) -> io::Result<()> {
    // Refusals 1 and 4, with room for the largest image.
    for (name, domain, point) in [
        ("S 0", 0, 0),
        ("S 2^34", 0x4_0000_0000, 3),
        ("S 2^34 + 1", 0x4_0000_0001, 0),
        ("S 5, alpha 4", 5, 4),
        ("S 5, alpha 5", 5, 5),
    ] {
        make(rt, name, domain, point, 4, [592, 592])?;
    }
    // Refusals 7 and 8: an element too few; a byte too few for party 0, and for party 1.
    for (name, domain, words, rooms) in [
        ("S 5, 3 elements", 5, 3, [96, 96]),
        ("S 1, 1 element", 1, 1, [96, 96]),
        ("S 1, 2 elements", 1, 2, [96, 96]),
        ("S 5, room 95 and 96", 5, 4, [95, 96]),
        ("S 5, room 96 and 95", 5, 4, [96, 95]),
        ("S 5, room 96 and 96", 5, 4, [96, 96]),
    ] {
        make(rt, name, domain, 0, words, rooms)?;
    }
    Ok(())
}

// ---- one cell

// The sum of both shares of a cell of the largest domain.
fn largest(rt: &impl Print, index: u64) -> io::Result<()> {
    const DOMAIN: u64 = 0x4_0000_0000;
    const POINT: u64 = 0x2_1234_5678;
    let mut key0 = [0; 592];
    let mut key1 = [0; 592];
    let _ = calls::generate_keys(DOMAIN, POINT, 77, &WORDS, &mut key0, &mut key1);
    let a = calls::evaluate_at(&key0, index);
    let b = calls::evaluate_at(&key1, index);
    let sum = sums::plus(a.unwrap_or(0), b.unwrap_or(0));
    println!(rt;
        "S 2^34, alpha {POINT}, beta 77, cell {index}  number {}, sum {sum}",
        number_in(&a)
    )
}

// One cell of an image over five cells, and of the same with a byte more.
fn one_cell(rt: &impl Print, index: u64) -> io::Result<()> {
    let mut key0 = [0; 96];
    let mut key1 = [0; 97];
    let _ = calls::generate_keys(5, 2, 5, &WORDS, &mut key0, &mut key1);
    let number = number_in(&calls::evaluate_at(&key0, index));
    let longer = number_in(&calls::evaluate_at(&key1, index));
    println!(rt; "read S 5, cell {index}  number {number}; with a byte more {longer}")
}

// ---- the whole domain, and adding

// The keys of 5 at cell 2 among five cells.
fn five() -> [[u8; 96]; 2] {
    let mut key0 = [0; 96];
    let mut key1 = [0; 96];
    let _ = calls::generate_keys(5, 2, 5, &WORDS, &mut key0, &mut key1);
    [key0, key1]
}

// The whole domain of party 0's key, with so many elements of scratch, at most 11, which hold threes before, and of an
// output, at most 6, which hold nines.
fn whole_domain(rt: &impl Print, n: usize, m: usize) -> io::Result<()> {
    let mut threes = [3; 11];
    let mut nines = [9; 6];
    let scratch = lent(&mut threes, n);
    let out = lent(&mut nines, m);
    let number = number_in(&calls::evaluate_domain(&five()[0], scratch, out));
    println!(rt; "S 5, scratch {n}, room {m}  domain {number}")?;
    println!(rt; "  scratch{}", Held(scratch))?;
    println!(rt; "  output{}", Held(out))
}

// Both keys added, with the same scratch and such a table.
fn added(rt: &impl Print, n: usize, m: usize) -> io::Result<()> {
    let mut threes = [3; 11];
    let mut nines = [9; 6];
    let scratch = lent(&mut threes, n);
    let table = lent(&mut nines, m);
    let [key0, key1] = five();
    let number0 = number_in(&calls::add_to(&key0, scratch, table));
    let number1 = number_in(&calls::add_to(&key1, scratch, table));
    println!(rt; "S 5, scratch {n}, table {m}  added {number0} and {number1}")?;
    println!(rt; "  scratch{}", Held(scratch))?;
    println!(rt; "  table{}", Held(table))
}

// Refusals 9, 10, 5, 8 and 11.
pub(crate) fn readers(rt: &impl Print) -> io::Result<()> {
    for index in [0x2_1234_5678, 0x3_ffff_ffff, 0x4_0000_0000] {
        largest(rt, index)?;
    }
    for index in [4, 5] {
        one_cell(rt, index)?;
    }
    println!(rt;
        "read nothing  number {}",
        number_in(&calls::evaluate_at(&[], 0))
    )?;
    for (n, m) in [(9, 4), (10, 4), (11, 6)] {
        whole_domain(rt, n, m)?;
    }
    for (n, m) in [(9, 4), (10, 6), (9, 5), (10, 5)] {
        added(rt, n, m)?;
    }
    Ok(())
}
