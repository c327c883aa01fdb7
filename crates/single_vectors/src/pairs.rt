// Pairs over small domains, read cell by cell, and by the whole domain with the other party's shares added.
use crate::{Told, WORDS};
use single::calls;
use std::io;
use tools::{Held, first, lent};
use words::sums;

// Cells, the point and its value: one cell, two, odd and even, a power of two and its neighbours.
const PAIRS: [(u64, u64, u64); 19] = [
    (1, 0, 5),
    (2, 0, 5),
    (2, 1, 5),
    (3, 0, 9),
    (3, 2, 9),
    (4, 3, 9),
    (5, 4, u64::MAX),
    (7, 6, 1),
    (8, 7, 2),
    (9, 8, 3),
    (15, 0, 4),
    (16, 9, 5),
    (17, 16, 6),
    (31, 30, 7),
    (32, 31, 8),
    (33, 32, 9),
    (63, 62, 10),
    (64, 0, 11),
    (65, 64, 12),
];

// Both shares of each cell, read one by one and summed.
fn read_cells(key0: &[u8], key1: &[u8], cells: &mut [u64]) {
    for (i, cell) in cells.iter_mut().enumerate() {
        let a = calls::evaluate_at(key0, i as u64).unwrap_or(0);
        let b = calls::evaluate_at(key1, i as u64).unwrap_or(0);
        *cell = sums::plus(a, b);
    }
}

// The sums of a pair by each way of reading.
fn read(
    rt: &impl Print,
    key0: &[u8],
    key1: &[u8],
    point: u64,
    cells: &mut [u64],
    scratch: &mut [u64],
) -> io::Result<()> {
    let share = calls::evaluate_at(key0, point).unwrap_or(0);
    println!(rt; "  share of alpha, party 0 {share:016x}")?;
    read_cells(key0, key1, cells);
    println!(rt; "  cell by cell{}", Held(cells))?;
    let _ = calls::evaluate_domain(key0, scratch, cells);
    let _ = calls::add_to(key1, scratch, cells);
    println!(rt; "  whole domain, then added to{}", Held(cells))?;
    println!(rt; "  scratch{}", Held(scratch))
}

// Every pair, over at most 65 cells.
pub(crate) fn all(rt: &impl Print) -> io::Result<()> {
    for (domain, point, value) in PAIRS {
        let mut key0 = [0; 160];
        let mut key1 = [0; 160];
        let made = calls::generate_keys(domain, point, value, &WORDS, &mut key0, &mut key1);
        println!(rt; "S {domain}, alpha {point}, beta {value}  {}", Told(made))?;
        let length = made.map_or(0, |made| made.length) as usize;
        let n = domain as usize;
        read(
            rt,
            first(&key0, length),
            first(&key1, length),
            point,
            lent(&mut [0; 65], n),
            lent(&mut [0; 130], n.saturating_mul(2)),
        )?;
    }
    Ok(())
}
