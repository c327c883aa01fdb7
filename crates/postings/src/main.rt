// Runs demand 3 from end to end. A desk makes postings over 40 cells, single and multi, and each partner gets one key of each.
// The partners add them to tables of their own, each in another order, with refused calls of several kinds between. Then the
// two tables are summed, cell by cell, and held against the plain table: what was in both at first, and all that was posted.
// What is expected was computed by a separate program over another AES, written from document 01.
#![tactic(auto)]

mod desk;
mod partners;

use desk::Mail;
use std::io;
use tools::Lossy;
use words::sums;

// The cells of both tables and their sum beside the plain table, and how many agree.
fn compare(rt: &impl Print, t0: &[u64; 40], t1: &[u64; 40], plain: &[u64; 40]) -> io::Result<()> {
    for (x, ((a, b), plain)) in t0.iter().zip(t1).zip(plain).enumerate() {
        let sum = sums::plus(*a, *b);
        println!(rt; "cell {x}  {a:016x} + {b:016x} = {sum}, plain {plain}")?;
    }
    let agree = t0
        .iter()
        .zip(t1)
        .zip(plain)
        .filter(|((a, b), plain)| sums::plus(**a, **b) == **plain)
        .count();
    println!(rt; "cells {}, of which agree {agree}", plain.len())
}

fn main(rt: HostRuntime) -> io::Result<()> {
    let rt = Lossy(&rt);
    let mut t0 = [0; 40];
    let mut t1 = [6; 40];
    let mut plain = [6; 40];
    let mut mail0 = Mail::empty();
    let mut mail1 = Mail::empty();
    desk::post_all(&rt, &mut mail0, &mut mail1)?;
    partners::partner(&rt, 0, &partners::first(), &mail0, &mut t0)?;
    partners::partner(&rt, 1, &partners::second(), &mail1, &mut t1)?;
    desk::in_clear(&mut plain);
    compare(&rt, &t0, &t1, &plain)
}
