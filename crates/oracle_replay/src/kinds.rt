// The kinds of records, and the counts of each.
use replay::{Account, Tally};
use std::{fmt, io};

// What a record is of, by the number that a list has for it.
#[derive(Clone, Copy, Debug, PartialEq, Eq)]
pub(crate) enum Kind {
    SingleMake = 1,
    SingleCells = 2,
    SingleReading = 3,
    Height = 4,
    TreeHash = 5,
    Ccr = 6,
    MultiMake = 11,
    MultiCells = 12,
    MultiReading = 13,
    Place = 14,
    Bucket = 15,
}

// What the number of a record says of it.
#[derive(Clone, Copy, Debug)]
pub(crate) enum Entry {
    // It is the last one.
    Last,
    // It has calls of a kind.
    Calls(Kind),
    // Nothing: no kind has this number.
    Unknown,
}

impl From<u64> for Entry {
    fn from(number: u64) -> Self {
        match number {
            0 => Entry::Last,
            1 => Entry::Calls(Kind::SingleMake),
            2 => Entry::Calls(Kind::SingleCells),
            3 => Entry::Calls(Kind::SingleReading),
            4 => Entry::Calls(Kind::Height),
            5 => Entry::Calls(Kind::TreeHash),
            6 => Entry::Calls(Kind::Ccr),
            11 => Entry::Calls(Kind::MultiMake),
            12 => Entry::Calls(Kind::MultiCells),
            13 => Entry::Calls(Kind::MultiReading),
            14 => Entry::Calls(Kind::Place),
            15 => Entry::Calls(Kind::Bucket),
            _ => Entry::Unknown,
        }
    }
}

impl fmt::Display for Kind {
    fn fmt<W: fmt::Write>(&self, f: &mut fmt::Formatter<W>) -> fmt::Result {
        f.write_str(match self {
            Kind::SingleMake | Kind::MultiMake => "make",
            Kind::SingleCells | Kind::MultiCells => "cells of a pair",
            Kind::SingleReading | Kind::MultiReading => "one reading",
            Kind::Height => "height",
            Kind::TreeHash => "tree hash",
            Kind::Ccr => "hash_ccr",
            Kind::Place => "place",
            Kind::Bucket => "bucket",
        })
    }
}

// The counts of each kind, in the order in which they are printed.
#[derive(Drop)]
pub(crate) struct Tallies {
    of_kinds: [(Kind, Tally); 11],
}

impl Tallies {
    pub(crate) fn new() -> Self {
        let none = Tally::default();
        Tallies {
            of_kinds: [
                (Kind::Height, none),
                (Kind::TreeHash, none),
                (Kind::SingleMake, none),
                (Kind::SingleCells, none),
                (Kind::SingleReading, none),
                (Kind::Ccr, none),
                (Kind::Bucket, none),
                (Kind::Place, none),
                (Kind::MultiMake, none),
                (Kind::MultiCells, none),
                (Kind::MultiReading, none),
            ],
        }
    }

    // With what the account has gained by the record at hand.
    pub(crate) fn gained(&mut self, before: Account, after: Account) {
        for (kind, tally) in self.of_kinds.iter_mut() {
            *tally = tally.gained(*kind as u64, before, after);
        }
    }

    // A line for each kind of which there are records.
    pub(crate) fn print(&self, rt: &impl Print) -> io::Result<()> {
        for (kind, tally) in &self.of_kinds {
            if tally.records != 0 {
                let number = *kind as u64;
                println!(rt; "kind {number}, {kind}: {tally}")?;
            }
        }
        Ok(())
    }
}
