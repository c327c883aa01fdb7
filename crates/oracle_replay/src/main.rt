// Replays the oracle's lists, of single keys and of multi keys: every call is made again, and its answers and every element of
// every lent slice are compared with what the list has. Printed are, for each list, how it was made, the first disagreement if
// there is one, and the counts of each kind and of all.
// The format is in oracle/README.md, "The replay lists".
#![tactic(auto)]

ghost use Rattle.std.specs.Prelude.{◌≤◌, length, IfOk};

use keys::{Multi, Single};
use kinds::{Entry, Kind, Tallies};
use make::Pair;
use read::Unmade;
use replay::{Account, Malformed};
use std::fs::File;
use std::io;
use std::io::{Read, Write};
use tools::Lossy;

mod given;
mod hashes;
mod keys;
mod kinds;
mod make;
mod place;
mod read;

// The bytes in front of the records: a line that says how the list was made.
const HEADER: usize = 256;

// The most bytes of a list; what stands behind them is not replayed.
const LONGEST: usize = 65_536;

// Where a replay has come to, and the last pairs that were made, of single keys and of multi keys; of a record that breaks the
// format, the readings that could not be made.
#[derive(Drop)]
struct Replay<'a> {
    account: Account,
    tallies: Tallies,
    unmade: Unmade,
    single: Option<Pair<'a>>,
    multi: Option<Pair<'a>>,
}

impl<'a> Replay<'a> {
    fn new() -> Self {
        Replay {
            account: Account::new(),
            tallies: Tallies::new(),
            unmade: Unmade::default(),
            single: None,
            multi: None,
        }
    }

    // The calls of one record.
    fn record(&mut self, kind: Kind, fields: &'a [u8]) -> Result<(), Malformed> {
        let account = &mut self.account;
        match kind {
            Kind::SingleMake => {
                self.single = make::make_pair::<Single>(account, fields)?.or(self.single);
                Ok(())
            }
            Kind::SingleCells => {
                read::cells::<Single>(account, &mut self.unmade, self.single, fields)
            }
            Kind::SingleReading => read::one::<Single>(account, fields),
            Kind::Height => hashes::height(account, fields),
            Kind::TreeHash => hashes::tree_hash(account, fields),
            Kind::Ccr => hashes::ccr(account, fields),
            Kind::MultiMake => {
                self.multi = make::make_pair::<Multi>(account, fields)?.or(self.multi);
                Ok(())
            }
            Kind::MultiCells => {
                read::cells::<Multi>(account, &mut self.unmade, self.multi, fields)
            }
            Kind::MultiReading => read::one::<Multi>(account, fields),
            Kind::Place => place::place(account, fields),
            Kind::Bucket => hashes::bucket(account, fields),
        }
    }

    // The same, and what the account gains by it is counted for the record's kind.
    fn counted(&mut self, kind: Kind, fields: &'a [u8]) -> Result<(), Malformed> {
        let before = self.account;
        self.account.next_record(kind as u64);
        let replayed = self.record(kind, fields);
        self.tallies.gained(before, self.account);
        replayed
    }

    // All records, to the last, or to the first that breaks the format.
    fn records(&mut self, list: &'a [u8]) -> Result<(), Malformed> {
        let mut at = HEADER;
        while let Some(r) = replay::record_at(list, at) {
            match Entry::from(r.kind) {
                Entry::Last => return self.account.last(list, r),
                Entry::Calls(kind) => self.counted(kind, r.fields)?,
                Entry::Unknown => {
                    self.account.next_record(r.kind);
                    return Err(self.account.malformed());
                }
            }
            at = r.end;
        }
        Err(self.account.malformed())
    }
}

// So many lines that say where the list breaks its format.
fn print_malformed(rt: &impl Print, ended: Result<(), Malformed>, lines: u64) -> io::Result<()> {
    if let Err(malformed) = ended {
        for _ in 0..lines {
            println!(rt; "{malformed}")?;
        }
    }
    Ok(())
}

// What was found, in the order in which it was: a record that breaks the format has a line for each reading that could not be made,
// or one line.
fn replay_list(rt: &impl Print, list: &[u8]) -> io::Result<()> {
    io::writer(rt).write_all(list.get(..HEADER).unwrap_or(b""))?;
    let mut replay = Replay::new();
    let ended = replay.records(list);
    let account = replay.account;
    let (before, behind) = replay.unmade.lines();
    print_malformed(rt, ended, before)?;
    if let Some(disagreement) = account.first {
        println!(rt; "{disagreement}")?;
    }
    print_malformed(rt, ended, behind)?;
    replay.tallies.print(rt)?;
    if ended.is_ok() {
        let total = account.total;
        println!(rt; "{total}")?;
    }
    Ok(())
}

// Reads the file until it ends or `space` is full; the answer is how many bytes now stand at the start of `space`.
fn read_full(file: &mut File, space: &mut [u8]) -> io::Result<usize>
    ensures { IfOk result (λ n. n ≤ length space.new) }
{
    let mut done = 0;
    // Each turn but the last brings a byte or more.
    for _ in 0..space.len() {
        let got = file.read(&mut space[done..])?;
        done += got;
        if got == 0 || done == space.len() {
            break;
        }
    }
    Ok(done)
}

fn replay_file(rt: &HostRuntime, path: &str) -> io::Result<()> {
    let mut file = File::open(rt, path)?;
    let mut space = [0; LONGEST];
    let n = read_full(&mut file, &mut space)?;
    replay_list(&Lossy(rt), &space[..n])
}

// A list that cannot be read does not keep the other from being replayed; the first failure is answered.
fn main(rt: HostRuntime) -> io::Result<()> {
    let single = replay_file(&rt, "single_replay.list");
    let multi = replay_file(&rt, "multi_replay.list");
    single.and(multi)
}
