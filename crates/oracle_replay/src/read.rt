// Kinds 2, 3, 12 and 13: an image is read, of a single key or of a multi key.
use crate::keys::Keys;
use crate::make::{Pair, at_most};
use replay::{Account, CELL, Malformed, What, field};
use words::refusals::{Refusal, number_in};

// The most elements of scratch, of one cell's scratch, and of an output or a table that a record may lend.
const SCRATCH: usize = 320;

const CELL_SCRATCH: usize = 32;

const OUT: usize = 128;

// The bytes in front of the shares, or of the image.
const HEAD: usize = 72;

// The most bytes of an image.
const IMAGE: usize = 4096;

// How an image is read, by the number that a record has for it: one cell, all cells to an output or to a table, a bucket's record.
#[derive(Clone, Copy, Debug, PartialEq, Eq)]
enum How {
    OneCell = 1,
    Output = 2,
    Table = 4,
    Record = 8,
}

// A number that stands for no way to read an image.
#[derive(Clone, Copy, Debug, PartialEq, Eq)]
struct UnknownHow;

impl TryFrom<u64> for How {
    type Error = UnknownHow;

    fn try_from(number: u64) -> Result<Self, UnknownHow> {
        match number {
            1 => Ok(How::OneCell),
            2 => Ok(How::Output),
            4 => Ok(How::Table),
            8 => Ok(How::Record),
            _ => Err(UnknownHow),
        }
    }
}

impl How {
    // Whether a sum of such numbers has this one.
    // Kept: what may not change (the format of the lists: a record has the sum, of at most three ways, in one field).
    fn is_in(self, sum: u64) -> bool {
        sum & self as u64 != 0
    }
}

// A reading of an image: how much scratch and output or table is lent, and what is wanted: the number, the shares of all cells, and
// how many elements of scratch are zero afterwards.
#[derive(Clone, Copy)]
struct Reading<'a> {
    key: &'a [u8],
    scratch: u64,
    out: u64,
    number: u64,
    shares: &'a [u8],
    zeroed: u64,
}

impl Reading<'_> {
    // Of one cell.
    fn cell<K: Keys>(
        self,
        account: &mut Account,
        index: u64,
        wanted: u64,
    ) -> Result<(), Malformed> {
        let lent = at_most(CELL_SCRATCH, self.scratch).ok_or(account.malformed())?;
        let mut scratch = [replay::SCRATCH; CELL_SCRATCH];
        let share = K::evaluate_at(self.key, index, &mut scratch[..lent]);
        account.answered(self.number, number_in(&share));
        account.value(What::Share, wanted, share.unwrap_or(0));
        account.zeroed(self.zeroed as usize, &scratch);
        Ok(())
    }

    // Of all cells, to an output: each cell is its share afterwards.
    fn output<K: Keys>(self, account: &mut Account) -> Result<(), Malformed> {
        self.all(
            account,
            What::Output,
            0,
            |key: &[u8], scratch: &mut [u64], out: &mut [u64]| {
                K::evaluate_domain(key, scratch, out)
            },
        )
    }

    // Of all cells, added to a table: each cell is what it was plus its share afterwards.
    fn table<K: Keys>(self, account: &mut Account) -> Result<(), Malformed> {
        self.all(
            account,
            What::Table,
            CELL,
            |key: &[u8], scratch: &mut [u64], table: &mut [u64]| { K::add_to(key, scratch, table) },
        )
    }

    // Of all cells, by that call: each cell is `base` plus its share afterwards.
    fn all<F: Fn(&[u8], &mut [u64], &mut [u64]) -> Result<(), Refusal>>(
        self,
        account: &mut Account,
        what: What,
        base: u64,
        call: F,
    ) -> Result<(), Malformed>
        requires { F.IsAlwaysCallable call }
    {
        let lent = at_most(SCRATCH, self.scratch).ok_or(account.malformed())?;
        let room = at_most(OUT, self.out).ok_or(account.malformed())?;
        let mut scratch = [replay::SCRATCH; SCRATCH];
        let mut out = [CELL; OUT];
        let answer = call(self.key, &mut scratch[..lent], &mut out[..room]);
        account.answered(self.number, number_in(&answer));
        account.zeroed(self.zeroed as usize, &scratch);
        account.cells(what, self.shares, self.shares.len() / 8, base, &out);
        Ok(())
    }
}

// How many readings of a record could not be made, before the first disagreement and behind it.
#[derive(Clone, Copy, Default)]
pub(crate) struct Unmade {
    before: u64,
    behind: u64,
}

impl Unmade {
    // What a reading came to, and if it could not be made, one more.
    fn noted(&mut self, read: Result<(), Malformed>, account: &Account) -> Result<(), Malformed> {
        if read.is_err() && account.first.is_none() {
            self.before = self.before.saturating_add(1);
        } else if read.is_err() {
            self.behind = self.behind.saturating_add(1);
        }
        read
    }

    // The lines before the first disagreement and behind it: one behind it where none was noted.
    pub(crate) fn lines(self) -> (u64, u64) {
        if self.before == 0 && self.behind == 0 {
            return (0, 1);
        }
        (self.before, self.behind)
    }
}

// Kinds 2 and 12: cells of an image of the last pair, each by itself, all to an output, all to a table.
pub(crate) fn cells<K: Keys>(
    account: &mut Account,
    unmade: &mut Unmade,
    pair: Option<Pair<'_>>,
    fields: &[u8],
) -> Result<(), Malformed> {
    let pair = pair.ok_or(account.malformed())?;
    let key = if field(fields, 0) == 1 {
        pair.key1
    } else {
        pair.key0
    };
    let how = field(fields, 1);
    let first = field(fields, 2);
    let count = field(fields, 3);
    let cells = at_most(OUT, count).ok_or(account.malformed())?;
    if key.is_empty() {
        return Err(account.malformed());
    }
    account.of_length(fields, HEAD + 8 * cells)?;
    let shares = &fields[HEAD..];
    let one_cell = Reading {
        key,
        scratch: field(fields, 4),
        out: 0,
        number: 0,
        shares,
        zeroed: field(fields, 5),
    };
    let to_output = Reading {
        key,
        scratch: field(fields, 6),
        out: field(fields, 8),
        number: 0,
        shares,
        zeroed: field(fields, 7),
    };
    let to_table = Reading {
        out: count,
        ..to_output
    };
    // A reading that cannot be made keeps no other from being made.
    let mut made = Ok(());
    if How::OneCell.is_in(how) {
        for i in 0..count {
            let wanted = field(shares, i as usize);
            let read = one_cell.cell::<K>(account, first.wrapping_add(i), wanted);
            made = made.and(unmade.noted(read, account));
        }
    }
    if How::Output.is_in(how) {
        let read = to_output.output::<K>(account);
        made = made.and(unmade.noted(read, account));
    }
    if How::Table.is_in(how) {
        let read = to_table.table::<K>(account);
        made = made.and(unmade.noted(read, account));
    }
    made
}

// Kinds 3 and 13: one reading of one image.
pub(crate) fn one<K: Keys>(account: &mut Account, fields: &[u8]) -> Result<(), Malformed> {
    let n = at_most(IMAGE, field(fields, 8)).ok_or(account.malformed())?;
    account.of_length(fields, HEAD + n.div_ceil(8) * 8)?;
    let key = &fields[HEAD..HEAD + n];
    let index = field(fields, 1);
    let reading = Reading {
        key,
        scratch: field(fields, 2),
        out: field(fields, 3),
        number: field(fields, 4),
        shares: b"",
        zeroed: field(fields, 7),
    };
    match How::try_from(field(fields, 0)) {
        Ok(How::OneCell) => reading.cell::<K>(account, index, field(fields, 5)),
        Ok(How::Output) => reading.output::<K>(account),
        Ok(How::Table) => reading.table::<K>(account),
        Ok(How::Record) => K::record(account, key, index, fields),
        Err(_) => Err(account.malformed()),
    }
}
