// Lists of the oracle's answers, for the programs that replay one: records are found, fields read, answers compared and counted.
// The format of a list is in oracle/README.md, "The replay lists". Every function is total on any bytes.
// What is read and compared is in specs/Lists.antt. Nothing is printed here: what a replay has to say is a value with a `Display`.
#![tactic(auto)]

ghost use Rattle.std.specs.Prelude.{◌≡◌, ◌↔◌, [], None, Some, ℕ, ◌+◌, ◌/◌, ◌≤◌, ◌<◌, length, get_or, slice_range, IsSome, IfSome, IfErr};
ghost use Rattle.words.specs.Cells.{tab};
ghost use Rattle.replay.specs.Lists as spec;

use std::fmt;
use words::{bytes, sums};

// What every byte of a key buffer is before a call, every element of an output or a table, and every element of scratch. Scratch
// differs from the others, so that what is copied out of it shows.
pub const BYTE: u8 = 0xa5;

pub const CELL: u64 = 0xa5a5_a5a5_a5a5_a5a5;

pub const SCRATCH: u64 = 0x5a5a_5a5a_5a5a_5a5a;

// ---- finding and reading

// Field i; 0 where there is none.
#[tactic(auto, unfolding(crate::specs::Lists::field))]
pub fn field(fields: &[u8], i: usize) -> u64
    ensures { result ≡ spec.field fields.now i }
{
    if i < fields.len() / 8 {
        return bytes::get_u64(fields, 8 * i);
    }
    0
}

// The fields, as many as there are elements.
pub fn fill(cells: &mut [u64], fields: &[u8])
    ensures { cells.new ≡ tab (spec.field fields.now) (length cells.old) }
{
    for (i, cell) in cells.iter_mut().enumerate() {
        *cell = field(fields, i);
    }
}

// A record: the number of its kind, its fields, and where it ends.
// Kept: what may not change (kinds are numbers in the format of a list, and a disagreement prints one that is not known too).
#[derive(Clone, Copy, Debug)]
pub struct Record<'a> {
    pub kind: u64,
    pub fields: &'a [u8],
    pub end: usize,
}

// The record from `at` on, all of it within the list; none where the list ends before.
pub fn record_at(list: &[u8], at: usize) -> Option<Record<'_>>
    ensures whole { IsSome result ↔ (spec.record_end list.now at ≤ length list.now) }
    ensures kind { IfSome result (λ r. r.kind ≡ spec.kind_at list.now at) }
    ensures end { IfSome result (λ r. r.end ≡ spec.record_end list.now at) }
    ensures fields { IfSome result (λ r. r.fields.now ≡ slice_range list.now (at + 16) r.end) }
{
    if list.len() < 16 || list.len() - 16 < at {
        return None;
    }
    let start = at + 16;
    let count = bytes::get_u64(list, at + 8);
    if (((list.len() - start) / 8) as u64) < count {
        return None;
    }
    let end = start + 8 * count as usize;
    Some(Record {
        kind: bytes::get_u64(list, at),
        fields: &list[start..end],
        end,
    })
}

// ---- what is wanted

// Element i of a lent slice: base plus a field among the first n, or as it was.
#[tactic(auto, unfolding(crate::specs::Lists::wanted_cell, words::specs::Ring::add))]
fn wanted_cell(fields: &[u8], n: usize, base: u64, kept: u64, i: usize) -> u64
    ensures { result ≡ spec.wanted_cell fields.now n base kept i }
{
    if i < n {
        base.wrapping_add(field(fields, i))
    } else {
        kept
    }
}

// What is compared.
#[derive(Clone, Copy, Debug, PartialEq, Eq)]
pub enum What {
    Number,
    Scratch,
    Height,
    LowHalf,
    HighHalf,
    Bucket,
    ImageLength,
    WordsUsed,
    Evictions,
    Key0,
    Key1,
    Share,
    Table,
    Output,
    PlaceNumber,
    PlaceStart,
    PlaceLength,
    RecordLength,
    Record,
}

// By number, as it was told before it had a name; above the 17th all stand for a record.
impl From<u64> for What {
    fn from(number: u64) -> What {
        match number {
            0 => What::Number,
            1 => What::Scratch,
            2 => What::Height,
            3 => What::LowHalf,
            4 => What::HighHalf,
            5 => What::Bucket,
            6 => What::ImageLength,
            7 => What::WordsUsed,
            8 => What::Evictions,
            9 => What::Key0,
            10 => What::Key1,
            11 => What::Share,
            12 => What::Table,
            13 => What::Output,
            14 => What::PlaceNumber,
            15 => What::PlaceStart,
            16 => What::PlaceLength,
            17 => What::RecordLength,
            _ => What::Record,
        }
    }
}

impl fmt::Display for What {
    fn fmt<W: fmt::Write>(&self, f: &mut fmt::Formatter<W>) -> fmt::Result {
        f.write_str(match self {
            What::Number => "number",
            What::Scratch => "scratch",
            What::Height => "height",
            What::LowHalf => "low half",
            What::HighHalf => "high half",
            What::Bucket => "bucket",
            What::ImageLength => "image length",
            What::WordsUsed => "words used",
            What::Evictions => "evictions",
            What::Key0 => "key 0",
            What::Key1 => "key 1",
            What::Share => "share",
            What::Table => "table",
            What::Output => "output",
            What::PlaceNumber => "number of the place",
            What::PlaceStart => "where the part begins",
            What::PlaceLength => "length of the part",
            What::RecordLength => "length of the record",
            What::Record => "record",
        })
    }
}

// ---- what a replay has to say

// A record, by how many have been replayed with it, and the number of its kind.
#[derive(Clone, Copy, Debug)]
pub struct Place {
    pub number: u64,
    pub kind: u64,
}

impl fmt::Display for Place {
    fn fmt<W: fmt::Write>(&self, f: &mut fmt::Formatter<W>) -> fmt::Result {
        let Place { number, kind } = self;
        write!(f, "record {number}, kind {kind}")
    }
}

// The list breaks its format in that record.
#[derive(Clone, Copy, Debug)]
pub struct Malformed {
    pub place: Place,
}

impl fmt::Display for Malformed {
    fn fmt<W: fmt::Write>(&self, f: &mut fmt::Formatter<W>) -> fmt::Result {
        let place = self.place;
        write!(f, "{place}: malformed")
    }
}

// An answer, or an element that it left, is not what is wanted.
#[derive(Clone, Copy, Debug)]
pub struct Disagreement {
    pub place: Place,
    pub call: u64,
    pub what: What,
    pub at: u64,
    pub wanted: u64,
    pub given: u64,
}

impl fmt::Display for Disagreement {
    fn fmt<W: fmt::Write>(&self, f: &mut fmt::Formatter<W>) -> fmt::Result {
        let Disagreement {
            place,
            call,
            what,
            at,
            wanted,
            given,
        } = self;
        write!(
            f,
            "{place}, call {call}: {what}, element {at}: wanted {wanted}, given {given}"
        )
    }
}

// How many records were replayed, of all kinds or of one, how many calls they made, and how many of these disagree.
#[derive(Clone, Copy, Debug, Default)]
pub struct Tally {
    pub records: u64,
    pub calls: u64,
    pub disagree: u64,
}

impl fmt::Display for Tally {
    fn fmt<W: fmt::Write>(&self, f: &mut fmt::Formatter<W>) -> fmt::Result {
        let Tally {
            records,
            calls,
            disagree,
        } = self;
        write!(f, "{records} records, {calls} calls, {disagree} disagree")
    }
}

impl Tally {
    // With what the account has gained by the record at hand, where that is of this kind.
    #[tactic(auto, unfolding(crate::specs::Lists::tallied, words::specs::Ring::add))]
    pub fn gained(self, kind: u64, before: Account, after: Account) -> Tally
        ensures { result ≡ spec.tallied self kind (spec.told before) (spec.told after) }
    {
        if after.kind != kind {
            return self;
        }
        let gain = |before, after| sums::minus(after, before);
        let records = gain(before.total.records, after.total.records);
        let calls = gain(before.total.calls, after.total.calls);
        let disagree = gain(before.total.disagree, after.total.disagree);
        Tally {
            records: self.records.wrapping_add(records),
            calls: self.calls.wrapping_add(calls),
            disagree: self.disagree.wrapping_add(disagree),
        }
    }
}

// ---- the account

// What a replay has come to: the records and calls so far and the calls that disagree, the kind of the record at hand, whether
// the call at hand agrees so far, and the first disagreement.
#[derive(Clone, Copy, Debug)]
pub struct Account {
    pub total: Tally,
    pub kind: u64,
    pub agrees: bool,
    pub first: Option<Disagreement>,
}

impl Account {
    pub fn new() -> Account
        ensures account { spec.told result ≡ spec.nothing }
        ensures total { result.total ≡ spec.untallied }
        ensures first { result.first ≡ None }
    {
        Account {
            total: Tally::default(),
            kind: 0,
            agrees: true,
            first: None,
        }
    }

    // A record of this kind is next.
    #[tactic(auto, unfolding(words::specs::Ring::add))]
    pub fn next_record(&mut self, kind: u64)
        ensures account { spec.told self.new ≡ spec.recorded (spec.told self.old) kind }
        ensures first { self.new.first ≡ self.old.first }
    {
        self.total.records = self.total.records.wrapping_add(1);
        self.kind = kind;
    }

    // A call is next.
    #[tactic(auto, unfolding(words::specs::Ring::add))]
    pub fn next_call(&mut self)
        ensures account { spec.told self.new ≡ spec.called (spec.told self.old) }
        ensures first { self.new.first ≡ self.old.first }
    {
        self.total.calls = self.total.calls.wrapping_add(1);
        self.agrees = true;
    }

    // The record at hand.
    fn place(&self) -> Place
        ensures { result ≡ spec.place_of self.now }
    {
        Place {
            number: self.total.records,
            kind: self.kind,
        }
    }

    // The list breaks its format in the record at hand.
    pub fn malformed(&self) -> Malformed
        ensures { result.place ≡ spec.place_of self.now }
    {
        Malformed {
            place: self.place(),
        }
    }

    // Nothing where the record at hand has so many bytes of fields.
    pub fn of_length(&self, fields: &[u8], n: usize) -> Result<(), Malformed>
        ensures account { spec.ended (spec.told self.now) result ≡ spec.sized (spec.told self.now) fields.now n }
        ensures place { IfErr result (λ m. m.place ≡ spec.place_of self.now) }
    {
        if fields.len() != n {
            return Err(self.malformed());
        }
        Ok(())
    }

    // The last record, which says how many stand before it; nothing stands behind it.
    pub fn last(&self, list: &[u8], r: Record<'_>) -> Result<(), Malformed>
        ensures account { spec.ended (spec.told self.now) result
            ≡ spec.last_read (spec.told self.now) (length list.now) r.entry.fields.now r.entry.end }
        ensures place { IfErr result (λ m. m.place ≡ spec.place_of self.now) }
    {
        if r.fields.len() != 8 || r.end != list.len() || field(r.fields, 0) != self.total.records {
            return Err(self.malformed());
        }
        Ok(())
    }

    // The call at hand disagrees.
    #[tactic(auto, unfolding(crate::specs::Lists::differing, words::specs::Ring::add))]
    fn differs(&mut self, what: What, at: u64, wanted: u64, given: u64)
        ensures account { spec.told self.new ≡ spec.differing (spec.told self.old) }
        ensures first { self.new.first ≡ spec.first_differing self.old what at wanted given }
    {
        if self.agrees {
            self.agrees = false;
            self.total.disagree = self.total.disagree.wrapping_add(1);
            self.first = self.first.or(Some(Disagreement {
                place: self.place(),
                call: self.total.calls,
                what,
                at,
                wanted,
                given,
            }));
        }
    }

    // A value of the call at hand.
    #[tactic(auto, unfolding(crate::specs::Lists::valued))]
    pub fn value(&mut self, what: What, wanted: u64, given: u64)
        ensures account { spec.told self.new ≡ spec.valued (spec.told self.old) wanted given }
        ensures first { self.new.first ≡ spec.first_valued self.old what wanted given }
    {
        if wanted != given {
            self.differs(what, 0, wanted, given);
        }
    }

    // A call is next; this is the number that it answers.
    pub fn answered(&mut self, wanted: u64, given: u64)
        ensures { spec.told self.new ≡ spec.valued (spec.called (spec.told self.old)) wanted given }
    {
        self.next_call();
        self.value(What::Number, wanted, given);
    }

    // A slice of that size after the call at hand, of which the first n elements are wanted: element i is what is given there, and
    // to be what is wanted there.
    fn slice<W: Fn(usize) -> u64, G: Fn(usize) -> u64>(
        &mut self,
        what: What,
        n: usize,
        size: usize,
        wanted: W,
        given: G,
    )
        requires wanted { W.IsAlwaysCallable wanted }
        requires given { G.IsAlwaysCallable given }
        ensures { spec.ComparedBy (spec.told self.old) (spec.told self.new) n size (W.post wanted) (G.post given) }
    {
        for i in 0..size {
            let w = wanted(i);
            let g = given(i);
            if w != g {
                self.differs(what, i as u64, w, g);
                return;
            }
        }
        if size < n {
            self.differs(what, size as u64, n as u64, size as u64);
        }
    }

    // A slice of bytes after the call at hand: those that are wanted, and behind them as it was.
    pub fn bytes(&mut self, what: What, wanted: &[u8], given: &[u8])
        ensures { spec.Compared (spec.told self.old) (spec.told self.new) (length wanted.now) given.now (λ k. get_or wanted.now k 0xa5) }
    {
        self.slice(
            what,
            wanted.len(),
            given.len(),
            |i| u64::from(wanted.get(i).copied().unwrap_or(BYTE)),
            |i| u64::from(given.get(i).copied().unwrap_or(0)),
        );
    }

    // A slice of elements after the call at hand: base plus the first n fields, 0 where there are none, and behind them as it was.
    fn elements(&mut self, what: What, fields: &[u8], n: usize, base: u64, kept: u64, given: &[u64])
        ensures { spec.Compared (spec.told self.old) (spec.told self.new) n given.now (spec.wanted_cell fields.now n base kept) }
    {
        self.slice(
            what,
            n,
            given.len(),
            |i| wanted_cell(fields, n, base, kept, i),
            |i| given.get(i).copied().unwrap_or(0),
        );
    }

    // An output or a table after the call at hand: base plus the first n fields, and behind them as it was.
    // Kept: n beside the fields, here and below; what may not change (`cells` and `scratch` promise it for any n).
    pub fn cells(&mut self, what: What, fields: &[u8], n: usize, base: u64, given: &[u64])
        ensures { spec.Compared (spec.told self.old) (spec.told self.new) n given.now (spec.wanted_cell fields.now n base 0xa5a5a5a5a5a5a5a5) }
    {
        self.elements(what, fields, n, base, CELL, given);
    }

    // Scratch after the call at hand: the first n fields, 0 where there are none, and behind them as it was.
    pub fn scratch(&mut self, fields: &[u8], n: usize, given: &[u64])
        ensures { spec.Compared (spec.told self.old) (spec.told self.new) n given.now (spec.wanted_cell fields.now n 0 0x5a5a5a5a5a5a5a5a) }
    {
        self.elements(What::Scratch, fields, n, 0, SCRATCH, given);
    }

    // Scratch after the call at hand: the first n elements are zero, and behind them as it was.
    pub fn zeroed(&mut self, n: usize, given: &[u64])
        ensures { spec.Compared (spec.told self.old) (spec.told self.new) n given.now (spec.wanted_cell [] n 0 0x5a5a5a5a5a5a5a5a) }
    {
        self.elements(What::Scratch, b"", n, 0, SCRATCH, given);
    }
}
