// Kinds 1 and 11: a pair is made, of single keys or of multi keys.
ghost use Rattle.std.specs.Prelude.{◌+◌, ◌≤◌, IfSome};
ghost use Rattle.oracle_replay.specs.declared.make.TheConstants.{POINTS, VALUES, WORDS, SCRATCH, KEY};

use crate::keys::Keys;
use multi::calls::Made;
use replay::{Account, BYTE, Malformed, What};
use words::refusals::number_in;

// The most that a record may lend: points, values, random words, elements of scratch, bytes of a key.
pub(crate) const POINTS: usize = 16;

pub(crate) const VALUES: usize = 16;

pub(crate) const WORDS: usize = 64;

pub(crate) const SCRATCH: usize = 64;

pub(crate) const KEY: usize = 1408;

// How much of each a record lends to the maker.
#[derive(Clone, Copy)]
pub(crate) struct Lent {
    pub(crate) points: usize,
    pub(crate) values: usize,
    pub(crate) words: usize,
    pub(crate) scratch: usize,
    pub(crate) key0: usize,
    pub(crate) key1: usize,
    ghost within: { (points ≤ POINTS) × (values ≤ VALUES) × (words ≤ WORDS) × (scratch ≤ SCRATCH) × (key0 ≤ KEY) × (key1 ≤ KEY) },
}

// What the maker is lent.
#[derive(Drop)]
pub(crate) struct Slices<'a> {
    pub(crate) points: &'a [u64],
    pub(crate) values: &'a [u64],
    pub(crate) words: &'a [u64],
    pub(crate) scratch: &'a mut [u64],
    pub(crate) key0: &'a mut [u8],
    pub(crate) key1: &'a mut [u8],
}

// A number of a record as a length; none where it is above the limit.
pub(crate) fn at_most(limit: usize, n: u64) -> Option<usize>
    ensures { IfSome result (λ m. m ≤ limit) }
{
    if n <= limit as u64 {
        Some(n as usize)
    } else {
        None
    }
}

// What the maker answers on refusal.
// Kept: the new form is no plainer (its three values are compared on refusal too, as zeros: an Option would be opened three times).
const NOTHING: Made = Made {
    length: 0,
    words: 0,
    evictions: 0,
};

// What a record wants of the maker: the number, the values that it answers, and how many elements of scratch are zero afterwards.
// Kept: what may not change (the format of the lists: a record has a number and three values, zeros on refusal, each compared).
#[derive(Clone, Copy)]
pub(crate) struct Wanted {
    pub(crate) number: u64,
    pub(crate) made: Made,
    pub(crate) zeroed: u64,
}

impl Wanted {
    // The bytes of an image in the record; none on refusal.
    fn image_bytes(self) -> usize
        ensures { result ≤ KEY }
    {
        if self.number == 0 {
            at_most(KEY, self.made.length).unwrap_or(0)
        } else {
            0
        }
    }
}

// The images of party 0 and of party 1.
#[derive(Clone, Copy)]
pub(crate) struct Pair<'a> {
    pub(crate) key0: &'a [u8],
    pub(crate) key1: &'a [u8],
}

// The points, the values and the random words among the fields, and the images behind them.
#[derive(Clone, Copy)]
struct Given<'a> {
    points: &'a [u8],
    values: &'a [u8],
    words: &'a [u8],
    pair: Pair<'a>,
}

impl<'a> Given<'a> {
    // What stands behind the head of a record; none where the record is shorter or longer.
    fn behind(fields: &'a [u8], head: usize, lent: Lent, image: usize) -> Option<Self>
        requires { image ≤ KEY }
    {
        let rest = fields.get(head..)?;
        if rest.len() != 8 * (lent.points + lent.values + lent.words) + 2 * image {
            return None;
        }
        let (points, rest) = rest.split_at(8 * lent.points);
        let (values, rest) = rest.split_at(8 * lent.values);
        let (words, images) = rest.split_at(8 * lent.words);
        let (key0, key1) = images.split_at(image);
        Some(Given {
            points,
            values,
            words,
            pair: Pair { key0, key1 },
        })
    }
}

// The pair that the record has, where it wants one to be made.
pub(crate) fn make_pair<'a, K: Keys>(
    account: &mut Account,
    fields: &'a [u8],
) -> Result<Option<Pair<'a>>, Malformed> {
    let wanted = K::wanted(fields);
    let lent = K::lent(fields).ok_or(account.malformed())?;
    let given = Given::behind(fields, K::HEAD, lent, wanted.image_bytes());
    let given = given.ok_or(account.malformed())?;
    let pair = given.pair;
    let mut points = [0; POINTS];
    let mut values = [0; VALUES];
    let mut words = [0; WORDS];
    replay::fill(&mut points, given.points);
    replay::fill(&mut values, given.values);
    replay::fill(&mut words, given.words);
    let mut scratch = [replay::SCRATCH; SCRATCH];
    let mut key0 = [BYTE; KEY];
    let mut key1 = [BYTE; KEY];
    let slices = Slices {
        points: &points[..lent.points],
        values: &values[..lent.values],
        words: &words[..lent.words],
        scratch: &mut scratch[..lent.scratch],
        key0: &mut key0[..lent.key0],
        key1: &mut key1[..lent.key1],
    };
    let answer = K::generate(fields, slices);
    let made = answer.unwrap_or(NOTHING);
    account.answered(wanted.number, number_in(&answer));
    account.value(What::ImageLength, wanted.made.length, made.length);
    account.value(What::WordsUsed, wanted.made.words, made.words);
    account.value(What::Evictions, wanted.made.evictions, made.evictions);
    account.zeroed(wanted.zeroed as usize, &scratch);
    account.bytes(What::Key0, pair.key0, &key0);
    account.bytes(What::Key1, pair.key1, &key1);
    Ok((wanted.number == 0).then_some(pair))
}
