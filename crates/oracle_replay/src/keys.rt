// Single keys and multi keys: the calls of each, and where a record that makes a pair has what the maker is lent and answers.
use crate::given;
use crate::make::{KEY, Lent, POINTS, SCRATCH, Slices, VALUES, WORDS, Wanted, at_most};
use multi::calls::Made;
use multi::image::{self, RecordPlace};
use replay::{Account, Malformed, What, field};
use words::refusals::{Refusal, number_in};

// What asking where a bucket's record is answers on refusal.
// Kept: the new form is no plainer (the start and the length are compared on refusal too, as zeros: an Option would be opened twice).
const NOWHERE: RecordPlace = RecordPlace { start: 0, bytes: 0 };

pub(crate) trait Keys {
    // The bytes in front of the points, the values and the random words.
    const HEAD: usize;

    // None where a record would lend more than it may.
    fn lent(fields: &[u8]) -> Option<Lent>;

    fn wanted(fields: &[u8]) -> Wanted;

    // The maker, on the fields in front and on what it is lent.
    fn generate(fields: &[u8], slices: Slices<'_>) -> Result<Made, Refusal>;

    fn evaluate_at(key: &[u8], index: u64, scratch: &mut [u64]) -> Result<u64, Refusal>;

    fn evaluate_domain(key: &[u8], scratch: &mut [u64], out: &mut [u64]) -> Result<(), Refusal>;

    fn add_to(key: &[u8], scratch: &mut [u64], table: &mut [u64]) -> Result<(), Refusal>;

    // A bucket's record in an image.
    fn record(
        account: &mut Account,
        key: &[u8],
        bucket: u64,
        fields: &[u8],
    ) -> Result<(), Malformed>;
}

// ---- single keys: no points, values, evictions and buckets, and no scratch for making a pair and for reading one cell

pub(crate) struct Single;

impl Keys for Single {
    const HEAD: usize = 72;

    fn lent(fields: &[u8]) -> Option<Lent> {
        Some(Lent {
            points: 0,
            values: 0,
            words: at_most(WORDS, field(fields, 8))?,
            scratch: 0,
            key0: at_most(KEY, field(fields, 3))?,
            key1: at_most(KEY, field(fields, 4))?,
        })
    }

    fn wanted(fields: &[u8]) -> Wanted {
        Wanted {
            number: field(fields, 5),
            made: Made {
                length: field(fields, 6),
                words: field(fields, 7),
                evictions: 0,
            },
            zeroed: 0,
        }
    }

    fn generate(fields: &[u8], slices: Slices<'_>) -> Result<Made, Refusal> {
        let Slices {
            words,
            key0,
            key1,
            ..
        } = slices;
        let made = single::calls::generate_keys(
            field(fields, 0),
            field(fields, 1),
            field(fields, 2),
            words,
            key0,
            key1,
        )?;
        Ok(Made {
            length: made.length,
            words: made.words,
            evictions: 0,
        })
    }

    fn evaluate_at(key: &[u8], index: u64, _scratch: &mut [u64]) -> Result<u64, Refusal> {
        single::calls::evaluate_at(key, index)
    }

    fn evaluate_domain(key: &[u8], scratch: &mut [u64], out: &mut [u64]) -> Result<(), Refusal> {
        single::calls::evaluate_domain(key, scratch, out)
    }

    fn add_to(key: &[u8], scratch: &mut [u64], table: &mut [u64]) -> Result<(), Refusal> {
        single::calls::add_to(key, scratch, table)
    }

    fn record(
        account: &mut Account,
        _key: &[u8],
        _bucket: u64,
        _fields: &[u8],
    ) -> Result<(), Malformed> {
        Err(account.malformed())
    }
}

// ---- multi keys

pub(crate) struct Multi;

impl Keys for Multi {
    const HEAD: usize = 152;

    fn lent(fields: &[u8]) -> Option<Lent> {
        Some(Lent {
            points: at_most(POINTS, field(fields, 2))?,
            values: at_most(VALUES, field(fields, 3))?,
            words: at_most(WORDS, field(fields, 4))?,
            scratch: at_most(SCRATCH, field(fields, 5))?,
            key0: at_most(KEY, field(fields, 7))?,
            key1: at_most(KEY, field(fields, 8))?,
        })
    }

    fn wanted(fields: &[u8]) -> Wanted {
        Wanted {
            number: field(fields, 9),
            made: Made {
                length: field(fields, 10),
                words: field(fields, 11),
                evictions: field(fields, 12),
            },
            zeroed: field(fields, 6),
        }
    }

    fn generate(fields: &[u8], slices: Slices<'_>) -> Result<Made, Refusal> {
        let Slices {
            points,
            values,
            words,
            scratch,
            key0,
            key1,
        } = slices;
        multi::calls::generate_keys(
            field(fields, 0),
            field(fields, 1),
            given::keys(fields, 104),
            points,
            values,
            words,
            scratch,
            key0,
            key1,
        )
    }

    fn evaluate_at(key: &[u8], index: u64, scratch: &mut [u64]) -> Result<u64, Refusal> {
        multi::calls::evaluate_at(key, index, scratch)
    }

    fn evaluate_domain(key: &[u8], scratch: &mut [u64], out: &mut [u64]) -> Result<(), Refusal> {
        multi::calls::evaluate_domain(key, scratch, out)
    }

    fn add_to(key: &[u8], scratch: &mut [u64], table: &mut [u64]) -> Result<(), Refusal> {
        multi::calls::add_to(key, scratch, table)
    }

    // Its number, where it begins and how long it is, and the bytes themselves.
    fn record(
        account: &mut Account,
        key: &[u8],
        bucket: u64,
        fields: &[u8],
    ) -> Result<(), Malformed> {
        let start = field(fields, 5);
        let length = field(fields, 6);
        let record = image::record(key, bucket);
        let answer = image::record_number(key, bucket);
        let place = image::record_place(key, bucket);
        account.answered(field(fields, 4), number_in(&answer));
        account.value(What::PlaceNumber, field(fields, 4), number_in(&place));
        let place = place.unwrap_or(NOWHERE);
        account.value(What::PlaceStart, start, place.start);
        account.value(What::PlaceLength, length, place.bytes);
        account.value(What::RecordLength, length, record.len() as u64);
        let wanted = tools::part(key, start as usize, length as usize);
        account.bytes(What::Record, wanted, record);
        Ok(())
    }
}
