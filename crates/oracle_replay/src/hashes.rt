// Kinds 4, 5, 6 and 15: a height, a tree hash, a hash and a bucket.
use crate::given;
use cipher::{Aes, TreeHash};
use replay::{Account, Malformed, What, field};
use words::refusals::number_in;
use words::{Word, bytes};

// ---- kind 4

pub(crate) fn height(account: &mut Account, fields: &[u8]) -> Result<(), Malformed> {
    account.of_length(fields, 24)?;
    let height = words::height(field(fields, 0));
    account.answered(field(fields, 1), number_in(&height));
    account.value(What::Height, field(fields, 2), height.unwrap_or(0));
    Ok(())
}

// ---- kinds 5 and 6

fn hashed(account: &mut Account, wanted: Word, given: Word) {
    account.next_call();
    account.value(What::LowHalf, wanted.lo, given.lo);
    account.value(What::HighHalf, wanted.hi, given.hi);
}

pub(crate) fn tree_hash(account: &mut Account, fields: &[u8]) -> Result<(), Malformed> {
    account.of_length(fields, 32)?;
    let hash = TreeHash::new().hash(bytes::get_word(fields, 0));
    hashed(account, bytes::get_word(fields, 16), hash);
    Ok(())
}

pub(crate) fn ccr(account: &mut Account, fields: &[u8]) -> Result<(), Malformed> {
    account.of_length(fields, 48)?;
    let hash = Aes::new(given::key(fields)).hash_ccr(bytes::get_word(fields, 16));
    hashed(account, bytes::get_word(fields, 32), hash);
    Ok(())
}

// ---- kind 15

pub(crate) fn bucket(account: &mut Account, fields: &[u8]) -> Result<(), Malformed> {
    account.of_length(fields, 48)?;
    let bucket = bucket_hash::bucket(given::key(fields), field(fields, 2), field(fields, 3));
    account.answered(field(fields, 4), number_in(&bucket));
    account.value(What::Bucket, field(fields, 5), bucket.unwrap_or(0));
    Ok(())
}
