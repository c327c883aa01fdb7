// A key that stands in an accepted record.
ghost use Rattle.single.specs.Keys.{Sound};

use crate::SingleKey;

// Its size is within the limits, and its count of words is the one that belongs to its size, so that all of them have a place.
#[derive(Clone, Copy)]
pub(crate) struct Held {
    pub key: SingleKey,
    ghost sound: { Sound key },
}
