// Hash keys among the fields.
use words::bytes;

// One hash key: the first 16 bytes; those that are not there count as 0.
pub(crate) fn key(fields: &[u8]) -> [u8; 16] {
    bytes::get_word(fields, 0).to_bytes()
}

// Three hash keys: the 48 bytes from `at` on; zeros where they are not all there.
pub(crate) fn keys(fields: &[u8], at: usize) -> [u8; 48] {
    let rest = fields.get(at..).unwrap_or(b"");
    rest.first_chunk().copied().unwrap_or([0; 48])
}
