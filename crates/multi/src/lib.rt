// Multi keys: values at up to B points of D cells, shared between two parties as one record for each bucket that has entries.
// Rules: document 01, "Rules of buckets and placement", "Key images" and "Refusal numbers".
// Source: dpf/src/mpdpf.rs, `SmartMpDpf`.
// What a key means is in specs/Rules.antt, over any tree hash, any width and any bucket functions; what each public call gives
// is one definition of specs/Calls.antt.
#![tactic(auto)]

pub mod calls;
pub mod image;
mod image_write;
mod make;
mod read;
