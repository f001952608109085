//! Records as bytes: how each record of the log is spelled, and how it is read again.
#![tactic(auto)]

mod decoding;
mod encoding;
mod fault;
mod kind;
mod spelling;

pub use decoding::decode;
pub use encoding::{
    Framed, RECORD_HEAD, RECORD_LIMIT, encode_delete, encode_payload, encode_put, encode_remove,
};
pub use fault::FrameFault;
pub use spelling::{allowed_is_well_formed, one_spelling, spelling_len};

#[cfg(test)]
mod tests;
