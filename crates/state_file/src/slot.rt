//! Slots of 256 bytes: a gate, a record in bytes 1 to 223, and a tag.

mod bound;
mod extend;
mod fields;
mod gate;
mod key;
mod record;
mod secret;
mod tag;

pub(crate) use gate::{CLOSED, OPEN, is_open};
pub(crate) use key::{begins_key, version_of};
pub(crate) use record::{read_record, record_bytes};
pub(crate) use tag::{FIRST_TAG, tag};
