//! Records in a file: how a slot is added, a place prepared, and records found.

mod format;
mod gates;
mod opening;
mod piece;
mod taker;
mod unfinished;

pub use format::FormatFault;
pub(crate) use format::format;
pub(crate) use gates::{SLOT, add_slot, read_within, sync_and_len, write_synced};
pub use opening::OpenFault;
pub(crate) use opening::{MOST, find_records, read_entry, read_tag};
pub(crate) use taker::KeepNone;
pub use taker::Taker;
pub(crate) use unfinished::{finish, prepare, write_slot};
