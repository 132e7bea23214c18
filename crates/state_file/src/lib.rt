//! Records of a key, the slots of a state file that hold them, and stores that keep them.
//!
//! After every call, and after a crash at any moment in it, a store has the old records, or the old and the new one. A
//! migration moves records to a file of version 2. No crash leaves both files able to sign.
//!
//! The models:
//!
//! - `specs/Store.antt`: what each call does to a store's list of records.
//! - `specs/Slot.antt`: the bytes of a record.
//! - `specs/File.antt`: a disk's content as a file of records.
//! - `specs/Disk.antt`: what a crash may leave of a disk.
//! - `specs/Migration.antt`: what each step of a migration does.
//!
//! ```rust
//! use state_file::{FileStore, MemoryDisk, Store};
//!
//! // a place of no bytes is prepared, and the record of a key is appended
//! let disk = MemoryDisk::of(rt.alloc(), &[])?;
//! let mut store = FileStore::format(disk).map_err(|refused| refused.fault)?;
//! store.append(&key)?;
//! // a crash from here on leaves the record
//! let mut store = FileStore::open(store.into_disk()).map_err(|refused| refused.fault)?;
//! assert!(rt; store.load(0) == Ok(Some(key)));
//! ```
#![tactic(auto)]

mod disk;
mod file;
mod laws;
mod migration;
mod record;
mod refused;
mod slot;
mod store;

pub use crate::disk::{Disk, DiskFault, MemoryDisk, Pick};
pub use crate::file::{FormatFault, OpenFault, Taker};
pub use crate::laws::{content_laws, legal_laws, migration_laws, slot_laws, store_laws};
pub use crate::migration::{MigrateFault, Place, Sealed, fill, seal};
pub use crate::record::{Bound, Extend, Key, Record, RecordList, Secret, Version};
pub use crate::refused::Refused;
pub use crate::store::{Cut, FileStore, MemoryStore, SlotList, Store, StoreFault};
