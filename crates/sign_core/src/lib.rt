//! The signer: keys of every scheme, a key's records in memory, signing over a store and a source of random bytes, and
//! the law that no leaf signs twice.
//!
//! ```rust
//! use sign_core::{AnyPublic, Signer, TapeSource, verify_any};
//! use state_file::MemoryStore;
//! use typecodes::{Name, Spec};
//!
//! let store = MemoryStore::with_limit(rt.alloc(), 100);
//! let spec = Spec::parse("lms:H5/W8")?;
//! let made = Signer::create(rt.alloc(), spec, store, TapeSource::new(&random));
//! let mut signer = made.map_err(|refused| refused.fault)?;
//! let name = Name::new(b"fw-1")?;
//! let mut signature = Vec::new(rt.alloc());
//! signer.sign(&name, &mut b"firmware".as_slice(), &mut signature)?;
//!
//! let public = signer.public_key();
//! assert_eq!(rt; AnyPublic::read(public.write().as_slice()), Ok(public));
//! assert_eq!(rt; verify_any(&public, &mut b"firmware".as_slice(), &signature), Ok(()));
//!
//! let opened = Signer::open(rt.alloc(), signer.into_store(), TapeSource::new(&random));
//! let signer = opened.map_err(|refused| refused.fault)?;
//! assert_eq!(rt; signer.left().as_slice(), [31].as_slice());
//! ```
//!
//! Where the records are in a file, `FileStore::open_into` hands them to a `Replay` as it reads, and
//! `Signer::open_replayed` opens on these, so the file is read once.
//!
//! The contract for the crates above: each call of `create`, `open`, `open_replayed`, `sign` and `retire` is a step of
//! the world of one key. The store, the source and the message decide its chance (`specs/Signer.antt`,
//! `specs/World.antt`). Over every list of such steps, and of crashes at any moment, no leaf signs two digests and a
//! name has one signature. Every signature handed out is valid (`once_law`, `specs/Headline.antt`).
//!
//! `migrate_key` moves a key to one new state file, and no crash leaves two files that can sign
//! (`specs/Migration.antt`). The old file's runs go on across it (`moves_law`). By a `KeyProgress`,
//! `create_telling`, `sign_telling` and `serve_telling` tell a `TreeProgress` of the trees that they make. `AnyPublic`
//! and `verify_any` are for keys of the three schemes, by their lengths (`specs/Key.antt`).
#![tactic(auto)]

mod alarm;
mod caches;
mod fault;
mod frames;
mod key;
mod key_trees;
mod laws;
mod ledger;
mod migration;
mod name_map;
mod progress;
mod replay;
mod secret_trees;
mod serving;
mod signer;
mod source;
mod tree_secret;
mod trees;
mod writing;

pub use crate::alarm::{Alarm, slot_behind, warn_behind};
pub use crate::fault::{ServeFault, SignFault};
pub use crate::key::{AnyPublic, KeyFault, verify_any};
pub use crate::laws::{
    after_refusal_law, bound_law, calls_law, cut_law, headline_law, lasting_law, ledger_laws,
    left_law, lives_law, moves_law, not_empty_law, once_law, opened_law, refusal_law, session_law,
    signer_law, sound_law, stop_law, stopped_law, textbook_laws, two_sources_law,
    wrong_signers_law,
};
pub use crate::ledger::{Ledger, LedgerFault};
pub use crate::migration::{migrate_key, migrate_key_telling};
pub use crate::progress::{KeyProgress, SilentLeaves, TreeProgress};
pub use crate::replay::Replay;
pub use crate::serving::{serve, serve_telling};
pub use crate::signer::{Signer, types_of};
pub use crate::source::{RngSource, Source, SourceFault, TapeSource};
pub use merkle::{Progress, Silent};
