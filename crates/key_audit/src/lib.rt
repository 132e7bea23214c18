//! Audits of a key, by those who don't trust its state file or its signer.
//!
//! `audit` reads a state file. Are its records legal, what do they say of the key, and do they fit an anchor? An anchor
//! is how many records there once were, and the last one's tag. A record's tag is the same in every file of these
//! records, and stays, whatever records follow (`tag_laws`). So an anchor tells whether an older copy replaced the
//! file (`audit_laws`). The model is `specs/Audit.antt` and `specs/Tags.antt`.
//!
//! `list` reads a state file as `audit` does, and shows what each record is, without anything secret (`listing_law`,
//! `specs/Listing.antt`). `count_signatures` says how many new names the listed key can still sign
//! (`specs/Signatures.antt`). `audit_replayed` and `list_replayed` do the same by records that an opening handed over,
//! so the file is read once.
//!
//! `check_given` takes signatures with their messages. Are all valid, and did no leaf sign two digests? The model is
//! `specs/Given.antt`, over the leaf uses of `sign_core`. It needs no secret and no records. It finds two copies of a
//! state file wherever both signed with one leaf.
//!
//! ```rust
//! use key_audit::{Anchor, AuditFault, Given, GivenFault, audit, check_given};
//!
//! // a file, and later the same file without its last record
//! let report = audit(rt.alloc(), &mut store, None)?;
//! let anchor = Anchor { count: report.records, tag: report.tag };
//! assert_eq!(rt; audit(rt.alloc(), &mut put_back, Some(anchor)), Err(AuditFault::AnchorCount));
//!
//! // two messages that two copies of one key signed with the same leaf
//! let given = [
//!     Given { message: first_message, signature: first_signature },
//!     Given { message: second_message, signature: second_signature },
//! ];
//! assert_eq!(rt; check_given(rt.alloc(), &public, &given), Err(GivenFault::LeafTwice(0, 1)));
//! assert_eq!(rt; check_given(rt.alloc(), &public, &given[..1]), Ok(()));
//! ```
#![tactic(auto)]

mod file;
mod given;
mod in_memory;
mod laws;
mod leaf;
mod leaf_index;
mod listed_name;
mod listing;
mod report;
mod signatures;
mod uses;

pub use crate::file::audit::{audit, audit_replayed};
pub use crate::file::list::{ListReplay, list, list_replayed};
pub use crate::given::{Given, GivenFault, check_given};
pub use crate::laws::{audit_laws, count_law, listing_law, report_law, runs_law, tag_laws};
pub use crate::listed_name::ListedName;
pub use crate::listing::{Entry, Listing, count_names};
pub use crate::report::{Anchor, AuditFault, Report};
pub use crate::signatures::count_signatures;
