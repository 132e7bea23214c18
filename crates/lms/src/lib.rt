//! LMS keys, signatures, verification and signing (RFC 8554, section 5), for SHA-256 with m = 32.
//!
//! The model: `specs/Key.antt` and `specs/Signature.antt` say how keys and signatures are spelled,
//! `specs/Verification.antt` which signatures are valid.
//!
//! What the crates above rely on: `verify` is `Ok` exactly on the spellings of valid signatures, and else reports the
//! first refusal, unless the message can't be read. `LmsSigView::verify` does the same for a decoded signature, such as
//! one level of HSS. `verify_bytes_by` takes a message in memory, `verify_digest_by` a message's digest; both take a
//! way to climb chains, and `OneByOne` needs little stack. `root_by` gives the root that a signature leads to, which is
//! the key's exactly where it is valid. `write_signature` writes the textbook signature of `specs/Writing.antt`, which
//! is valid. A `SigningTree` has what that needs of a tree, and writes the same. No call takes memory.
//!
//! Keys and signatures are spelled in one way (`spelling_laws`), and `verify` has one answer, unless the message can't
//! be read (`verdict_laws`).
//!
//! ```rust
//! use lms::{LmsPublic, verify};
//! use typecodes::Refusal;
//!
//! // 56 bytes of a key; a message, and the bytes of its signature
//! let key = LmsPublic::read(&public).map_err(Refusal::Unreadable)?;
//! let mut rest: &[u8] = b"message";
//! verify(&key, &mut rest, &signature)?;
//! ```
#![tactic(auto)]

mod key;
mod laws;
mod nodes;
mod secret;
mod signature;
mod signing_tree;
mod verification;
mod writing;

pub use crate::key::LmsPublic;
pub use crate::laws::{spelling_laws, verdict_laws};
pub use crate::secret::LmsTree;
pub use crate::signature::LmsSigView;
pub use crate::signing_tree::SigningTree;
pub use crate::verification::{message_prefix, root_by, verify, verify_bytes_by, verify_digest_by};
pub use crate::writing::{write_public, write_signature};
