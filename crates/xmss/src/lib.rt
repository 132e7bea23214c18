//! XMSS keys, signatures, verification and signing (RFC 8391 4.1), for SHA-256 with n = 32 and w = 16.
//!
//! `verify` is Ok exactly for valid signatures, and else reports the first refusal; a message that can't be read is the
//! exception. `verify_bytes_by` verifies a message in memory, `verify_digest_by` a digest; both take the way to climb
//! chains, and one way needs little stack. `root_by` gives the root that a signature leads to, the key's exactly where
//! it is valid. `write_signature` writes the textbook signature, which is valid. `spelling_laws` says that keys and
//! signatures have one spelling, `verdict_laws` that `verify` has one answer. No call allocates.
//!
//! The model is `specs/Key.antt` and `specs/Signature.antt`, the layouts; `specs/Verification.antt`, validity; and
//! `specs/Writing.antt`, the textbook signature.
//!
//! ```rust
//! use typecodes::Refusal;
//! use xmss::{XmssPublic, verify};
//!
//! // 68 bytes of a key; a message, and the bytes of its signature
//! let key = XmssPublic::read(&public).map_err(Refusal::Unreadable)?;
//! let mut rest: &[u8] = b"message";
//! verify(&key, &mut rest, &signature)?;
//! ```
#![tactic(auto)]

mod digest;
mod key;
mod laws;
mod nodes;
mod secret;
mod signature;
mod verification;
mod writing;

pub use crate::digest::{digest_to_sign, message_digest, message_digest_from, randomizer};
pub use crate::key::XmssPublic;
pub use crate::laws::{spelling_laws, verdict_laws};
pub use crate::secret::XmssTree;
pub use crate::signature::XmssSigView;
pub use crate::verification::{message_prefix, root_by, verify, verify_bytes_by, verify_digest_by};
pub use crate::writing::{write_public, write_signature};
