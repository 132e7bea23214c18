//! HSS keys, signatures, verification and writing, for one to eight levels of LMS trees (RFC 8554, section 6).
//!
//! The model: `specs/Key.antt` and `specs/Signature.antt` say how keys and signatures are spelled,
//! `specs/Verification.antt` which signatures are valid, `specs/Writing.antt` which signature the levels' secrets make.
//!
//! What the crates above rely on: `verify` is `Ok` exactly on the spellings of valid signatures, and else reports the
//! first refusal, unless the message can't be read. `verify_bytes_by` takes a message in memory, `verify_digest_by` a
//! message's digest; both take a way to climb chains, and `OneByOne` needs little stack. `root_by` gives the root that
//! a signature leads to, which is the key's exactly where it is valid. `write_signature` writes the textbook signature
//! if roots and paths are the secrets'. It is valid if also each digest is the digest of what its level signs.
//! `Level::write` writes one level's LMS signature alone. No call takes memory.
//!
//! The laws are `spelling_laws`, `verdict_laws`, `textbook_laws` and `joining_laws`.
//!
//! ```rust
//! use hss::{HssPublic, verify};
//!
//! let key = HssPublic::read(&public)?;
//! let mut message: &[u8] = b"firmware 7";
//! match verify(&key, &mut message, &signature) {
//!     Ok(()) => println!(rt; "verified")?,
//!     Err(refusal) => println!(rt; "refused, {}: {refusal}", refusal.number())?,
//! }
//! ```
#![tactic(auto)]

mod key;
mod laws;
mod secret;
mod signature;
mod signed_key;
mod signed_keys;
mod verification;
mod writing;

pub use crate::key::HssPublic;
pub use crate::laws::{joining_laws, spelling_laws, textbook_laws, verdict_laws};
pub use crate::secret::Level;
pub use crate::signature::HssSigView;
pub use crate::verification::{message_prefix, root_by, verify, verify_bytes_by, verify_digest_by};
pub use crate::writing::{signature_len, write_public, write_signature, write_signed_key};
