//! LM-OTS, the one-time signatures of RFC 8554, section 4, for SHA-256 with n = 32.
//!
//! The model: `specs/Key.antt` has the standard's hashes, each as a formula over SHA-256.
//!
//! What the crates above rely on: `hash_from_signature` gives the public hash of the chain ends to which a signature's
//! values lead. `public_hash` gives the hash of the ends to which a seed leads, `public_hashes_in_lanes` the same for
//! several leaves side by side. `sign_digest` writes the values of a seed's signature, which climb to the seed's ends.
//!
//! A verifier takes a `Climbing` as a parameter: in lanes, or with little stack.
//!
//! ```rust
//! use lmots::LmOts;
//! use typecodes::OtsType;
//!
//! // the key of leaf 5 of the tree with this identifier
//! let key = LmOts { identifier, leaf: 5 };
//! let digest = key.message_digest(&randomizer, b"message");
//! let mut values = [0; 32 * 34];
//! key.sign_digest(OtsType::W8, &seed, &digest, &mut values);
//! let hash = key.hash_from_signature(OtsType::W8, &digest, values.as_chunks().0);
//! assert_eq!(rt; hash, key.public_hash(OtsType::W8, &seed));
//! ```
#![tactic(auto)]

mod chains;
mod climbing;
mod key;
mod lane_keys;
mod signature;

pub use crate::climbing::Climbing;
pub use crate::key::LmOts;
