//! WOTS+ one-time signatures and L-trees (RFC 8391, sections 3.1 and 4.1.5), for SHA-256 with n = 32 and w = 16.
//!
//! `public_from_signature` gives the public hash that a signature's values lead to, `public_hash` the one of a secret's
//! key, and `public_hashes_in_lanes` those of several leaves side by side. `sign_digest` writes the values of a
//! secret's signature, which climb to the secret's ends. `rand_hash` joins the nodes of the hash tree above. A verifier
//! takes `Climbing` as a parameter: in lanes, or with little stack.
//!
//! The model is `specs/Hashes.antt`, the standard's hashes over SHA-256; `specs/Address.antt`, their addresses;
//! `specs/Key.antt`, a key's chains; and `specs/LTree.antt`, the joining of neighbours until one value is left.
//!
//! ```rust
//! use typecodes::WOTS_CHAINS;
//! use wots_plus::{Prf, Wots};
//!
//! // the key of leaf 5 of the tree with this public seed
//! let seed = Prf::new(public_seed);
//! let key = Wots { seed: &seed, leaf: 5 };
//! let mut values = [0; 32 * WOTS_CHAINS];
//! key.sign_digest(&secret, &digest, &mut values);
//! let hash = key.public_from_signature(&digest, values.as_chunks().0);
//! assert_eq!(rt; hash, key.public_hash(&secret));
//! ```
#![tactic(auto)]

mod address;
mod climbing;
mod hashes;
mod key;
mod l_tree;
mod lane_keys;
mod signature;

pub use crate::address::Address;
pub use crate::climbing::Climbing;
pub use crate::hashes::{Prf, hash_f, hash_h, hash_message, hash_message_from, rand_hash};
pub use crate::key::Wots;
