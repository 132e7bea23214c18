//! Winternitz chains and digits, for every width and any step (RFC 8554 4.3 to 4.6, RFC 8391 3.1).
//!
//! The model: `specs/Chain.antt` has walks along chains and their ends, `specs/Digest.antt` the digits of a digest and
//! its checksum.
//!
//! What the crates above rely on: `climb` is the walk along a chain, and `digits` gives the standard's list and no
//! other. That list has the whole checksum, so no other digest has digits that are all at least as great. To get from
//! one digest's values to another's, some chain would have to be climbed down. By `chain_law` each type of the tables
//! has a chain for each digit.
//!
//! `climb_whole`, `climb_to` and `climb_from` walk all chains of a key; each lane takes an equal part of the steps.
//! `lanes` is SHA-256 of blocks side by side, one per lane (`specs/Lanes.antt`), with which a `Step` takes a step in
//! each lane at once. `Hasher` is SHA-256 of a message in pieces, with the schedules of eight blocks side by side, and
//! `feed` gives it a message. A verifier climbs `InLanes`, or `OneByOne` with little stack and code.
//!
//! ```rust
//! use winternitz::{climb_from, digits};
//!
//! // each value of a signature climbs from its digit to the end of its chain, by the hash `step`
//! let ends = climb_from(&step, &digits(4, &digest), 15, &values);
//! ```
#![tactic(auto)]

mod chain;
mod climbing;
mod compression;
mod digest;
mod groups;
mod hasher;
pub mod lanes;
mod laws;
mod message;
mod schedule;

pub use crate::chain::{Step, added, climb};
pub use crate::climbing::{InLanes, OneByOne};
pub use crate::digest::{Digits, digits};
pub use crate::groups::{MOST_CHAINS, Values, climb_from, climb_to, climb_whole};
pub use crate::hasher::Hasher;
pub use crate::laws::chain_law;
pub use crate::message::feed;
