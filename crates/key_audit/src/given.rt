//! Signatures that were given out: does a leaf sign two digests?

ghost use Rattle.std.specs.Prelude.{◌≡◌, ◌↔◌, true, MatchOption};
ghost use Rattle.key_audit.specs.Given.{AreValid, Checks, IsFirstNotValid, IsValidGiven, given_fault_name};
ghost use Rattle.key_audit.specs.Given.{given_fault_number};

use crate::in_memory::InMemory;
use crate::leaf_index::LeafIndex;
use crate::uses::uses_of;
use sign_core::{AnyPublic, verify_any};
use std::alloc::Global;
use thiserror::Error;

/// A signature that was given out, with its message.
#[derive(Debug, Drop)]
pub struct Given {
    /// The message.
    pub message: Vec<u8>,
    /// The bytes of the signature.
    pub signature: Vec<u8>,
}

/// What is wrong with given signatures.
#[derive(Clone, Copy, Debug, PartialEq, Eq, Error)]
pub enum GivenFault {
    /// 60: this one isn't valid, and those before it are.
    #[error("signature {0} isn't valid for its message")]
    NotValid(usize),
    /// 61: the second uses a leaf of the first for another digest.
    #[error("signatures {0} and {1} use one leaf for different digests")]
    LeafTwice(usize, usize),
    /// 46: memory was refused.
    #[error("memory was refused")]
    OutOfMemory,
}

impl GivenFault {
    /// The number that reports the fault: 46, 60 or 61.
    pub fn number(self) -> u8
        ensures { result ≡ given_fault_number self }
    {
        match self {
            GivenFault::NotValid(_) => 60,
            GivenFault::LeafTwice(_, _) => 61,
            GivenFault::OutOfMemory => 46,
        }
    }

    /// The name that is printed beside the number.
    pub fn name(self) -> &'static str
        ensures { result.now ≡ given_fault_name self }
    {
        match self {
            GivenFault::NotValid(_) => "NotValid",
            GivenFault::LeafTwice(_, _) => "LeafTwice",
            GivenFault::OutOfMemory => "OutOfMemory",
        }
    }
}

/// Checks signatures of one key: all are valid, and no two use one leaf for different digests, at any of their levels.
/// A leaf is named by its number with its tree's I, or in XMSS with the public key. Uses within one signature aren't
/// compared. The faults:
///
/// - 60 `NotValid(i)`: signature i is the first that isn't valid for its message, or its message has 2^60 bytes or
///   more.
/// - 61 `LeafTwice(i, j)`: all are valid; j is the first that uses a leaf of an earlier one for another digest, and i
///   the first of those earlier ones.
/// - 46 `OutOfMemory`: all are valid, and memory was refused for the leaves of one.
///
/// Used leaves stand in a map, so a signature's time doesn't grow with their number. As the map hashes with a fixed
/// seed, this is a mean, and no clause says it. That 46 comes only where memory was refused is tested.
pub fn check_given(alloc: Global, public: &AnyPublic, given: &[Given]) -> Result<(), GivenFault>
    ensures { Checks public.now given.now result }
{
    if let Some(place) = first_not_valid(public, given) {
        return Err(GivenFault::NotValid(place));
    }
    check_leaves(alloc, public, given)
}

fn is_valid(public: &AnyPublic, given: &Given) -> bool
    ensures { (result ≡ true) ↔ IsValidGiven public.now given.now }
{
    let mut message = InMemory {
        rest: &given.message,
    };
    verify_any(public, &mut message, &given.signature).is_ok()
}

// The place of the first signature that isn't valid.
fn first_not_valid(public: &AnyPublic, given: &[Given]) -> Option<usize>
    ensures { MatchOption result (AreValid public.now given.now) (IsFirstNotValid public.now given.now) }
{
    for (place, each) in given.iter().enumerate() {
        if !is_valid(public, each) {
            return Some(place);
        }
    }
    None
}

// The check of leaves, once all are valid.
fn check_leaves(alloc: Global, public: &AnyPublic, given: &[Given]) -> Result<(), GivenFault>
    requires { AreValid public.now given.now }
    ensures { Checks public.now given.now result }
{
    let mut index = LeafIndex::new(alloc);
    for (place, each) in given.iter().enumerate() {
        let uses = uses_of(public, &each.message, &each.signature);
        if let Some(earlier) = index.first_conflict(&uses) {
            return Err(GivenFault::LeafTwice(earlier, place));
        }
        if index.add(&uses, place).is_err() {
            return Err(GivenFault::OutOfMemory);
        }
    }
    Ok(())
}
