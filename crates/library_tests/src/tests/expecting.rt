//! What ends a test, and calls of a signer. An assertion costs the prover more than a call of a function that has one,
//! and a call of a signer more than the rest of a test.

ghost use Rattle.std.specs.Prelude.{◌≤◌};

use sign_core::{AnyPublic, SignFault, Signer, Source, verify_any};
use state_file::{Refused, Store};
use std::alloc::Global;
use std::process::Abort;
use typecodes::{Name, Spec};

/// Ends the test unless this holds.
pub(crate) fn expect(rt: &impl Abort, holds: bool) {
    assert!(rt; holds);
}

/// As `Signer::create`. The callers of this need no more of its contract, and so are proved sooner.
pub(crate) fn create<S: Store + Drop, R: Source + Drop>(
    alloc: Global,
    spec: Spec,
    store: S,
    random: R,
) -> Result<Signer<S, R>, Refused<(S, R), SignFault>>
    requires { 1 ≤ S.most store }
{
    Signer::create(alloc, spec, store, random)
}

/// As `Signer::open`, for the same reason.
pub(crate) fn open<S: Store + Drop, R: Source + Drop>(
    alloc: Global,
    store: S,
    random: R,
) -> Result<Signer<S, R>, Refused<(S, R), SignFault>> {
    Signer::open(alloc, store, random)
}

/// The signer of a new key. None where there is none, and where the text is no spec.
pub(crate) fn created<S: Store + Drop, R: Source + Drop>(
    alloc: Global,
    spec: &str,
    store: S,
    random: R,
) -> Option<Signer<S, R>> {
    if store.limit() == 0 {
        return None;
    }
    match Spec::parse(spec) {
        Ok(spec) => create(alloc, spec, store, random).ok(),
        Err(_) => None,
    }
}

/// The fault of a request for a name, if any.
pub(crate) fn sign<S: Store, R: Source>(
    signer: &mut Signer<S, R>,
    name: &Name,
    mut text: &[u8],
    out: &mut Vec<u8>,
) -> Option<SignFault> {
    signer.sign(name, &mut text, out).err()
}

pub(crate) fn is_valid(public: &AnyPublic, mut text: &[u8], signature: &[u8]) -> bool {
    verify_any(public, &mut text, signature).is_ok()
}

/// Whether a key reads back as it is written.
pub(crate) fn is_read_again(public: &AnyPublic) -> bool {
    AnyPublic::read(public.write().as_slice()) == Ok(*public)
}

/// The free leaves of the lowest tree.
pub(crate) fn lowest_left<S: Store, R: Source>(signer: &Signer<S, R>) -> Option<u32> {
    signer.left().as_slice().last().copied()
}

/// The free leaves of the top tree.
pub(crate) fn top_left<S: Store, R: Source>(signer: &Signer<S, R>) -> Option<u32> {
    signer.left().as_slice().first().copied()
}
