//! The example of sign_core's documentation.

use super::expecting::{created, expect, is_read_again, is_valid, sign, top_left};
use sign_core::{Signer, Source, TapeSource};
use state_file::{MemoryStore, Store};
use std::alloc::Global;
use typecodes::Name;

fn signs_into<S: Store, R: Source>(signer: &mut Signer<S, R>, signature: &mut Vec<u8>) -> bool {
    match Name::new(b"fw-1") {
        Ok(name) => sign(signer, &name, b"firmware", signature).is_none(),
        Err(_) => false,
    }
}

// Whether a signature verifies, of a key that reads back as written.
fn signs<S: Store, R: Source>(alloc: Global, signer: &mut Signer<S, R>) -> bool {
    let mut signature = Vec::new(alloc);
    signs_into(signer, &mut signature)
        && is_valid(&signer.public_key(), b"firmware", &signature)
        && is_read_again(&signer.public_key())
}

// The store after such a signature.
fn signed_in<S: Store + Drop, R: Source + Drop>(alloc: Global, store: S, random: R) -> Option<S> {
    let mut signer = created(alloc, "lms:H5/W8", store, random)?;
    let is_right = signs(alloc, &mut signer);
    let store = signer.into_store();
    if is_right { Some(store) } else { None }
}

// The leaves left once the key is opened again.
fn left_in<S: Store + Drop, R: Source + Drop>(alloc: Global, store: S, random: R) -> Option<u32> {
    match Signer::open(alloc, store, random) {
        Ok(signer) => top_left(&signer),
        Err(_) => None,
    }
}

// The whole example, in memory and by a tape.
fn as_documented(alloc: Global) -> Option<u32> {
    let random = [7; 80];
    let store = MemoryStore::with_limit(alloc, 100);
    let store = signed_in(alloc, store, TapeSource::new(&random))?;
    left_in(alloc, store, TapeSource::new(&random))
}

#[test]
fn what_is_signed_verifies(rt: HostRuntime) {
    expect(&rt, as_documented(rt.alloc()) == Some(31));
}
