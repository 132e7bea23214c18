//! Lengths and parts of signatures, and one made by the standard's formulas over SHA-256 alone. `tests/conformance`
//! tests on the program which bytes are refused, and why.

mod made_by_others;

use super::expecting::{expect, expect_none};
use super::readers::Failing;
use super::values::{copy, fill, first, made_up_bytes, put, turn};
use lms::{LmsPublic, LmsSigView, LmsTree, verify};
use merkle::TreeHash;
use sha2::{Digest, Sha256};
use std::io;
use std::io::Read;
use typecodes::{Cause, LmsPair, LmsSecret, LmsType, OtsType, ReadFault, Refusal};
use winternitz::lanes::LANES;

const PAIR: LmsPair = LmsPair {
    tree: LmsType::H5,
    ots: OtsType::W8,
};

const fn fault(place: u32, cause: Cause) -> ReadFault {
    ReadFault { place, cause }
}

const ZERO_KEY: LmsPublic = LmsPublic {
    pair: PAIR,
    identifier: [0; 16],
    root: [0; 32],
};

// The two types, and zeros.
fn zero_key() -> [u8; 56] {
    let mut bytes = [0; 56];
    bytes[3] = 5;
    bytes[7] = 4;
    bytes
}

// q = 0, the two types in their places, and zeros.
fn zero_signature() -> [u8; 1292] {
    let mut bytes = [0; 1292];
    bytes[7] = 4;
    bytes[1131] = 5;
    bytes
}

// I begins with 1, the root ends with 2, and a zero follows.
fn key_and_more() -> [u8; 57] {
    let mut bytes = [0; 57];
    bytes[..56].copy_from_slice(&zero_key());
    bytes[8] = 1;
    bytes[55] = 2;
    bytes
}

fn key_of_them() -> LmsPublic {
    let mut key = ZERO_KEY;
    key.identifier[0] = 1;
    key.root[31] = 2;
    key
}

fn is_read(bytes: &[u8], wanted: Result<LmsPublic, ReadFault>) -> bool {
    LmsPublic::read(bytes) == wanted
}

fn lengths_are_tested() -> bool {
    let bytes = key_and_more();
    is_read(first(&bytes, 56), Ok(key_of_them()))
        && is_read(first(&bytes, 7), Err(fault(4, Cause::Truncated)))
        && is_read(first(&bytes, 55), Err(fault(24, Cause::Truncated)))
        && is_read(&bytes, Err(fault(56, Cause::Trailing)))
}

#[test]
fn keys_are_read(rt: HostRuntime) {
    expect(&rt, lengths_are_tested());
}

fn leaf_of(signature: &[u8]) -> Result<u32, ReadFault> {
    Ok(LmsSigView::read(signature)?.index())
}

fn last_leaf_is_read() -> bool {
    let mut signature = zero_signature();
    signature[3] = 31;
    leaf_of(&signature) == Ok(31)
}

#[test]
fn the_last_leaf_is_read(rt: HostRuntime) {
    expect(&rt, last_leaf_is_read());
}

// Whether zeros are refused so at level 2, under a key of this pair, and this much of the message is left.
fn is_reported(view: &LmsSigView<'_>, pair: LmsPair, refusal: Refusal, left: usize) -> bool {
    let mut key = ZERO_KEY;
    key.pair = pair;
    let mut message: &[u8] = b"message";
    view.verify(&key, &mut message, 2) == Err(refusal) && message.len() == left
}

fn are_reported(zeros: &[u8]) -> bool {
    match LmsSigView::read(zeros) {
        Ok(view) => {
            is_reported(
                &view,
                pair(LmsType::H10, OtsType::W8),
                Refusal::TypeMismatch(2),
                7,
            ) && is_reported(
                &view,
                pair(LmsType::H5, OtsType::W4),
                Refusal::TypeMismatch(2),
                7,
            ) && is_reported(&view, PAIR, Refusal::RootMismatch(2), 0)
        }
        Err(_) => false,
    }
}

// A signature that decoded is refused with its level's number. Types come first, and leave the message untouched.
#[test]
fn levels_are_reported(rt: HostRuntime) {
    expect(&rt, are_reported(&zero_signature()));
}

fn has(view: &LmsSigView<'_>, bytes: &[u8], pair: LmsPair) -> bool {
    view.types() == pair && view.bytes() == bytes
}

fn is_of(bytes: &[u8], pair: LmsPair) -> bool {
    match LmsSigView::read(bytes) {
        Ok(view) => has(&view, bytes, pair),
        Err(_) => false,
    }
}

// Whether zeros with a pair's codes, the tree's at `offset`, are a signature, and one byte less is none: the last node,
// at `last`, is cut.
fn has_len(pair: LmsPair, codes: [u8; 2], offset: usize, last: u32, zeros: &mut [u8]) -> bool {
    put(zeros, 7, codes[0]);
    put(zeros, offset, codes[1]);
    let Some((_, cut)) = zeros.split_last() else {
        return false;
    };
    let is_cut = leaf_of(cut) == Err(fault(last, Cause::Truncated));
    is_cut
        && is_of(zeros, pair)
        && pair.signature_len() == last.wrapping_add(32)
        && zeros.len() == last.wrapping_add(32) as usize
}

const fn pair(tree: LmsType, ots: OtsType) -> LmsPair {
    LmsPair { tree, ots }
}

fn have_lengths() -> bool {
    let (w1, w2, w4, w8) = (OtsType::W1, OtsType::W2, OtsType::W4, OtsType::W8);
    has_len(pair(LmsType::H5, w8), [4, 5], 1131, 1260, &mut [0; 1292])
        && has_len(pair(LmsType::H5, w4), [3, 5], 2187, 2316, &mut [0; 2348])
        && has_len(pair(LmsType::H10, w4), [3, 6], 2187, 2476, &mut [0; 2508])
        && has_len(pair(LmsType::H15, w8), [4, 7], 1131, 1580, &mut [0; 1612])
        && has_len(pair(LmsType::H20, w2), [2, 8], 4299, 4908, &mut [0; 4940])
        && has_len(pair(LmsType::H25, w1), [1, 9], 8523, 9292, &mut [0; 9324])
}

// RFC 8554 4.1, table 1, and 5.1, table 2.
#[test]
fn signatures_have_lengths(rt: HostRuntime) {
    expect(&rt, have_lengths());
}

// Zeros of the types H10 and W8.
fn higher_signature() -> [u8; 1452] {
    let mut bytes = [0; 1452];
    bytes[7] = 4;
    bytes[1131] = 6;
    bytes
}

fn has_1024_leaves() -> bool {
    let mut bytes = higher_signature();
    bytes[2] = 3;
    bytes[3] = 255;
    let last = leaf_of(&bytes) == Ok(1023);
    bytes[2] = 4;
    bytes[3] = 0;
    last && leaf_of(&bytes) == Err(fault(0, Cause::LeafOutOfRange))
}

// A tree of height 10 has the leaves 0 to 1023.
#[test]
fn leaves_of_a_higher_tree(rt: HostRuntime) {
    expect(&rt, has_1024_leaves());
}

// Whether all bytes of chain i are this one, in a signature of H5 and W8.
fn has_chain(view: &LmsSigView<'_>, i: u16, byte: u8) -> bool {
    view.types() == PAIR && i < 34 && *view.chain(i) == [byte; 32]
}

// The same for node k of the path.
fn has_node(view: &LmsSigView<'_>, k: u8, byte: u8) -> bool {
    view.types() == PAIR && k < 5 && *view.node(k) == [byte; 32]
}

fn with_parts() -> [u8; 1292] {
    let mut bytes = zero_signature();
    bytes[3] = 17;
    fill(&mut bytes, 8, 1);
    fill(&mut bytes, 40, 2);
    fill(&mut bytes, 1096, 3);
    fill(&mut bytes, 1132, 4);
    fill(&mut bytes, 1260, 5);
    bytes
}

fn has_parts(view: &LmsSigView<'_>) -> bool {
    view.index() == 17
        && *view.c() == [1; 32]
        && has_chain(view, 0, 2)
        && has_chain(view, 1, 0)
        && has_chain(view, 33, 3)
        && has_node(view, 0, 4)
        && has_node(view, 3, 0)
        && has_node(view, 4, 5)
}

fn are_lent(bytes: &[u8]) -> bool {
    match LmsSigView::read(bytes) {
        Ok(view) => has_parts(&view) && view.bytes() == bytes,
        Err(_) => false,
    }
}

// C, the first and the last chain and the first and the last node hold 1, 2, 3, 4 and 5.
#[test]
fn parts_are_lent(rt: HostRuntime) {
    expect(&rt, are_lent(&with_parts()));
}

const IDENTIFIER: [u8; 16] = [0, 1, 2, 3, 4, 5, 6, 7, 8, 9, 10, 11, 12, 13, 14, 15];

// A hasher that holds I, a number in 4 bytes and one in 2 (4.2, 4.3, 4.5 and 5.3).
fn hasher(number: u32, kind: u16) -> Sha256 {
    let mut hasher = Sha256::new();
    hasher.update(IDENTIFIER);
    hasher.update(number.to_be_bytes());
    hasher.update(kind.to_be_bytes());
    hasher
}

// A chain's value before step `to`, from its private value (4.3 and Appendix A).
fn chain_value(q: u8, chain: u16, to: u8) -> [u8; 32] {
    let mut private = hasher(u32::from(q), chain);
    private.update([0xff]);
    for byte in 32..64u8 {
        private.update([byte]);
    }
    let mut value = private.finalize();
    for step in 0..to {
        let mut next = hasher(u32::from(q), chain);
        next.update([step]);
        next.update(value);
        value = next.finalize();
    }
    value
}

// Leaf q, T[32 + q] (5.3).
fn leaf(q: u8) -> [u8; 32] {
    let mut key = hasher(u32::from(q), 0x8080);
    for chain in 0..34 {
        key.update(chain_value(q, chain, 255));
    }
    let mut leaf = hasher(32 + u32::from(q), 0x8282);
    leaf.update(key.finalize());
    leaf.finalize()
}

// T[1] to T[63] of the tree whose seed is 32, .., 63 (5.3).
fn tree() -> [[u8; 32]; 64] {
    let mut nodes = [[0; 32]; 64];
    for q in 0..32u8 {
        nodes[32 + usize::from(q)] = leaf(q);
    }
    for k in 0..31 {
        let r: usize = 31 - k;
        let mut inner = hasher(r as u32, 0x8383);
        inner.update(nodes[2 * r]);
        inner.update(nodes[2 * r + 1]);
        nodes[r] = inner.finalize();
    }
    nodes
}

// That tree, whose seed is 32, .., 63.
fn made_tree() -> LmsTree {
    let mut seed = [0; 32];
    for i in 0..32u8 {
        seed[usize::from(i)] = 32 + i;
    }
    LmsTree::new(LmsSecret {
        pair: PAIR,
        identifier: IDENTIFIER,
        seed,
    })
}

// The first leaf that isn't the formulas', one by one or in lanes from it on.
fn wrong_leaf(nodes: &[[u8; 32]; 64], made: &mut LmsTree) -> Option<usize> {
    for first in 0..=32 - LANES {
        let at = 32 + first;
        let is_leaf = made.leaf(first as u32) == nodes[at];
        if !is_leaf || made.leaves_in_lanes(first as u32).as_slice() != &nodes[at..at + LANES] {
            return Some(first);
        }
    }
    None
}

#[test]
fn leaves_are_made_one_by_one_and_in_lanes(rt: HostRuntime) {
    expect_none(&rt, wrong_leaf(&tree(), &mut made_tree()));
}

// The digits of a digest and of its checksum, a byte each (4.4 and 4.5).
fn digits(digest: &[u8; 32]) -> [u8; 34] {
    let mut digits = [0; 34];
    digits[..32].copy_from_slice(digest);
    let mut checksum = 0u16;
    for digit in digest {
        checksum = checksum.wrapping_add(u16::from(255 - *digit));
    }
    digits[32..].copy_from_slice(&checksum.to_be_bytes());
    digits
}

const RANDOMIZER: [u8; 32] = [0xa5; 32];

// Its digits for a message, with C = a5, .., a5 (4.5).
fn digits_for(q: u8, message: &[u8]) -> [u8; 34] {
    let mut hasher = hasher(u32::from(q), 0x8181);
    hasher.update(RANDOMIZER);
    hasher.update(message);
    digits(&hasher.finalize())
}

fn put_values(bytes: &mut [u8], q: u8, digits: &[u8; 34]) {
    for chain in 0..34usize {
        let value = chain_value(q, chain as u16, digits[chain]);
        copy(bytes, 40 + 32 * chain, &value);
    }
}

fn put_path(bytes: &mut [u8], nodes: &[[u8; 32]; 64], q: u8) {
    let mut over = 32 + usize::from(q);
    for k in 0..5usize {
        copy(bytes, 1132 + 32 * k, &nodes[(over ^ 1) % 64]);
        over /= 2;
    }
}

// Leaf q's signature of a message (5.4.1).
fn sign(nodes: &[[u8; 32]; 64], q: u8, message: &[u8]) -> [u8; 1292] {
    let mut bytes = zero_signature();
    bytes[3] = q;
    copy(&mut bytes, 8, &RANDOMIZER);
    put_values(&mut bytes, q, &digits_for(q, message));
    put_path(&mut bytes, nodes, q);
    bytes
}

// The verdict on a signature of a text, and how much of the text is unread.
fn verdict(key: &LmsPublic, mut text: &[u8], signature: &[u8]) -> (Result<(), Refusal>, usize) {
    let verdict = verify(key, &mut text, signature);
    (verdict, text.len())
}

// Whether the signature of "message" is refused so, with these bits of a byte turned.
fn is_refused_with(
    key: &LmsPublic,
    signature: &[u8; 1292],
    offset: usize,
    bits: u8,
    refusal: Refusal,
) -> bool {
    let mut changed = *signature;
    turn(&mut changed, offset, bits);
    verdict(key, b"message", &changed).0 == Err(refusal)
}

// Whether it is refused with a byte of q, C, a value or a node changed. So it is under the code of a higher tree, whose
// path is longer.
fn are_refused_with(key: &LmsPublic, signature: &[u8; 1292]) -> bool {
    let other = Refusal::RootMismatch(0);
    let longer = Refusal::Unreadable(fault(1292, Cause::Truncated));
    is_refused_with(key, signature, 3, 1, other)
        && is_refused_with(key, signature, 8, 1, other)
        && is_refused_with(key, signature, 40, 1, other)
        && is_refused_with(key, signature, 1127, 1, other)
        && is_refused_with(key, signature, 1132, 1, other)
        && is_refused_with(key, signature, 1291, 1, other)
        && is_refused_with(key, signature, 1131, 5 ^ 6, longer)
}

// The signature of "message" verifies, and another message is refused, as are changed signatures.
fn is_right(key: &LmsPublic, signature: &[u8; 1292]) -> bool {
    verdict(key, b"message", signature) == (Ok(()), 0)
        && verdict(key, b"massage", signature).0 == Err(Refusal::RootMismatch(0))
        && are_refused_with(key, signature)
}

// Computed with Python's hashlib.
const ROOT: [u8; 32] = [
    0xf7, 0xd1, 0x99, 0x85, 0xac, 0x51, 0x14, 0x31, 0xcc, 0xfb, 0x66, 0x34, 0xef, 0x73, 0xb2, 0x3c,
    0xa9, 0xd9, 0xd4, 0xc7, 0xfa, 0xc8, 0x1d, 0x6a, 0x42, 0x8c, 0xa5, 0xab, 0x34, 0x54, 0xf8, 0x3b,
];

const MADE_KEY: LmsPublic = LmsPublic {
    pair: PAIR,
    identifier: IDENTIFIER,
    root: ROOT,
};

#[test]
fn signatures_are_verified(rt: HostRuntime) {
    let nodes = tree();
    expect(&rt, nodes[1] == ROOT);
    for q in [0, 5, 31] {
        expect(&rt, is_right(&MADE_KEY, &sign(&nodes, q, b"message")));
    }
}

// A message in pieces of 1 to 64 bytes, sized by a linear congruential generator.
#[derive(Drop)]
struct Pieces<'a> {
    left: &'a [u8],
    state: u32,
}

impl Read for Pieces<'_> {
    fn read(&mut self, buffer: &mut [u8]) -> io::Result<usize> {
        self.state = self
            .state
            .wrapping_mul(1_664_525)
            .wrapping_add(1_013_904_223);
        let size = (self.state >> 26) as usize + 1;
        let left = self.left;
        let n = left.len().min(buffer.len()).min(size);
        buffer[..n].copy_from_slice(&left[..n]);
        self.left = &left[n..];
        Ok(n)
    }
}

// Whether this is the verdict on a message in pieces, by a seed for their sizes, and on the whole message.
fn are_judged(signature: &[u8], message: &[u8], seed: u32, wanted: Result<(), Refusal>) -> bool {
    let mut pieces = Pieces {
        left: message,
        state: seed,
    };
    verify(&MADE_KEY, &mut pieces, signature) == wanted
        && verdict(&MADE_KEY, message, signature).0 == wanted
}

// The first seed for which a signature of the message, or one with a byte of a value changed, has another verdict.
// Messages have 0 to 300 bytes, and no two seeds give the same sizes.
fn wrong_seed(nodes: &[[u8; 32]; 64], text: &[u8; 300]) -> Option<usize> {
    let refused = Err(Refusal::RootMismatch(0));
    for seed in 0..200u32 {
        let message = first(text, (100 * seed % 301) as usize);
        let signature = sign(nodes, (seed % 32) as u8, message);
        let mut other = signature;
        other[40] ^= 1;
        if !are_judged(&signature, message, seed, Ok(()))
            || !are_judged(&other, message, seed, refused)
        {
            return Some(seed as usize);
        }
    }
    None
}

#[test]
fn random_pieces_lead_to_the_verdict_on_the_whole(rt: HostRuntime) {
    expect_none(&rt, wrong_seed(&tree(), &made_up_bytes()));
}

// Whether a message that fails after this number of bytes has this refusal, and leaves `left` bytes unread.
fn is_failed(signature: &[u8], count: usize, refusal: Refusal, left: usize) -> bool {
    let mut message = Failing { left: count };
    let verdict = verify(&ZERO_KEY, &mut message, signature);
    verdict == Err(refusal) && message.left == left
}

// The first number of bytes after which a failure is reported otherwise. Other types and bytes that don't decode come
// first, and leave the message untouched.
fn wrong_failure(zeros: &[u8; 1292], higher: &[u8]) -> Option<usize> {
    let cut = Refusal::Unreadable(fault(1260, Cause::Truncated));
    for count in 0..201usize {
        if !is_failed(zeros, count, Refusal::MessageRead, 0)
            || !is_failed(higher, count, Refusal::TypeMismatch(0), count)
            || !is_failed(first(zeros, 1291), count, cut, count)
        {
            return Some(count);
        }
    }
    None
}

// A failing message is reported before the root.
#[test]
fn failing_messages_are_reported(rt: HostRuntime) {
    expect_none(&rt, wrong_failure(&zero_signature(), &higher_signature()));
}
