//! Lengths and parts of signatures, and some that other programs made. `tests/conformance` tests on the program which
//! bytes are refused, and why.

ghost use Rattle.std.specs.Prelude.{◌≡◌, ◌≤◌};
ghost use Rattle.typecodes.specs.declared.types.XmssType.TheVariants.{H10};
ghost use Rattle.xmss.specs.View.{tree_of};

mod made_by_others;
pub(crate) mod vectors;

use super::expecting::{expect, expect_none};
use super::readers::{Failing, Pieces, in_pieces};
use super::values::{fill, first, made_up_bytes, turn};
use merkle::TreeHash;
use typecodes::{Cause, ReadFault, Refusal, XmssSecret, XmssType};
use vectors::{
    BOTAN_MESSAGE, BOTAN_PUBLIC, BOTAN_SIGNATURE, CASTLE_MESSAGE, CASTLE_PUBLIC, CASTLE_SIGNATURE,
};
use winternitz::lanes::LANES;
use xmss::{XmssPublic, XmssSigView, XmssTree, message_digest, message_digest_from, verify};

const fn fault(place: u32, cause: Cause) -> ReadFault {
    ReadFault { place, cause }
}

const ZERO_KEY: XmssPublic = XmssPublic {
    tree: XmssType::H10,
    root: [0; 32],
    seed: [0; 32],
};

// Of H16. The root begins with 1, SEED ends with 2, and a zero follows.
fn key_and_more() -> [u8; 69] {
    let mut bytes = [0; 69];
    bytes[3] = 2;
    bytes[4] = 1;
    bytes[67] = 2;
    bytes
}

fn key_of_them() -> XmssPublic {
    let mut key = ZERO_KEY;
    key.tree = XmssType::H16;
    key.root[0] = 1;
    key.seed[31] = 2;
    key
}

fn is_unread_key(bytes: &[u8], place: u32, cause: Cause) -> bool {
    XmssPublic::read(bytes) == Err(fault(place, cause))
}

fn lengths_are_tested() -> bool {
    let bytes = key_and_more();
    XmssPublic::read(first(&bytes, 68)) == Ok(key_of_them())
        && is_unread_key(first(&bytes, 3), 0, Cause::Truncated)
        && is_unread_key(first(&bytes, 35), 4, Cause::Truncated)
        && is_unread_key(first(&bytes, 67), 36, Cause::Truncated)
        && is_unread_key(&bytes, 68, Cause::Trailing)
}

#[test]
fn keys_are_read(rt: HostRuntime) {
    expect(&rt, lengths_are_tested());
}

// The index, if the view has these bytes.
fn shown_index(view: &XmssSigView<'_>, bytes: &[u8]) -> u32 {
    if view.bytes() == bytes {
        view.index()
    } else {
        u32::MAX
    }
}

fn index_of(tree: XmssType, bytes: &[u8]) -> Result<u32, ReadFault> {
    match XmssSigView::read(tree, bytes) {
        Ok(view) => Ok(shown_index(&view, bytes)),
        Err(fault) => Err(fault),
    }
}

fn put_index(bytes: &mut [u8], index: u32) {
    if let Some(part) = bytes.get_mut(..4) {
        part.copy_from_slice(&index.to_be_bytes());
    }
}

// Whether zeros of a type's length are a signature, and one byte less is none: the last node, at `node`, is cut. And
// whether the last leaf's index is read, and the next one refused.
fn has_len(tree: XmssType, last: u32, node: u32, zeros: &mut [u8]) -> bool {
    let len = node.wrapping_add(32);
    let Some((_, cut)) = zeros.split_last() else {
        return false;
    };
    let is_cut = index_of(tree, cut) == Err(fault(node, Cause::Truncated));
    put_index(zeros, last);
    let is_last = index_of(tree, zeros) == Ok(last);
    put_index(zeros, last.wrapping_add(1));
    let is_next = index_of(tree, zeros) == Err(fault(0, Cause::LeafOutOfRange));
    is_cut && is_last && is_next && tree.signature_len() == len && zeros.len() == len as usize
}

// Index 1024 and a byte too many: the index is refused as soon as it is read.
fn is_beyond() -> bool {
    let mut beyond = [0; 2501];
    beyond[2] = 4;
    index_of(XmssType::H10, &beyond) == Err(fault(0, Cause::LeafOutOfRange))
}

fn have_lengths() -> bool {
    has_len(XmssType::H10, 1023, 2468, &mut [0; 2500])
        && has_len(XmssType::H16, 65535, 2660, &mut [0; 2692])
        && has_len(XmssType::H20, 1_048_575, 2788, &mut [0; 2820])
}

// RFC 8391 5.3, table 2.
#[test]
fn signatures_have_lengths(rt: HostRuntime) {
    expect(&rt, have_lengths());
    expect(&rt, is_beyond());
}

fn with_parts() -> [u8; 2500] {
    let mut bytes = [0; 2500];
    bytes[2] = 3;
    fill(&mut bytes, 4, 1);
    fill(&mut bytes, 36, 2);
    fill(&mut bytes, 2148, 3);
    fill(&mut bytes, 2180, 4);
    fill(&mut bytes, 2468, 5);
    bytes
}

fn has_parts(view: &XmssSigView<'_>) -> bool
    requires { tree_of view.now ≡ H10 }
{
    view.index() == 768
        && *view.r() == [1; 32]
        && *view.chain(0) == [2; 32]
        && *view.chain(1) == [0; 32]
        && *view.chain(66) == [3; 32]
        && *view.node(0) == [4; 32]
        && *view.node(8) == [0; 32]
        && *view.node(9) == [5; 32]
}

fn are_lent(bytes: &[u8]) -> bool {
    match XmssSigView::read(XmssType::H10, bytes) {
        Ok(view) => has_parts(&view) && view.bytes() == bytes,
        Err(_) => false,
    }
}

// r, the first and the last chain and the first and the last node hold 1, 2, 3, 4 and 5.
#[test]
fn parts_are_lent(rt: HostRuntime) {
    expect(&rt, are_lent(&with_parts()));
}

// H_msg of r, the root and toByte(idx, 32), computed with Python's hashlib.
#[test]
fn messages_have_digests(rt: HostRuntime) {
    let digest = message_digest(&[0x11; 32], &[0x22; 32], 0x01020304, b"abc");
    let expected = [
        0xbb, 0xd8, 0x7b, 0x85, 0x2d, 0x6d, 0xb7, 0x3e, 0x6c, 0x05, 0xef, 0x50, 0x66, 0x8b, 0x48,
        0x8f, 0xae, 0x3f, 0xf3, 0x85, 0x02, 0xa5, 0x1b, 0xb3, 0xf7, 0x0a, 0x7a, 0x9d, 0x15, 0xb9,
        0xf0, 0x0c,
    ];
    expect(&rt, digest == expected);
}

// The verdict on a signature of a text, None where the key isn't read; and how much of the text is unread.
fn verdict(
    public: &[u8; 68],
    mut text: &[u8],
    signature: &[u8],
) -> (Option<Result<(), Refusal>>, usize) {
    let verdict = match XmssPublic::read(public) {
        Ok(key) => Some(verify(&key, &mut text, signature)),
        Err(_) => None,
    };
    (verdict, text.len())
}

// Whether the signature is refused with this byte changed.
fn is_changed(public: &[u8; 68], text: &[u8], signature: &[u8; 2500], offset: usize) -> bool {
    let mut changed = *signature;
    turn(&mut changed, offset, 1);
    verdict(public, text, &changed).0 == Some(Err(Refusal::RootMismatch(0)))
}

// The signature verifies. It is refused for another message, and with a byte of the index, r, a value or a node
// changed.
fn is_verified(public: &[u8; 68], text: &[u8], signature: &[u8; 2500]) -> bool {
    let other = verdict(public, b"another message", signature).0;
    verdict(public, text, signature) == (Some(Ok(())), 0)
        && other == Some(Err(Refusal::RootMismatch(0)))
        && is_changed(public, text, signature, 3)
        && is_changed(public, text, signature, 4)
        && is_changed(public, text, signature, 36)
        && is_changed(public, text, signature, 2179)
        && is_changed(public, text, signature, 2180)
        && is_changed(public, text, signature, 2499)
}

#[test]
fn signatures_of_others_are_verified(rt: HostRuntime) {
    expect(
        &rt,
        is_verified(&CASTLE_PUBLIC, &CASTLE_MESSAGE, &CASTLE_SIGNATURE),
    );
    expect(
        &rt,
        is_verified(&BOTAN_PUBLIC, &BOTAN_MESSAGE, &BOTAN_SIGNATURE),
    );
}

// Whether Bouncy Castle's signature has this verdict on a message in pieces, all of which are read.
fn is_judged(mut message: Pieces<'_>, wanted: Result<(), Refusal>) -> bool {
    let verdict = match XmssPublic::read(&CASTLE_PUBLIC) {
        Ok(key) => Some(verify(&key, &mut message, &CASTLE_SIGNATURE)),
        Err(_) => None,
    };
    verdict == Some(wanted) && message.left.is_empty()
}

// The first size of pieces with another verdict on the message, or on it without its last byte.
fn wrong_size() -> Option<usize> {
    let shorter = first(&CASTLE_MESSAGE, 62);
    for size in [1, 2, 31, 62, 63, 64, 65, 20_000] {
        if !is_judged(in_pieces(&CASTLE_MESSAGE, size), Ok(()))
            || !is_judged(in_pieces(shorter, size), Err(Refusal::RootMismatch(0)))
        {
            return Some(size);
        }
    }
    None
}

// A reader that never gives a byte is an empty message.
fn is_empty() -> bool {
    let mut empty = in_pieces(&[7], 0);
    match XmssPublic::read(&CASTLE_PUBLIC) {
        Ok(key) => verify(&key, &mut empty, &CASTLE_SIGNATURE) == Err(Refusal::RootMismatch(0)),
        Err(_) => false,
    }
}

// One that is always interrupted can't be read.
fn is_interrupted() -> bool {
    let mut interrupted = in_pieces(&CASTLE_MESSAGE, 63);
    interrupted.is_interrupted = true;
    match XmssPublic::read(&CASTLE_PUBLIC) {
        Ok(key) => verify(&key, &mut interrupted, &CASTLE_SIGNATURE) == Err(Refusal::MessageRead),
        Err(_) => false,
    }
}

#[test]
fn pieces_lead_to_the_verdict_on_the_whole(rt: HostRuntime) {
    expect_none(&rt, wrong_size());
    expect(&rt, is_empty() && is_interrupted());
}

// The first size of pieces with another digest than the whole.
fn wrong_digest(text: &[u8; 33_000]) -> Option<usize> {
    let (randomizer, root) = ([0x11; 32], [0x22; 32]);
    let whole = message_digest(&randomizer, &root, 7, text);
    for size in [1, 63, 64, 65, 1000, 16_383, 16_384, 16_385, 33_000] {
        let mut message = in_pieces(text, size);
        if message_digest_from(&randomizer, &root, 7, &mut message) != Ok(whole) {
            return Some(size);
        }
    }
    None
}

// Long messages, too: reads ask for 2^14 bytes.
#[test]
fn pieces_have_the_digest_of_the_whole(rt: HostRuntime) {
    expect_none(&rt, wrong_digest(&made_up_bytes()));
}

// Whether a message that fails after this number of bytes has this refusal, and leaves `left` bytes unread.
fn is_failed(signature: &[u8], count: usize, refusal: Refusal, left: usize) -> bool {
    let mut message = Failing { left: count };
    match XmssPublic::read(&CASTLE_PUBLIC) {
        Ok(key) => { verify(&key, &mut message, signature) == Err(refusal) && message.left == left }
        Err(_) => false,
    }
}

// The first number of bytes after which a failure is reported otherwise. Where the signature doesn't decode, the
// message isn't touched.
fn wrong_failure() -> Option<usize> {
    let cut = Refusal::Unreadable(fault(2468, Cause::Truncated));
    for count in 0..201usize {
        if !is_failed(&CASTLE_SIGNATURE, count, Refusal::MessageRead, 0)
            || !is_failed(first(&CASTLE_SIGNATURE, 2499), count, cut, count)
        {
            return Some(count);
        }
    }
    None
}

// A failing message is reported before the root.
#[test]
fn failing_messages_are_reported(rt: HostRuntime) {
    expect_none(&rt, wrong_failure());
}

fn made_tree() -> XmssTree {
    XmssTree::new(XmssSecret {
        tree: XmssType::H10,
        secret_seed: [0xa5; 32],
        prf_key: [0; 32],
        public_seed: [0x5a; 32],
    })
}

// The first lane with another leaf than that one by itself.
fn wrong_lane(tree: &mut XmssTree, first: u32) -> Option<usize>
    requires { first ≤ 1021 }
{
    let together = tree.leaves_in_lanes(first);
    for lane in 0..LANES {
        if together[lane] != tree.leaf(first + lane as u32) {
            return Some(lane);
        }
    }
    None
}

// The leaves from each of two on, one by one and in lanes.
#[test]
fn leaves_are_made_one_by_one_and_in_lanes(rt: HostRuntime) {
    let mut tree = made_tree();
    expect_none(&rt, wrong_lane(&mut tree, 0));
    expect_none(&rt, wrong_lane(&mut tree, 1021));
}
