//! Bouncy Castle's signature of two levels of H5/W8 is made here again, byte for byte, and refused with its bytes
//! changed.

ghost use Rattle.std.specs.Prelude.{◌≡◌, ◌≤◌};

use super::expecting::{expect, expect_none};
use super::readers::{Failing, Pieces, cut_field, in_pieces};
use super::values::{first, part, put, turn};
use hss::{
    HssPublic, HssSigView, Level, signature_len, verify, write_public, write_signature,
    write_signed_key,
};
use lmots::LmOts;
use lms::{LmsPublic, LmsTree, SigningTree};
use merkle::root_and_path;
use sha2::{Digest, Sha256};
use typecodes::{
    Cause, LevelCount, Levels, LmsPair, LmsSecret, LmsType, OtsType, ReadFault, Refusal,
};

const PAIR: LmsPair = LmsPair {
    tree: LmsType::H5,
    ots: OtsType::W8,
};

const MESSAGE: [u8; 1] = [0xd1];

// What Bouncy Castle drew: both trees, and C for leaf 1 of each.
const TOP: LmsSecret = LmsSecret {
    pair: PAIR,
    identifier: [
        0x93, 0xd4, 0xaa, 0x58, 0xb1, 0x43, 0x04, 0x76, 0xcb, 0x20, 0xb0, 0x90, 0xa6, 0xd2, 0x45,
        0xb0,
    ],
    seed: [
        0xdc, 0x2d, 0xa4, 0xe0, 0x40, 0xf0, 0x14, 0xf7, 0x59, 0x49, 0xef, 0x51, 0xc0, 0xa9, 0xfe,
        0x0a, 0x0c, 0x11, 0xc8, 0x45, 0x42, 0xbc, 0xfc, 0x27, 0x81, 0x0d, 0x74, 0xca, 0x8f, 0xc5,
        0x78, 0x75,
    ],
};

const BOTTOM: LmsSecret = LmsSecret {
    pair: PAIR,
    identifier: [
        0x4e, 0x05, 0xbf, 0x4c, 0x1a, 0x3f, 0xf4, 0x53, 0x03, 0x0d, 0x91, 0xe3, 0xc0, 0x91, 0x49,
        0xe9,
    ],
    seed: [
        0xea, 0x02, 0xdf, 0xdf, 0x47, 0x79, 0xc9, 0x09, 0xf4, 0x28, 0xcf, 0xa5, 0xb5, 0xe2, 0x85,
        0x5d, 0x41, 0xc6, 0xbe, 0x07, 0xa7, 0xf6, 0x60, 0xf2, 0xcf, 0x4d, 0x14, 0xb4, 0x92, 0xf5,
        0xdb, 0xa3,
    ],
};

const TOP_RANDOMIZER: [u8; 32] = [
    0x8f, 0x85, 0x16, 0x46, 0x2c, 0x58, 0xdc, 0x3c, 0xc7, 0x86, 0x71, 0x0a, 0x40, 0x04, 0xff, 0x04,
    0x2a, 0x13, 0x53, 0x90, 0x14, 0x58, 0xf9, 0x58, 0x4c, 0xe3, 0x81, 0x94, 0x5d, 0x07, 0x32, 0xc7,
];

const BOTTOM_RANDOMIZER: [u8; 32] = [
    0x51, 0xee, 0x28, 0xf3, 0x60, 0x6e, 0x23, 0x81, 0x93, 0x20, 0xd2, 0x07, 0xee, 0xc6, 0x32, 0xa4,
    0x66, 0xa6, 0x42, 0x1a, 0x1f, 0x2f, 0xf3, 0x1b, 0x94, 0xba, 0xd9, 0x25, 0x77, 0x64, 0x78, 0x19,
];

// A secret's tree, whose leaf 1 is to sign.
fn tree_of(secret: &LmsSecret) -> SigningTree
    ensures { result.secret.pair ≡ PAIR }
{
    let secret = LmsSecret {
        pair: PAIR,
        identifier: secret.identifier,
        seed: secret.seed,
    };
    let mut path = [[0; 32]; 25];
    let root = root_and_path(&mut LmsTree::new(secret), 5, 1, &mut path[..5]);
    SigningTree {
        secret,
        root,
        leaf: 1,
        path,
    }
}

// A level whose leaf 1 signs a message.
fn level(secret: &LmsSecret, randomizer: [u8; 32], message: &[u8]) -> Level
    ensures { result.tree.secret.pair ≡ PAIR }
{
    let key = LmOts {
        identifier: secret.identifier,
        leaf: 1,
    };
    let digest = key.message_digest(&randomizer, message);
    Level {
        tree: tree_of(secret),
        randomizer,
        digest,
    }
}

fn level_count(number: u8) -> LevelCount
    requires least { 1 ≤ number }
    requires most { number ≤ 8 }
{
    match LevelCount::new(number) {
        Some(count) => count,
        None => unreachable!(),
    }
}

// The key, and the signature of MESSAGE by both levels.
fn signed() -> (HssPublic, [u8; 2644]) {
    signed_text(&MESSAGE)
}

// The same for another message.
fn signed_text(text: &[u8]) -> (HssPublic, [u8; 2644]) {
    let bottom = level(&BOTTOM, BOTTOM_RANDOMIZER, text);
    let mut key = [0; 56];
    lms::write_public(&bottom.public(), &mut key);
    let top = level(&TOP, TOP_RANDOMIZER, &key);
    let mut signature = [0; 2644];
    write_signature(&[top], &bottom, &mut signature);
    let public = HssPublic {
        levels: level_count(2),
        top: top.public(),
    };
    (public, signature)
}

// SHA-256 of the key.
const PUBLIC: [u8; 32] = [
    0x71, 0x6e, 0x64, 0x84, 0x8a, 0x9c, 0x68, 0xcb, 0xc4, 0xf2, 0x8d, 0x01, 0x95, 0xd6, 0x20, 0x05,
    0xbb, 0x02, 0x05, 0xea, 0x7a, 0xc3, 0xf8, 0x3a, 0xc9, 0xb5, 0x37, 0xd3, 0x4d, 0xf1, 0x6e, 0x21,
];

// SHA-256 of the signature.
const SIGNATURE: [u8; 32] = [
    0xdd, 0xc1, 0x0c, 0x6f, 0x14, 0x40, 0x34, 0xcd, 0xd2, 0xb6, 0x39, 0x9d, 0xa4, 0x7b, 0x1a, 0xf1,
    0x84, 0x5b, 0xea, 0xdd, 0x72, 0x2f, 0x1b, 0x85, 0x5e, 0x54, 0xa5, 0x6f, 0x6a, 0xa6, 0xb7, 0x1e,
];

fn is_the_key(public: &HssPublic) -> bool {
    let mut bytes = [0; 60];
    write_public(public, &mut bytes);
    HssPublic::read(&bytes) == Ok(*public) && Sha256::digest(bytes.as_slice()) == PUBLIC
}

// The verdict on a signature of a text, and how much of the text is unread.
fn verdict(public: &HssPublic, mut text: &[u8], signature: &[u8]) -> (Result<(), Refusal>, usize) {
    let verdict = verify(public, &mut text, signature);
    (verdict, text.len())
}

fn is_the_signature(public: &HssPublic, signature: &[u8; 2644]) -> bool {
    Sha256::digest(signature.as_slice()) == SIGNATURE
        && verdict(public, &MESSAGE, signature) == (Ok(()), 0)
        && verdict(public, b"another", signature).0 == Err(Refusal::RootMismatch(1))
}

#[test]
fn bouncy_castle_made(rt: HostRuntime) {
    let (public, signature) = signed();
    expect(&rt, is_the_key(&public));
    expect(&rt, is_the_signature(&public, &signature));
}

const fn fault(place: u32, cause: Cause) -> Refusal {
    Refusal::Unreadable(ReadFault { place, cause })
}

// Whether these bytes are refused so as MESSAGE's signature, and so much of the message is then unread.
fn is_refused(public: &HssPublic, signature: &[u8], refusal: Refusal, left: usize) -> bool {
    verdict(public, &MESSAGE, signature) == (Err(refusal), left)
}

// The offset of a changed byte, the bits of it that are turned, and the fault. Bytes 4 to 1295 are the top tree's
// signature, 1296 to 1351 the bottom tree's key, and the rest the bottom tree's signature.
const UNREAD: [(usize, u8, u32, Cause); 8] = [
    (3, 1, 1296, Cause::Trailing),
    (3, 1 ^ 7, 2644, Cause::Truncated),
    (3, 1 ^ 8, 0, Cause::LevelCount),
    (0, 1, 0, Cause::LevelCount),
    (7, 1 ^ 32, 4, Cause::LeafOutOfRange),
    (1135, 5 ^ 6, 1456, Cause::UnknownType),
    (1299, 5 ^ 10, 1296, Cause::UnknownType),
    (1355, 1 ^ 32, 1352, Cause::LeafOutOfRange),
];

// The same, with the level that has another root, and how much of the message is unread.
const OTHERS: [(usize, u8, u8, usize); 5] = [
    (1299, 5 ^ 6, 0, 1),
    (1304, 1, 0, 1),
    (1351, 1, 0, 1),
    (1355, 1 ^ 2, 1, 0),
    (2643, 1, 1, 0),
];

// Whether the signature is refused so with these bits of a byte turned.
fn is_refused_with(
    public: &HssPublic,
    signature: &[u8; 2644],
    (offset, bits): (usize, u8),
    refusal: Refusal,
    left: usize,
) -> bool {
    let mut changed = *signature;
    turn(&mut changed, offset, bits);
    is_refused(public, &changed, refusal, left)
}

// The offset of the first changed byte that is refused otherwise.
fn wrong_change(public: &HssPublic, signature: &[u8; 2644]) -> Option<usize> {
    for (offset, bits, place, cause) in UNREAD {
        if !is_refused_with(public, signature, (offset, bits), fault(place, cause), 1) {
            return Some(offset);
        }
    }
    for (offset, bits, level, left) in OTHERS {
        let other = Refusal::RootMismatch(level);
        if !is_refused_with(public, signature, (offset, bits), other, left) {
            return Some(offset);
        }
    }
    None
}

#[test]
fn changes_are_refused(rt: HostRuntime) {
    let (public, signature) = signed();
    expect_none(&rt, wrong_change(&public, &signature));
}

// The fields of a signature of two levels of H5 and W8, as runs of fields of one size: offset of the run, and the size.
// A level has q and the one-time type, C and 34 values, the tree's type, and five nodes (5.4). Before the top one
// stands the number of levels, between them a key: two types, I and the root (5.3).
const FIELDS: [(u32, u32); 11] = [
    (0, 4),
    (12, 32),
    (1132, 4),
    (1136, 32),
    (1296, 4),
    (1304, 16),
    (1320, 32),
    (1352, 4),
    (1360, 32),
    (2480, 4),
    (2484, 32),
];

// The first end at which another field is cut.
fn wrong_cut(public: &HssPublic, signature: &[u8; 2644]) -> Option<usize> {
    for end in 0..2644u32 {
        let cut = fault(cut_field(&FIELDS, end), Cause::Truncated);
        if !is_refused(public, first(signature, end as usize), cut, 1) {
            return Some(end as usize);
        }
    }
    None
}

#[test]
fn each_beginning_is_cut_in_a_field(rt: HostRuntime) {
    let (public, signature) = signed();
    expect(&rt, cut_field(&FIELDS, 2643) == 2612);
    expect_none(&rt, wrong_cut(&public, &signature));
}

// Whether a signature has this verdict on a message in pieces, all of which are read.
fn is_judged(
    (public, signature): (&HssPublic, &[u8]),
    mut message: Pieces<'_>,
    wanted: Result<(), Refusal>,
) -> bool {
    verify(public, &mut message, signature) == wanted && message.left.is_empty()
}

// The first size of pieces with another verdict on the text, or on it without its last byte.
fn wrong_size(given: (&HssPublic, &[u8]), text: &[u8; 200]) -> Option<usize> {
    let other = Err(Refusal::RootMismatch(1));
    for size in [1, 2, 63, 64, 65, 129, 199, 200, 20_000] {
        if !is_judged(given, in_pieces(text, size), Ok(()))
            || !is_judged(given, in_pieces(first(text, 199), size), other)
        {
            return Some(size);
        }
    }
    None
}

// A reader that never gives a byte is an empty message; one that is always interrupted can't be read.
fn is_empty_or_unread((public, signature): (&HssPublic, &[u8]), text: &[u8]) -> bool {
    let mut empty = in_pieces(text, 0);
    let mut interrupted = in_pieces(text, 63);
    interrupted.is_interrupted = true;
    verify(public, &mut empty, signature) == Err(Refusal::RootMismatch(1))
        && verify(public, &mut interrupted, signature) == Err(Refusal::MessageRead)
}

#[test]
fn pieces_lead_to_the_verdict_on_the_whole(rt: HostRuntime) {
    let (public, signature) = signed_text(&[9; 200]);
    expect_none(&rt, wrong_size((&public, &signature), &[9; 200]));
    expect(&rt, is_empty_or_unread((&public, &signature), &[9; 200]));
}

// Whether a message that fails after this number of bytes has this refusal, and leaves `left` bytes unread.
fn is_failed(
    public: &HssPublic,
    signature: &[u8],
    (count, left): (usize, usize),
    refusal: Refusal,
) -> bool {
    let mut message = Failing { left: count };
    let verdict = verify(public, &mut message, signature);
    verdict == Err(refusal) && message.left == left
}

// The first number of bytes after which a failure isn't reported.
fn wrong_failure(public: &HssPublic, signature: &[u8]) -> Option<usize> {
    for count in 0..201usize {
        if !is_failed(public, signature, (count, 0), Refusal::MessageRead) {
            return Some(count);
        }
    }
    None
}

// Whether another refusal comes first, and leaves all these bytes unread.
fn comes_first(public: &HssPublic, signature: &[u8; 2644], count: usize) -> bool {
    let whole = (count, count);
    let mut other_key = *signature;
    other_key[1351] ^= 1;
    let mut other_top = *public;
    other_top.top.pair.ots = OtsType::W4;
    let cut = fault(2612, Cause::Truncated);
    is_failed(public, first(signature, 2643), whole, cut)
        && is_failed(&other_top, signature, whole, Refusal::TypeMismatch(0))
        && is_failed(public, &other_key, whole, Refusal::RootMismatch(0))
        && is_failed(
            public,
            &with_other_bottom(signature),
            whole,
            Refusal::TypeMismatch(1),
        )
}

// A failing message is reported in its turn. It isn't touched where another refusal comes first.
#[test]
fn failing_messages_are_reported(rt: HostRuntime) {
    let (public, signature) = signed();
    expect_none(&rt, wrong_failure(&public, &signature));
    for count in [0, 1, 200] {
        expect(&rt, comes_first(&public, &signature, count));
    }
}

// A signature of two levels under a key of one, and the top tree's signature alone under a key of two. Under a key of
// one it signs the bottom tree's key.
fn are_compared(public: &HssPublic, signature: &[u8; 2644]) -> bool {
    let one = HssPublic {
        levels: level_count(1),
        top: public.top,
    };
    let mut single = [0; 1296];
    single[4..1296].copy_from_slice(&signature[4..1296]);
    is_refused(&one, signature, Refusal::LevelMismatch, 1)
        && is_refused(public, &single, Refusal::LevelMismatch, 1)
        && verdict(&one, part(signature, 1296, 1352), &single) == (Ok(()), 0)
        && is_refused(
            public,
            &with_other_bottom(signature),
            Refusal::TypeMismatch(1),
            1,
        )
}

#[test]
fn levels_are_compared(rt: HostRuntime) {
    let (public, signature) = signed();
    expect(&rt, are_compared(&public, &signature));
}

// The signature, with zeros of the types H5 and W4 at the bottom, which aren't its key's.
fn with_other_bottom(signature: &[u8; 2644]) -> [u8; 3700] {
    let mut bytes = [0; 3700];
    bytes[..1352].copy_from_slice(&signature[..1352]);
    bytes[1359] = 3;
    bytes[3539] = 5;
    bytes
}

// A key of this many levels, of zeros.
fn zero_key(levels: u8) -> [u8; 60] {
    let mut bytes = [0; 60];
    bytes[3] = levels;
    bytes[7] = 5;
    bytes[11] = 4;
    bytes
}

const TOP_OF_ZEROS: LmsPublic = LmsPublic {
    pair: PAIR,
    identifier: [0; 16],
    root: [0; 32],
};

const fn key_fault(place: u32, cause: Cause) -> Result<HssPublic, ReadFault> {
    Err(ReadFault { place, cause })
}

// Whether a key of this many levels is read.
fn has_levels(number: u8) -> bool {
    match LevelCount::new(number) {
        Some(levels) => {
            let top = TOP_OF_ZEROS;
            HssPublic::read(&zero_key(number)) == Ok(HssPublic { levels, top })
        }
        None => false,
    }
}

fn has_no_levels(number: u8) -> bool {
    LevelCount::new(number).is_none()
        && HssPublic::read(&zero_key(number)) == key_fault(0, Cause::LevelCount)
}

fn are_unread() -> bool {
    let mut bytes = zero_key(2);
    let mut longer = [0; 61];
    longer[..60].copy_from_slice(&bytes);
    bytes[7] = 10;
    HssPublic::read(&longer) == key_fault(60, Cause::Trailing)
        && HssPublic::read(&bytes) == key_fault(4, Cause::UnknownType)
}

#[test]
fn keys_are_read(rt: HostRuntime) {
    expect(
        &rt,
        has_levels(1) && has_levels(8) && has_no_levels(0) && has_no_levels(9),
    );
    expect(&rt, are_unread());
}

fn has_level(view: &HssSigView<'_>, i: u8, bytes: &[u8]) -> bool {
    i < view.levels() && view.level(i).bytes() == bytes
}

// Whether the key of level i, from 1 on, is the one that these bytes spell.
fn has_key(view: &HssSigView<'_>, i: u8, bytes: &[u8]) -> bool {
    0 < i && i < view.levels() && LmsPublic::read(bytes) == Ok(view.key(i))
}

// Whether a view shows these bytes, and their parts.
fn has_parts(view: &HssSigView<'_>, bytes: &[u8; 2644]) -> bool {
    view.levels() == 2
        && view.bytes() == bytes.as_slice()
        && has_level(view, 0, part(bytes, 4, 1296))
        && has_level(view, 1, part(bytes, 1352, 2644))
        && view.bottom().bytes() == part(bytes, 1352, 2644)
        && has_key(view, 1, part(bytes, 1296, 1352))
}

fn shows_parts(bytes: &[u8; 2644]) -> bool {
    match HssSigView::read(bytes) {
        Ok(view) => has_parts(&view, bytes),
        Err(_) => false,
    }
}

#[test]
fn parts_are_shown(rt: HostRuntime) {
    expect(&rt, shows_parts(&signed().1));
}

// Whether a level's signature and the key that it signs are written as a whole signature has them.
fn writes_signed_key(top: &Level, signature: &[u8; 2644]) -> bool
    requires { top.now.tree.secret.pair ≡ PAIR }
{
    let mut written = [0; 1348];
    match LmsPublic::read(part(signature, 1296, 1352)) {
        Ok(key) => {
            write_signed_key(top, &key, &mut written);
            written.as_slice() == part(signature, 4, 1352)
        }
        Err(_) => false,
    }
}

// Whether its signature is written by itself, by the level and by its tree.
fn writes_level(top: &Level, signature: &[u8; 2644]) -> bool
    requires { top.now.tree.secret.pair ≡ PAIR }
{
    let mut by_level = [0; 1292];
    top.write(&mut by_level);
    let mut by_tree = [0; 1292];
    top.tree.write(&top.randomizer, &top.digest, &mut by_tree);
    by_level.as_slice() == part(signature, 4, 1296) && by_tree == by_level
}

#[test]
fn a_signed_key_is_written(rt: HostRuntime) {
    let (_, signature) = signed();
    let top = level(&TOP, TOP_RANDOMIZER, part(&signature, 1296, 1352));
    expect(&rt, writes_signed_key(&top, &signature));
}

#[test]
fn a_level_is_written_alone(rt: HostRuntime) {
    let (_, signature) = signed();
    let top = level(&TOP, TOP_RANDOMIZER, part(&signature, 1296, 1352));
    expect(&rt, writes_level(&top, &signature));
}

const OTHER: LmsPair = LmsPair {
    tree: LmsType::H5,
    ots: OtsType::W4,
};

const GREATEST: LmsPair = LmsPair {
    tree: LmsType::H25,
    ots: OtsType::W1,
};

// Levels, and the length of their signatures in bytes.
const LENGTHS: [(&[LmsPair], u32); 5] = [
    (&[PAIR], 1296),
    (&[PAIR; 2], 2644),
    (&[OTHER; 2], 4756),
    (&[PAIR, OTHER], 3700),
    (&[GREATEST; 8], 74_988),
];

fn has_len(pairs: &[LmsPair], len: u32) -> bool {
    match Levels::new(pairs) {
        Some(levels) => signature_len(&levels) == len,
        None => false,
    }
}

fn wrong_len() -> Option<usize> {
    for (pairs, len) in LENGTHS {
        if !has_len(pairs, len) {
            return Some(len as usize);
        }
    }
    None
}

#[test]
fn signatures_have_lengths(rt: HostRuntime) {
    expect_none(&rt, wrong_len());
}

// Whether level i signs with leaf i, and below the top has a key whose I begins with i.
fn is_numbered(view: &HssSigView<'_>, i: u8) -> bool {
    if i >= view.levels() || view.level(i).index() != u32::from(i) {
        return false;
    }
    i == 0 || view.key(i).identifier[0] == i
}

// Eight levels of H5/W8, level i with leaf i.
fn with_eight_levels() -> [u8; 10732] {
    let mut bytes = [0; 10732];
    bytes[3] = 7;
    for i in 0..8u8 {
        let start = 4 + 1348 * usize::from(i);
        put(&mut bytes, start + 3, i);
        put(&mut bytes, start + 7, 4);
        put(&mut bytes, start + 1131, 5);
        // the key below, which the last level lacks
        put(&mut bytes, start + 1295, 5);
        put(&mut bytes, start + 1299, 4);
        put(&mut bytes, start + 1300, i + 1);
    }
    bytes
}

fn has_eight_levels(view: &HssSigView<'_>) -> bool {
    for i in 0..8 {
        if !is_numbered(view, i) {
            return false;
        }
    }
    view.levels() == 8
}

fn eight_levels() -> bool {
    match HssSigView::read(&with_eight_levels()) {
        Ok(view) => has_eight_levels(&view),
        Err(_) => false,
    }
}

#[test]
fn eight_levels_are_read(rt: HostRuntime) {
    expect(&rt, eight_levels());
}
