//! The calls below the schemes: of `typecodes`, `winternitz`, `merkle`, `lmots` and `wots_plus`.

ghost use Rattle.std.specs.Prelude.{◌≡◌};

use lmots::LmOts;
use merkle::{OutOfMemory, PathCache, TreeHash, path, root, root_from_path};
use std::alloc::Global;
use typecodes::{
    BadName, BadSpec, Cause, Cursor, Levels, LmsPair, LmsType, Message, MessageFailed, Name,
    OtsType, ReadFault, Spec, WOTS_CHAINS, XmssType, coef,
};
use winternitz::{Digits, Step, climb, digits};
use wots_plus::{Address, Prf, Wots, rand_hash};

fn of_typecodes(code: u32, bytes: &[u8], text: &str) -> Option<[Spec; 3]> {
    // OtsType::from_code(u32) -> Option<OtsType>, and code(), width(), chains(), signature_len()
    let ots: OtsType = OtsType::from_code(code)?;
    let _: (u32, u8, u16, u32) = (ots.code(), ots.width(), ots.chains(), ots.signature_len());
    // LmsType::from_code(u32) -> Option<LmsType>, and code(), height()
    let tree: LmsType = LmsType::from_code(code)?;
    let _: (u32, u8) = (tree.code(), tree.height());
    // XmssType::from_code(u32) -> Option<XmssType>, and code(), height(), signature_len()
    let xmss: XmssType = XmssType::from_code(code)?;
    let _: (u32, u8, u32) = (xmss.code(), xmss.height(), xmss.signature_len());
    // coef(s: &[u8], i: u32, w: u8) -> u8
    let _: u8 = coef(&[0x12, 0x34], 7, 1);
    // Name::new(&[u8]) -> Result<Name, BadName>
    let _: Result<Name, BadName> = Name::new(bytes);
    // Spec::parse(&str) -> Result<Spec, BadSpec>
    let _: Result<Spec, BadSpec> = Spec::parse(text);
    // Cursor<'a>, which hands out numbers and slices; ReadFault { place: u32, cause }
    let mut cursor: Cursor<'_> = Cursor::new(bytes);
    let _: Result<u32, ReadFault> = cursor.number();
    let fault = ReadFault {
        place: code,
        cause: Cause::Truncated,
    };
    let _: (u32, Cause) = (fault.place, fault.cause);
    // LmsPair { tree, ots }; Spec::{Lms(LmsPair), Hss(ArrayVec<LmsPair, 8>), Xmss(XmssType)}
    let pair = LmsPair { tree, ots };
    Some([
        Spec::Lms(pair),
        Spec::Hss(Levels::one(pair)),
        Spec::Xmss(xmss),
    ])
}

fn of_winternitz<S: Step>(step: &S, chain: u16, at: u8, value: &[u8; 32]) {
    // Step::step(&self, chain: u16, at: u8, value: &[u8; 32]) -> [u8; 32]
    let _: [u8; 32] = step.step(chain, at, value);
    // climb(step, chain, from, to, value) -> [u8; 32]
    let _: [u8; 32] = climb(step, chain, 0, at, value);
    // digits(width, &[u8; 32]) -> Digits
    let _: Digits = digits(4, value);
}

fn of_merkle<T: TreeHash>(tree: &mut T, nodes: &mut [[u8; 32]; 5], left: &[u8; 32]) {
    // TreeHash::leaf(&mut self, i: u32) -> [u8; 32]
    let leaf: [u8; 32] = tree.leaf(7);
    // TreeHash::join(&self, height: u8, index: u32, left: &[u8; 32], right: &[u8; 32]) -> [u8; 32]
    let _: [u8; 32] = tree.join(0, 3, left, &leaf);
    // root(tree, height)
    let _: [u8; 32] = root(tree, 5);
    // path(tree, height, q, into: &mut [[u8; 32]])
    path(tree, 5, 7, nodes);
    // root_from_path(tree, q, leaf, path)
    let _: [u8; 32] = root_from_path(tree, 7, &leaf, nodes);
}

fn of_path_cache<T: TreeHash + Drop>(
    alloc: Global,
    tree: T,
    nodes: &mut [[u8; 32]; 5],
) -> Result<u64, OutOfMemory>
    requires { T.made tree ≡ 0 }
{
    // PathCache::new(tree, height) -> Result<PathCache, OutOfMemory>
    let mut cache: PathCache<T> = PathCache::new(alloc, tree, 5)?;
    // path_at(q, into)
    cache.path_at(7, nodes);
    // root()
    let _: [u8; 32] = cache.root();
    // leaves_made() -> u64
    Ok(cache.leaves_made())
}

fn of_lmots<M: Message>(key: &LmOts, ots: OtsType, seed: &[u8; 32], message: &mut M) -> [u8; 32] {
    // secret
    let _: [u8; 32] = key.secret(seed, 3);
    // public_hash
    let _: [u8; 32] = key.public_hash(ots, seed);
    // message_digest, over any reader, in pieces; and over a slice, which can't fail
    let _: Result<[u8; 32], MessageFailed> = key.message_digest_from(seed, message);
    let digest: [u8; 32] = key.message_digest(seed, b"firmware");
    // sign_digest
    let mut values = [[0; 32]; 34];
    key.sign_digest(OtsType::W8, seed, &digest, values.as_flattened_mut());
    // hash_from_signature
    key.hash_from_signature(OtsType::W8, &digest, &values)
}

fn of_wots_plus(seed: &Prf, address: &Address, secret: &[u8; 32]) -> [u8; 32] {
    // rand_hash
    let digest: [u8; 32] = rand_hash(seed, address, secret, secret);
    let key = Wots { seed, leaf: 7 };
    // sign_digest
    let mut values = [[0; 32]; WOTS_CHAINS];
    key.sign_digest(secret, &digest, values.as_flattened_mut());
    // l_tree
    let _: [u8; 32] = key.l_tree(&mut values);
    // public_from_signature
    key.public_from_signature(&digest, &values)
}
