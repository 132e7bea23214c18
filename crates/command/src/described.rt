//! What a public key or a signature says of itself, without verifying.

ghost use Rattle.std.specs.Prelude.{◌≡◌, ◌<◌, map};
ghost use Rattle.std.specs.List.{range_with_len};
ghost use Rattle.hss.specs.Signature.{level_count};
ghost use Rattle.hss.specs.View.{signature_of as hss_fields};
ghost use Rattle.xmss.specs.Signature.{signature as xmss_signature};
ghost use Rattle.command.specs.Described.{DescribesFile, DescribesStart, IsDescription, SpellNoHss, SpellNoSignature};
ghost use Rattle.command.specs.Described.{SpellNoXmss, SpellNone, SpellNothing, carried_identifier, described_answer};
ghost use Rattle.command.specs.Described.{signed_level, signed_levels};

use crate::answer::{Answer, Done};
use crate::files;
use crate::files::{DECISIVE, LineFiles};
use crate::refusal::Refusal;
use crate::trace::Role;
use arrayvec::ArrayVec;
use hss::HssSigView;
use lms::LmsSigView;
use sign_core::AnyPublic;
use state_file::OpenFault;
use std::alloc::Global;
use typecodes::{LmsPair, LmsType, OtsType, XmssType};
use xmss::XmssSigView;

/// A level of an HSS signature.
#[derive(Clone, Copy, Debug, PartialEq, Eq)]
pub struct SignedLevel {
    /// The types of its tree.
    pub pair: LmsPair,
    /// The leaf that signs.
    pub leaf: u32,
    /// I of its public key, which the level above signs; None at the top, whose key isn't in the signature.
    pub identifier: Option<[u8; 16]>,
}

// For the room of a list, in which nothing is read that wasn't put there.
impl Default for SignedLevel {
    fn default() -> Self {
        SignedLevel {
            pair: LmsPair {
                tree: LmsType::H5,
                ots: OtsType::W1,
            },
            leaf: 0,
            identifier: None,
        }
    }
}

/// What bytes are.
#[derive(Debug, Drop, PartialEq)]
pub enum Described {
    /// A public key.
    Public(AnyPublic),
    /// A signature of LMS, by this leaf.
    LmsSignature { pair: LmsPair, leaf: u32 },
    /// A signature of HSS, of these levels from the top down.
    HssSignature(ArrayVec<SignedLevel, 8>),
    /// A signature of XMSS, by this leaf.
    XmssSignature { tree: XmssType, leaf: u32 },
}

/// Opens a file and says which public key or signature it is. 40: it is neither. 53: it can't be opened or read. 46:
/// memory for its bytes was refused.
pub fn describe_file<'a, D: LineFiles<'a>>(alloc: Global, folder: &mut D, path: &'a str) -> Answer
    ensures { DescribesFile (D.content folder.old) path.now result (D.trace folder.old) (D.trace folder.new) }
{
    let first = files::read_signature_file(alloc, folder, Role::Signature, path)?;
    describe_start(first.as_slice())
}

// The longest signature has one byte less than `DECISIVE`.
fn describe_start(first: &[u8]) -> Answer
    ensures { DescribesStart first.now result }
{
    if first.len() == DECISIVE {
        return described_answer(None);
    }
    described_answer(describe(first))
}

fn described_answer(described: Option<Described>) -> Answer
    ensures { result ≡ described_answer described }
{
    match described {
        Some(described) => Ok(Done::Described(described, None)),
        None => Err(Refusal::Opening(OpenFault::NoKey)),
    }
}

// No bytes are two of these: the length tells keys and signatures of LMS, HSS and XMSS apart.
fn describe(bytes: &[u8]) -> Option<Described>
    ensures { IsDescription (SpellNothing bytes.now) bytes.now result }
{
    match AnyPublic::read(bytes) {
        Ok(key) => Some(Described::Public(key)),
        Err(_) => describe_signature(bytes),
    }
}

/// The signature that the bytes spell, if they do.
pub fn describe_signature(bytes: &[u8]) -> Option<Described>
    ensures { IsDescription (SpellNoSignature bytes.now) bytes.now result }
{
    match LmsSigView::read(bytes) {
        Ok(view) => Some(Described::LmsSignature {
            pair: view.types(),
            leaf: view.index(),
        }),
        Err(_) => describe_hss(bytes),
    }
}

fn describe_hss(bytes: &[u8]) -> Option<Described>
    ensures { IsDescription (SpellNoHss bytes.now) bytes.now result }
{
    match HssSigView::read(bytes) {
        Ok(view) => Some(Described::HssSignature(levels_of(&view))),
        Err(_) => describe_xmss(bytes),
    }
}

fn levels_of(view: &HssSigView<'_>) -> ArrayVec<SignedLevel, 8>
    ensures { result.items ≡ signed_levels (hss_fields view.now) }
{
    let mut levels = ArrayVec::new();
    for i in 0..view.levels() {
        levels.push(level_of(view, i));
    }
    levels
}

fn level_of(view: &HssSigView<'_>, i: u8) -> SignedLevel
    requires { i < level_count (hss_fields view.now) }
    ensures { result ≡ signed_level (hss_fields view.now) i }
{
    let level = view.level(i);
    SignedLevel {
        pair: level.types(),
        leaf: level.index(),
        identifier: carried_identifier(view, i),
    }
}

fn carried_identifier(view: &HssSigView<'_>, i: u8) -> Option<[u8; 16]>
    requires { i < level_count (hss_fields view.now) }
    ensures { result ≡ carried_identifier (hss_fields view.now) i }
{
    if i < 1 {
        return None;
    }
    Some(view.key(i).identifier)
}

// A signature of XMSS doesn't name its type, which its length gives.
fn describe_xmss(bytes: &[u8]) -> Option<Described>
    ensures { IsDescription (SpellNoXmss bytes.now) bytes.now result }
{
    match describe_as(XmssType::H10, bytes) {
        Some(described) => Some(described),
        None => match describe_as(XmssType::H16, bytes) {
            Some(described) => Some(described),
            None => describe_as(XmssType::H20, bytes),
        },
    }
}

fn describe_as(tree: XmssType, bytes: &[u8]) -> Option<Described>
    ensures { IsDescription (SpellNone (xmss_signature tree) bytes.now) bytes.now result }
{
    match XmssSigView::read(tree, bytes) {
        Ok(view) => Some(Described::XmssSignature {
            tree,
            leaf: view.index(),
        }),
        Err(_) => None,
    }
}
