//! The leaves that a signature uses, each for a digest.

ghost use Rattle.std.specs.Prelude.{◌≡◌, ◌∷◌, [], map};
ghost use Rattle.sign_core.specs.Once.{IsValidUnder};
ghost use Rattle.sign_core.specs.Uses as spec;
ghost use Rattle.std.specs.List.{range_with_len};
ghost use Rattle.lms.specs.View.{signature_of as lms_signature_of};
ghost use Rattle.hss.specs.Signature.{level_count};
ghost use Rattle.hss.specs.View.{signature_of as hss_signature_of};
ghost use Rattle.xmss.specs.View.{signature_of as xmss_signature_of};
ghost use Rattle.sign_core.specs.Uses.{xmss_use};
ghost use Rattle.key_audit.specs.inner.Uses.{AreUsesOf, hss_use_at, kept_use};

use crate::leaf::Leaf;
use arrayvec::ArrayVec;
use hss::HssSigView;
use lmots::LmOts;
use lms::{LmsPublic, LmsSigView};
use sign_core::AnyPublic;
use xmss::{XmssPublic, XmssSigView};

/// A leaf, and a digest that it signs.
#[derive(Default, Drop)]
pub(crate) struct LeafUse {
    pub(crate) leaf: Leaf,
    pub(crate) digest: [u8; 32],
}

/// A valid signature's uses, one for each level from the top down.
pub(crate) fn uses_of(public: &AnyPublic, message: &[u8], signature: &[u8]) -> ArrayVec<LeafUse, 8>
    requires { IsValidUnder public.now message.now signature.now }
    ensures { AreUsesOf public.now message.now signature.now result.items }
{
    match public {
        AnyPublic::Lms(key) => match LmsSigView::read(signature) {
            Ok(view) => only(lms_use(key, &view, message)),
            Err(_) => unreachable!(),
        },
        AnyPublic::Hss(key) => match HssSigView::read(signature) {
            Ok(view) => hss_uses(&key.top, &view, message),
            Err(_) => unreachable!(),
        },
        AnyPublic::Xmss(key) => match XmssSigView::read(key.tree, signature) {
            Ok(view) => only(xmss_use(key, &view, message)),
            Err(_) => unreachable!(),
        },
    }
}

fn only(used: LeafUse) -> ArrayVec<LeafUse, 8>
    ensures { result.items ≡ used ∷ [] }
{
    let mut uses = ArrayVec::new();
    uses.push(used);
    uses
}

fn lms_use(key: &LmsPublic, signature: &LmsSigView<'_>, message: &[u8]) -> LeafUse
    ensures { result ≡ kept_use (spec.lms_use key.now message.now (lms_signature_of signature.now)) }
{
    let leaf = signature.index();
    let one_time = LmOts {
        identifier: key.identifier,
        leaf,
    };
    LeafUse {
        leaf: Leaf::new(&key.identifier, leaf),
        digest: one_time.message_digest(signature.c(), message),
    }
}

fn hss_uses(top: &LmsPublic, signature: &HssSigView<'_>, message: &[u8]) -> ArrayVec<LeafUse, 8>
    ensures { result.items ≡ map (hss_use_at top.now message.now (hss_signature_of signature.now))
        (range_with_len 0 (level_count (hss_signature_of signature.now))) }
{
    let mut uses = ArrayVec::new();
    let mut key = *top;
    for level in 0..signature.levels() - 1 {
        let next = signature.key(level + 1);
        uses.push(lms_use(&key, &signature.level(level), &next.to_bytes()));
        key = next;
    }
    uses.push(lms_use(&key, &signature.bottom(), message));
    uses
}

fn xmss_use(key: &XmssPublic, signature: &XmssSigView<'_>, message: &[u8]) -> LeafUse
    ensures { result ≡ kept_use (xmss_use key.now message.now (xmss_signature_of signature.now)) }
{
    let mut identifier = [0; 68];
    xmss::write_public(key, &mut identifier);
    let leaf = signature.index();
    LeafUse {
        leaf: Leaf::new(&identifier, leaf),
        digest: xmss::message_digest(signature.r(), &key.root, leaf, message),
    }
}
