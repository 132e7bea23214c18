//! The calls of the schemes: `lms`, `hss` and `xmss`.

ghost use Rattle.std.specs.Prelude.{◌≡◌, ◌≤◌, ◌<◌, length};
ghost use Rattle.hss.specs.Signature.{signature_size};
ghost use Rattle.hss.specs.Writing.{pairs_of};
ghost use Rattle.typecodes.specs.Types.{xmss_height_of};
ghost use Rattle.xmss.specs.View.{tree_of};

use hss::{HssPublic, HssSigView, Level};
use lms::{LmsPublic, LmsSigView};
use typecodes::{
    LmsPair, LmsSecret, LmsType, Message, OtsType, ReadFault, Refusal, XmssSecret, XmssType,
};
use xmss::{XmssPublic, XmssSigView};

fn of_lms<'a, M: Message>(
    public: &LmsPublic,
    message: &mut M,
    view: &LmsSigView<'_>,
    bytes: &'a [u8],
) -> Result<LmsSigView<'a>, ReadFault> {
    // LmsPublic::read(&[u8])
    let _: Result<LmsPublic, ReadFault> = LmsPublic::read(bytes);
    // verify<M: Read>(public, message: &mut M, signature: &[u8]) -> Result<(), Refusal>
    let _: Result<(), Refusal> = lms::verify(public, message, bytes);
    // LmsSigView's index(), types() -> LmsPair, c(), chain(i), node(k), bytes()
    let _: u32 = view.index();
    let types: LmsPair = view.types();
    if types.ots.chains() > 3 && types.tree.height() > 2 {
        let _: &[u8; 32] = view.chain(3);
        let _: &[u8; 32] = view.node(2);
    }
    let _: &[u8; 32] = view.c();
    let _: &[u8] = view.bytes();
    // LmsSigView<'a>::read(&'a [u8])
    LmsSigView::read(bytes)
}

fn of_lms_writers(public: &LmsPublic, seed: [u8; 32]) -> [u8; 1292] {
    // LmsSecret { pair, i, seed }
    let secret = LmsSecret {
        pair: LmsPair {
            tree: LmsType::H5,
            ots: OtsType::W8,
        },
        identifier: [7; 16],
        seed,
    };
    // write_public, into a slice
    lms::write_public(public, &mut [0; 56]);
    // write_signature(secret: &LmsSecret, q, c, digest, path, into)
    let mut signature = [0; 1292];
    lms::write_signature(&secret, 3, &seed, &seed, &[seed; 5], &mut signature);
    signature
}

fn of_hss<'a, M: Message>(
    public: &HssPublic,
    message: &mut M,
    view: &HssSigView<'_>,
    bytes: &'a [u8],
) -> Result<HssSigView<'a>, ReadFault> {
    // HssPublic::read(&[u8])
    let _: Result<HssPublic, ReadFault> = HssPublic::read(bytes);
    // verify<M: Read>(public, message: &mut M, signature: &[u8]) -> Result<(), Refusal>
    let _: Result<(), Refusal> = hss::verify(public, message, bytes);
    // HssSigView's levels(), level(i) -> LmsSigView, key(i) -> LmsPublic for i from 1
    let levels: u8 = view.levels();
    if 1 < levels {
        let _: LmsSigView<'_> = view.level(1);
        let _: LmsPublic = view.key(1);
    }
    // HssSigView<'a>::read(&'a [u8])
    HssSigView::read(bytes)
}

fn of_hss_writers(public: &HssPublic, above: &[Level], bottom: &Level, into: &mut [u8])
    requires levels { length above.now ≤ 7 }
    requires size { length into.old ≡ signature_size (pairs_of above.now bottom.now) }
{
    // write_public, into a slice
    hss::write_public(public, &mut [0; 60]);
    // write_signature, into a slice
    hss::write_signature(above, bottom, into);
}

fn of_xmss<'a, M: Message>(
    public: &XmssPublic,
    message: &mut M,
    view: &XmssSigView<'_>,
    bytes: &'a [u8],
) -> Result<XmssSigView<'a>, ReadFault>
    requires { 9 < xmss_height_of (tree_of view.now) }
{
    // XmssPublic::read(&[u8])
    let _: Result<XmssPublic, ReadFault> = XmssPublic::read(bytes);
    // verify<M: Read>(public, message: &mut M, signature: &[u8]) -> Result<(), Refusal>
    let _: Result<(), Refusal> = xmss::verify(public, message, bytes);
    // XmssSigView's index(), r(), chain(i), node(k), bytes()
    let _: u32 = view.index();
    let _: &[u8; 32] = view.r();
    let _: &[u8; 32] = view.chain(66);
    let _: &[u8; 32] = view.node(9);
    let _: &[u8] = view.bytes();
    // XmssSigView<'a>::read(XmssType, &'a [u8])
    XmssSigView::read(public.tree, bytes)
}

fn of_xmss_writers(public: &XmssPublic, secret_seed: [u8; 32]) -> [u8; 2500] {
    let secret = XmssSecret {
        tree: XmssType::H10,
        secret_seed,
        prf_key: [7; 32],
        public_seed: [8; 32],
    };
    // write_public, into a slice
    xmss::write_public(public, &mut [0; 68]);
    // write_signature, into a slice
    let mut signature = [0; 2500];
    let r = xmss::randomizer(&secret, 3);
    xmss::write_signature(&secret, 3, &r, &r, &[r; 10], &mut signature);
    signature
}
