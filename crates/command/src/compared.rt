//! Whether a signature could be a key's, by their fields, without verifying.

ghost use Rattle.std.specs.Prelude.{◌≡◌, ◌↔◌, true};
ghost use Rattle.command.specs.Compared.{Compares, ComparesFiles, ComparesKey, ComparesWith, CouldBe, CouldBeHss};
ghost use Rattle.command.specs.Compared.{CouldBeLms, CouldBeXmss, SignatureHasFault};
ghost use Rattle.command.specs.Described.{SpellNoSignature};

use crate::answer::{Answer, Done};
use crate::described::describe_signature;
use crate::files;
use crate::files::LineFiles;
use crate::refusal::Refusal;
use crate::trace::Role;
use hss::{HssPublic, HssSigView};
use lms::{LmsPublic, LmsSigView};
use sign_core::{AnyPublic, KeyFault};
use std::alloc::Global;
use typecodes::{LmsPair, ReadFault, Refusal as SignatureRefusal};
use xmss::{XmssPublic, XmssSigView};

/// Opens a signature's file and then a public key's, and says what the signature is, and whether it could be this
/// key's.
///
/// 53: a file can't be opened or read. 46: memory for a signature was refused. 6, 2 or 3: PUBLIC is no public key. 1 to
/// 5: SIGNATURE is no signature, as `verify` says.
pub fn compare_files<'a, D: LineFiles<'a>>(
    alloc: Global,
    folder: &mut D,
    signature: &'a str,
    public: &'a str,
) -> Answer
    ensures { ComparesFiles (D.content folder.old) signature.now public.now result (D.trace folder.old)
        (D.trace folder.new) }
{
    let first = files::read_signature_file(alloc, folder, Role::Signature, signature)?;
    compare_with(folder, first.as_slice(), public)
}

fn compare_with<'a, D: LineFiles<'a>>(folder: &mut D, first: &[u8], public: &'a str) -> Answer
    ensures { ComparesWith (D.content folder.old) first.now public.now result (D.trace folder.old)
        (D.trace folder.new) }
{
    let key = files::read_key_file(folder, Role::Public, public)?;
    compare(key, first)
}

fn compare(key: Result<AnyPublic, KeyFault>, signature: &[u8]) -> Answer
    ensures { Compares key signature.now result }
{
    match key {
        Ok(key) => compare_key(&key, signature),
        Err(fault) => Err(Refusal::Key(fault)),
    }
}

fn compare_key(key: &AnyPublic, signature: &[u8]) -> Answer
    ensures { ComparesKey key.now signature.now result }
{
    match describe_signature(signature) {
        Some(described) => Ok(Done::Described(described, Some(could_be(key, signature)))),
        None => {
            let fault = fault_of(key, signature);
            Err(Refusal::Signature(SignatureRefusal::Unreadable(fault)))
        }
    }
}

fn could_be(key: &AnyPublic, signature: &[u8]) -> bool
    ensures { (result ≡ true) ↔ CouldBe key.now signature.now }
{
    match key {
        AnyPublic::Lms(key) => could_be_lms(key, signature),
        AnyPublic::Hss(key) => could_be_hss(key, signature),
        AnyPublic::Xmss(key) => could_be_xmss(key, signature),
    }
}

fn could_be_lms(key: &LmsPublic, signature: &[u8]) -> bool
    ensures { (result ≡ true) ↔ CouldBeLms key.now signature.now }
{
    match LmsSigView::read(signature) {
        Ok(view) => are_same(view.types(), key.pair),
        Err(_) => false,
    }
}

fn are_same(types: LmsPair, others: LmsPair) -> bool
    ensures { (result ≡ true) ↔ (types ≡ others) }
{
    if types == others {
        return true;
    }
    false
}

fn could_be_hss(key: &HssPublic, signature: &[u8]) -> bool
    ensures { (result ≡ true) ↔ CouldBeHss key.now signature.now }
{
    match HssSigView::read(signature) {
        Ok(view) => {
            if view.levels() != key.levels.get() {
                return false;
            }
            are_same(view.level(0).types(), key.top.pair)
        }
        Err(_) => false,
    }
}

fn could_be_xmss(key: &XmssPublic, signature: &[u8]) -> bool
    ensures { (result ≡ true) ↔ CouldBeXmss key.now signature.now }
{
    match XmssSigView::read(key.tree, signature) {
        Ok(_) => true,
        Err(_) => false,
    }
}

fn fault_of(key: &AnyPublic, signature: &[u8]) -> ReadFault
    requires { SpellNoSignature signature.now }
    ensures { SignatureHasFault key.now signature.now result }
{
    match key {
        AnyPublic::Lms(_) => match LmsSigView::read(signature) {
            Ok(_) => unreachable!(),
            Err(fault) => fault,
        },
        AnyPublic::Hss(_) => match HssSigView::read(signature) {
            Ok(_) => unreachable!(),
            Err(fault) => fault,
        },
        AnyPublic::Xmss(key) => match XmssSigView::read(key.tree, signature) {
            Ok(_) => unreachable!(),
            Err(fault) => fault,
        },
    }
}
