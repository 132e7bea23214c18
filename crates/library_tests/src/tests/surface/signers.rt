//! The calls of `sign_core` and `key_audit`.

ghost use Rattle.std.specs.Prelude.{◌≤◌};

use arrayvec::ArrayVec;
use key_audit::{Anchor, AuditFault, Given, GivenFault, Report, audit, check_given};
use rand_core::TryRng;
use sign_core::{
    AnyPublic, KeyFault, Ledger, LedgerFault, RngSource, ServeFault, SignFault, Signer, Source,
    SourceFault, TapeSource, migrate_key, once_law, serve, verify_any,
};
use state_file::{Disk, FileStore, MigrateFault, Record, Refused, Store, Version};
use std::alloc::Global;
use std::io::Write;
use typecodes::{Message, Name, Refusal, Spec};

fn of_public<M: Message>(
    message: &mut M,
    bytes: &[u8],
    signature: &[u8],
) -> Result<ArrayVec<u8, 68>, KeyFault> {
    // AnyPublic::read(&[u8])
    let public: AnyPublic = AnyPublic::read(bytes)?;
    // verify_any(public, message, signature)
    let _: Result<(), Refusal> = verify_any(&public, message, signature);
    // AnyPublic::write(&self) -> ArrayVec<u8, 68>
    Ok(public.write())
}

fn of_ledger(alloc: Global, records: &[Record]) -> Result<Ledger, LedgerFault> {
    // Ledger::replay(&[Record]) -> Result<Ledger, LedgerFault>
    Ledger::replay(alloc, records)
}

fn of_sources<T: TryRng>(bytes: &[u8], rng: T) -> RngSource<T> {
    // Source::fill(&mut self, into: &mut [u8]) -> Result<(), SourceFault>, of TapeSource and RngSource<T: TryRng>
    let _: Result<(), SourceFault> = TapeSource::new(bytes).fill(&mut [0; 16]);
    let mut source: RngSource<T> = RngSource::new(rng);
    let _: Result<(), SourceFault> = source.fill(&mut [0; 16]);
    source
}

// create(spec, store, random), which answers the signer or Refused<(S, R), SignFault>
fn of_create<S: Store, R: Source>(
    alloc: Global,
    spec: Spec,
    store: S,
    random: R,
) -> Result<Signer<S, R>, Refused<(S, R), SignFault>>
    requires { 1 ≤ S.most store }
{
    Signer::create(alloc, spec, store, random)
}

// create_in(version: Version, spec, store, random)
fn of_create_in<S: Store, R: Source>(
    alloc: Global,
    version: Version,
    spec: Spec,
    store: S,
    random: R,
) -> Result<Signer<S, R>, Refused<(S, R), SignFault>>
    requires { 1 ≤ S.most store }
{
    Signer::create_in(alloc, version, spec, store, random)
}

// open(store, random), which answers the signer or Refused<(S, R), SignFault>
fn of_open<S: Store, R: Source>(
    alloc: Global,
    store: S,
    random: R,
) -> Result<Signer<S, R>, Refused<(S, R), SignFault>> {
    Signer::open(alloc, store, random)
}

fn of_signer<S: Store, R: Source + Drop, M: Message>(
    mut signer: Signer<S, R>,
    name: &Name,
    message: &mut M,
    out: &mut Vec<u8>,
) -> S {
    // public_key() -> AnyPublic; left() -> ArrayVec<u32, 8>
    let _: (AnyPublic, ArrayVec<u32, 8>) = (signer.public_key(), signer.left());
    // sign(&mut self, name: &Name, message: &mut M, out: &mut Vec<u8>) -> Result<(), SignFault>
    let _: Result<(), SignFault> = signer.sign(name, message, out);
    // retire(upto: u32)
    let _: Result<(), SignFault> = signer.retire(5);
    // cache_leaves(level: u8) -> Option<u64>
    let _: Option<u64> = signer.cache_leaves(0);
    // into_store(self) -> S
    signer.into_store()
}

// serve(signer, reader, writer) -> Result<u64, ServeFault>
fn of_serve<S: Store, R: Source, I: Message, W: Write>(
    alloc: Global,
    signer: &mut Signer<S, R>,
    reader: &mut I,
    writer: &mut W,
) -> Result<u64, ServeFault> {
    serve(alloc, signer, reader, writer)
}

fn of_law_and_migration<D: Disk + Drop, E: Disk + Drop>(alloc: Global, old: D, new: E) -> (D, E) {
    // once_law()
    once_law();
    // migrate_key(old: D, new: E) -> (D, E, Result<u32, MigrateFault>)
    let (old, new, _): (D, E, Result<u32, MigrateFault>) = migrate_key(alloc, old, new);
    (old, new)
}

fn of_audits<D: Disk + Drop>(
    alloc: Global,
    store: &mut FileStore<D>,
    public: &AnyPublic,
    given: &[Given],
) -> Result<Report, AuditFault> {
    // check_given(public: &AnyPublic, given: &[Given]) -> Result<(), GivenFault>, with
    // Given { message: Vec<u8>, signature: Vec<u8> }
    let _: Result<(), GivenFault> = check_given(alloc, public, given);
    // audit(store: &mut FileStore<D>, anchor: Option<Anchor>) -> Result<Report, AuditFault>, with
    // Anchor { count, tag }
    let anchor = Anchor {
        count: 1,
        tag: [7; 32],
    };
    audit(alloc, store, Some(anchor))
}

// Report { public: AnyPublic, records: u32, tag: [u8; 32], left: ArrayVec<u32, 8>, moved: Option<u16> }
fn of_report(report: Report) -> (AnyPublic, u32, [u8; 32], ArrayVec<u32, 8>, Option<u16>) {
    let Report {
        public,
        records,
        tag,
        left,
        moved,
    } = report;
    (public, records, tag, left, moved)
}
