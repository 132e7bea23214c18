//! What the commands do with a key on the disk of its state file. Each but `migrate` reads its records once, as it
//! opens the file. Each but `make` tells an alarm, as soon as the file is open, if bytes follow its last record.

ghost use Rattle.std.specs.Prelude.{◌≡◌, vec_capacity};
ghost use Rattle.state_file.specs.FileStore.{disk_of, outcome_of};
ghost use Rattle.command.specs.KeyFile.{AuditsOn, ListsOn, MakesOn, MigratesOn, OpensOn, RetiresOn, ServesOn, SignsFor};
ghost use Rattle.command.specs.KeyFile.{SignsOn};
ghost use Rattle.command.specs.KeyFile.{audit_reported, migrate_reported, serve_reported};
ghost use Rattle.sign_core.specs.Alarm.{TellsBehind};
ghost use Rattle.sign_core.specs.OldFile.{opening_fault};

use crate::refusal::Refusal;
use crate::signing;
use key_audit::{Anchor, AuditFault, ListReplay, Listing, Report};
use sign_core::{
    Alarm, KeyProgress, Replay, ServeFault, SignFault, Signer, Source, TapeSource, TreeProgress,
    serve_telling, warn_behind,
};
use state_file::{Disk, FileStore, MigrateFault, Refused, Store, Version};
use std::alloc::Global;
use std::io::Write;
use typecodes::{Message, Name, Spec};

// A signer's refusal, with the disk of its store.
fn handed_back<D: Disk + Drop, R: Source + Drop>(
    refused: Refused<(FileStore<D>, R), SignFault>,
) -> Refused<D, Refusal>
    ensures fault { result.fault ≡ Refusal.Signer refused.fault }
    ensures given { result.given ≡ disk_of refused.given.0 }
{
    let Refused { fault, given } = refused;
    let (store, _) = given;
    Refused {
        fault: Refusal::Signer(fault),
        given: store.into_disk(),
    }
}

/// Opens the signer of the key on a disk. A refusal hands the disk back.
pub fn open_signer<D: Disk + Drop, R: Source + Drop, A: Alarm>(
    alloc: Global,
    disk: D,
    random: R,
    alarm: &mut A,
) -> Result<Signer<FileStore<D>, R>, Refused<D, Refusal>>
    ensures opens { OpensOn D.Disk ⟦<FileStore<D> as Store>⟧ disk random result }
    ensures tells { TellsBehind D.Disk disk Refusal.Opening (outcome_of result) (A.slots alarm.old)
        (A.slots alarm.new) }
{
    let mut replay = Replay::new(alloc);
    match FileStore::open_into(disk, &mut replay) {
        Ok(store) => {
            warn_behind(&store, alarm);
            match Signer::open_replayed(store, random, replay) {
                Ok(signer) => Ok(signer),
                Err(refused) => Err(handed_back(refused)),
            }
        }
        Err(refused) => Err(Refused {
            fault: Refusal::Opening(refused.fault),
            given: refused.given,
        }),
    }
}

/// Retires the leaves below `upto` of the current bottom tree of the key on a disk, and gives the disk back.
pub fn retire<D: Disk + Drop, A: Alarm>(
    alloc: Global,
    disk: D,
    upto: u32,
    alarm: &mut A,
) -> (D, Result<(), Refusal>)
    ensures retires { RetiresOn D.Disk ⟦<FileStore<D> as Store>⟧ disk result.0 upto result.1 }
    ensures tells { TellsBehind D.Disk disk Refusal.Opening result.1 (A.slots alarm.old) (A.slots alarm.new) }
{
    match open_signer(alloc, disk, TapeSource::new(&[]), alarm) {
        Ok(signer) => {
            let mut signer = signer;
            let retired = signing::retire(&mut signer, upto);
            (signer.into_store().into_disk(), retired)
        }
        Err(refused) => (refused.given, Err(refused.fault)),
    }
}

/// Makes a key on a disk that has none, and gives its signer. A refusal hands the disk back. `progress` hears of the
/// tree that is made.
pub fn make<D: Disk + Drop, R: Source + Drop, P: TreeProgress>(
    alloc: Global,
    disk: D,
    version: Version,
    spec: Spec,
    random: R,
    progress: &P,
) -> Result<Signer<FileStore<D>, R>, Refused<D, Refusal>>
    ensures { MakesOn D.Disk ⟦<FileStore<D> as Store>⟧ R.Source disk version spec random result }
{
    let progress = KeyProgress::of(&spec, progress);
    match FileStore::format(disk) {
        Ok(store) => match Signer::create_telling(alloc, version, spec, store, random, progress) {
            Ok(signer) => Ok(signer),
            Err(refused) => Err(handed_back(refused)),
        },
        Err(refused) => Err(Refused {
            fault: Refusal::Preparing(refused.fault),
            given: refused.given,
        }),
    }
}

// On Ok `signature` has the signature.
fn sign_with<S: Store, R: Source, M: Message, P: TreeProgress>(
    signer: &mut Signer<S, R>,
    name: &Name,
    message: &mut M,
    signature: &mut Vec<u8>,
    progress: &P,
) -> Result<(), Refusal>
    ensures { SignsFor S.Store R.Source M.Message signer.old signer.new name.now message.old message.new
        (vec_capacity signature.old) signature.new.items result }
{
    let progress = &KeyProgress::of(&signer.spec(), progress);
    match signer.sign_telling(name, message, signature, progress) {
        Ok(()) => Ok(()),
        Err(fault) => Err(Refusal::Signer(fault)),
    }
}

/// Signs a message under a name with the key on a disk, and gives the disk back. On Ok `signature` has the signature.
/// `progress` hears of the trees that are made.
pub fn sign<D: Disk + Drop, R: Source + Drop, M: Message, A: Alarm, P: TreeProgress>(
    alloc: Global,
    disk: D,
    random: R,
    name: &Name,
    message: &mut M,
    signature: &mut Vec<u8>,
    alarm: &mut A,
    progress: &P,
) -> (D, Result<(), Refusal>)
    ensures signs { SignsOn D.Disk ⟦<FileStore<D> as Store>⟧ R.Source M.Message disk result.0 random name.now
        message.old message.new (vec_capacity signature.old) signature.new.items result.1 }
    ensures tells { TellsBehind D.Disk disk Refusal.Opening result.1 (A.slots alarm.old) (A.slots alarm.new) }
{
    match open_signer(alloc, disk, random, alarm) {
        Ok(signer) => {
            let mut signer = signer;
            let signed = sign_with(&mut signer, name, message, signature, progress);
            (signer.into_store().into_disk(), signed)
        }
        Err(refused) => (refused.given, Err(refused.fault)),
    }
}

/// Answers each request of the input by a reply on the output, with the key on a disk, up to the input's end. Gives the
/// disk back, and the number of replies. `progress` hears of the trees that are made.
pub fn serve<D: Disk + Drop, R: Source + Drop, I: Message, W: Write, A: Alarm, P: TreeProgress>(
    alloc: Global,
    disk: D,
    random: R,
    input: &mut I,
    output: &mut W,
    alarm: &mut A,
    progress: &P,
) -> (D, Result<u64, Refusal>)
    ensures serves { ServesOn D.Disk ⟦<FileStore<D> as Store>⟧ R.Source I.Message W.contents disk result.0 random
        (input.old, output.old) (input.new, output.new) result.1 }
    ensures tells { TellsBehind D.Disk disk Refusal.Opening result.1 (A.slots alarm.old) (A.slots alarm.new) }
{
    match open_signer(alloc, disk, random, alarm) {
        Ok(signer) => {
            let mut signer = signer;
            let progress = &KeyProgress::of(&signer.spec(), progress);
            let served = serve_reported(serve_telling(alloc, &mut signer, input, output, progress));
            (signer.into_store().into_disk(), served)
        }
        Err(refused) => (refused.given, Err(refused.fault)),
    }
}

fn serve_reported(served: Result<u64, ServeFault>) -> Result<u64, Refusal>
    ensures { result ≡ serve_reported served }
{
    match served {
        Ok(replies) => Ok(replies),
        Err(fault) => Err(Refusal::Serving(fault)),
    }
}

/// Audits the records of a disk, and gives the disk back.
pub fn audit<D: Disk + Drop, A: Alarm>(
    alloc: Global,
    disk: D,
    anchor: Option<Anchor>,
    alarm: &mut A,
) -> (D, Result<Report, Refusal>)
    ensures audits { AuditsOn D.Disk disk result.0 anchor result.1 }
    ensures tells { TellsBehind D.Disk disk Refusal.Opening result.1 (A.slots alarm.old) (A.slots alarm.new) }
{
    let mut replay = Replay::new(alloc);
    match FileStore::open_into(disk, &mut replay) {
        Ok(store) => {
            let mut store = store;
            warn_behind(&store, alarm);
            let audited = reported(key_audit::audit_replayed(&mut store, replay, anchor));
            (store.into_disk(), audited)
        }
        Err(refused) => (refused.given, Err(Refusal::Opening(refused.fault))),
    }
}

/// Lists the records of a disk, and gives the disk back.
pub fn list<D: Disk + Drop, A: Alarm>(
    alloc: Global,
    disk: D,
    alarm: &mut A,
) -> (D, Result<Listing, Refusal>)
    ensures lists { ListsOn D.Disk disk result.0 result.1 }
    ensures tells { TellsBehind D.Disk disk Refusal.Opening result.1 (A.slots alarm.old) (A.slots alarm.new) }
{
    let mut replay = ListReplay::new(alloc);
    match FileStore::open_into(disk, &mut replay) {
        Ok(store) => {
            warn_behind(&store, alarm);
            let listed = reported(key_audit::list_replayed(&store, replay));
            (store.into_disk(), listed)
        }
        Err(refused) => (refused.given, Err(Refusal::Opening(refused.fault))),
    }
}

fn reported<T>(audited: Result<T, AuditFault>) -> Result<T, Refusal>
    ensures { result ≡ audit_reported audited }
{
    match audited {
        Ok(value) => Ok(value),
        Err(fault) => Err(Refusal::Audit(fault)),
    }
}

/// Migrates a key's records from the old disk to the new one. Gives both back, and the new one's number of records.
/// `alarm` is for the old one.
pub fn migrate<D: Disk + Drop, A: Alarm>(
    alloc: Global,
    old: D,
    new: D,
    alarm: &mut A,
) -> (D, D, Result<u32, Refusal>)
    ensures migrates { MigratesOn D.Disk old new result.0 result.1 result.2 }
    ensures tells { TellsBehind D.Disk old (λ fault. Refusal.Migration (opening_fault fault)) result.2
        (A.slots alarm.old) (A.slots alarm.new) }
{
    let (old, new, migrated) = sign_core::migrate_key_telling(alloc, old, new, alarm);
    (old, new, migrate_reported(migrated))
}

fn migrate_reported(migrated: Result<u32, MigrateFault>) -> Result<u32, Refusal>
    ensures { result ≡ migrate_reported migrated }
{
    match migrated {
        Ok(count) => Ok(count),
        Err(fault) => Err(Refusal::Migration(fault)),
    }
}
