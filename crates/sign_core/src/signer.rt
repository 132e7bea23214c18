//! The signer over a store of records.

ghost use Rattle.std.specs.Prelude.{◌≡◌, ◌<◌, ◌≤◌, ◌-◌, ◌^◌, true, false, Some, Ok, Err, length, IfErr, IfOk};
ghost use Rattle.std.specs.Prelude.{None, OnOk};
ghost use Rattle.sign_core.specs.Records.{types_of};
ghost use Rattle.sign_core.specs.inner.Progress.{height_at};
ghost use Rattle.sign_core.specs.inner.Signer.{DrawsSecret, Hinders, IsTakenUp};
ghost use Rattle.sign_core.specs.Signer.{IsTied, LoadsAll, MakesKey};
ghost use Rattle.sign_core.specs.inner.Replay.{TakesOver};
ghost use Rattle.sign_core.specs.inner.Signer.{LoadsRecord, LooksForKey, TakesUpLoaded, loading_fault};
ghost use Rattle.sign_core.specs.Textbook.{HasSizes, key_root};
ghost use Rattle.typecodes.specs.Spec.{IsSpec};

mod bind;
mod repeat;
mod sign;

use crate::caches::Caches;
use crate::fault::SignFault;
use crate::key::AnyPublic;
use crate::ledger::{Ledger, LedgerFault};
use crate::progress::{KeyProgress, TreeMaker, TreeProgress};
use crate::replay::Replay;
use crate::source::{Source, draw};
use arrayvec::ArrayVec;
use merkle::Silent;
use state_file::{Key, Record, Refused, Secret, Store, StoreFault, Version};
use std::alloc::Global;
use std::marker::Model;
use typecodes::{LmsSecret, Spec, XmssSecret};

/// Signs messages under names, each new name with a leaf of its own. What it signed stands in its store, and it draws
/// its secrets and randomizers from its source.
#[derive(Drop)]
pub struct Signer<S: Store, R: Source> {
    store: S,
    random: R,
    ledger: Ledger,
    caches: Caches,
    is_open: bool,
}

impl<S: Store, R: Source> Model for Signer<S, R> {
    ghost use Rattle.std.specs.Prelude.{◌≡◌, Some};
    ghost use Rattle.sign_core.specs.Records.{the_key};
    ghost use Rattle.sign_core.specs.Signer.{IsSigner, View, view_of};

    ghost Value = { View S R };

    ghost view = { λ s. view_of s.store s.random s.ledger s.caches s.is_open };

    ghost invariant = { λ s. IsSigner S.Store (view_of s.store s.random s.ledger s.caches s.is_open)
        × (the_key s.ledger.records ≡ Some s.ledger.key) };
}

// Refuses a store that has a record, or can't be read.
fn load_first<S: Store>(store: &mut S) -> Result<(), SignFault>
    ensures { LooksForKey S.Store store.old store.new result }
{
    match load_at(store, 0) {
        Ok(None) => Ok(()),
        Ok(Some(_)) => Err(SignFault::KeyThere),
        Err(SignFault::DeviceFailed) => Err(SignFault::StoreFailed),
        Err(SignFault::NoMemoryToOpen) => Err(SignFault::OutOfMemory),
        Err(fault) => Err(fault),
    }
}

fn draw_secret<R: Source>(spec: &Spec, random: &mut R) -> Result<Secret, SignFault>
    ensures draws { DrawsSecret R.Source spec.now random.old random.new result }
    ensures spec { OnOk result (IsSpec spec.now) }
    ensures types { IfOk result (λ secret. types_of secret ≡ spec.now) }
{
    match spec {
        Spec::Lms(pair) => Ok(Secret::Lms(LmsSecret::new(*pair, draw(random)?, draw(random)?))),
        Spec::Hss(levels) => Ok(Secret::Hss {
            levels: levels.copied(),
            identifier: draw(random)?,
            seed: draw(random)?,
        }),
        Spec::Xmss(tree) => Ok(Secret::Xmss(XmssSecret {
            tree: *tree,
            secret_seed: draw(random)?,
            prf_key: draw(random)?,
            public_seed: draw(random)?,
        })),
    }
}

// The types of a secret's trees.
pub fn types_of(secret: &Secret) -> Spec
    ensures { result ≡ types_of secret.now }
{
    match secret {
        Secret::Lms(secret) => Spec::Lms(secret.pair),
        Secret::Hss { levels, .. } => Spec::Hss(levels.copied()),
        Secret::Xmss(secret) => Spec::Xmss(secret.tree),
    }
}

// The root of a key's top tree.
fn root_of<P: TreeProgress>(secret: &Secret, maker: TreeMaker<'_, P>) -> [u8; 32]
    requires { height_at (types_of secret.now) 0 ≡ Some maker.height }
    ensures { result ≡ key_root secret.now }
{
    match secret {
        Secret::Lms(secret) => maker.root(*secret).0,
        Secret::Hss {
            levels,
            identifier,
            seed,
        } => maker
            .root(LmsSecret::new(levels.as_slice()[0], *identifier, *seed))
            .0,
        Secret::Xmss(secret) => maker.root(*secret).0,
    }
}

// Makes a key in a store without records, and appends its record.
fn create_key<S: Store, R: Source, P: TreeProgress>(
    alloc: Global,
    version: Version,
    spec: &Spec,
    store: &mut S,
    random: &mut R,
    maker: TreeMaker<'_, P>,
) -> Result<Ledger, SignFault>
    requires room { 1 ≤ S.most store.old }
    requires top { height_at spec.now 0 ≡ Some maker.height }
    ensures makes { MakesKey S.Store R.Source version spec.now store.old store.new random.old random.new
        (IsTakenUp result) }
    ensures tied { IfOk result (λ table. IsTied S.Store store.new table.records) }
{
    load_first(store)?;
    let secret = draw_secret(spec, random)?;
    let root = root_of(&secret, maker);
    let key = Key {
        version,
        secret,
        root,
    };
    store
        .append(&Record::Key(key.copied()))
        .map_err(|fault| match fault {
            StoreFault::OutOfMemory => SignFault::OutOfMemory,
            _ => SignFault::StoreFailed,
        })?;
    Ok(Ledger::new(alloc, key))
}

// Loads record `slot`, None after the last, with an opening's faults.
fn load_at<S: Store>(store: &mut S, slot: u32) -> Result<Option<Record>, SignFault>
    ensures { LoadsRecord S.Store store.old store.new slot result }
{
    match store.load(slot) {
        Ok(found) => Ok(found),
        Err(StoreFault::Stopped) => Err(SignFault::Stopped),
        Err(StoreFault::Damaged(slot)) => Err(SignFault::Unreadable(slot)),
        Err(StoreFault::DeviceFailed) => Err(SignFault::DeviceFailed),
        Err(StoreFault::OutOfMemory) => Err(SignFault::NoMemoryToOpen),
        Err(StoreFault::Full) => unreachable!(),
    }
}

// What an opening answers where a record is refused.
fn loading_fault(fault: LedgerFault) -> SignFault
    ensures { result ≡ loading_fault fault }
{
    match fault {
        LedgerFault::Empty => SignFault::NoKey,
        LedgerFault::Illegal(place) => SignFault::Illegal(place),
        LedgerFault::OutOfMemory => SignFault::NoMemoryToOpen,
    }
}

// Takes up the next loaded record: 44 where it can't follow, else 46.
fn take_up(ledger: &mut Ledger, entry: &Record) -> Result<(), SignFault>
    ensures { TakesUpLoaded ledger.old ledger.new entry.now result }
{
    ledger.take_up(entry).map_err(loading_fault)
}

// The ledger of the records that a replay took, with an opening's faults.
fn take_over(replay: Replay) -> Result<Ledger, SignFault>
    ensures { TakesOver replay result }
{
    match replay.finish() {
        Ok(ledger) => {
            // For the prover: its records have their sizes.
            let _key = ledger.key();
            Ok(ledger)
        }
        Err(LedgerFault::Empty) => Err(SignFault::NoKey),
        Err(LedgerFault::Illegal(place)) => Err(SignFault::Illegal(place)),
        Err(LedgerFault::OutOfMemory) => Err(SignFault::NoMemoryToOpen),
    }
}

// Loads the records of a store in their order, and takes them up.
fn load_all<S: Store>(alloc: Global, store: &mut S) -> Result<Ledger, SignFault>
    ensures loads { LoadsAll S.Store store.old store.new (IsTakenUp result) }
    ensures tied { IfOk result (λ table. IsTied S.Store store.new table.records) }
{
    let key = match load_at(store, 0)? {
        Some(Record::Key(key)) => key,
        Some(_) => return Err(SignFault::Illegal(0)),
        None => return Err(SignFault::NoKey),
    };
    let mut ledger = Ledger::new(alloc, key);
    for slot in 1..store.limit() {
        match load_at(store, slot)? {
            Some(entry) => take_up(&mut ledger, &entry)?,
            None => return Ok(ledger),
        }
    }
    Ok(ledger)
}

impl<S: Store, R: Source> Signer<S, R> {
    ghost use Rattle.sign_core.specs.Records.{can_follow, free_counts, has_moved, the_key};
    ghost use Rattle.sign_core.specs.Progress.{types_of_key};
    ghost use Rattle.state_file.specs.declared.record.Key.{Key as K};
    ghost use Rattle.sign_core.specs.Textbook.{public_of_key};
    ghost use Rattle.sign_core.specs.inner.Signer.{Adds, HoldsParts, AreBottomLeaves};
    ghost use Rattle.sign_core.specs.Signer.{Creates, Opens, OpensReplayed, Retires, is_before_caches};
    ghost use Rattle.sign_core.specs.Signer.{IsSigner, is_before_repeat};
    ghost use Rattle.sign_core.specs.Signing.{is_unprepared};
    ghost use Rattle.sign_core.specs.Ledger.{TakesMemory};
    ghost use Rattle.state_file.specs.Slot.{FitsVersion, file_version};
    ghost use Rattle.state_file.specs.declared.record.Version.TheVariants.{One};

    /// Makes a key of version 1 in a store that has none, and its signer, as `create_in`.
    pub fn create(
        alloc: Global,
        spec: Spec,
        store: S,
        random: R,
    ) -> Result<Self, Refused<(S, R), SignFault>>
        requires room { 1 ≤ S.most store }
        ensures { Creates S.Store R.Source One spec store random result }
    {
        Signer::create_in(alloc, Version::One, spec, store, random)
    }

    /// Makes a key of this version in a store that has none, and its signer, as `create_telling`. The store must take
    /// at least one record.
    pub fn create_in(
        alloc: Global,
        version: Version,
        spec: Spec,
        store: S,
        random: R,
    ) -> Result<Self, Refused<(S, R), SignFault>>
        requires room { 1 ≤ S.most store }
        ensures { Creates S.Store R.Source version spec store random result }
    {
        let silent = Silent::new();
        let progress = KeyProgress::of(&spec, &silent);
        Signer::create_telling(alloc, version, spec, store, random, progress)
    }

    /// Makes a key in a store that has none, and its signer: draws the key's secret, makes the top tree's root, and
    /// appends the key's record. `progress` tells of the top tree while its root is made. It takes no memory of its
    /// own. A refusal gives back the store and the source.
    ///
    /// The store must take at least one record. Where record 0 is there or can't be loaded, the source is as it was.
    /// Record 0 is loaded once, and no other.
    pub fn create_telling<P: TreeProgress>(
        alloc: Global,
        version: Version,
        spec: Spec,
        mut store: S,
        mut random: R,
        progress: KeyProgress<'_, P>,
    ) -> Result<Self, Refused<(S, R), SignFault>>
        requires room { 1 ≤ S.most store }
        requires progress { progress.spec ≡ spec }
        ensures { Creates S.Store R.Source version spec store random result }
    {
        let top = progress.top_maker();
        let made = create_key(alloc, version, &spec, &mut store, &mut random, top);
        Signer::holding(alloc, store, random, made)
    }

    /// Opens the signer on the records of a store, loaded in their order. A refusal gives back the store and the
    /// source.
    ///
    /// Each slot is loaded once, from 0 on, and none after the first that is refused: the earliest record's refusal is
    /// answered. 46 comes only where the store counts a refusal, or where a loaded record takes memory or is the
    /// 2^32nd. That memory was indeed refused for an Extend or a Bound is tested.
    pub fn open(alloc: Global, mut store: S, random: R) -> Result<Self, Refused<(S, R), SignFault>>
        ensures { Opens S.Store store random result }
    {
        let loaded = load_all(alloc, &mut store);
        Signer::holding(alloc, store, random, loaded)
    }

    /// Opens the signer on the records of a store that a replay took, as `FileStore::open_into` hands them over. It
    /// loads no slot, and leaves the store as it was. The refusals are those of `open` where each load succeeds: 40, 44
    /// and 46, by the earliest record. A refusal gives back the store and the source.
    ///
    /// The store must run, and the replay must have taken its records.
    pub fn open_replayed(
        store: S,
        random: R,
        replay: Replay,
    ) -> Result<Self, Refused<(S, R), SignFault>>
        requires running { S.stopped store ≡ false }
        requires taken { replay ≡ S.list store }
        ensures { OpensReplayed S.Store store random result }
    {
        let alloc = replay.alloc();
        let taken = take_over(replay);
        Signer::holding(alloc, store, random, taken)
    }

    // The open signer of a store's records in memory; or the refusal, with what was given.
    fn holding(
        alloc: Global,
        store: S,
        random: R,
        ledger: Result<Ledger, SignFault>,
    ) -> Result<Self, Refused<(S, R), SignFault>>
        requires tied { IfOk ledger (λ table. IsTied S.Store store table.records) }
        ensures { HoldsParts store random ledger result }
    {
        match ledger {
            Ok(ledger) => Ok(Signer {
                store,
                random,
                ledger,
                caches: Caches::new(alloc),
                is_open: true,
            }),
            Err(fault) => Err(Refused {
                fault,
                given: (store, random),
            }),
        }
    }

    /// A signer keeps its invariant, whatever its calls answer. Its records are legal. While it is open they are its
    /// store's, which runs; where it is closed its store has stopped.
    ///
    /// It does nothing. Chains of calls (`headline_law`) have this of the signer after each call.
    pub fn keeps_invariant(&self)
        ensures { IsSigner S.Store self.now }
    {
        // For the prover: reading a field shows the invariant.
        let _ = &self.store;
    }

    /// The types of the key's trees.
    pub fn spec(&self) -> Spec
        ensures { types_of_key (the_key self.now.records) ≡ Some result }
    {
        types_of(&self.ledger.key().secret)
    }

    /// The public key of record 0. It takes no memory.
    pub fn public_key(&self) -> AnyPublic
        ensures { public_of_key (the_key self.now.records) ≡ Some result }
    {
        self.ledger.public_key()
    }

    /// The number of free leaves in each level's current tree, from the top down; 0 for a level without one. It takes
    /// no memory.
    pub fn left(&self) -> ArrayVec<u32, 8>
        ensures { (key : K) → the_key self.now.records ≡ Some key →
            result.items ≡ free_counts key.secret self.now.records }
    {
        self.ledger.left()
    }

    // Refuses a closed signer (26), or records that go on in another file (31).
    fn check_open(&self) -> Result<(), SignFault>
        ensures open { OnOk result (self.now.is_open ≡ true) }
        ensures stays { OnOk result (has_moved self.now.records ≡ false) }
        ensures refused { IfErr result (λ fault. Hinders self.now.is_open (has_moved self.now.records) fault) }
        ensures early { IfErr result (λ fault. is_unprepared is_before_caches fault ≡ true) }
        ensures early_repeat { IfErr result (λ fault. is_unprepared is_before_repeat fault ≡ true) }
    {
        if !self.is_open {
            return Err(SignFault::Stopped);
        }
        if self.ledger.has_moved() {
            return Err(SignFault::Moved);
        }
        Ok(())
    }

    // Appends a record and takes it up. 29 where memory is refused for the append; else 25, which closes the signer.
    fn add(&mut self, entry: Record) -> Result<(), SignFault>
        requires open { self.old.is_open ≡ true }
        requires follows { can_follow (the_key self.old.records) self.old.records entry ≡ true }
        requires fits { FitsVersion (file_version self.old.records) entry }
        requires sizes { HasSizes entry }
        requires within_limit { length self.old.records < S.most self.old.store }
        requires counted { length self.old.records < 2 ^ 32 - 1 }
        requires room { TakesMemory entry → 0 < self.old.spare }
        ensures adds { Adds S.Store self.old self.new entry result }
        ensures cached { self.new.cached ≡ self.old.cached }
    {
        if let Err(fault) = self.store.append(&entry) {
            if fault == StoreFault::OutOfMemory {
                return Err(SignFault::OutOfMemory);
            }
            self.is_open = false;
            return Err(SignFault::StoreFailed);
        }
        self.ledger.push(entry);
        Ok(())
    }

    // The current bottom tree's next leaf, and its number of leaves; both 0 where there is none.
    fn bottom(&self) -> (u32, u32)
        ensures { AreBottomLeaves self.now.records result }
    {
        let secret = &self.ledger.key().secret;
        let bottom = secret.levels() - 1;
        match self.ledger.current(bottom) {
            Some(tree) => (tree.next, secret.leaves(bottom)),
            None => (0, 0),
        }
    }

    /// Retires the leaves of the current bottom tree below `upto`: they sign nothing any more. Where there is none to
    /// retire, it records nothing. Refusals in their order: 26, 31, 32, 30, 25 or 29.
    pub fn retire(&mut self, upto: u32) -> Result<(), SignFault>
        ensures { Retires S.Store self.old self.new upto result }
    {
        self.check_open()?;
        let (next, leaves) = self.bottom();
        if upto > leaves {
            return Err(SignFault::RetireRange);
        }
        if upto <= next {
            return Ok(());
        }
        if self.ledger.len() >= self.store.limit() {
            return Err(SignFault::LedgerFull);
        }
        self.add(Record::Retire { upto })
    }
}

impl<S: Store, R: Source + Drop> Signer<S, R> {
    /// The store.
    pub fn into_store(self) -> S
        ensures { result ≡ self.store }
    {
        self.store
    }
}
