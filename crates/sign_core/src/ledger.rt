//! The ledger: a key's records in memory, and what is looked up in them. A Retire takes no memory.

ghost use Rattle.std.specs.Prelude.{◌≡◌, ◌<◌, ◌≤◌, ◌+◌, ◌-◌, ◌∷◌, [], Some, None, true, length};
ghost use Rattle.std.specs.Prelude.{OnOk, OnErr, IfOk, IfErr};
ghost use Rattle.sign_core.specs.Records.{can_follow, deepest, free_at};
ghost use Rattle.sign_core.specs.Records.{has_identifier, has_moved, is_free, the_key};
ghost use Rattle.sign_core.specs.Ledger.{TakesMemory};

use crate::key::AnyPublic;
use crate::name_map::NameMap;
use crate::replay::Replay;
use crate::trees::{CurrentTrees, Tree};
use arrayvec::ArrayVec;
use hss::HssPublic;
use lms::LmsPublic;
use state_file::{Bound, Extend, Key, Record, RecordList, Secret, Taker, Version};
use std::alloc::{AllocError, Global};
use std::collections::HashMap;
use std::marker::Model;
use thiserror::Error;
use typecodes::Name;
use xmss::XmssPublic;

/// Why records aren't taken up.
#[derive(Clone, Copy, Debug, PartialEq, Eq, Error)]
pub enum LedgerFault {
    /// 40: there is no record.
    #[error("there is no record")]
    Empty,
    /// 44: record k isn't legal where it stands; those before it are.
    #[error("record {0} isn't legal where it stands")]
    Illegal(u32),
    /// 46: memory was refused, or there are 2^32 records or more.
    #[error("memory was refused")]
    OutOfMemory,
}

impl LedgerFault {
    ghost use Rattle.sign_core.specs.Ledger.{ledger_fault_number};

    /// The number that reports the fault: 40, 44 or 46.
    pub fn number(self) -> u8
        ensures { result ≡ ledger_fault_number self }
    {
        match self {
            LedgerFault::Empty => 40,
            LedgerFault::Illegal(_) => 44,
            LedgerFault::OutOfMemory => 46,
        }
    }
}

/// The tree of an Extend, and the place of the tree whose leaf signs it.
#[derive(Clone, Copy)]
pub(crate) struct RecordedTree {
    pub(crate) extend: Extend,
    pub(crate) parent: u32,
}

/// A name's binding. `place` is the place of its record, `tree` the place of the record that makes the leaf's tree.
#[derive(Clone, Copy)]
pub(crate) struct Binding {
    pub(crate) place: u32,
    pub(crate) leaf: u32,
    pub(crate) randomizer: [u8; 32],
    pub(crate) digest: [u8; 32],
    pub(crate) tree: u32,
}

impl Binding {
    ghost use Rattle.sign_core.specs.inner.Ledger.{binding_of};

    /// What is kept of a Bound at a place, under this tree.
    pub(crate) fn of(bound: &Bound, place: u32, tree: u32) -> Self
        ensures { result ≡ binding_of bound.now place tree }
    {
        Binding {
            place,
            leaf: bound.leaf,
            randomizer: bound.randomizer,
            digest: bound.digest,
            tree,
        }
    }
}

/// A legal list of a key's records. Its `HashMap`s hash with a fixed seed: a lookup takes constant time on average,
/// and longer among names that were chosen against the seed.
#[derive(Drop)]
pub struct Ledger {
    // for contracts alone
    records: RecordList,
    key: Key,
    // the Extends by their places
    recorded: HashMap<u32, RecordedTree>,
    bindings: NameMap,
    // the places of the Extends by their I
    identifiers: HashMap<[u8; 16], u32>,
    trees: CurrentTrees,
    count: u32,
    moved: bool,
}

impl Model for Ledger {
    ghost use Rattle.std.specs.Prelude.{min};
    ghost use Rattle.std.specs.HashMap.{spare};
    ghost use Rattle.sign_core.specs.Ledger.{IsTableOf, Table, spare_of};

    ghost Value = { Table };

    ghost view = { λ s. record {
      key = s.key;
      records = s.records;
      spare = min (spare s.recorded) (min (spare_of s.bindings) (spare s.identifiers));
    } };

    ghost invariant = { λ s. IsTableOf s.records s.key s.recorded s.bindings s.identifiers s.trees.levels s.count
        s.moved };
}

impl Ledger {
    ghost use Rattle.state_file.specs.Laws.{IsLegal, levels_of};
    ghost use Rattle.state_file.specs.declared.record.Key.{Key as K};
    ghost use Rattle.state_file.specs.declared.record.Record.TheVariants.{Key as KeyRecord};
    ghost use Rattle.sign_core.specs.inner.Ledger.{CanPush, Grows, HasRoomForOne, LacksRoom, Stays, TakesUp};
    ghost use Rattle.sign_core.specs.Ledger.{IsRefused};
    ghost use Rattle.sign_core.specs.Ledger.{binding_kept, recorded_at};
    ghost use Rattle.sign_core.specs.declared.ledger.LedgerFault.TheVariants.{Illegal, OutOfMemory};
    ghost use Rattle.sign_core.specs.Trees.{tree_at};
    ghost use Rattle.sign_core.specs.Textbook.{AllHaveSizes, HasSizes};
    ghost use Rattle.sign_core.specs.Textbook.{public_of_key};
    ghost use Rattle.sign_core.specs.Records.{free_counts};

    /// A ledger that holds only the key.
    pub(crate) fn new(alloc: Global, key: Key) -> Self
        requires { HasSizes (KeyRecord key) }
        ensures key { result.key ≡ key }
        ensures records { result.records ≡ KeyRecord key ∷ [] }
    {
        let mut records = RecordList::new();
        records.push(&Record::Key(key.copied()));
        Ledger {
            records,
            key,
            recorded: HashMap::new(alloc),
            bindings: NameMap::new(alloc),
            identifiers: HashMap::new(alloc),
            trees: CurrentTrees::of_key(),
            count: 1,
            moved: false,
        }
    }

    /// Takes up a list of records in their order. At an `Ok` the list is legal. The refusals:
    ///
    /// - 40 `Empty`: there is no record.
    /// - 44 `Illegal(k)`: record k is the first at which the list stops being legal, 0 where it doesn't begin with a
    ///   Key.
    /// - 46 `OutOfMemory`: memory was refused for an Extend or a Bound, up to which the list is legal; or the 2^32nd
    ///   record was reached.
    pub fn replay(alloc: Global, records: &[Record]) -> Result<Self, LedgerFault>
        ensures records { IfOk result (λ ledger. ledger.records ≡ records.now) }
        ensures key { IfOk result (λ ledger. the_key records.now ≡ Some ledger.key) }
        ensures legal { OnOk result (IsLegal records.now) }
        ensures refused { IfErr result (IsRefused records.now) }
    {
        let mut replay = Replay::new(alloc);
        for entry in records {
            replay.take(entry);
        }
        replay.finish()
    }

    /// The key: record 0, with its secret.
    pub fn key(&self) -> &Key
        ensures key { result.now ≡ self.now.key }
        ensures first { the_key self.now.records ≡ Some result.now }
        ensures legal { IsLegal self.now.records }
        ensures sizes { AllHaveSizes self.now.records }
    {
        &self.key
    }

    /// The public key of record 0. It takes no memory.
    pub fn public_key(&self) -> AnyPublic
        ensures { public_of_key (the_key self.now.records) ≡ Some result }
    {
        let root = self.key.root;
        match &self.key.secret {
            Secret::Lms(secret) => AnyPublic::Lms(LmsPublic::of(secret, root)),
            Secret::Hss {
                levels,
                identifier,
                ..
            } => AnyPublic::Hss(HssPublic {
                levels: levels.count(),
                top: LmsPublic {
                    pair: levels.as_slice()[0],
                    identifier: *identifier,
                    root,
                },
            }),
            Secret::Xmss(secret) => AnyPublic::Xmss(XmssPublic::of(secret, root)),
        }
    }

    /// The number of records.
    pub fn len(&self) -> u32
        ensures { result ≡ length self.now.records }
    {
        self.count
    }

    /// Whether the last record is a Moved: the records go on in another file.
    pub fn has_moved(&self) -> bool
        ensures { result ≡ has_moved self.now.records }
    {
        self.moved
    }

    pub(crate) fn recorded_tree(&self, place: u32) -> Option<RecordedTree>
        ensures { result ≡ recorded_at self.now.records place }
    {
        self.recorded.get(&place).copied()
    }

    pub(crate) fn find(&self, name: &Name) -> Option<Binding>
        ensures { result ≡ binding_kept self.now.key.secret self.now.records name.now }
    {
        self.bindings.get(name)
    }

    /// Whether a record makes a tree with this I.
    pub(crate) fn has_identifier(&self, identifier: &[u8; 16]) -> bool
        ensures { result ≡ has_identifier self.now.records identifier.now }
    {
        self.key.secret.has_identifier(identifier) || self.identifiers.contains_key(identifier)
    }

    pub(crate) fn current(&self, level: u8) -> Option<Tree>
        requires { level < 8 }
        ensures { result ≡ tree_at self.now.key.secret self.now.records level }
    {
        self.trees.get(usize::from(level))
    }

    /// The number of free leaves in each level's current tree, from the top down; 0 for a level without one. It takes
    /// no memory.
    pub fn left(&self) -> ArrayVec<u32, 8>
        ensures { (key : K) → the_key self.now.records ≡ Some key →
            result.items ≡ free_counts key.secret self.now.records }
    {
        let mut counts = ArrayVec::new();
        for level in 0..self.key.secret.levels() {
            counts.push(self.free_leaves(level));
        }
        counts
    }

    fn free_leaves(&self, level: u8) -> u32
        requires { level < levels_of self.now.key.secret }
        ensures { result ≡ free_at self.now.key.secret self.now.records level }
    {
        let leaves = self.key.secret.leaves(level);
        match self.current(level) {
            Some(tree) => leaves - tree.next,
            None => 0,
        }
    }

    /// The deepest level whose current tree has a free leaf.
    pub(crate) fn deepest(&self) -> Option<u8>
        ensures { result ≡ deepest self.now.key.secret self.now.records }
    {
        for level in (0..self.key.secret.levels()).rev() {
            if self.free_leaves(level) > 0 {
                return Some(level);
            }
        }
        None
    }

    /// Whether a record can follow these. After a Moved none can. An Extend takes a free leaf of the level above, and
    /// brings a new I. A Bound takes a free leaf of the bottom level and a new name; under XMSS its C is zeros.
    /// A Retire names leaves that the bottom tree has. A Moved is of version 1.
    pub(crate) fn can_follow(&self, entry: &Record) -> bool
        ensures { result ≡ can_follow (Some self.now.key) self.now.records entry.now }
    {
        let bottom = self.key.secret.levels() - 1;
        let is_xmss = matches!(self.key.secret, Secret::Xmss(_));
        !self.moved
            && match entry {
                Record::Key(_) => false,
                Record::Extend(extend) => {
                    1 <= extend.level
                        && extend.level <= bottom
                        && self.is_free(extend.level - 1, extend.parent_leaf)
                        && !self.has_identifier(&extend.identifier)
                }
                Record::Bound(bound) => {
                    self.is_free(bottom, bound.leaf)
                        && self.find(&bound.name).is_none()
                        && (!is_xmss || bound.randomizer == [0; 32])
                }
                Record::Retire { upto } => {
                    self.current(bottom).is_some() && *upto <= self.key.secret.leaves(bottom)
                }
                Record::Moved => matches!(self.key.version, Version::One),
            }
    }

    fn is_free(&self, level: u8, leaf: u32) -> bool
        requires { level < levels_of self.now.key.secret }
        ensures { result ≡ is_free self.now.key.secret self.now.records level leaf }
    {
        let leaves = self.key.secret.leaves(level);
        self.current(level)
            .is_some_and(|tree| leaf < leaves && tree.next <= leaf)
    }

    /// Takes up one more record, if it can follow these. An `Err` changes nothing, except that more memory may be
    /// reserved.
    pub(crate) fn take_up(&mut self, entry: &Record) -> Result<(), LedgerFault>
        ensures { TakesUp self.old self.new entry.now result }
    {
        if !self.can_follow(entry) {
            return Err(LedgerFault::Illegal(self.count));
        }
        self.make_room(entry)?;
        self.push(entry.copied());
        Ok(())
    }

    // Refuses a 2^32nd record, and reserves memory if the record takes some.
    fn make_room(&mut self, entry: &Record) -> Result<(), LedgerFault>
        ensures stays { Stays self.old self.new }
        ensures untaken { (TakesMemory entry.now → ⊥) → self.new.spare ≡ self.old.spare }
        ensures room { OnOk result (HasRoomForOne entry.now self.new) }
        ensures lacking { IfErr result (λ fault. (fault ≡ OutOfMemory) × LacksRoom entry.now self.old) }
    {
        if self.count == u32::MAX {
            return Err(LedgerFault::OutOfMemory);
        }
        if matches!(entry, Record::Extend(_) | Record::Bound(_)) {
            self.reserve(1).map_err(|_| LedgerFault::OutOfMemory)?;
        }
        Ok(())
    }

    /// Makes room for more records. No clause bounds how much memory is reserved: `HashMap` promises only a least room
    /// after `reserve` and `shrink_to`.
    pub(crate) fn reserve(&mut self, additional: usize) -> Result<(), AllocError>
        ensures key { self.new.key ≡ self.old.key }
        ensures records { self.new.records ≡ self.old.records }
        ensures room { OnOk result (additional ≤ self.new.spare) }
        ensures lacking { OnErr result (self.old.spare < additional) }
        ensures spare { self.old.spare ≤ self.new.spare }
    {
        self.recorded.reserve(additional)?;
        self.bindings.reserve(additional)?;
        self.identifiers.reserve(additional)
    }

    /// Adds a record that can follow these. An Extend or a Bound needs reserved room.
    pub(crate) fn push(&mut self, entry: Record)
        requires { CanPush entry self.old }
        ensures grows { Grows entry self.old self.new }
    {
        let place = self.count;
        let bottom = usize::from(self.key.secret.levels() - 1);
        self.records.push(&entry);
        self.count += 1;
        match entry {
            Record::Extend(extend) => {
                let level = usize::from(extend.level);
                let parent = self.trees.place(level - 1);
                let _ = self.recorded.insert(place, RecordedTree { extend, parent });
                let _ = self.identifiers.insert(extend.identifier, place);
                self.trees.extend(level, extend.parent_leaf, place);
            }
            Record::Bound(bound) => {
                let binding = Binding::of(&bound, place, self.trees.place(bottom));
                self.bindings.insert(&bound.name, binding);
                self.trees.raise(bottom, bound.leaf + 1);
            }
            Record::Retire { upto } => self.trees.raise(bottom, upto),
            Record::Moved => self.moved = true,
            Record::Key(_) => {}
        }
    }
}
