//! What a listing of a state file says. Nothing of it is secret.

ghost use Rattle.std.specs.Prelude.{◌≡◌, ◌≤◌, IfOk};
ghost use Rattle.key_audit.specs.Listing.{entry_of, name_count, names_among};

use crate::listed_name::ListedName;
use arrayvec::ArrayVec;
use state_file::{Record, Version};
use std::alloc::{AllocError, Global};
use typecodes::Spec;

/// What a state file is, and what its key has signed.
#[derive(Debug, PartialEq, Eq, Drop)]
pub struct Listing {
    /// The types, of all levels.
    pub spec: Spec,
    /// The file's version.
    pub version: Version,
    /// Free leaves of each level, in its current tree; 0 where it has none.
    pub left: ArrayVec<u32, 8>,
    /// An entry for each record, in their order.
    pub entries: Vec<Entry>,
    /// The last record's slot, if the file has bytes behind what an append can leave: it seems cut short or damaged.
    pub behind: Option<u32>,
}

/// A record, without anything secret.
#[derive(Debug, PartialEq, Eq, Drop)]
pub enum Entry {
    /// The key itself.
    Key,
    /// A new tree at a level below the top. `leaf`, of the tree above, signs its public key.
    Tree {
        level: u8,
        leaf: u32,
    },
    /// A name, with the leaf that it is bound to and the 32-byte digest that the leaf signs.
    Name {
        leaf: u32,
        name: ListedName,
        digest: [u8; 32],
    },
    /// The current bottom tree's leaves below `upto` are given up.
    Retired {
        upto: u32,
    },
    /// The records go on in another file.
    Moved,
}

impl Entry {
    /// A record's entry. Memory may be refused for a name of more than 22 bytes.
    pub fn of(alloc: Global, source: &Record) -> Result<Self, AllocError>
        ensures { IfOk result (λ entry. entry ≡ entry_of source.now) }
    {
        let entry = match source {
            Record::Key(_) => Entry::Key,
            Record::Extend(extend) => Entry::Tree {
                level: extend.level,
                leaf: extend.parent_leaf,
            },
            Record::Bound(bound) => Entry::Name {
                leaf: bound.leaf,
                name: ListedName::of(alloc, &bound.name)?,
                digest: bound.digest,
            },
            Record::Retire { upto } => Entry::Retired { upto: *upto },
            Record::Moved => Entry::Moved,
        };
        Ok(entry)
    }
}

fn name_count(entry: &Entry) -> usize
    ensures value { result ≡ name_count entry.now }
    ensures at_most_1 { result ≤ 1 }
{
    match entry {
        Entry::Name { .. } => 1,
        Entry::Key | Entry::Tree { .. } | Entry::Retired { .. } | Entry::Moved => 0,
    }
}

/// How many entries are names.
pub fn count_names(entries: &[Entry]) -> usize
    ensures { result ≡ names_among entries.now }
{
    let mut names = 0;
    for entry in entries {
        names += name_count(entry);
    }
    names
}
