//! The records of a key. None that holds a secret can be printed.

ghost use Rattle.std.specs.Prelude.{◌≡◌, ◌<◌, ◌≤◌, ◌^◌, Some, true, false, nat_eq};
ghost use Rattle.std.specs.Cmp.Lexicographic.{pointwise};
ghost use Rattle.std.specs.Option.{option_map_or};
ghost use Rattle.typecodes.specs.Types.{named};
ghost use Rattle.state_file.specs.Carried.{in_version};
ghost use Rattle.state_file.specs.Laws.{is_moved};
ghost use Rattle.state_file.specs.Slot.{FitsVersion, name_most, version_code, versions};
ghost use Rattle.state_file.specs.declared.record.Version.{Version as V};

mod list;

pub use list::RecordList;
use typecodes::{Levels, LmsSecret, Name, XmssSecret};

/// One record. A list of them says what a key is, and all that it has signed.
#[derive(PartialEq, Eq, Drop)]
pub enum Record {
    /// The key itself, the first record.
    Key(Key),
    /// A new tree of a lower level of HSS.
    Extend(Extend),
    /// A name that is bound to a leaf.
    Bound(Bound),
    /// The bottom tree's leaves below `upto` sign nothing any more.
    Retire { upto: u32 },
    /// The records go on in a file of version 2. No record follows.
    Moved,
}

impl Record {
    /// A clone. It can't fail, as a record owns no memory.
    pub fn copied(&self) -> Self
        ensures { result ≡ self.now }
    {
        match self {
            Record::Key(key) => Record::Key(key.copied()),
            Record::Extend(extend) => Record::Extend(*extend),
            Record::Bound(bound) => Record::Bound(*bound),
            Record::Retire { upto } => Record::Retire { upto: *upto },
            Record::Moved => Record::Moved,
        }
    }

    /// Whether a file of this version can hold the record: a Key of this version, a Bound whose name isn't too long,
    /// any other record.
    pub fn fits(&self, version: Version) -> bool
        ensures fits { result ≡ true → FitsVersion version self.now }
        ensures unfit { result ≡ false → FitsVersion version self.now → ⊥ }
    {
        match self {
            Record::Key(key) => key.version == version,
            Record::Bound(bound) => {
                bound.name.as_bytes().len() <= usize::from(version.name_most())
            }
            Record::Extend(_) | Record::Retire { .. } | Record::Moved => true,
        }
    }

    // The record as a file of version 2 has it.
    pub(crate) fn carried(&self) -> Self
        ensures value { result ≡ in_version Version.Two self.now }
        ensures fits { FitsVersion Version.Two result }
    {
        match self {
            Record::Key(key) => Record::Key(Key {
                version: Version::Two,
                secret: key.secret.copied(),
                root: key.root,
            }),
            Record::Bound(bound) => {
                // For the prover: this use tells how long the name is.
                let _name = bound.name.as_bytes();
                Record::Bound(*bound)
            }
            Record::Extend(_) | Record::Retire { .. } | Record::Moved => self.copied(),
        }
    }

    pub(crate) fn is_moved(&self) -> bool
        ensures { result ≡ is_moved (Some self.now) }
    {
        matches!(self, Record::Moved)
    }

    // The version of a file after the record was added: its own, if that version can hold the record.
    pub(crate) fn version_after(&self, file: Version) -> Version
        ensures fits { FitsVersion result self.now }
        ensures keeps_version { FitsVersion file self.now → result ≡ file }
    {
        match self {
            Record::Key(key) => key.version,
            Record::Bound(bound) => {
                if bound.name.as_bytes().len() <= usize::from(file.name_most()) {
                    file
                } else {
                    Version::Two
                }
            }
            Record::Extend(_) | Record::Retire { .. } | Record::Moved => file,
        }
    }
}

/// A version of the state file.
#[derive(Clone, Copy, Debug, PartialEq, Eq)]
pub enum Version {
    /// Version 1: names have at most 64 bytes.
    One,
    /// Version 2: names have at most 128 bytes.
    Two,
}

impl Version {
    /// The version of this code.
    pub fn from_code(code: u16) -> Option<Self>
        ensures named { result ≡ named version_code versions code }
    {
        match code {
            1 => Some(Version::One),
            2 => Some(Version::Two),
            _ => None,
        }
    }

    /// The version's code, 1 or 2.
    pub fn code(self) -> u16
        ensures value { result ≡ version_code self }
        ensures alone { (other : V) → version_code other ≡ result → other ≡ self }
    {
        match self {
            Version::One => 1,
            Version::Two => 2,
        }
    }

    /// The greatest length of a name, in bytes.
    pub fn name_most(self) -> u8
        ensures value { result ≡ name_most self }
        ensures at_least_64 { 64 ≤ result }
        ensures at_most_128 { result ≤ 128 }
    {
        match self {
            Version::One => 64,
            Version::Two => 128,
        }
    }
}

/// A key: its secret and its root.
#[derive(PartialEq, Eq, Drop)]
pub struct Key {
    /// The version of its file.
    pub version: Version,
    /// Its scheme, types and seeds.
    pub secret: Secret,
    /// The tree's root (for HSS the top tree's), 32 bytes.
    pub root: [u8; 32],
}

impl Key {
    /// A clone, which can't fail.
    pub fn copied(&self) -> Self
        ensures { result ≡ self.now }
    {
        Key {
            version: self.version,
            secret: self.secret.copied(),
            root: self.root,
        }
    }
}

/// What a key's leaves are made from, by its scheme.
#[derive(PartialEq, Eq, Drop)]
pub enum Secret {
    /// One tree (RFC 8554 5).
    Lms(LmsSecret),
    /// Trees of 1 to 8 levels (RFC 8554 6).
    Hss {
        levels: Levels,
        /// The top tree's I, 16 bytes.
        identifier: [u8; 16],
        /// The top tree's SEED, 32 bytes.
        seed: [u8; 32],
    },
    /// One tree of XMSS (RFC 8391 4.1).
    Xmss(XmssSecret),
}

impl Secret {
    /// A clone, which can't fail.
    pub fn copied(&self) -> Self
        ensures { result ≡ self.now }
    {
        match self {
            Secret::Lms(secret) => Secret::Lms(*secret),
            Secret::Hss {
                levels,
                identifier,
                seed,
            } => Secret::Hss {
                levels: levels.copied(),
                identifier: *identifier,
                seed: *seed,
            },
            Secret::Xmss(secret) => Secret::Xmss(*secret),
        }
    }
}

impl Secret {
    ghost use Rattle.state_file.specs.Laws.{identifier_of_secret, leaves_at, levels_of};

    /// The number of levels: 1, or for HSS up to 8.
    pub fn levels(&self) -> u8
        ensures { result ≡ levels_of self.now }
    {
        match self {
            Secret::Hss { levels, .. } => levels.count().get(),
            Secret::Lms(_) | Secret::Xmss(_) => 1,
        }
    }

    /// Whether the top tree has this I, 16 bytes. An XMSS key has none.
    pub fn has_identifier(&self, identifier: &[u8; 16]) -> bool
        ensures { result
            ≡ option_map_or (λ own. pointwise nat_eq own identifier.now) (identifier_of_secret self.now) false }
    {
        match self {
            Secret::Lms(top) => top.identifier == *identifier,
            Secret::Hss {
                identifier: top,
                ..
            } => top == identifier,
            Secret::Xmss(_) => false,
        }
    }

    /// The number of leaves of a tree at this level. The caller gives one of the key's levels.
    pub fn leaves(&self, level: u8) -> u32
        requires { level < levels_of self.now }
        ensures { result ≡ leaves_at self.now level }
    {
        match self {
            Secret::Lms(secret) => leaves_of(secret.pair.tree.height()),
            Secret::Hss { levels, .. } => match levels.as_slice().get(usize::from(level)) {
                Some(pair) => leaves_of(pair.tree.height()),
                None => 0,
            },
            Secret::Xmss(secret) => leaves_of(secret.tree.height()),
        }
    }
}

fn leaves_of(height: u8) -> u32
    requires { height ≤ 25 }
    ensures { result ≡ 2 ^ height }
{
    1 << height
}

/// A new tree at a lower level of HSS.
#[derive(Clone, Copy, PartialEq, Eq)]
pub struct Extend {
    /// The new tree's level, from 1.
    pub level: u8,
    /// q, the leaf of the tree above that signs its public key.
    pub parent_leaf: u32,
    /// The new tree's I, 16 bytes.
    pub identifier: [u8; 16],
    /// The new tree's SEED, 32 bytes.
    pub seed: [u8; 32],
    /// C of the parent leaf's signature, 32 bytes.
    pub randomizer: [u8; 32],
    /// Q of the parent leaf's signature, 32 bytes.
    pub digest: [u8; 32],
    /// T[1], the new tree's root, 32 bytes.
    pub root: [u8; 32],
}

/// A name, bound to a leaf and to the digest that the leaf signs.
#[derive(Clone, Copy, Debug, PartialEq, Eq)]
pub struct Bound {
    pub name: Name,
    /// q, the leaf.
    pub leaf: u32,
    /// C, 32 bytes; zeros for XMSS.
    pub randomizer: [u8; 32],
    /// Q, for XMSS M', 32 bytes.
    pub digest: [u8; 32],
}
