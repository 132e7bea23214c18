//! Which file of the machine a path leads to.

ghost use Rattle.std.specs.Prelude.{◌≡◌, ◌++◌, ◌∷◌, [], None, Some, replicate, slice_set};
ghost use Rattle.std.specs.List.{list_any};
ghost use Rattle.command.specs.FileId.{index_of};

use crate::trace::Role;
use std::fs::Metadata;
use std::marker::Model;
use std::os::unix::fs::MetadataExt;

/// A file of the machine, by its device and its inode there. All paths and links to it have the same.
#[derive(Clone, Copy, Debug, PartialEq, Eq)]
pub struct FileId {
    device: u64,
    inode: u64,
}

impl FileId {
    /// The file with this metadata.
    pub fn of(metadata: &Metadata) -> Self {
        FileId {
            device: metadata.dev(),
            inode: metadata.ino(),
        }
    }
}

/// The files that are never overwritten: the last one opened in each role, standard output and standard error.
#[derive(Drop)]
pub struct KeptFiles {
    ids: [Option<FileId>; 7],
}

impl Model for KeptFiles {
    ghost use Rattle.std.specs.Prelude.{List, Option};
    ghost use Rattle.command.specs.declared.file_id.FileId.{FileId};

    ghost Value = { List (Option FileId) };

    ghost view = { λ kept. kept.ids };
}

impl KeptFiles {
    /// With no opened file; `output` and `errors` are the standard streams, if known.
    pub fn new(output: Option<FileId>, errors: Option<FileId>) -> Self
        ensures { result ≡ replicate 5 None ++ output ∷ errors ∷ [] }
    {
        KeptFiles {
            ids: [None, None, None, None, None, output, errors],
        }
    }

    /// Notes that this file was opened in this role, in place of an earlier one.
    pub fn note(&mut self, role: Role, id: FileId)
        ensures { self.new ≡ slice_set self.old (index_of role) (Some id) }
    {
        let index = match role {
            Role::State => 0,
            Role::Public => 1,
            Role::Message => 2,
            Role::Signature => 3,
            Role::Random => 4,
        };
        self.ids[index] = Some(id);
    }

    /// Whether this file is in the list.
    pub fn contains(&self, id: FileId) -> bool
        ensures { result ≡ list_any (λ kept. ⟦<Option<FileId> as PartialEq>⟧.eq kept (Some id)) self.now }
    {
        self.ids.contains(&Some(id))
    }
}
