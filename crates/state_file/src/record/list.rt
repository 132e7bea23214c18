//! A list of records that only contracts see, for a store that keeps its records on a disk.
ghost use Rattle.std.specs.Prelude.{◌≡◌, List, [], ◌∷◌, ◌++◌};
ghost use Rattle.std.specs.Borrow.{ftrue};
ghost use Rattle.state_file.specs.declared.record.Record.{Record as R};

use crate::record::Record;
use std::marker::Model;

/// A list of records that only contracts see. It takes no bytes.
#[derive(Drop)]
pub struct RecordList {
    ghost records: { List R },
}

// The list owns no memory, so the two functions are proved by hand.
impl Model for RecordList {
    ghost also_owns = { λ _. ftrue };

    ghost Value = { List R };

    ghost view = { λ list. list.records };
}

impl RecordList {
    /// An empty list.
    pub fn new() -> Self
        ensures { result ≡ [] }
    {
        RecordList {}
    }

    /// Adds a record at the end.
    pub fn push(&mut self, _record: &Record)
        ensures { self.new ≡ self.old ++ _record.now ∷ [] }
    {}
}
