//! What takes the records that an opening finds.

ghost use Rattle.std.specs.Prelude.{◌≡◌, ◌∷◌, [], ◌++◌, List};
ghost use Rattle.state_file.specs.declared.record.Record.{Record as R};

use crate::record::{Record, RecordList};

/// Takes the records that an opening finds, one after the other.
///
/// `FileStore::open_into` hands over each record once, in order, so its caller doesn't read the file again. `take` has
/// no answer: a taker that can't use a record notes why, and the caller asks it after the opening.
pub trait Taker {
    // the records that it was given, the first one first
    ghost taken: { Self → List R };

    /// Takes the next record.
    fn take(&mut self, entry: &Record)
        ensures { taken self.new ≡ taken self.old ++ entry.now ∷ [] };
}

/// Takes each record, and keeps none.
#[derive(Drop)]
pub(crate) struct KeepNone {
    records: RecordList,
}

impl KeepNone {
    pub(crate) fn new() -> Self {
        KeepNone {
            records: RecordList::new(),
        }
    }
}

impl Taker for KeepNone {
    ghost taken = { λ taker. taker.records };

    fn take(&mut self, entry: &Record) {
        self.records.push(entry);
    }
}
