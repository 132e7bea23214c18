//! A ledger that is made record by record, as an opening finds them.

ghost use Rattle.std.specs.Prelude.{◌≡◌, ◌∷◌, [], ◌++◌, List, None, Some, IfErr, IfOk, OnOk};
ghost use Rattle.std.specs.Result.{result_err};
ghost use Rattle.state_file.specs.declared.record.Record.{Record as R};
ghost use Rattle.sign_core.specs.inner.Replay.{IsReplay};

use crate::ledger::{Ledger, LedgerFault};
use state_file::{Record, RecordList, Taker};
use std::alloc::Global;
use std::marker::Model;

/// Replays a key's records into a ledger, one after the other: `FileStore::open_into` hands it each record as it reads
/// the file. Contracts see the list of records that it took.
///
/// It keeps the first fault (44 or 46), and ignores the records after it.
#[derive(Drop)]
pub struct Replay {
    alloc: Global,
    // for contracts alone
    taken: RecordList,
    // of the records before the fault
    ledger: Option<Ledger>,
    fault: Option<LedgerFault>,
}

impl Model for Replay {
    ghost Value = { List R };

    ghost view = { λ s. s.taken };

    ghost invariant = { λ s. IsReplay s.taken s.ledger s.fault };
}

impl Replay {
    ghost use Rattle.state_file.specs.Laws.{IsLegal};
    ghost use Rattle.sign_core.specs.Ledger.{IsRefused};
    ghost use Rattle.sign_core.specs.Records.{the_key};

    /// A replay that took no record.
    pub fn new(alloc: Global) -> Self
        ensures { result ≡ [] }
    {
        Replay {
            alloc,
            taken: RecordList::new(),
            ledger: None,
            fault: None,
        }
    }

    pub(crate) fn alloc(&self) -> Global {
        self.alloc
    }

    /// The ledger of the records that were taken. At an `Ok` they are legal. The refusals:
    ///
    /// - 40 `Empty`: none was taken.
    /// - 44 `Illegal(k)`: record k is the first at which they stop being legal, 0 where they don't begin with a Key.
    /// - 46 `OutOfMemory`: memory was refused for an Extend or a Bound, up to which they are legal; or the 2^32nd
    ///   record was reached.
    pub fn finish(self) -> Result<Ledger, LedgerFault>
        ensures records { IfOk result (λ ledger. ledger.records ≡ self) }
        ensures key { IfOk result (λ ledger. the_key self ≡ Some ledger.key) }
        ensures legal { OnOk result (IsLegal self) }
        ensures refused { IfErr result (IsRefused self) }
    {
        match self.fault {
            Some(fault) => Err(fault),
            None => self.ledger.ok_or(LedgerFault::Empty),
        }
    }
}

impl Taker for Replay {
    ghost taken = { λ records. records };

    fn take(&mut self, entry: &Record) {
        self.taken.push(entry);
        if self.fault.is_none() {
            self.fault = take_next(self.alloc, &mut self.ledger, entry).err();
        }
    }
}

// Adds the next record. The first has to be a Key.
fn take_next(alloc: Global, ledger: &mut Option<Ledger>, entry: &Record) -> Result<(), LedgerFault>
    ensures { (records : List R) → IsReplay records ledger.old None →
        IsReplay (records ++ entry.now ∷ []) ledger.new (result_err result) }
{
    match ledger {
        Some(ledger) => ledger.take_up(entry),
        None => match entry {
            Record::Key(key) => {
                *ledger = Some(Ledger::new(alloc, key.copied()));
                Ok(())
            }
            _ => Err(LedgerFault::Illegal(0)),
        },
    }
}
