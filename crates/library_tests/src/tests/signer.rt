//! Signers over stores in memory.

use crate::tests::expecting::{create, created, expect, is_valid, lowest_left, open, sign};
use sign_core::{Ledger, LedgerFault, SignFault, Signer, Source, SourceFault};
use state_file::{
    Bound, Cut, Extend, Key, MemoryStore, Record, Secret, Store, StoreFault, Version,
};
use std::alloc::Global;
use typecodes::{LmsPair, Name, Spec};

mod caches;
mod memory;
mod records;
mod scarce;
mod steps;
mod told;

pub(crate) use records::{Entry, with_records};
pub(crate) use steps::{Seen, created_by, seen_from};
use steps::{Step, begins, goes_on, has_records, lived, name_of};

// Specs whose trees are quickly made.
pub(crate) const LMS: &str = "lms:H5/W1";

const TWO: &str = "hss:H5/W1,H5/W1";

const THREE: &str = "hss:H5/W1,H5/W1,H5/W1";

const XMSS: &str = "xmss:10";
