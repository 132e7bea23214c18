//! A key whose disk fails or crashes at each call, and calls that allocate nothing.

use super::expecting::{create, created, expect, open, sign};
use key_audit::{Anchor, AuditFault, Given, GivenFault, audit, check_given};
use sign_core::{AnyPublic, Signer, Source, SourceFault};
use state_file::{Disk, FileStore, MemoryDisk, Store};
use std::alloc::Global;
use typecodes::{Name, Spec};

mod fixed;
mod room;
mod script;

// Fills a draw with one number, and the next draw with the next number.
#[derive(Drop)]
struct Numbers {
    next: u8,
}

impl Source for Numbers {
    ghost use Rattle.std.specs.Prelude.{None};

    ghost failures = { λ _. 0 };

    ghost upcoming = { λ _. None };

    fn fill(&mut self, into: &mut [u8]) -> Result<(), SourceFault> {
        into.fill(self.next);
        self.next = self.next.wrapping_add(1);
        Ok(())
    }
}

fn sign_byte<S: Store, R: Source>(
    signer: &mut Signer<S, R>,
    name: &[u8],
    byte: u8,
    out: &mut Vec<u8>,
) -> Option<()> {
    match Name::new(name) {
        Ok(name) => match sign(signer, &name, &[byte], out) {
            None => Some(()),
            Some(_) => None,
        },
        Err(_) => None,
    }
}

const ONE_TREE: &str = "lms:H5/W8";

const TWO_LEVELS: &str = "hss:H5/W8,H5/W8";
