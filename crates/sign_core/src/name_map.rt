//! Bindings by name, in little memory: a short name takes a key of 23 bytes, and not the 129 of a `Name`.

ghost use Rattle.std.specs.Prelude.{◌≡◌, ◌<◌, ◌≤◌, ◌+◌, cond, length, List, None, OnErr, OnOk, Some, ℕ};
ghost use Rattle.sign_core.specs.Records.{are_same};
ghost use Rattle.sign_core.specs.Ledger.{bound_at, short_text, spare_of};

use crate::ledger::Binding;
use std::alloc::{AllocError, Global};
use std::collections::HashMap;
use typecodes::Name;

/// A binding for each name. Names of at most 22 bytes have a map of their own.
#[derive(Drop)]
pub(crate) struct NameMap {
    pub(crate) short: HashMap<[u8; 23], Binding>,
    pub(crate) long: HashMap<Name, Binding>,
}

impl NameMap {
    /// No binding. It takes no memory.
    pub(crate) fn new(alloc: Global) -> Self
        ensures { (name : List ℕ) → bound_at result name ≡ None }
    {
        NameMap {
            short: HashMap::new(alloc),
            long: HashMap::new(alloc),
        }
    }

    pub(crate) fn get(&self, name: &Name) -> Option<Binding>
        ensures { result ≡ bound_at self.now name.now }
    {
        let bytes = name.as_bytes();
        if bytes.len() <= 22 {
            self.short.get(&short_text(bytes)).copied()
        } else {
            self.long.get(name).copied()
        }
    }

    /// Makes room for more names, short or long.
    pub(crate) fn reserve(&mut self, additional: usize) -> Result<(), AllocError>
        ensures same { (name : List ℕ) → bound_at self.new name ≡ bound_at self.old name }
        ensures room { OnOk result (additional ≤ spare_of self.new) }
        ensures lacking { OnErr result (spare_of self.old < additional) }
        ensures spare { spare_of self.old ≤ spare_of self.new }
    {
        self.short.reserve(additional)?;
        self.long.reserve(additional)
    }

    /// Binds a name. It needs reserved room.
    pub(crate) fn insert(&mut self, name: &Name, binding: Binding)
        requires { 0 < spare_of self.old }
        ensures updates { (other : List ℕ) → bound_at self.new other
            ≡ cond (are_same name.now other) (Some binding) (bound_at self.old other) }
        ensures spare { spare_of self.old ≤ spare_of self.new + 1 }
    {
        let bytes = name.as_bytes();
        if bytes.len() <= 22 {
            let _ = self.short.insert(short_text(bytes), binding);
        } else {
            let _ = self.long.insert(*name, binding);
        }
    }
}

// A short name's key: how many bytes it has, and these, filled up by zeros.
fn short_text(name: &[u8]) -> [u8; 23]
    requires { length name.now ≤ 22 }
    ensures { result ≡ short_text name.now }
{
    let mut text = [0; 23];
    text[0] = name.len() as u8;
    text[1..=name.len()].copy_from_slice(name);
    text
}
