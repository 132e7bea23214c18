//! A list of slots that only contracts see, for the slots that a store was asked for or reported as unreadable.
ghost use Rattle.std.specs.Prelude.{◌≡◌, ℕ, List, [], ◌∷◌};
ghost use Rattle.std.specs.Borrow.{ftrue};

use std::marker::Model;

/// A list of slots that only contracts see. It takes no bytes.
#[derive(Drop)]
pub struct SlotList {
    ghost slots: { List ℕ },
}

// The list owns no memory, so the two functions are proved by hand.
impl Model for SlotList {
    ghost also_owns = { λ _. ftrue };

    ghost Value = { List ℕ };

    ghost view = { λ list. list.slots };
}

impl SlotList {
    /// An empty list.
    pub fn new() -> Self
        ensures { result ≡ [] }
    {
        SlotList {}
    }

    /// Adds a slot at the head.
    pub fn push(&mut self, _slot: u32)
        ensures { self.new ≡ _slot ∷ self.old }
    {}
}
