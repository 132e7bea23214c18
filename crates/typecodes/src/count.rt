//! A count that only contracts see: ghost members of traits count failures or draws by it. A `u64` could wrap, and
//! would exist at run time.
ghost use Rattle.std.specs.Prelude.{◌≡◌, ℕ, ◌+◌};
ghost use Rattle.std.specs.Borrow.{ftrue};

use std::marker::Model;

/// A whole number that only contracts see. It takes no bytes and has no greatest value; `add_one` alone raises it.
#[derive(Debug, Drop)]
pub struct Count {
    ghost total: { ℕ },
}

// The count is tied to no memory, so the two functions are proved by hand.
impl Model for Count {
    ghost also_owns = { λ _. ftrue };

    ghost Value = { ℕ };

    ghost view = { λ c. c.total };
}

impl Count {
    /// Zero.
    pub fn new() -> Self
        ensures { result ≡ 0 }
    {
        Count {}
    }

    /// Adds one.
    pub fn add_one(&mut self)
        ensures { self.new ≡ self.old + 1 }
    {}
}
