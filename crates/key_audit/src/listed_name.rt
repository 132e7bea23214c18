//! A name in a listing, in little memory: a short one lies in place, and a longer one has memory of its own.

ghost use Rattle.std.specs.Prelude.{◌≡◌, IfOk};

use std::alloc::{AllocError, Global};
use std::boxed::BoxedSlice;
use std::marker::Model;
use typecodes::Name;

// Bytes past `len` are zeros.
#[derive(Debug, Drop)]
enum Text {
    Short { len: u8, bytes: [u8; 22] },
    Long(BoxedSlice<u8>),
}

/// A name: 1 to 128 bytes, each a visible character of ASCII, 0x21 to 0x7E.
#[derive(Debug, Drop)]
pub struct ListedName {
    text: Text,
}

impl Model for ListedName {
    ghost use Rattle.std.specs.Prelude.{List, ℕ};
    ghost use Rattle.key_audit.specs.inner.ListedName.{FitsText, bytes_of};

    ghost Value = { List ℕ };

    ghost view = { λ name. bytes_of name.text };

    ghost invariant = { λ name. FitsText name.text };
}

impl ListedName {
    /// The same name. Memory may be refused for one of more than 22 bytes.
    pub(crate) fn of(alloc: Global, name: &Name) -> Result<Self, AllocError>
        ensures { IfOk result (λ listed. listed ≡ name.now) }
    {
        let bytes = name.as_bytes();
        if bytes.len() > 22 {
            let text = Text::Long(BoxedSlice::from_slice(alloc, bytes)?);
            return Ok(ListedName { text });
        }
        let mut short = [0; 22];
        short[..bytes.len()].copy_from_slice(bytes);
        let text = Text::Short {
            len: bytes.len() as u8,
            bytes: short,
        };
        Ok(ListedName { text })
    }

    pub fn as_bytes(&self) -> &[u8]
        ensures { result.now ≡ self.now }
    {
        match &self.text {
            Text::Short { len, bytes } => &bytes[..usize::from(*len)],
            Text::Long(bytes) => bytes.as_slice(),
        }
    }
}

impl PartialEq for ListedName {
    ghost use Rattle.std.specs.Cmp.Lexicographic.{pointwise, nat_list_eq_equiv};
    ghost use Rattle.std.specs.Cmp.{partial_equiv_from_equiv};
    ghost use Rattle.std.specs.Prelude.{nat_eq};

    ghost eq = { pointwise nat_eq };

    ghost laws = { partial_equiv_from_equiv nat_list_eq_equiv };

    fn eq(&self, other: &Self) -> bool {
        self.as_bytes() == other.as_bytes()
    }
}

impl Eq for ListedName {
    ghost use Rattle.std.specs.Cmp.Lexicographic.{nat_list_eq_equiv};

    ghost laws = { nat_list_eq_equiv };
}
