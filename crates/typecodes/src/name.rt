//! The names under which messages are signed.

ghost use Rattle.std.specs.Prelude.{◌≡◌, ◌↔◌, IfOk, IsOk, List, ℕ, true};
ghost use Rattle.typecodes.specs.Name.{IsName};

use std::hash::{Hash, Hasher};
use std::marker::Model;
use thiserror::Error;

/// A name: 1 to 128 bytes, each a visible character of ASCII, 0x21 to 0x7E.
#[derive(Clone, Copy, Debug)]
pub struct Name {
    // bytes past `len` are zeros
    bytes: [u8; 128],
    len: u8,
}

impl Model for Name {
    ghost use Rattle.std.specs.Prelude.{◌≡◌, ◌≤◌, ◌++◌, ◌-◌, List, length, replicate, take, ℕ};
    ghost use Rattle.std.proofs.Common.{arith, ◌∙◌, ap, length-take-le};
    ghost use Rattle.typecodes.specs.Name.{IsName};

    ghost Value = { List ℕ };

    ghost view = { λ name. take name.len name.bytes };

    ghost invariant = { λ name. (name.len ≤ 128) × IsName (take name.len name.bytes)
        × (length name.bytes ≡ 128)
        × (take name.len name.bytes ++ replicate (128 - name.len) 0 ≡ name.bytes) };

    ghost inverse = { λ bytes. record {
      bytes = bytes ++ replicate (128 - length bytes) 0;
      len = length bytes;
    } };

    ghost inverse_ok = { λ name inside i. record {
      bytes = (ap (λ n. take name.len name.bytes ++ replicate (128 - n) 0)
          (length-take-le name.len name.bytes (omega (arith, inside.0, inside.1))) ∙ inside.3) i;
      len = length-take-le name.len name.bytes (omega (arith, inside.0, inside.1)) i;
    } };
}

/// 34: the bytes are no name.
#[derive(Clone, Copy, Debug, PartialEq, Eq, Error)]
#[error("a name is 1 to 128 visible characters of ASCII")]
pub struct BadName;

impl Name {
    /// 34 unless the bytes are a name.
    pub fn new(bytes: &[u8]) -> Result<Name, BadName>
        ensures ok { IsOk result ↔ IsName bytes.now }
        ensures value { IfOk result (λ name. name ≡ bytes.now) }
    {
        if !is_name(bytes) {
            return Err(BadName);
        }
        let mut all = [0; 128];
        all[..bytes.len()].copy_from_slice(bytes);
        Ok(Name {
            bytes: all,
            len: bytes.len() as u8,
        })
    }

    pub fn as_bytes(&self) -> &[u8]
        ensures value { result.now ≡ self.now }
        ensures name { IsName result.now }
    {
        &self.bytes[..usize::from(self.len)]
    }
}

fn is_name(bytes: &[u8]) -> bool
    ensures { result ≡ true ↔ IsName bytes.now }
{
    !bytes.is_empty() && bytes.len() <= 128 && bytes.iter().all(u8::is_ascii_graphic)
}

impl PartialEq for Name {
    ghost use Rattle.std.specs.Cmp.Lexicographic.{pointwise, nat_list_eq_equiv};
    ghost use Rattle.std.specs.Cmp.{partial_equiv_from_equiv};
    ghost use Rattle.std.specs.Prelude.{nat_eq};

    ghost eq = { pointwise nat_eq };

    ghost laws = { partial_equiv_from_equiv nat_list_eq_equiv };

    fn eq(&self, other: &Self) -> bool {
        self.as_bytes() == other.as_bytes()
    }
}

impl Eq for Name {
    ghost use Rattle.std.specs.Cmp.Lexicographic.{nat_list_eq_equiv};

    ghost laws = { nat_list_eq_equiv };
}

impl Hash for Name {
    ghost use Rattle.std.proofs.Common.{rules};
    ghost use Rattle.std.specs.Cmp.Rules.{hashing};
    ghost use Rattle.std.specs.Hash as fed;

    ghost hash_input = { λ name. fed.slice fed.u8 name };

    ghost respects_eq = { Prim.search (hashing, rules) };

    fn hash<H: Hasher>(&self, state: &mut H) {
        self.as_bytes().hash(state);
    }
}
