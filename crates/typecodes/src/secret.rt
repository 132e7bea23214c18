//! The secrets that trees are made from.

ghost use Rattle.std.specs.Prelude.{◌≡◌};

use crate::types::{LmsPair, XmssType};

/// The secret of an LMS tree (RFC 8554 5.2 and Appendix A). No `Debug`, since the seed is secret.
#[derive(Clone, Copy, PartialEq, Eq)]
pub struct LmsSecret {
    pub pair: LmsPair,
    /// I, 16 bytes.
    pub identifier: [u8; 16],
    /// SEED, 32 bytes.
    pub seed: [u8; 32],
}

impl LmsSecret {
    /// The secret of a tree of these types, of I, 16 bytes, and SEED, 32 bytes.
    pub fn new(pair: LmsPair, identifier: [u8; 16], seed: [u8; 32]) -> Self
        ensures { result ≡ record { pair = pair; identifier = identifier; seed = seed } }
    {
        LmsSecret {
            pair,
            identifier,
            seed,
        }
    }
}

/// The secret of an XMSS tree (RFC 8391 4.1.3). No `Debug`, since S_XMSS and SK_PRF are secret.
#[derive(Clone, Copy, PartialEq, Eq)]
pub struct XmssSecret {
    /// The tree's type.
    pub tree: XmssType,
    /// S_XMSS, 32 bytes: all private values are derived from it (RFC 8391 4.1.11).
    pub secret_seed: [u8; 32],
    /// SK_PRF, 32 bytes: the randomizers are derived from it.
    pub prf_key: [u8; 32],
    /// SEED, 32 bytes, public.
    pub public_seed: [u8; 32],
}
