//! The tags of slots.

ghost use Rattle.std.specs.Prelude.{◌≡◌};
ghost use Rattle.state_file.specs.File.{tag_of};

use sha2::{Digest, Sha256};

/// The tag before slot 0.
pub(crate) const FIRST_TAG: [u8; 32] = [0; 32];

/// The tag of a slot, from the tag before it and its own bytes 1 to 223.
pub(crate) fn tag(previous: &[u8; 32], fields: &[u8]) -> [u8; 32]
    ensures { result ≡ tag_of previous.now fields.now }
{
    let mut hasher = Sha256::new();
    hasher.update(previous);
    hasher.update(fields);
    hasher.finalize()
}
