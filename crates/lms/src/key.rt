//! Public keys.

ghost use Rattle.std.specs.Prelude.{◌≡◌, ◌+◌, ◌<◌, ◌^◌};
ghost use Rattle.typecodes.specs.Cursor.{Gives, Passes, Reads, read};

use typecodes::{Cursor, LmsPair, LmsSecret, ReadFault};

/// The public key of one tree (RFC 8554 5.3).
#[derive(Clone, Copy, Debug, PartialEq, Eq)]
pub struct LmsPublic {
    /// The tree's type and its leaves' one-time type.
    pub pair: LmsPair,
    /// I, 16 bytes.
    pub identifier: [u8; 16],
    /// T[1], 32 bytes.
    pub root: [u8; 32],
}

impl LmsPublic {
    ghost use Rattle.lms.specs.Key.{public_key};
    ghost use Rattle.lms.specs.Secret.{rooted_public};

    /// The public key of a secret's tree. The root, 32 bytes, is taken as it is given.
    pub fn of(secret: &LmsSecret, root: [u8; 32]) -> Self
        ensures { result ≡ rooted_public secret.now root }
    {
        LmsPublic {
            pair: secret.pair,
            identifier: secret.identifier,
            root,
        }
    }

    /// The key at a cursor, 56 bytes: tree type, one-time type, I, root. The caller keeps its end below `2^32`. At a
    /// fault the cursor stays.
    #[tactic(auto, using(typecodes::proofs::Steps::reading), unfolding(crate::specs::Key::public_key))]
    pub fn from_cursor(cursor: &mut Cursor<'_>) -> Result<Self, ReadFault>
        requires { cursor.old.place + 56 < 2 ^ 32 }
        ensures read { Gives (λ key. (key, cursor.new.place)) result
            (read public_key cursor.old.bytes.now cursor.old.place) }
        ensures passes { Passes 56 result cursor.old cursor.new }
    {
        let mut rest = *cursor;
        let tree = rest.lms_type()?;
        let ots = rest.ots_type()?;
        let identifier = *rest.array()?;
        let root = *rest.array()?;
        *cursor = rest;
        Ok(LmsPublic {
            pair: LmsPair { tree, ots },
            identifier,
            root,
        })
    }

    /// The key that the bytes spell, 56 and no more, or their first fault (1, 2 or 5).
    #[tactic(auto, using(typecodes::proofs::Steps::steps))]
    pub fn read(bytes: &[u8]) -> Result<Self, ReadFault>
        ensures reads { Reads public_key (λ key. key) bytes.now result }
    {
        let mut cursor = Cursor::new(bytes);
        let key = Self::from_cursor(&mut cursor)?;
        cursor.end()?;
        Ok(key)
    }
}
