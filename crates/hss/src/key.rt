//! Public keys.

ghost use Rattle.std.specs.Prelude.{◌+◌, ◌<◌, ◌≤◌, ◌^◌, IfOk};
ghost use Rattle.typecodes.specs.Cursor.{Gives, Passes, Reads, read};

use lms::LmsPublic;
use typecodes::{Cause, Cursor, LevelCount, ReadFault};

/// The public key of one to eight levels of trees (RFC 8554 6.1).
#[derive(Clone, Copy, Debug, PartialEq, Eq)]
pub struct HssPublic {
    /// L, the number of levels, 1 to 8.
    pub levels: LevelCount,
    /// The public key of the top tree.
    pub top: LmsPublic,
}

impl HssPublic {
    ghost use Rattle.hss.specs.Key.{level_number, public_key};

    /// The key that the bytes spell, 60 and no more, or their first fault (1, 2, 3 or 5). It has 1 to 8 levels.
    #[tactic(auto, using(crate::proofs::Numbers::whole), unfolding(crate::specs::Key::public_key))]
    pub fn read(bytes: &[u8]) -> Result<Self, ReadFault>
        ensures reads { Reads public_key (λ key. key) bytes.now result }
        ensures at_least_1 { IfOk result (λ key. 1 ≤ key.levels) }
        ensures at_most_8 { IfOk result (λ key. key.levels ≤ 8) }
    {
        let mut cursor = Cursor::new(bytes);
        let levels = Self::level_count_at(&mut cursor)?;
        let top = LmsPublic::from_cursor(&mut cursor)?;
        cursor.end()?;
        Ok(HssPublic { levels, top })
    }

    // L at a cursor, 4 bytes, 1 to 8. At a fault the cursor stays.
    #[tactic(auto, using(crate::proofs::Numbers::numbers), unfolding(crate::specs::Key::level_number))]
    fn level_count_at(cursor: &mut Cursor<'_>) -> Result<LevelCount, ReadFault>
        requires { cursor.old.place + 4 < 2 ^ 32 }
        ensures read { Gives (λ n. (n, cursor.new.place)) result
            (read (level_number 1 8) cursor.old.bytes.now cursor.old.place) }
        ensures at_least_1 { IfOk result (λ n. 1 ≤ n) }
        ensures at_most_8 { IfOk result (λ n. n ≤ 8) }
        ensures passes { Passes 4 result cursor.old cursor.new }
    {
        let fault = ReadFault {
            place: cursor.place,
            cause: Cause::LevelCount,
        };
        let mut rest = *cursor;
        let number = rest.number()?;
        if number > 8 {
            return Err(fault);
        }
        let levels = LevelCount::new(number as u8).ok_or(fault)?;
        *cursor = rest;
        Ok(levels)
    }
}
