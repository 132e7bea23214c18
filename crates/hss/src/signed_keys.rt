//! The signed keys of a signature, as views of their bytes.

ghost use Rattle.std.specs.Prelude.{◌≡◌, ◌+◌, ◌*◌, ◌<◌, ◌≤◌, ◌^◌, IfOk, OnOk};
ghost use Rattle.typecodes.specs.Cursor.{Gives, KeepsCursor, read};
ghost use Rattle.hss.specs.SignedKey.{StandInTurn, shown_keys, signed_keys, slot};
ghost use Rattle.hss.specs.inner.SignedKey.{AreFirst};

use crate::signed_key::SignedKeyView;
use typecodes::{Cursor, ReadFault};

/// At most 7 signatures with their keys, from the top level down.
#[derive(Clone, Copy, Debug)]
pub(crate) struct SignedKeys<'a> {
    pub(crate) count: u8,
    // slots from the count on are empty
    pub(crate) slots: [Option<SignedKeyView<'a>>; 7],
    ghost at_most_7: { count ≤ 7 },
    ghost first: { AreFirst count slots },
}

impl<'a> SignedKeys<'a> {
    /// `count` signatures and keys at a cursor, each at most 9380 bytes. The caller keeps their end below `2^31`. At a
    /// fault the cursor stays.
    pub(crate) fn from_cursor(cursor: &mut Cursor<'a>, count: u8) -> Result<Self, ReadFault>
        requires at_most_7 { count ≤ 7 }
        requires room { cursor.old.place + 9380 * count < 2 ^ 31 }
        ensures read { Gives (λ keys. (shown_keys keys.slots, cursor.new.place)) result
            (read (signed_keys count) cursor.old.bytes.now cursor.old.place) }
        ensures count { IfOk result (λ keys. keys.count ≡ count) }
        ensures stand { IfOk result (λ keys. StandInTurn cursor.old.place cursor.old.bytes.now keys.slots) }
        ensures at_most_9380_each { OnOk result (cursor.new.place ≤ cursor.old.place + 9380 * count) }
        ensures keeps { KeepsCursor result cursor.old cursor.new }
    {
        let mut rest = *cursor;
        let mut slots = [None; 7];
        for i in 0..count {
            slots[usize::from(i)] = Some(SignedKeyView::from_cursor(&mut rest)?);
        }
        *cursor = rest;
        Ok(SignedKeys { count, slots })
    }

    /// The signature and key of level i, if i is below the count.
    pub(crate) fn get(&self, i: u8) -> Option<SignedKeyView<'a>>
        ensures { result ≡ slot self.now.slots i }
    {
        if i >= self.count {
            return None;
        }
        let slots = &self.slots[..];
        slots[usize::from(i)]
    }
}
