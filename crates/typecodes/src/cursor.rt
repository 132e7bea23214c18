//! A cursor over the bytes of a layout.

ghost use Rattle.std.specs.Prelude.{◌≡◌, ◌<◌, ◌≤◌, ◌+◌, ◌*◌, ◌/◌, ◌^◌, length, IfOk, MatchResult};

use crate::fault::{Cause, ReadFault};
use crate::types::{LmsType, OtsType, XmssType};
use byteorder::{BigEndian, ByteOrder};

/// Reads fields one after the other, without copying. No `Debug`: the bytes may hold a secret, as a state file's do.
#[derive(Clone, Copy)]
pub struct Cursor<'a> {
    /// All the bytes.
    pub bytes: &'a [u8],
    /// Where the next field begins.
    pub place: u32,
    pub ghost within: { place ≤ length bytes.now },
}

impl<'a> Cursor<'a> {
    ghost use Rattle.std.specs.Simd.{first_chunks};
    ghost use Rattle.typecodes.specs.Fields.{number, block, values, ots_type, lms_type, xmss_type};
    ghost use Rattle.typecodes.specs.Cursor.{read, Gives, Passes};
    ghost use Rattle.typecodes.specs.Fault.{fault_at};

    /// A cursor before the first field.
    pub fn new(bytes: &'a [u8]) -> Self
        ensures bytes { result.bytes ≡ bytes.entry }
        ensures place { result.place ≡ 0 }
    {
        Cursor { bytes, place: 0 }
    }

    /// The next n bytes. If fewer are left, the fault is `Truncated`, and the cursor stays.
    pub fn block(&mut self, n: u32) -> Result<&'a [u8], ReadFault>
        requires { self.old.place + n < 2 ^ 32 }
        ensures read { Gives (λ taken. (taken.now, self.new.place)) result
            (read (block n) self.old.bytes.now self.old.place) }
        ensures passes { Passes n result self.old self.new }
    {
        let end = self.place + n;
        if end as usize > self.bytes.len() {
            return Err(self.fault(Cause::Truncated));
        }
        let taken = &self.bytes[self.place as usize..end as usize];
        self.place = end;
        Ok(taken)
    }

    /// As `block`, with a length known at compile time.
    pub fn array<const N: usize>(&mut self) -> Result<&'a [u8; N], ReadFault>
        requires { self.old.place + N < 2 ^ 32 }
        ensures read { Gives (λ taken. (taken.now, self.new.place)) result
            (read (block N) self.old.bytes.now self.old.place) }
        ensures passes { Passes N result self.old self.new }
    {
        let fault = self.fault(Cause::Truncated);
        let taken = self.block(N as u32)?;
        taken.as_array().ok_or(fault)
    }

    /// The next 4 bytes as a big-endian number.
    pub fn number(&mut self) -> Result<u32, ReadFault>
        requires { self.old.place + 4 < 2 ^ 32 }
        ensures read { Gives (λ n. (n, self.new.place)) result (read number self.old.bytes.now self.old.place) }
        ensures passes { Passes 4 result self.old self.new }
    {
        let bytes = self.block(4)?;
        Ok(BigEndian::read_u32(bytes))
    }

    /// The one-time type whose code the next 4 bytes are. An unknown code is `UnknownType`, and the cursor stays before
    /// it.
    #[tactic(auto, unfolding(crate::specs::Fields::ots_type))]
    pub fn ots_type(&mut self) -> Result<OtsType, ReadFault>
        requires { self.old.place + 4 < 2 ^ 32 }
        ensures read { Gives (λ t. (t, self.new.place)) result (read ots_type self.old.bytes.now self.old.place) }
        ensures passes { Passes 4 result self.old self.new }
    {
        let mut after = *self;
        let code = after.number()?;
        let named = OtsType::from_code(code).ok_or(self.fault(Cause::UnknownType))?;
        *self = after;
        Ok(named)
    }

    /// As `ots_type`, for a tree type of LMS.
    #[tactic(auto, unfolding(crate::specs::Fields::lms_type))]
    pub fn lms_type(&mut self) -> Result<LmsType, ReadFault>
        requires { self.old.place + 4 < 2 ^ 32 }
        ensures read { Gives (λ t. (t, self.new.place)) result (read lms_type self.old.bytes.now self.old.place) }
        ensures passes { Passes 4 result self.old self.new }
    {
        let mut after = *self;
        let code = after.number()?;
        let named = LmsType::from_code(code).ok_or(self.fault(Cause::UnknownType))?;
        *self = after;
        Ok(named)
    }

    /// As `ots_type`, for a type of XMSS.
    #[tactic(auto, unfolding(crate::specs::Fields::xmss_type))]
    pub fn xmss_type(&mut self) -> Result<XmssType, ReadFault>
        requires { self.old.place + 4 < 2 ^ 32 }
        ensures read { Gives (λ t. (t, self.new.place)) result (read xmss_type self.old.bytes.now self.old.place) }
        ensures passes { Passes 4 result self.old self.new }
    {
        let mut after = *self;
        let code = after.number()?;
        let named = XmssType::from_code(code).ok_or(self.fault(Cause::UnknownType))?;
        *self = after;
        Ok(named)
    }

    /// The next `count` values of 32 bytes each. If they don't all fit, the fault is at the first that doesn't, and the
    /// cursor stays.
    pub fn values(&mut self, count: u32) -> Result<&'a [[u8; 32]], ReadFault>
        requires { self.old.place + 32 * count < 2 ^ 32 }
        ensures read { Gives (λ taken. (taken.now, self.new.place)) result
            (read (values count) self.old.bytes.now self.old.place) }
        ensures count { IfOk result (λ taken. length taken.now ≡ count) }
        ensures passes { Passes (32 * count) result self.old self.new }
    {
        let taken = self.values_bytes(count)?;
        Ok(taken.as_chunks().0)
    }

    fn values_bytes(&mut self, count: u32) -> Result<&'a [u8], ReadFault>
        requires { self.old.place + 32 * count < 2 ^ 32 }
        ensures read { Gives (λ taken. (first_chunks 32 (length taken.now / 32) taken.now, self.new.place)) result
            (read (values count) self.old.bytes.now self.old.place) }
        ensures count { IfOk result (λ taken. length taken.now / 32 ≡ count) }
        ensures passes { Passes (32 * count) result self.old self.new }
    {
        let whole = (self.bytes.len() - self.place as usize) / 32;
        if whole < count as usize {
            let place = self.place + 32 * whole as u32;
            let cause = Cause::Truncated;
            return Err(ReadFault { place, cause });
        }
        self.block(32 * count)
    }

    /// `Trailing` if bytes are left.
    pub fn end(&self) -> Result<(), ReadFault>
        ensures { MatchResult result (λ _. length self.now.bytes.now ≡ self.now.place)
            (λ e. (self.now.place < length self.now.bytes.now) × (e ≡ fault_at self.now.place Cause.Trailing)) }
    {
        if self.place as usize == self.bytes.len() {
            Ok(())
        } else {
            Err(self.fault(Cause::Trailing))
        }
    }

    fn fault(&self, cause: Cause) -> ReadFault
        ensures { result ≡ fault_at self.now.place cause }
    {
        ReadFault {
            place: self.place,
            cause,
        }
    }
}
