//! Answers of the C functions, packed into 64 bits.

ghost use Rattle.std.specs.Prelude.{◌≡◌};
ghost use Rattle.boot_verify.specs.Answer as spec;
ghost use Rattle.boot_verify.specs.Answer.{refusal_detail, verdict_answer};

use typecodes::{ReadFault, Refusal};

// 2^32: what multiplies the upper 32 bits of an answer.
const UPPER: u64 = 0x1_0000_0000;

/// The number of an answer that is no refusal, and says nothing of validity: what was asked for is ready.
pub(crate) const READY: u8 = 9;

/// The number of the refusal of a message that was begun for another key or signature, or for none.
pub(crate) const CHANGED: u8 = 8;

/// `number` in the lower 32 bits, `detail` in the upper ones.
pub(crate) fn packed(number: u8, detail: u32) -> u64
    ensures { result ≡ spec.packed number detail }
{
    u64::from(number) + UPPER * u64::from(detail)
}

/// A public key's fault, with the place of its byte.
pub(crate) fn fault_answer(fault: ReadFault) -> u64
    ensures { result ≡ spec.fault_answer fault }
{
    packed(fault.cause.number(), fault.place)
}

/// Refusal 6, KeyLength. A length of 2^32 or more is given as `u32::MAX`.
pub(crate) fn length_answer(length: usize) -> u64
    ensures { result ≡ spec.length_answer length }
{
    let detail = if length < 0x1_0000_0000 {
        length as u32
    } else {
        u32::MAX
    };
    packed(6, detail)
}

/// 0 for a valid signature, else its refusal.
pub(crate) fn answer_of(verdict: Result<(), Refusal>) -> u64
    ensures { result ≡ verdict_answer verdict }
{
    match verdict {
        Ok(()) => 0,
        Err(refusal) => packed(refusal.number(), detail_of(&refusal)),
    }
}

// The refusal's place or level; 0 where it has neither.
fn detail_of(refusal: &Refusal) -> u32
    ensures { result ≡ refusal_detail refusal.now }
{
    match refusal {
        Refusal::Unreadable(fault) => fault.place,
        Refusal::TypeMismatch(level) | Refusal::RootMismatch(level) => u32::from(*level),
        Refusal::LevelMismatch | Refusal::MessageRead => 0,
    }
}
