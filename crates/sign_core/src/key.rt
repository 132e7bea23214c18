//! Public keys of every scheme.

ghost use Rattle.std.specs.Prelude.{◌≡◌, ◌≤◌, length, IfErr, IfOk, Ok};
ghost use Rattle.typecodes.specs.Verdict.{Verifies};
ghost use Rattle.sign_core.specs.Key.{KeyHasFault, KeyLeavesMessage, KeyVerdict, SpellsKey};

use arrayvec::ArrayVec;
use hss::HssPublic;
use lms::LmsPublic;
use thiserror::Error;
use typecodes::{Message, ReadFault, Refusal};
use xmss::XmssPublic;

/// A public key of one of the schemes. Its length in bytes names the scheme.
#[derive(Clone, Copy, Debug, PartialEq, Eq)]
pub enum AnyPublic {
    /// LMS, 56 bytes (RFC 8554 5.3).
    Lms(LmsPublic),
    /// HSS, 60 bytes (RFC 8554 6.1).
    Hss(HssPublic),
    /// XMSS, 68 bytes (RFC 8391 4.1.7).
    Xmss(XmssPublic),
}

/// Why bytes are no public key.
#[derive(Clone, Copy, Debug, PartialEq, Eq, Error)]
pub enum KeyFault {
    /// 6: no public key has this length in bytes.
    #[error("no public key has {0} bytes")]
    Length(usize),
    /// 2 or 3: the first fault in a key of this length.
    #[error("the public key can't be read: {0}")]
    Unreadable(ReadFault),
}

impl KeyFault {
    ghost use Rattle.sign_core.specs.Key.{key_fault_name, key_fault_number};

    /// The number that reports the fault: 2, 3 or 6.
    pub fn number(self) -> u8
        ensures { result ≡ key_fault_number self }
    {
        match self {
            KeyFault::Length(_) => 6,
            KeyFault::Unreadable(fault) => fault.cause.number(),
        }
    }

    /// The name that is printed beside the number.
    pub fn name(self) -> &'static str
        ensures { result.now ≡ key_fault_name self }
    {
        match self {
            KeyFault::Length(_) => "KeyLength",
            KeyFault::Unreadable(fault) => fault.cause.name(),
        }
    }
}

impl AnyPublic {
    ghost use Rattle.sign_core.specs.declared.key.AnyPublic.{AnyPublic as Key};

    /// Decodes a key of the scheme that the length names. Refuses a wrong length (6), or else the first fault in the
    /// scheme's layout (2 or 3).
    pub fn read(bytes: &[u8]) -> Result<Self, KeyFault>
        ensures ok { IfOk result (λ key. SpellsKey key bytes.now) }
        ensures err { IfErr result (KeyHasFault bytes.now) }
        ensures spelled { (key : Key) → SpellsKey key bytes.now → result ≡ Ok key }
    {
        let key = match bytes.len() {
            56 => LmsPublic::read(bytes).map(AnyPublic::Lms),
            60 => HssPublic::read(bytes).map(AnyPublic::Hss),
            68 => XmssPublic::read(bytes).map(AnyPublic::Xmss),
            length => return Err(KeyFault::Length(length)),
        };
        key.map_err(KeyFault::Unreadable)
    }

    /// The key's 56, 60 or 68 bytes.
    pub fn write(&self) -> ArrayVec<u8, 68>
        ensures { SpellsKey self.now result.items }
    {
        match self {
            AnyPublic::Lms(key) => to_array_vec(&key.to_bytes()),
            AnyPublic::Hss(key) => to_array_vec(&key.to_bytes()),
            AnyPublic::Xmss(key) => to_array_vec(&key.to_bytes()),
        }
    }
}

fn to_array_vec(bytes: &[u8]) -> ArrayVec<u8, 68>
    requires { length bytes.now ≤ 68 }
    ensures { result.items ≡ bytes.now }
{
    ArrayVec::try_from(bytes).unwrap_or_else(|_| unreachable!())
}

/// Verifies a signature of the message under the key, by the key's scheme (RFC 8554 5.4.2 and 6.3, RFC 8391 4.1.10).
/// The message is read in pieces. The refusals, their order, and how far the message is read are the scheme's: see
/// `lms::verify`, `hss::verify` and `xmss::verify`.
pub fn verify_any<M: Message>(
    public: &AnyPublic,
    message: &mut M,
    signature: &[u8],
) -> Result<(), Refusal>
    ensures { Verifies M.remaining (λ text. KeyVerdict public.now text signature.now)
        (KeyLeavesMessage M.transition M.remaining public.now) message.old message.new result }
{
    match public {
        AnyPublic::Lms(key) => lms::verify(key, message, signature),
        AnyPublic::Hss(key) => hss::verify(key, message, signature),
        AnyPublic::Xmss(key) => xmss::verify(key, message, signature),
    }
}
