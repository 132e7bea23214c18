//! The digits of a digest.

ghost use Rattle.std.specs.Prelude.{◌≡◌, ◌≤◌, ◌<◌, ◌+◌, ◌*◌, ◌^◌, ℕ, List, ◌++◌, length, slice_index, All};
ghost use Rattle.arrayvec.specs.ArrayVec.{array_vec_len};
ghost use Rattle.byteorder.specs.Endian.{big_bytes};
ghost use Rattle.typecodes.specs.Types.{IsWidth};
ghost use Rattle.winternitz.specs.Digest as spec;
ghost use Rattle.winternitz.specs.Digest.{AreWinternitzDigits, HasWholeChecksum, NoneAbove, digit_count, digits_of};
ghost use Rattle.winternitz.specs.Digest.{checksum_of, first_digits, lacking_of, message_count};

use arrayvec::ArrayVec;
use typecodes::coef;

/// The digits of a digest and its checksum, one per chain: at most 265, for width 1.
pub type Digits = ArrayVec<u8, 265>;

/// The digits of a digest, then its checksum's, each of `width` bits (RFC 8554 4.4, RFC 8391 3.1.5). The caller keeps
/// the width 1, 2, 4 or 8.
pub fn digits(width: u8, digest: &[u8; 32]) -> Digits
    requires { IsWidth width }
    // As the standard computes them.
    ensures computed { result.items ≡ digits_of width digest.now }
    // What they are, and that no other list is.
    ensures digits { AreWinternitzDigits width digest.now result.items }
    ensures only { (others : List ℕ) → AreWinternitzDigits width digest.now others → others ≡ result.items }
    // Nothing of the checksum is lost.
    ensures whole { HasWholeChecksum width digest.now result.items }
    // No other digest has digits that are all at least as great.
    ensures apart { NoneAbove width digest.now result.items }
    ensures count { length result.items ≡ digit_count width }
    ensures below { (i : ℕ) → i < length result.items → slice_index result.items i < 2 ^ width }
{
    let mut all = Digits::new();
    push_digits(&mut all, width, 256 / width as u32, digest);
    let checksum = checksum(width, &all);
    push_digits(&mut all, width, checksum_count(width) as u32, &checksum);
    all
}

// Pushes the first `count` digits of the bytes.
fn push_digits(all: &mut Digits, width: u8, count: u32, bytes: &[u8])
    requires width { IsWidth width }
    requires in_bytes { count * width ≤ length bytes.now * 8 }
    requires room { array_vec_len all.old + count ≤ 265 }
    ensures items { all.new.items ≡ all.old.items ++ first_digits width count bytes.now }
    ensures len { array_vec_len all.new ≡ array_vec_len all.old + count }
{
    for i in 0..count {
        all.push(coef(bytes, i, width));
    }
}

// v of RFC 8554 Appendix B, len_2 of RFC 8391 3.1.1.
fn checksum_count(width: u8) -> u8
    requires { IsWidth width }
    ensures { result ≡ spec.checksum_count width }
{
    match width {
        1 => 9,
        2 => 5,
        4 => 3,
        _ => 2,
    }
}

// The checksum, shifted to the left end of its two bytes.
fn checksum(width: u8, digits: &[u8]) -> [u8; 2]
    requires width { IsWidth width }
    requires count { length digits.now ≡ message_count width }
    requires below { All (λ d. d < 2 ^ width) digits.now }
    ensures { result ≡ big_bytes 2 (checksum_of width digits.now) }
{
    let shift = 16 - width * checksum_count(width);
    (lacking(width, digits) << shift).to_be_bytes()
}

// The checksum before shifting: the sum of 2^width - 1 - d over all digits d.
fn lacking(width: u8, digits: &[u8]) -> u16
    requires width { width ≤ 8 }
    requires below { All (λ d. d < 2 ^ width) digits.now }
    requires fits { lacking_of width digits.now < 2 ^ 16 }
    ensures { result ≡ lacking_of width digits.now }
{
    let greatest = (1u16 << width) - 1;
    digits
        .iter()
        .map(|digit| greatest - u16::from(*digit))
        .sum()
}
