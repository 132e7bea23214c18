//! The digits of a byte string (RFC 8554 3.1.3).

ghost use Rattle.std.specs.Prelude.{◌≡◌, ◌<◌, ◌*◌, ◌/◌, ◌^◌, length};
ghost use Rattle.typecodes.specs.Types.{IsWidth};
ghost use Rattle.typecodes.specs.Coefficient.{coef_of};

/// Digit i of s, cut into digits of w bits, the highest first (RFC 8554 3.1.3). w is 1, 2, 4 or 8, and digit i lies
/// inside s.
pub fn coef(s: &[u8], i: u32, w: u8) -> u8
    requires width { IsWidth w }
    requires in_bytes { i * w / 8 < length s.now }
    ensures value { result ≡ coef_of s.now i w }
    ensures below { result < 2 ^ w }
{
    let offset = i as usize * w as usize / 8;
    let after = 8 - (w as u32 * (i % (8 / w as u32)) + w as u32);
    let digit = (s[offset] as u16 >> after) % (1u16 << w);
    digit as u8
}
