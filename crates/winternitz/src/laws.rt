//! A law of the standards' tables. The function does nothing: its contract is proved once.

ghost use Rattle.std.specs.Prelude.{◌≡◌, ◌+◌, ◌*◌};
ghost use Rattle.typecodes.specs.declared.types.OtsType.{OtsType};
ghost use Rattle.typecodes.specs.declared.types.XmssType.{XmssType};
ghost use Rattle.typecodes.specs.Types.{chains_of, width_of, wots_chains, xmss_height_of, xmss_signature_len_of};
ghost use Rattle.winternitz.specs.Digest.{checksum_count, digit_count, message_count};

/// A leaf has a chain for each digit of its width.
///
/// - p of each LM-OTS type is the number of its digits (`lm_ots`; RFC 8554 4.1, table 1).
/// - len of WOTS+, whose digits have 4 bits, is len_1 + len_2: a digest's digits and its checksum's (`wots`; RFC 8391
///   3.1.1).
/// - A signature of XMSS has as many values (`xmss`; RFC 8391 5.3).
pub fn chain_law()
    ensures lm_ots { (ots : OtsType) → chains_of ots ≡ digit_count (width_of ots) }
    ensures wots { wots_chains ≡ message_count 4 + checksum_count 4 }
    ensures xmss { (t : XmssType) → xmss_signature_len_of t ≡ 4 + 32 + 32 * digit_count 4 + 32 * xmss_height_of t }
{}
