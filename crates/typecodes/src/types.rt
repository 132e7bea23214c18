//! The types of the standards' tables: RFC 8554 4.1 and 5.1, RFC 8391 5.3 and the codes of its XDR formats. All are
//! for SHA-256 with n = 32.

ghost use Rattle.std.specs.Prelude.{◌≡◌, ◌≢◌, ◌≤◌, ◌↔◌, All, IfSome};
ghost use Rattle.typecodes.specs.Types.{IsWidth, chains_of, ots_code, ots_of_code, ots_types};
ghost use Rattle.typecodes.specs.Types.{signature_len_of, width_of};
ghost use Rattle.typecodes.specs.Types.{height_of, lms_code, lms_of_code, lms_signature_len_of, lms_types};
ghost use Rattle.typecodes.specs.Types.{xmss_code, xmss_height_of, xmss_of_code, xmss_signature_len_of, xmss_types};

/// A one-time signature type of LM-OTS (RFC 8554 4.1), by the bits of its Winternitz digits.
#[derive(Clone, Copy, Debug, PartialEq, Eq)]
pub enum OtsType {
    /// Digits of 1 bit.
    W1,
    /// Digits of 2 bits.
    W2,
    /// Digits of 4 bits.
    W4,
    /// Digits of 8 bits.
    W8,
}

impl OtsType {
    /// Codes 1 to 4 name the types in the order of the widths, others none.
    pub fn from_code(code: u32) -> Option<Self>
        ensures named { result ≡ ots_of_code code }
        ensures has_code { IfSome result (λ t. ots_code t ≡ code) }
        ensures none { result ≡ None ↔ All (λ t. ots_code t ≢ code) ots_types }
    {
        match code {
            1 => Some(OtsType::W1),
            2 => Some(OtsType::W2),
            3 => Some(OtsType::W4),
            4 => Some(OtsType::W8),
            _ => None,
        }
    }

    /// The type's code, 1 to 4.
    pub fn code(self) -> u32
        ensures value { result ≡ ots_code self }
        ensures unique { (other : OtsType) → ots_code other ≡ result → other ≡ self }
    {
        match self {
            OtsType::W1 => 1,
            OtsType::W2 => 2,
            OtsType::W4 => 3,
            OtsType::W8 => 4,
        }
    }

    /// w: the bits of a Winternitz digit, 1, 2, 4 or 8.
    pub fn width(self) -> u8
        ensures value { result ≡ width_of self }
        ensures is_width { IsWidth result }
    {
        match self {
            OtsType::W1 => 1,
            OtsType::W2 => 2,
            OtsType::W4 => 4,
            OtsType::W8 => 8,
        }
    }

    /// p: the number of chains, 34 to 265.
    pub fn chains(self) -> u16
        ensures value { result ≡ chains_of self }
        ensures at_most_265 { result ≤ 265 }
    {
        match self {
            OtsType::W1 => 265,
            OtsType::W2 => 133,
            OtsType::W4 => 67,
            OtsType::W8 => 34,
        }
    }

    /// The bytes of a one-time signature: code, randomizer, one value per chain.
    pub fn signature_len(self) -> u32
        ensures { result ≡ signature_len_of self }
    {
        36 + 32 * u32::from(self.chains())
    }
}

/// A tree type of LMS (RFC 8554 5.1), by its height.
#[derive(Clone, Copy, Debug, PartialEq, Eq)]
pub enum LmsType {
    /// 32 leaves.
    H5,
    /// 1,024 leaves.
    H10,
    /// 32,768 leaves.
    H15,
    /// 1,048,576 leaves.
    H20,
    /// 33,554,432 leaves.
    H25,
}

impl LmsType {
    /// Codes 5 to 9 name the types in the order of the heights, others none.
    pub fn from_code(code: u32) -> Option<Self>
        ensures named { result ≡ lms_of_code code }
        ensures has_code { IfSome result (λ t. lms_code t ≡ code) }
        ensures none { result ≡ None ↔ All (λ t. lms_code t ≢ code) lms_types }
    {
        match code {
            5 => Some(LmsType::H5),
            6 => Some(LmsType::H10),
            7 => Some(LmsType::H15),
            8 => Some(LmsType::H20),
            9 => Some(LmsType::H25),
            _ => None,
        }
    }

    /// The type's code, 5 to 9.
    pub fn code(self) -> u32
        ensures value { result ≡ lms_code self }
        ensures unique { (other : LmsType) → lms_code other ≡ result → other ≡ self }
    {
        match self {
            LmsType::H5 => 5,
            LmsType::H10 => 6,
            LmsType::H15 => 7,
            LmsType::H20 => 8,
            LmsType::H25 => 9,
        }
    }

    /// h: the height. The tree has `2^h` leaves.
    pub fn height(self) -> u8
        ensures value { result ≡ height_of self }
        ensures at_most_25 { result ≤ 25 }
    {
        match self {
            LmsType::H5 => 5,
            LmsType::H10 => 10,
            LmsType::H15 => 15,
            LmsType::H20 => 20,
            LmsType::H25 => 25,
        }
    }
}

/// The two types of an LMS key.
#[derive(Clone, Copy, Debug, PartialEq, Eq)]
pub struct LmsPair {
    /// The type of the tree.
    pub tree: LmsType,
    /// The one-time type of its leaves.
    pub ots: OtsType,
}

impl LmsPair {
    /// The bytes of a signature: leaf index, one-time signature, tree code, path.
    pub fn signature_len(self) -> u32
        ensures { result ≡ lms_signature_len_of self }
    {
        8 + self.ots.signature_len() + 32 * u32::from(self.tree.height())
    }
}

/// len: the chains of a one-time key of WOTS+, for n = 32 and w = 16 (RFC 8391 3.1.1).
pub const WOTS_CHAINS: usize = 67;

/// A type of XMSS, by its height. Each leaf has `WOTS_CHAINS` chains of 15 steps.
#[derive(Clone, Copy, Debug, PartialEq, Eq)]
pub enum XmssType {
    /// XMSS-SHA2_10_256, 1,024 leaves.
    H10,
    /// XMSS-SHA2_16_256, 65,536 leaves.
    H16,
    /// XMSS-SHA2_20_256, 1,048,576 leaves.
    H20,
}

impl XmssType {
    /// Codes 1 to 3 name the types in the order of the heights, others none.
    pub fn from_code(code: u32) -> Option<Self>
        ensures named { result ≡ xmss_of_code code }
        ensures has_code { IfSome result (λ t. xmss_code t ≡ code) }
        ensures none { result ≡ None ↔ All (λ t. xmss_code t ≢ code) xmss_types }
    {
        match code {
            1 => Some(XmssType::H10),
            2 => Some(XmssType::H16),
            3 => Some(XmssType::H20),
            _ => None,
        }
    }

    /// The type's code, 1 to 3.
    pub fn code(self) -> u32
        ensures value { result ≡ xmss_code self }
        ensures unique { (other : XmssType) → xmss_code other ≡ result → other ≡ self }
    {
        match self {
            XmssType::H10 => 1,
            XmssType::H16 => 2,
            XmssType::H20 => 3,
        }
    }

    /// h: the height. The tree has `2^h` leaves.
    pub fn height(self) -> u8
        ensures value { result ≡ xmss_height_of self }
        ensures at_most_20 { result ≤ 20 }
    {
        match self {
            XmssType::H10 => 10,
            XmssType::H16 => 16,
            XmssType::H20 => 20,
        }
    }

    /// The bytes of a signature: leaf index, randomizer, one value per chain, path.
    pub fn signature_len(self) -> u32
        ensures { result ≡ xmss_signature_len_of self }
    {
        4 + 32 + 32 * WOTS_CHAINS as u32 + 32 * u32::from(self.height())
    }
}
