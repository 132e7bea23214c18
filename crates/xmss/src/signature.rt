//! Signatures, as views of their bytes.

ghost use Rattle.std.specs.Prelude.{◌≡◌, ◌+◌, ◌*◌, ◌<◌, ◌^◌, IfOk, Ok};
ghost use Rattle.std.specs.Prelude.{[], length, take, drop, slice_index_or};
ghost use Rattle.byteorder.specs.Endian.{big_number};
ghost use Rattle.typecodes.specs.Layout.{Spells};
ghost use Rattle.typecodes.specs.Fields.{first_values};
ghost use Rattle.typecodes.specs.Cursor.{Gives, Passes, Reads, read};
ghost use Rattle.typecodes.specs.Types.{wots_chains, xmss_height_of, xmss_signature_len_of};
ghost use Rattle.xmss.specs.Signature as spec;
ghost use Rattle.xmss.specs.Signature.{chain_values, signature, whole_signature};

use typecodes::{Cause, Cursor, ReadFault, WOTS_CHAINS, XmssType};

/// A signature of one tree (RFC 8391 4.1.8), as a view of its bytes.
#[derive(Clone, Copy, Debug)]
pub struct XmssSigView<'a> {
    pub(crate) tree: XmssType,
    pub(crate) index: u32,
    pub(crate) randomizer: &'a [u8; 32],
    pub(crate) chains: &'a [[u8; 32]],
    pub(crate) path: &'a [[u8; 32]],
    pub(crate) bytes: &'a [u8],
    ghost is_leaf: { index < 2 ^ xmss_height_of tree },
    ghost chain_count: { length chains.now ≡ wots_chains },
    ghost path_length: { length path.now ≡ xmss_height_of tree },
    ghost spelled: { read (signature tree) bytes.now 0
        ≡ Ok (whole_signature index randomizer.now chains.now path.now, length bytes.now) },
    ghost size: { length bytes.now ≡ xmss_signature_len_of tree },
    ghost index_at: { index ≡ big_number 4 (take 4 bytes.now) },
    ghost randomizer_at: { randomizer.now ≡ take 32 (drop 4 bytes.now) },
    ghost chains_at: { chains.now ≡ chain_values (drop 36 bytes.now) },
    ghost path_at: { path.now ≡ first_values (xmss_height_of tree) (drop 2180 bytes.now) },
}

impl<'a> XmssSigView<'a> {
    ghost use Rattle.xmss.specs.View.{bytes_of, lent_of, signature_of, tree_of};

    /// Decodes a signature of a type, of exactly 2500, 2692 or 2820 bytes. Else the first fault (1, 4 or 5). A leaf's
    /// index out of range is refused before the following fields are read.
    #[tactic(auto, using(crate::proofs::Fields::fields), unfolding(crate::specs::Signature::signature))]
    pub fn read(tree: XmssType, bytes: &'a [u8]) -> Result<Self, ReadFault>
        ensures reads { Reads (signature tree) signature_of bytes.entry.now result }
        ensures whole { IfOk result (λ view. lent_of view ≡ bytes.entry) }
        ensures tree { IfOk result (λ view. tree_of view ≡ tree) }
    {
        let mut cursor = Cursor::new(bytes);
        let index = leaf_index(&mut cursor, tree)?;
        let randomizer = cursor.array()?;
        let chains = cursor.values(WOTS_CHAINS as u32)?;
        let path = cursor.values(u32::from(tree.height()))?;
        cursor.end()?;
        Ok(XmssSigView {
            tree,
            index,
            randomizer,
            chains,
            path,
            bytes,
        })
    }

    /// idx, the leaf's number.
    pub fn index(&self) -> u32
        ensures value { result ≡ (signature_of self.now).index }
        ensures range { result ≡ big_number 4 (take 4 (bytes_of self.now)) }
        ensures is_leaf { result < 2 ^ xmss_height_of (tree_of self.now) }
    {
        self.index
    }

    /// r, the randomizer: bytes 4 to 35.
    pub fn r(&self) -> &'a [u8; 32]
        ensures value { result.now ≡ (signature_of self.now).randomizer }
        ensures range { result.now ≡ take 32 (drop 4 (bytes_of self.now)) }
    {
        self.randomizer
    }

    /// The value of chain i, 32 bytes. The caller keeps i below 67, the number of chains.
    pub fn chain(&self, i: u16) -> &'a [u8; 32]
        requires { i < wots_chains }
        ensures value { result.now ≡ slice_index_or (signature_of self.now).chains i [] }
        ensures range { result.now ≡ take 32 (drop (36 + 32 * i) (bytes_of self.now)) }
    {
        &self.chains[usize::from(i)]
    }

    /// Node k of the authentication path, at height k, 32 bytes. The caller keeps k below the tree's height.
    pub fn node(&self, k: u8) -> &'a [u8; 32]
        requires { k < xmss_height_of (tree_of self.now) }
        ensures value { result.now ≡ slice_index_or (signature_of self.now).path k [] }
        ensures range { result.now ≡ take 32 (drop (2180 + 32 * k) (bytes_of self.now)) }
    {
        &self.path[usize::from(k)]
    }

    /// All bytes of the signature.
    pub fn bytes(&self) -> &'a [u8]
        ensures whole { result ≡ lent_of self.now }
        ensures spells { Spells (signature (tree_of self.now)) (signature_of self.now) result.now }
        ensures len { length result.now ≡ xmss_signature_len_of (tree_of self.now) }
    {
        self.bytes
    }
}

// Reads idx, 4 bytes. An index that is no leaf's is a fault, and a fault leaves the cursor where it was.
#[tactic(auto, using(crate::proofs::Fields::fields), unfolding(crate::specs::Signature::leaf_index))]
fn leaf_index(cursor: &mut Cursor<'_>, tree: XmssType) -> Result<u32, ReadFault>
    requires { cursor.old.place + 4 < 2 ^ 32 }
    ensures read { Gives (λ index. (index, cursor.new.place)) result
        (read (spec.leaf_index (xmss_height_of tree)) cursor.old.bytes.now cursor.old.place) }
    ensures is_leaf { IfOk result (λ index. index < 2 ^ xmss_height_of tree) }
    ensures range { IfOk result (λ index. index ≡ big_number 4 (take 4 (drop cursor.old.place cursor.old.bytes.now))) }
    ensures passes { Passes 4 result cursor.old cursor.new }
{
    let mut rest = *cursor;
    let index = rest.number()?;
    if index >= 1 << tree.height() {
        return Err(ReadFault {
            place: cursor.place,
            cause: Cause::LeafOutOfRange,
        });
    }
    *cursor = rest;
    Ok(index)
}
