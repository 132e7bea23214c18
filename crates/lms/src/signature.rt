//! Signatures, as views of their bytes.

ghost use Rattle.std.specs.Prelude.{◌≡◌, ◌+◌, ◌-◌, ◌*◌, ◌<◌, ◌^◌, IfOk, Ok};
ghost use Rattle.std.specs.Prelude.{[], length, take, drop, slice_index_or};
ghost use Rattle.byteorder.specs.Endian.{big_number};
ghost use Rattle.typecodes.specs.Layout.{Spells};
ghost use Rattle.typecodes.specs.Fields.{first_values};
ghost use Rattle.typecodes.specs.Cursor.{Gives, KeepsCursor, Reads, read};
ghost use Rattle.typecodes.specs.Types.{chains_of, height_of, lms_signature_len_of, signature_len_of};
ghost use Rattle.lms.specs.Signature.{signature, whole_signature};

use typecodes::{Cause, Cursor, LmsPair, ReadFault};

/// A signature of one tree (RFC 8554 5.4), as a view of the bytes that spell it.
#[derive(Clone, Copy, Debug)]
pub struct LmsSigView<'a> {
    pub(crate) pair: LmsPair,
    pub(crate) q: u32,
    pub(crate) randomizer: &'a [u8; 32],
    pub(crate) chains: &'a [[u8; 32]],
    pub(crate) path: &'a [[u8; 32]],
    pub(crate) bytes: &'a [u8],
    ghost is_leaf: { q < 2 ^ height_of pair.tree },
    ghost chain_count: { length chains.now ≡ chains_of pair.ots },
    ghost path_length: { length path.now ≡ height_of pair.tree },
    ghost spelled: { read signature bytes.now 0
        ≡ Ok (whole_signature pair q randomizer.now chains.now path.now, length bytes.now) },
    ghost size: { length bytes.now ≡ lms_signature_len_of pair },
    ghost q_at: { q ≡ big_number 4 (take 4 bytes.now) },
    ghost randomizer_at: { randomizer.now ≡ take 32 (drop 8 bytes.now) },
    ghost chains_at: { chains.now ≡ first_values (chains_of pair.ots) (drop 40 bytes.now) },
    ghost path_at: { path.now ≡ first_values (height_of pair.tree) (drop (8 + signature_len_of pair.ots) bytes.now) },
}

impl<'a> LmsSigView<'a> {
    ghost use Rattle.lms.specs.View.{bytes_of, lent_of, pair_of, signature_of};

    /// The signature at a cursor: q, one-time type, C, a value for each chain, tree type, path. A q that is no leaf of
    /// the tree is a fault at q, found once the tree's type is read. The caller keeps the place so low that the longest
    /// signature, 9324 bytes, ends below `2^32`. At a fault the cursor stays.
    #[tactic(auto, using(crate::proofs::Fields::fields), unfolding(crate::specs::Signature::signature))]
    pub fn from_cursor(cursor: &mut Cursor<'a>) -> Result<Self, ReadFault>
        requires { cursor.old.place + 9324 < 2 ^ 32 }
        ensures read { Gives (λ view. (signature_of view, cursor.new.place)) result
            (read signature cursor.old.bytes.now cursor.old.place) }
        ensures len { IfOk result (λ view. cursor.new.place ≡ cursor.old.place + lms_signature_len_of (pair_of view)) }
        ensures keeps { KeepsCursor result cursor.old cursor.new }
        ensures part { IfOk result (λ view. bytes_of view
            ≡ take (cursor.new.place - cursor.old.place) (drop cursor.old.place cursor.old.bytes.now)) }
    {
        let (all, start) = (cursor.bytes, cursor.place);
        let mut rest = *cursor;
        let q = rest.number()?;
        let ots = rest.ots_type()?;
        let randomizer = rest.array()?;
        let chains = rest.values(u32::from(ots.chains()))?;
        let tree = rest.lms_type()?;
        if q >= 1 << tree.height() {
            return Err(ReadFault {
                place: start,
                cause: Cause::LeafOutOfRange,
            });
        }
        let path = rest.values(u32::from(tree.height()))?;
        *cursor = rest;
        Ok(LmsSigView {
            pair: LmsPair { tree, ots },
            q,
            randomizer,
            chains,
            path,
            bytes: &all[start as usize..cursor.place as usize],
        })
    }

    /// The signature that the bytes spell, and no more: 1292 bytes for H5/W8. Else their first fault (1, 2, 4 or 5).
    #[tactic(auto, using(typecodes::proofs::Steps::steps))]
    pub fn read(bytes: &'a [u8]) -> Result<Self, ReadFault>
        ensures reads { Reads signature signature_of bytes.entry.now result }
        ensures whole { IfOk result (λ view. lent_of view ≡ bytes.entry) }
    {
        let mut cursor = Cursor::new(bytes);
        let mut view = Self::from_cursor(&mut cursor)?;
        cursor.end()?;
        // No bytes follow the signature, so the view can keep the caller's own slice.
        view.bytes = bytes;
        Ok(view)
    }

    /// q, the leaf's number.
    pub fn index(&self) -> u32
        ensures value { result ≡ (signature_of self.now).q }
        ensures range { result ≡ big_number 4 (take 4 (bytes_of self.now)) }
        ensures is_leaf { result < 2 ^ height_of (pair_of self.now).tree }
    {
        self.q
    }

    /// The signature's types. Verification compares them with the key's.
    pub fn types(&self) -> LmsPair
        ensures { result ≡ (signature_of self.now).pair }
    {
        self.pair
    }

    /// C, the randomizer: 32 bytes from byte 8 on.
    pub fn c(&self) -> &'a [u8; 32]
        ensures value { result.now ≡ (signature_of self.now).randomizer }
        ensures range { result.now ≡ take 32 (drop 8 (bytes_of self.now)) }
    {
        self.randomizer
    }

    /// The value of chain i, 32 bytes from byte 40 + 32 * i on. The caller keeps i below the number of chains.
    pub fn chain(&self, i: u16) -> &'a [u8; 32]
        requires { i < chains_of (pair_of self.now).ots }
        ensures value { result.now ≡ slice_index_or (signature_of self.now).chains i [] }
        ensures range { result.now ≡ take 32 (drop (40 + 32 * i) (bytes_of self.now)) }
    {
        &self.chains[usize::from(i)]
    }

    /// Node k of the path, at height k, 32 bytes. The caller keeps k below the tree's height.
    pub fn node(&self, k: u8) -> &'a [u8; 32]
        requires { k < height_of (pair_of self.now).tree }
        ensures value { result.now ≡ slice_index_or (signature_of self.now).path k [] }
        ensures range { result.now
            ≡ take 32 (drop (8 + signature_len_of (pair_of self.now).ots + 32 * k) (bytes_of self.now)) }
    {
        &self.path[usize::from(k)]
    }

    /// The bytes that spell the signature.
    pub fn bytes(&self) -> &'a [u8]
        ensures whole { result ≡ lent_of self.now }
        ensures spells { Spells signature (signature_of self.now) result.now }
        ensures len { length result.now ≡ lms_signature_len_of (pair_of self.now) }
    {
        self.bytes
    }
}
