//! Reading and writing a secret, 177 bytes.

ghost use Rattle.std.specs.Prelude.{◌≡◌, ◌<◌, ◌≤◌, ◌+◌, ◌*◌, ◌^◌, length, take};
ghost use Rattle.arrayvec.specs.ArrayVec.{array_vec_len};
ghost use Rattle.typecodes.specs.Cursor.{read, Gives};
ghost use Rattle.state_file.specs.inner.Fields.{Advances, Puts};
ghost use Rattle.state_file.specs.Slot.{hss_fields, levels_field, lms_fields, pair_field, pairs};
ghost use Rattle.state_file.specs.inner.Slot.{scheme_of};
ghost use Rattle.state_file.specs.Slot.{secret_fields, xmss_fields};

use crate::record::Secret;
use crate::slot::fields::{
    Fields, no_record, put_array, put_byte_within, put_exactly, put_number, put_zeros,
    read_byte_within, read_exactly, read_zeros,
};
use typecodes::{Cursor, Levels, LmsPair, LmsSecret, LmsType, OtsType, ReadFault, XmssSecret};

/// A pair, as two codes.
#[tactic(auto, using(typecodes::proofs::Steps::reading), unfolding(crate::specs::Slot::pair_field))]
pub(crate) fn read_pair(cursor: &mut Cursor<'_>) -> Result<LmsPair, ReadFault>
    requires { cursor.old.place + 8 < 2 ^ 32 }
    ensures read { Gives (λ pair. (pair, cursor.new.place)) result
        (read pair_field cursor.old.bytes.now cursor.old.place) }
    ensures passes { Advances 8 result cursor.old cursor.new }
{
    let tree = cursor.lms_type()?;
    let ots = cursor.ots_type()?;
    Ok(LmsPair { tree, ots })
}

// Appends a pair's codes.
fn put_pair(out: &mut Fields, pair: LmsPair)
    requires { array_vec_len out.old + 8 ≤ 223 }
    ensures { Puts 8 pair_field pair out.old out.new }
{
    put_number(out, pair.tree.code());
    put_number(out, pair.ots.code());
}

// `count` pairs, at the front of the array.
fn read_pairs(cursor: &mut Cursor<'_>, count: u8) -> Result<[LmsPair; 8], ReadFault>
    requires at_most_8 { count ≤ 8 }
    requires room { cursor.old.place + 64 < 2 ^ 32 }
    ensures read { Gives (λ all. (take count all, cursor.new.place)) result
        (read (pairs count) cursor.old.bytes.now cursor.old.place) }
    ensures passes { Advances (8 * count) result cursor.old cursor.new }
{
    let mut all = [LmsPair {
        tree: LmsType::H5,
        ots: OtsType::W1,
    }; 8];
    for i in 0..usize::from(count) {
        all[i] = read_pair(cursor)?;
    }
    Ok(all)
}

fn put_pairs(out: &mut Fields, all: &[LmsPair])
    requires { array_vec_len out.old + 8 * length all.now ≤ 223 }
    ensures { Puts (8 * length all.now) (pairs (length all.now)) all.now out.old out.new }
{
    for pair in all {
        put_pair(out, *pair);
    }
}

/// The levels of an HSS key, 65 bytes: their number, their pairs, and zeros up to the eighth.
#[tactic(auto, using(typecodes::proofs::Steps::reading), unfolding(crate::specs::Slot::levels_field))]
pub(crate) fn read_levels(cursor: &mut Cursor<'_>) -> Result<Levels, ReadFault>
    requires { cursor.old.place + 65 < 2 ^ 32 }
    ensures read { Gives (λ levels. (levels, cursor.new.place)) result
        (read levels_field cursor.old.bytes.now cursor.old.place) }
    ensures passes { Advances 65 result cursor.old cursor.new }
{
    let count = read_byte_within(cursor, 1, 8)?;
    let all = read_pairs(cursor, count)?;
    read_zeros(cursor, 64 - 8 * u32::from(count))?;
    match Levels::new(&all[..usize::from(count)]) {
        Some(levels) => Ok(levels),
        None => unreachable!(),
    }
}

fn put_levels(out: &mut Fields, levels: &Levels)
    requires { array_vec_len out.old + 65 ≤ 223 }
    ensures { Puts 65 levels_field levels.now out.old out.new }
{
    let all = levels.as_slice();
    put_byte_within(out, all.len() as u8, 1, 8);
    put_pairs(out, all);
    put_zeros(out, 64 - 8 * all.len());
}

// An LMS secret, 177 bytes.
#[tactic(auto, using(typecodes::proofs::Steps::reading), unfolding(crate::specs::Slot::lms_fields))]
fn read_lms(cursor: &mut Cursor<'_>) -> Result<Secret, ReadFault>
    requires { cursor.old.place + 177 < 2 ^ 32 }
    ensures read { Gives (λ secret. (secret, cursor.new.place)) result
        (read lms_fields cursor.old.bytes.now cursor.old.place) }
    ensures passes { Advances 177 result cursor.old cursor.new }
{
    read_exactly(cursor, &[1])?;
    let pair = read_pair(cursor)?;
    read_zeros(cursor, 56)?;
    let identifier = *cursor.array()?;
    let seed = *cursor.array()?;
    read_zeros(cursor, 64)?;
    Ok(Secret::Lms(LmsSecret {
        pair,
        identifier,
        seed,
    }))
}

fn put_lms(out: &mut Fields, secret: &LmsSecret)
    requires { array_vec_len out.old + 177 ≤ 223 }
    ensures { Puts 177 lms_fields (Secret.Lms secret.now) out.old out.new }
{
    put_exactly(out, &[1]);
    put_pair(out, secret.pair);
    put_zeros(out, 56);
    put_array(out, &secret.identifier);
    put_array(out, &secret.seed);
    put_zeros(out, 64);
}

// An HSS secret, 177 bytes.
#[tactic(auto, using(typecodes::proofs::Steps::reading), unfolding(crate::specs::Slot::hss_fields))]
fn read_hss(cursor: &mut Cursor<'_>) -> Result<Secret, ReadFault>
    requires { cursor.old.place + 177 < 2 ^ 32 }
    ensures read { Gives (λ secret. (secret, cursor.new.place)) result
        (read hss_fields cursor.old.bytes.now cursor.old.place) }
    ensures passes { Advances 177 result cursor.old cursor.new }
{
    let levels = read_levels(cursor)?;
    let identifier = *cursor.array()?;
    let seed = *cursor.array()?;
    read_zeros(cursor, 64)?;
    Ok(Secret::Hss {
        levels,
        identifier,
        seed,
    })
}

fn put_hss(out: &mut Fields, levels: &Levels, identifier: &[u8; 16], seed: &[u8; 32])
    requires { array_vec_len out.old + 177 ≤ 223 }
    ensures { Puts 177 hss_fields (Secret.Hss levels.now identifier.now seed.now) out.old out.new }
{
    put_levels(out, levels);
    put_array(out, identifier);
    put_array(out, seed);
    put_zeros(out, 64);
}

// An XMSS secret, 177 bytes.
#[tactic(auto, using(typecodes::proofs::Steps::reading), unfolding(crate::specs::Slot::xmss_fields))]
fn read_xmss(cursor: &mut Cursor<'_>) -> Result<Secret, ReadFault>
    requires { cursor.old.place + 177 < 2 ^ 32 }
    ensures read { Gives (λ secret. (secret, cursor.new.place)) result
        (read xmss_fields cursor.old.bytes.now cursor.old.place) }
    ensures passes { Advances 177 result cursor.old cursor.new }
{
    read_exactly(cursor, &[1])?;
    let tree = cursor.xmss_type()?;
    read_zeros(cursor, 60)?;
    read_zeros(cursor, 16)?;
    let secret_seed = *cursor.array()?;
    let prf_key = *cursor.array()?;
    let public_seed = *cursor.array()?;
    Ok(Secret::Xmss(XmssSecret {
        tree,
        secret_seed,
        prf_key,
        public_seed,
    }))
}

fn put_xmss(out: &mut Fields, secret: &XmssSecret)
    requires { array_vec_len out.old + 177 ≤ 223 }
    ensures { Puts 177 xmss_fields (Secret.Xmss secret.now) out.old out.new }
{
    put_exactly(out, &[1]);
    put_number(out, secret.tree.code());
    put_zeros(out, 60);
    put_zeros(out, 16);
    put_array(out, &secret.secret_seed);
    put_array(out, &secret.prf_key);
    put_array(out, &secret.public_seed);
}

/// A secret, by its scheme, whose byte stands before the cursor.
pub(crate) fn read_secret(cursor: &mut Cursor<'_>, scheme: u8) -> Result<Secret, ReadFault>
    requires after_scheme { 1 ≤ cursor.old.place }
    requires room { cursor.old.place + 177 < 2 ^ 32 }
    ensures read { Gives (λ secret. (secret, cursor.new.place)) result
        (read (secret_fields scheme) cursor.old.bytes.now cursor.old.place) }
    ensures passes { Advances 177 result cursor.old cursor.new }
{
    match scheme {
        1 => read_lms(cursor),
        2 => read_hss(cursor),
        3 => read_xmss(cursor),
        _ => Err(no_record(cursor.place - 1)),
    }
}

/// Appends a secret, 177 bytes, without its scheme.
pub(crate) fn put_secret(out: &mut Fields, secret: &Secret)
    requires { array_vec_len out.old + 177 ≤ 223 }
    ensures { Puts 177 (secret_fields (scheme_of secret.now)) secret.now out.old out.new }
{
    match secret {
        Secret::Lms(secret) => put_lms(out, secret),
        Secret::Hss {
            levels,
            identifier,
            seed,
        } => put_hss(out, levels, identifier, seed),
        Secret::Xmss(secret) => put_xmss(out, secret),
    }
}

pub(crate) fn scheme(secret: &Secret) -> u8
    ensures { result ≡ scheme_of secret.now }
{
    match secret {
        Secret::Lms(_) => 1,
        Secret::Hss { .. } => 2,
        Secret::Xmss(_) => 3,
    }
}
