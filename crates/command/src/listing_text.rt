//! The texts of a listing: a key's spec, and a line for each record or for each level of a signature.

ghost use Rattle.std.specs.Prelude.{◌≡◌, ◌++◌, OnOk, codes, decimal};
ghost use Rattle.std.specs.Io.KnownBytes.{Appends};
ghost use Rattle.hex.specs.Hex.{encode_lower};
ghost use Rattle.typecodes.specs.Spec.{levels_text, ots_text, pair_text, spec_text, tree_text, xmss_text};
ghost use Rattle.command.specs.Output.{entry_line, entry_lines, entry_text, identifier_text, signed_line};
ghost use Rattle.command.specs.Output.{signed_lines, types_text};
ghost use Rattle.command.specs.inner.ListingText.{after_comma};

use crate::described::SignedLevel;
use crate::hex_text::write_hex;
use key_audit::Entry;
use std::io;
use std::io::Write;
use typecodes::{LmsPair, LmsType, OtsType, Spec, XmssType};

/// Writes the text of a spec.
pub fn write_spec<W: Write>(writer: &mut W, spec: &Spec) -> io::Result<()>
    ensures { OnOk result (Appends (W.contents writer.old) (W.contents writer.new) (spec_text spec.now)) }
{
    match spec {
        Spec::Lms(pair) => {
            writer.write_all("lms:".as_bytes())?;
            write_pair(writer, *pair)
        }
        Spec::Hss(levels) => {
            writer.write_all("hss:".as_bytes())?;
            write_pairs(writer, levels.as_slice())
        }
        Spec::Xmss(tree) => {
            writer.write_all("xmss:".as_bytes())?;
            writer.write_all(height_text(*tree).as_bytes())
        }
    }
}

fn write_pairs<W: Write>(writer: &mut W, pairs: &[LmsPair]) -> io::Result<()>
    ensures { OnOk result (Appends (W.contents writer.old) (W.contents writer.new) (levels_text pairs.now)) }
{
    for level in 0..pairs.len() {
        write_next_pair(writer, level, pairs[level])?;
    }
    Ok(())
}

// With a comma before it, except at the top level.
fn write_next_pair<W: Write>(writer: &mut W, level: usize, pair: LmsPair) -> io::Result<()>
    ensures { OnOk result (Appends (W.contents writer.old) (W.contents writer.new)
        (after_comma level (pair_text pair))) }
{
    if level > 0 {
        writer.write_all(",".as_bytes())?;
    }
    write_pair(writer, pair)
}

fn write_pair<W: Write>(writer: &mut W, pair: LmsPair) -> io::Result<()>
    ensures { OnOk result (Appends (W.contents writer.old) (W.contents writer.new) (pair_text pair)) }
{
    writer.write_all(tree_text(pair.tree).as_bytes())?;
    writer.write_all("/".as_bytes())?;
    writer.write_all(width_text(pair.ots).as_bytes())
}

fn tree_text(tree: LmsType) -> &'static str
    ensures { result.now ≡ tree_text tree }
{
    match tree {
        LmsType::H5 => "H5",
        LmsType::H10 => "H10",
        LmsType::H15 => "H15",
        LmsType::H20 => "H20",
        LmsType::H25 => "H25",
    }
}

fn width_text(ots: OtsType) -> &'static str
    ensures { result.now ≡ ots_text ots }
{
    match ots {
        OtsType::W1 => "W1",
        OtsType::W2 => "W2",
        OtsType::W4 => "W4",
        OtsType::W8 => "W8",
    }
}

fn height_text(tree: XmssType) -> &'static str
    ensures { result.now ≡ xmss_text tree }
{
    match tree {
        XmssType::H10 => "10",
        XmssType::H16 => "16",
        XmssType::H20 => "20",
    }
}

/// Writes a line for each level of an HSS signature.
pub fn write_signed_levels<W: Write>(writer: &mut W, levels: &[SignedLevel]) -> io::Result<()>
    ensures { OnOk result (Appends (W.contents writer.old) (W.contents writer.new) (signed_lines 0 levels.now)) }
{
    for level in 0..levels.len() {
        write_signed_level(writer, level, &levels[level])?;
    }
    Ok(())
}

fn write_signed_level<W: Write>(
    writer: &mut W,
    level: usize,
    signed: &SignedLevel,
) -> io::Result<()>
    ensures { OnOk result (Appends (W.contents writer.old) (W.contents writer.new) (signed_line level signed.now)) }
{
    write_types(writer, level, signed.pair)?;
    write_number(writer, " index ", signed.leaf)?;
    write_identifier(writer, signed.identifier)?;
    writer.write_all("\n".as_bytes())
}

fn write_types<W: Write>(writer: &mut W, level: usize, pair: LmsPair) -> io::Result<()>
    ensures { OnOk result (Appends (W.contents writer.old) (W.contents writer.new) (types_text level pair)) }
{
    writer.write_all("level ".as_bytes())?;
    writer.write_fmt(level as u64)?;
    writer.write_all(" types ".as_bytes())?;
    write_pair(writer, pair)
}

fn write_identifier<W: Write>(writer: &mut W, identifier: Option<[u8; 16]>) -> io::Result<()>
    ensures { OnOk result (Appends (W.contents writer.old) (W.contents writer.new) (identifier_text identifier)) }
{
    match identifier {
        Some(identifier) => write_known_identifier(writer, &identifier),
        None => Ok(()),
    }
}

fn write_known_identifier<W: Write>(writer: &mut W, identifier: &[u8; 16]) -> io::Result<()>
    ensures { OnOk result (Appends (W.contents writer.old) (W.contents writer.new)
        (codes " identifier " ++ encode_lower identifier.now)) }
{
    writer.write_all(" identifier ".as_bytes())?;
    write_hex(writer, identifier)
}

/// Writes a line for each record.
pub fn write_entries<W: Write>(writer: &mut W, entries: &[Entry]) -> io::Result<()>
    ensures { OnOk result (Appends (W.contents writer.old) (W.contents writer.new) (entry_lines 0 entries.now)) }
{
    for place in 0..entries.len() {
        write_line(writer, place, &entries[place])?;
    }
    Ok(())
}

fn write_line<W: Write>(writer: &mut W, place: usize, entry: &Entry) -> io::Result<()>
    ensures { OnOk result (Appends (W.contents writer.old) (W.contents writer.new) (entry_line place entry.now)) }
{
    writer.write_fmt(place as u64)?;
    write_entry(writer, entry)?;
    writer.write_all("\n".as_bytes())
}

fn write_entry<W: Write>(writer: &mut W, entry: &Entry) -> io::Result<()>
    ensures { OnOk result (Appends (W.contents writer.old) (W.contents writer.new) (entry_text entry.now)) }
{
    match entry {
        Entry::Key => writer.write_all(" key".as_bytes()),
        Entry::Tree { level, leaf } => write_tree(writer, *level, *leaf),
        Entry::Name { name, leaf, digest } => {
            write_name(writer, name.as_bytes(), *leaf)?;
            writer.write_all(" digest ".as_bytes())?;
            write_hex(writer, digest)
        }
        Entry::Retired { upto } => write_retired(writer, *upto),
        Entry::Moved => writer.write_all(" moved".as_bytes()),
    }
}

fn write_name<W: Write>(writer: &mut W, name: &[u8], leaf: u32) -> io::Result<()>
    ensures { OnOk result (Appends (W.contents writer.old) (W.contents writer.new)
        (codes " name " ++ name.now ++ (codes " leaf " ++ decimal leaf))) }
{
    writer.write_all(" name ".as_bytes())?;
    writer.write_all(name)?;
    write_number(writer, " leaf ", leaf)
}

// `leaf` signs the new tree.
fn write_tree<W: Write>(writer: &mut W, level: u8, leaf: u32) -> io::Result<()>
    ensures { OnOk result (Appends (W.contents writer.old) (W.contents writer.new)
        ((codes " tree level " ++ decimal level) ++ (codes " leaf " ++ decimal leaf))) }
{
    write_number(writer, " tree level ", u32::from(level))?;
    write_number(writer, " leaf ", leaf)
}

fn write_retired<W: Write>(writer: &mut W, upto: u32) -> io::Result<()>
    ensures { OnOk result (Appends (W.contents writer.old) (W.contents writer.new)
        (codes " retired upto " ++ decimal upto)) }
{
    write_number(writer, " retired upto ", upto)
}

fn write_number<W: Write>(writer: &mut W, word: &str, number: u32) -> io::Result<()>
    ensures { OnOk result (Appends (W.contents writer.old) (W.contents writer.new) (word.now ++ decimal number)) }
{
    writer.write_all(word.as_bytes())?;
    writer.write_fmt(u64::from(number))
}
