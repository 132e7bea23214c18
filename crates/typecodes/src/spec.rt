//! Specs, the texts that say which key to make.

ghost use Rattle.std.specs.Prelude.{◌≡◌, ◌≢◌, IfErr, IfOk, List, Ok};
ghost use Rattle.typecodes.specs.declared.spec.Spec.{Spec as S};
ghost use Rattle.typecodes.specs.declared.types.LmsType.{LmsType as Tree};
ghost use Rattle.typecodes.specs.declared.types.OtsType.{OtsType as Ots};
ghost use Rattle.typecodes.specs.declared.types.LmsPair.{LmsPair as Pair};
ghost use Rattle.typecodes.specs.declared.types.XmssType.{XmssType as XmssTree};
ghost use Rattle.typecodes.specs.Levels.{AreLevels};
ghost use Rattle.typecodes.specs.Spec.{IsSpec, levels_text, ots_text, pair_text, spec_text, tree_text, xmss_text};

use crate::levels::Levels;
use crate::types::{LmsPair, LmsType, OtsType, XmssType};
use thiserror::Error;

/// Which key to make: its scheme and types.
#[derive(Debug, Drop, PartialEq, Eq)]
pub enum Spec {
    /// `lms:` and a pair: `lms:H5/W8`.
    Lms(LmsPair),
    /// `hss:` and a pair for each level, the top one first: `hss:H10/W4,H5/W8`.
    Hss(Levels),
    /// `xmss:` and a height: `xmss:10`.
    Xmss(XmssType),
}

/// 51: the text is no spec.
#[derive(Clone, Copy, Debug, PartialEq, Eq, Error)]
#[error("a spec is lms: and a pair, hss: and 1 to 8 pairs from the top level down joined by commas, or xmss: \
     and a height 10, 16 or 20; a pair is H5/W8, or another of a height 5, 10, 15, 20 or 25 and a width 1, 2, 4 or 8")]
pub struct BadSpec;

impl Spec {
    /// The spec with this text.
    pub fn parse(text: &str) -> Result<Spec, BadSpec>
        ensures ok { IfOk result (λ spec. text.now ≡ spec_text spec) }
        ensures spec { IfOk result IsSpec }
        ensures err { IfErr result (λ _. (spec : S) → IsSpec spec → text.now ≢ spec_text spec) }
        // no other spec has this text
        ensures unique { (spec : S) → IsSpec spec → text.now ≡ spec_text spec → result ≡ Ok spec }
    {
        if let Some(pair) = text.strip_prefix("lms:") {
            return Ok(Spec::Lms(parse_pair(pair)?));
        }
        if let Some(levels) = text.strip_prefix("hss:") {
            return Ok(Spec::Hss(parse_levels(levels)?));
        }
        let height = text.strip_prefix("xmss:").ok_or(BadSpec)?;
        Ok(Spec::Xmss(parse_xmss(height)?))
    }
}

// Pairs with commas between them.
fn parse_levels(text: &str) -> Result<Levels, BadSpec>
    ensures ok { IfOk result (λ levels. text.now ≡ levels_text levels) }
    ensures levels { IfOk result AreLevels }
    ensures err { IfErr result (λ _. (levels : List Pair) → AreLevels levels → text.now ≢ levels_text levels) }
{
    let mut pairs = [LmsPair {
        tree: LmsType::H5,
        ots: OtsType::W8,
    }; 8];
    let mut count = 0;
    for pair in text.split(',') {
        if count == 8 {
            return Err(BadSpec);
        }
        pairs[count] = parse_pair(pair)?;
        count += 1;
    }
    Levels::new(&pairs[..count]).ok_or(BadSpec)
}

// A tree type and a one-time type, with a slash between them.
fn parse_pair(text: &str) -> Result<LmsPair, BadSpec>
    ensures ok { IfOk result (λ pair. text.now ≡ pair_text pair) }
    ensures err { IfErr result (λ _. (pair : Pair) → text.now ≢ pair_text pair) }
{
    let (tree, ots) = text.split_once('/').ok_or(BadSpec)?;
    Ok(LmsPair {
        tree: parse_tree(tree)?,
        ots: parse_ots(ots)?,
    })
}

fn parse_tree(text: &str) -> Result<LmsType, BadSpec>
    ensures ok { IfOk result (λ tree. text.now ≡ tree_text tree) }
    ensures err { IfErr result (λ _. (tree : Tree) → text.now ≢ tree_text tree) }
{
    match text {
        "H5" => Ok(LmsType::H5),
        "H10" => Ok(LmsType::H10),
        "H15" => Ok(LmsType::H15),
        "H20" => Ok(LmsType::H20),
        "H25" => Ok(LmsType::H25),
        _ => Err(BadSpec),
    }
}

fn parse_ots(text: &str) -> Result<OtsType, BadSpec>
    ensures ok { IfOk result (λ ots. text.now ≡ ots_text ots) }
    ensures err { IfErr result (λ _. (ots : Ots) → text.now ≢ ots_text ots) }
{
    match text {
        "W1" => Ok(OtsType::W1),
        "W2" => Ok(OtsType::W2),
        "W4" => Ok(OtsType::W4),
        "W8" => Ok(OtsType::W8),
        _ => Err(BadSpec),
    }
}

fn parse_xmss(text: &str) -> Result<XmssType, BadSpec>
    ensures ok { IfOk result (λ tree. text.now ≡ xmss_text tree) }
    ensures err { IfErr result (λ _. (tree : XmssTree) → text.now ≢ xmss_text tree) }
{
    match text {
        "10" => Ok(XmssType::H10),
        "16" => Ok(XmssType::H16),
        "20" => Ok(XmssType::H20),
        _ => Err(BadSpec),
    }
}
