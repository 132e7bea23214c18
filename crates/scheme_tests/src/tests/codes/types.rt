//! The tables of types.

use crate::tests::expecting::expect;
use typecodes::{LmsPair, LmsType, OtsType, XmssType};

fn is_one_time(ots: OtsType, code: u32, width: u8, chains: u16, len: u32) -> bool {
    ots.code() == code
        && ots.width() == width
        && ots.chains() == chains
        && ots.signature_len() == len
}

// RFC 8554 4.1, table 1.
fn are_one_time() -> bool {
    is_one_time(OtsType::W1, 1, 1, 265, 8516)
        && is_one_time(OtsType::W2, 2, 2, 133, 4292)
        && is_one_time(OtsType::W4, 3, 4, 67, 2180)
        && is_one_time(OtsType::W8, 4, 8, 34, 1124)
}

#[test]
fn one_time_types(rt: HostRuntime) {
    expect(&rt, are_one_time());
}

fn is_tree(tree: LmsType, code: u32, height: u8) -> bool {
    tree.code() == code && tree.height() == height
}

// RFC 8554 5.1, table 2.
fn are_trees() -> bool {
    is_tree(LmsType::H5, 5, 5)
        && is_tree(LmsType::H10, 6, 10)
        && is_tree(LmsType::H15, 7, 15)
        && is_tree(LmsType::H20, 8, 20)
        && is_tree(LmsType::H25, 9, 25)
}

#[test]
fn tree_types(rt: HostRuntime) {
    expect(&rt, are_trees());
}

fn is_xmss(xmss: XmssType, code: u32, height: u8, len: u32) -> bool {
    xmss.code() == code && xmss.height() == height && xmss.signature_len() == len
}

// Codes of the standard's XDR formats, lengths of signatures by RFC 8391 4.1.8.
fn are_of_xmss() -> bool {
    is_xmss(XmssType::H10, 1, 10, 2500)
        && is_xmss(XmssType::H16, 2, 16, 2692)
        && is_xmss(XmssType::H20, 3, 20, 2820)
}

#[test]
fn xmss_types(rt: HostRuntime) {
    expect(&rt, are_of_xmss());
}

// Whether a code has these types in the three tables.
fn are_of_code(
    code: u32,
    ots: Option<OtsType>,
    tree: Option<LmsType>,
    xmss: Option<XmssType>,
) -> bool {
    OtsType::from_code(code) == ots
        && LmsType::from_code(code) == tree
        && XmssType::from_code(code) == xmss
}

fn are_by_code() -> bool {
    are_of_code(0, None, None, None)
        && are_of_code(1, Some(OtsType::W1), None, Some(XmssType::H10))
        && are_of_code(2, Some(OtsType::W2), None, Some(XmssType::H16))
        && are_of_code(3, Some(OtsType::W4), None, Some(XmssType::H20))
        && are_of_code(4, Some(OtsType::W8), None, None)
        && are_of_code(5, None, Some(LmsType::H5), None)
        && are_of_code(6, None, Some(LmsType::H10), None)
        && are_of_code(7, None, Some(LmsType::H15), None)
        && are_of_code(8, None, Some(LmsType::H20), None)
        && are_of_code(9, None, Some(LmsType::H25), None)
        && are_of_code(10, None, None, None)
        && are_of_code(0x0400_0000, None, None, None)
        && are_of_code(0x0500_0000, None, None, None)
}

#[test]
fn types_by_code(rt: HostRuntime) {
    expect(&rt, are_by_code());
}

fn len_of(tree: LmsType, ots: OtsType) -> u32 {
    LmsPair { tree, ots }.signature_len()
}

// The lengths of whole signatures (RFC 8554 5.4).
fn have_lengths() -> bool {
    len_of(LmsType::H5, OtsType::W8) == 1292
        && len_of(LmsType::H10, OtsType::W4) == 2508
        && len_of(LmsType::H25, OtsType::W1) == 9324
}

#[test]
fn signature_lengths(rt: HostRuntime) {
    expect(&rt, have_lengths());
}
