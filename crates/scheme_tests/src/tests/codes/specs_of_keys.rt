//! The specs of keys.

use crate::tests::expecting::expect;
use typecodes::{BadSpec, LmsPair, LmsType, OtsType, Spec, XmssType};

// What a text is read as.
enum Read {
    Lms(LmsPair),
    Xmss(XmssType),
    Hss(&'static [LmsPair]),
}

const H5_W1: LmsPair = LmsPair {
    tree: LmsType::H5,
    ots: OtsType::W1,
};

const H5_W8: LmsPair = LmsPair {
    tree: LmsType::H5,
    ots: OtsType::W8,
};

const H10_W1: LmsPair = LmsPair {
    tree: LmsType::H10,
    ots: OtsType::W1,
};

const H10_W4: LmsPair = LmsPair {
    tree: LmsType::H10,
    ots: OtsType::W4,
};

const H15_W2: LmsPair = LmsPair {
    tree: LmsType::H15,
    ots: OtsType::W2,
};

const H20_W4: LmsPair = LmsPair {
    tree: LmsType::H20,
    ots: OtsType::W4,
};

const H25_W8: LmsPair = LmsPair {
    tree: LmsType::H25,
    ots: OtsType::W8,
};

const TEXTS: &[(&str, Read)] = &[
    ("lms:H5/W8", Read::Lms(H5_W8)),
    ("lms:H10/W1", Read::Lms(H10_W1)),
    ("lms:H15/W2", Read::Lms(H15_W2)),
    ("lms:H20/W4", Read::Lms(H20_W4)),
    ("lms:H25/W8", Read::Lms(H25_W8)),
    ("xmss:10", Read::Xmss(XmssType::H10)),
    ("xmss:16", Read::Xmss(XmssType::H16)),
    ("xmss:20", Read::Xmss(XmssType::H20)),
];

// Levels from the top down, up to eight.
const TEXTS_OF_LEVELS: &[(&str, Read)] = &[
    ("hss:H20/W4", Read::Hss(&[H20_W4])),
    ("hss:H20/W4,H5/W1", Read::Hss(&[H20_W4, H5_W1])),
    ("hss:H5/W1,H20/W4", Read::Hss(&[H5_W1, H20_W4])),
    (
        "hss:H20/W4,H15/W2,H5/W1,H25/W8",
        Read::Hss(&[H20_W4, H15_W2, H5_W1, H25_W8]),
    ),
    (
        "hss:H5/W8,H5/W8,H5/W8,H5/W8,H5/W8,H5/W8,H5/W8,H5/W8",
        Read::Hss(&[H5_W8; 8]),
    ),
    (
        "hss:H10/W4,H5/W8,H5/W8,H5/W8,H5/W8,H5/W8,H5/W8,H15/W2",
        Read::Hss(&[H10_W4, H5_W8, H5_W8, H5_W8, H5_W8, H5_W8, H5_W8, H15_W2]),
    ),
];

// Whether the text is a spec with these levels.
fn is_of_levels(text: &str, pairs: &[LmsPair]) -> bool {
    match Spec::parse(text) {
        Ok(Spec::Hss(levels)) => levels.as_slice() == pairs,
        _ => false,
    }
}

fn is_read(text: &str, wanted: &Read) -> bool {
    match wanted {
        Read::Lms(pair) => Spec::parse(text) == Ok(Spec::Lms(*pair)),
        Read::Xmss(tree) => Spec::parse(text) == Ok(Spec::Xmss(*tree)),
        Read::Hss(pairs) => is_of_levels(text, pairs),
    }
}

fn are_read(texts: &[(&str, Read)]) -> bool {
    for (text, wanted) in texts {
        if !is_read(text, wanted) {
            return false;
        }
    }
    true
}

#[test]
fn parses_each_form(rt: HostRuntime) {
    expect(&rt, are_read(TEXTS));
    expect(&rt, are_read(TEXTS_OF_LEVELS));
}

const OTHER_TEXTS: [&str; 22] = [
    "",
    "lms",
    "lms:",
    "H5/W8",
    "lms:H5",
    "lms:H5/",
    "lms:/W8",
    "lms:H5W8",
    "lms:H05/W8",
    "lms:H5/W08",
    "lms:H6/W8",
    "lms:H5/W3",
    "lms:h5/W8",
    "lms:H5/w8",
    "LMS:H5/W8",
    "lms:H5/W8 ",
    " lms:H5/W8",
    "lms:H5/W8/",
    "lms:H5/W8,H5/W8",
    "lms:W8/H5",
    "lms:5/8",
    "lms:10",
];

const OTHER_LEVELS: [&str; 19] = [
    "hss",
    "hss:",
    "hss:,",
    "hss:H5/W8,",
    "hss:,H5/W8",
    "hss:H5/W8,,H5/W8",
    "hss:H5/W8, H5/W8",
    "hss: H5/W8,H5/W8",
    "hss:H5/W8,H5/W8 ",
    "hss:H5/W8;H5/W8",
    "hss:H5/W8,H05/W8",
    "hss:H5/W8,H5/W08",
    "hss:H5/W8,H6/W8",
    "hss:H5/W8,h5/W8",
    "hss:H5/W8,16",
    "HSS:H5/W8,H5/W8",
    "Hss:H5/W8",
    "hss:hss:H5/W8",
    "hss:H5/W8,H5/W8,H5/W8,H5/W8,H5/W8,H5/W8,H5/W8,H5/W8,H5/W8",
];

const OTHER_HEIGHTS: [&str; 14] = [
    "xmss",
    "xmss:",
    "xmss:010",
    "xmss:5",
    "xmss:15",
    "xmss:25",
    "xmss:H10",
    "xmss:10 ",
    "xmss: 10",
    "xmss:10,10",
    "xmss:10/W4",
    "xmss:H10/W4",
    "XMSS:10",
    "Xmss:10",
];

// Whether none of these texts is a spec.
fn are_refused(texts: &[&str]) -> bool {
    for text in texts {
        if Spec::parse(text) != Err(BadSpec) {
            return false;
        }
    }
    true
}

#[test]
fn refuses_other_texts(rt: HostRuntime) {
    expect(&rt, are_refused(&OTHER_TEXTS));
    expect(&rt, are_refused(&OTHER_LEVELS));
    expect(&rt, are_refused(&OTHER_HEIGHTS));
}
