//! What is printed for a wrong name and a wrong spec. `tests/run` counts the allocations of these two.

use crate::tests::expecting::expect;
use std::alloc::Global;
use typecodes::{BadName, BadSpec};

fn is_name_text(alloc: Global) -> bool {
    let text = "a name is 1 to 128 visible characters of ASCII";
    format!(in alloc; "{BadName}").as_deref() == Ok(text)
}

#[test]
fn says_what_a_name_is(rt: HostRuntime) {
    expect(&rt, is_name_text(rt.alloc()));
}

fn is_spec_text(alloc: Global) -> bool {
    let text =
        "a spec is lms: and a pair, hss: and 1 to 8 pairs from the top level down joined by commas, or xmss: and a \
         height 10, 16 or 20; a pair is H5/W8, or another of a height 5, 10, 15, 20 or 25 and a width 1, 2, 4 or 8";
    format!(in alloc; "{BadSpec}").as_deref() == Ok(text)
}

#[test]
fn says_what_a_spec_is(rt: HostRuntime) {
    expect(&rt, is_spec_text(rt.alloc()));
}
