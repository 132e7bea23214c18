//! A count takes no bytes.

use crate::tests::expecting::expect;
use typecodes::Count;

#[test]
fn takes_no_bytes(rt: HostRuntime) {
    let mut count = Count::new();
    count.add_one();
    expect(&rt, size_of::<Count>() == 0);
}
