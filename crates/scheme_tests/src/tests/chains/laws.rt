//! The law of chains can be called.

use winternitz::chain_law;

#[test]
fn laws() {
    chain_law();
}
