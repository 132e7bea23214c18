//! The laws of layouts can be called.

use typecodes::{field_laws, following_laws, layout_laws};

#[test]
fn laws() {
    layout_laws::<u8>();
    following_laws::<u8, u8>();
    field_laws::<u8>();
}
