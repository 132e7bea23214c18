//! Tests of typecodes.

mod coefficients;
mod count;
mod cursors;
mod laws;
mod level_lists;
mod names;
mod printing;
mod reading;
mod refusals;
mod specs_of_keys;
mod types;
mod writing;
