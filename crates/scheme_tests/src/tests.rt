//! A module for each tested crate, and what several of them share.

mod chains;
mod codes;
mod expecting;
mod hss_keys;
mod lms_keys;
mod one_time;
mod readers;
mod trees;
mod values;
mod wots_keys;
mod xmss_keys;
