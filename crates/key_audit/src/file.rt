//! Audits and listings of a state file.

pub(crate) mod audit;
pub(crate) mod list;
mod loading;
