//! The public calls of the libraries, each beside the form in which it was requested.
//!
//! A comment has a call as requested. The lines below it make this call, with its arguments and its result's type, so
//! that this module compiles as long as the calls keep their names. A call that takes memory takes an allocator first.
//! docs/DECISIONS.md says where a better type stands in the place of a requested one. The functions are proved, and
//! never called. `command::run` isn't here, since no library can call a program.

mod hashing;
mod schemes;
mod signers;
mod stores;
