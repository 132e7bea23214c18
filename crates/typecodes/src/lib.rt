//! The bytes and numbers that the other crates stand on: the standards' types and codes, `coef`, layouts read field by
//! field, bytes written part by part.
//!
//! A layout is a list of fields, where each may depend on those before it (`specs/Layout.antt`). From it follow the
//! bytes that spell a value and the fault of any other bytes. The laws of every layout are proved once, on
//! `layout_laws`, `following_laws` and `field_laws`.
//!
//! What the crates above rely on: a code names exactly one type. A cursor hands out exactly the layout's field, or its
//! fault. Levels are 1 to 8. A text is the text of one spec or of none.
//!
//! A message is any reader. One loop reads until a buffer is full, one reads to the end, and one writes all bytes. Each
//! answers the first call that fails. The next bytes of an input are a message, too.
//!
//! ```rust
//! use typecodes::{Cursor, LmsType};
//!
//! // a type's code and a number
//! let mut cursor = Cursor::new(&[0, 0, 0, 5, 0, 0, 1, 2]);
//! assert_eq!(rt; cursor.lms_type(), Ok(LmsType::H5));
//! assert_eq!(rt; cursor.number(), Ok(0x0102));
//! assert_eq!(rt; cursor.end(), Ok(()));
//! ```
#![tactic(auto)]

mod coefficient;
mod count;
mod cursor;
mod fault;
mod fields;
mod layout;
mod levels;
mod message;
mod name;
mod reading;
mod refusal;
mod secret;
mod sink;
mod spec;
mod types;
mod writing;

pub use crate::coefficient::coef;
pub use crate::count::Count;
pub use crate::cursor::Cursor;
pub use crate::fault::{Cause, ReadFault};
pub use crate::fields::field_laws;
pub use crate::layout::{following_laws, layout_laws};
pub use crate::levels::{LevelCount, Levels};
pub use crate::message::{Message, MessageFailed, NextBytes};
pub use crate::name::{BadName, Name};
pub use crate::reading::{PIECE, PIECES, PieceTaker, ReadError, discard, read_full, read_to_end};
pub use crate::refusal::Refusal;
pub use crate::secret::{LmsSecret, XmssSecret};
pub use crate::sink::{Sink, write_all};
pub use crate::spec::{BadSpec, Spec};
pub use crate::types::{LmsPair, LmsType, OtsType, WOTS_CHAINS, XmssType};
pub use crate::writing::put;
