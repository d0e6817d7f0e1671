//! Texts as UTF-8 bytes in a buffer, positions in them, and changes of them.
#![tactic(auto)]

pub mod buffer;
pub mod bytes;
pub mod laws;
pub mod owned;
pub mod place;
pub mod replacement;
pub mod scan;
pub mod small;
pub mod text;

pub use buffer::{Buffer, NoMemory, VecBuffer};
pub use bytes::Bytes;
pub use owned::{Items, OwnedText};
pub use place::{Position, PositionEncoding, Span};
pub use replacement::Replacement;
pub use scan::{offset_in, position_in, positions_in};
pub use small::SmallText;
pub use text::{Change, Range, Text, TextError, TooLarge};
