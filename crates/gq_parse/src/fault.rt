//! Why a text has no tree.

use thiserror::Error;

/// Why a text has no tree. Places are offsets in bytes.
#[derive(Clone, Copy, Debug, PartialEq, Eq, Error)]
pub enum Fault {
    /// No document begins with the tokens up to the one at this place, or the text ends here too early, or no token
    /// can be read here.
    #[error("syntax error at byte {place}")]
    Syntax { place: usize },
    /// The token here is one more than a text may have, or opens more brackets than may be open at once.
    #[error("limit passed at byte {place}")]
    Limit { place: usize },
    /// A growth was refused.
    #[error("out of memory")]
    NoMemory,
}
