//! Edits of documents.
#![tactic(auto)]

pub mod applying;
pub mod edit;
pub mod positions;
pub mod replacements;
pub mod workspace;

pub use applying::{apply, document, first_too_large};
pub use edit::{DocumentEdit, Edit, EditFault};
pub use gq_text::Replacement;
pub use positions::to_positions;
pub use replacements::{Replacements, replaced_fits, replaced_text};
pub use workspace::{TextDocumentEdit, TextEdit, WorkspaceEdit};
