//! What comes to the desk, event by event, and what is told of it: the session of a client, its documents, open or loaded,
//! and what is put out for a list of events, however many workers answer.
#![tactic(auto)]

pub mod answers;
mod bringing;
mod copies;
pub mod documents;
pub mod effect;
pub mod event;
pub mod keeping;
pub mod laws;
pub mod refusals;
mod same;
pub mod session;
pub mod texts;
mod work;

pub use copies::copy_task;
pub use documents::{SessionDocument, SessionDocuments};
pub use effect::{Change, Effect, Phase};
pub use event::{Answer, Done, Event, InputEnd, Job, Load, LoadedContent, Out, Task};
pub use keeping::Keeping;
pub use same::{is_of, same_documents, same_task};
pub use session::ClientSession;
pub use texts::OpenText;
