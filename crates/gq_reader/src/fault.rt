//! Why a run ends early.

use gq_rpc::FrameFault;
use thiserror::Error;

/// Why a run ended early. It is printed as its name.
#[derive(Clone, Copy, Debug, PartialEq, Eq, Error)]
pub enum RunFault {
    /// No frame can be read from the input.
    #[error("{0}")]
    Frame(FrameFault),
    /// The source, the sink or the folder has failed, or 2^60 turns were answered.
    #[error("Device")]
    Device,
    /// The folder has more than 32 levels.
    #[error("TooDeep")]
    TooDeep,
    /// A file was loaded that is a document more than the 4,096 that there may be.
    #[error("TooMany")]
    TooMany,
    /// A growth was refused.
    #[error("NoMemory")]
    NoMemory,
    /// Nobody is left who reads or answers, or takes jobs. A run with workers alone ends so.
    #[error("Closed")]
    Closed,
    /// A worker found no place from which to see the documents. A run with workers alone ends so.
    #[error("NoPlace")]
    NoPlace,
    /// No thread could be made. A run with workers alone ends so.
    #[error("NoThread")]
    NoThread,
}
