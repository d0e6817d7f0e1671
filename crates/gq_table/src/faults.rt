//! Why a table or variables are refused.

use gq_text::NoMemory;
use thiserror::Error;

/// Why there is no table.
#[derive(Clone, Copy, Debug, PartialEq, Eq, Error)]
pub enum TableFault {
    /// It has another shape than a table's, or two rows of one call.
    #[error("bad table")]
    Bad,
    /// A growth was refused.
    #[error("out of memory")]
    NoMemory,
}

impl From<NoMemory> for TableFault {
    ghost use Rattle.std.specs.Prelude.{◌≡◌};
    ghost use Rattle.gq_table.specs.declared.faults.TableFault.TheVariants.{NoMemory};

    ghost from_gives = { λ _ fault. fault ≡ NoMemory };

    fn from(_refused: NoMemory) -> Self {
        TableFault::NoMemory
    }
}

/// Why there are no variables.
#[derive(Clone, Copy, Debug, PartialEq, Eq, Error)]
pub enum VariablesFault {
    /// They are no JSON object of plain values.
    #[error("bad vars")]
    Bad,
    /// A growth was refused.
    #[error("out of memory")]
    NoMemory,
}

impl From<NoMemory> for VariablesFault {
    ghost use Rattle.std.specs.Prelude.{◌≡◌};
    ghost use Rattle.gq_table.specs.declared.faults.VariablesFault.TheVariants.{NoMemory};

    ghost from_gives = { λ _ fault. fault ≡ NoMemory };

    fn from(_refused: NoMemory) -> Self {
        VariablesFault::NoMemory
    }
}
