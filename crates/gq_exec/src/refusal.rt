//! Why the values of variables are refused.

use gq_text::NoMemory;
use thiserror::Error;

/// Why values that are given for variables have none of their types.
#[derive(Clone, Copy, Debug, PartialEq, Eq, Error)]
pub enum CoercionRefusal {
    /// There is no such operation, or a value does not fit (section 6.1).
    #[error("request error")]
    RequestError,
    /// A growth was refused.
    #[error("NoMemory")]
    NoMemory,
}

impl From<NoMemory> for CoercionRefusal {
    ghost use Rattle.std.specs.Prelude.{◌≡◌};
    ghost use Rattle.gq_exec.specs.declared.refusal.CoercionRefusal.TheVariants.{NoMemory};

    ghost from_gives = { λ _ e. e ≡ NoMemory };

    fn from(_error: NoMemory) -> Self {
        CoercionRefusal::NoMemory
    }
}
