//! Why an operation is not executed.
ghost use Rattle.std.specs.Prelude.{◌≡◌};
ghost use Rattle.gq_check.specs.Execution.{exec_fault_line, exec_fault_status};

use crate::fault::CheckFault;
use gq_text::NoMemory;

/// Why an operation is not executed.
#[derive(Clone, Copy, Debug, PartialEq, Eq)]
pub enum ExecFault {
    /// The table is no JSON, or no table.
    BadTable,
    /// The variables are no JSON, or no variables.
    BadVariables,
    /// A file cannot be read, there are too many, memory is refused, or a write fails.
    Check(CheckFault),
}

impl ExecFault {
    /// The line that tells the fault.
    pub(crate) fn line(self) -> &'static str
        ensures { result.now ≡ exec_fault_line self }
    {
        match self {
            ExecFault::BadTable => "gqls: bad table\n",
            ExecFault::BadVariables => "gqls: bad vars\n",
            ExecFault::Check(fault) => fault.line(),
        }
    }

    /// The status of the process.
    pub(crate) fn status(self) -> u8
        ensures { result ≡ exec_fault_status self }
    {
        match self {
            ExecFault::BadTable | ExecFault::BadVariables => 2,
            ExecFault::Check(_) => 3,
        }
    }
}

impl From<NoMemory> for ExecFault {
    ghost use Rattle.std.specs.Prelude.{◌≡◌};
    ghost use Rattle.gq_check.specs.declared.fault.CheckFault.TheVariants.{NoMemory};
    ghost use Rattle.gq_check.specs.declared.exec_fault.ExecFault.TheVariants.{Check};

    ghost from_gives = { λ _ e. e ≡ Check NoMemory };

    fn from(_error: NoMemory) -> Self {
        ExecFault::Check(CheckFault::NoMemory)
    }
}

impl From<CheckFault> for ExecFault {
    ghost use Rattle.std.specs.Prelude.{◌≡◌};
    ghost use Rattle.gq_check.specs.declared.exec_fault.ExecFault.TheVariants.{Check};

    ghost from_gives = { λ fault e. e ≡ Check fault };

    fn from(fault: CheckFault) -> Self {
        ExecFault::Check(fault)
    }
}
