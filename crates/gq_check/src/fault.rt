//! Why files are not checked.
ghost use Rattle.std.specs.Prelude.{◌≡◌};
ghost use Rattle.gq_check.specs.Faults.{fault_line};

use gq_text::NoMemory;
use std::error::Error;
use std::fmt;

/// Why files are not checked. It is printed as its name.
#[derive(Clone, Copy, Debug, PartialEq, Eq)]
pub enum CheckFault {
    /// More than 4,096 names are given.
    TooMany,
    /// A file has more than 4 MiB.
    TooLarge,
    /// A file cannot be read or is not UTF-8, or a write fails.
    Device,
    /// A growth was refused.
    NoMemory,
}

impl CheckFault {
    /// The line that tells the fault.
    pub(crate) fn line(self) -> &'static str
        ensures { result.now ≡ fault_line self }
    {
        match self {
            CheckFault::TooMany => "gqls: TooMany\n",
            CheckFault::TooLarge => "gqls: TooLarge\n",
            CheckFault::Device => "gqls: Device\n",
            CheckFault::NoMemory => "gqls: NoMemory\n",
        }
    }
}

impl fmt::Display for CheckFault {
    fn fmt<W: fmt::Write>(&self, f: &mut fmt::Formatter<W>) -> fmt::Result {
        let line = self.line().trim_end();
        f.write_str(line.strip_prefix("gqls: ").unwrap_or(line))
    }
}

impl Error for CheckFault {}

impl From<NoMemory> for CheckFault {
    ghost use Rattle.std.specs.Prelude.{◌≡◌};
    ghost use Rattle.gq_check.specs.declared.fault.CheckFault.TheVariants.{NoMemory};

    ghost from_gives = { λ _ e. e ≡ NoMemory };

    fn from(_error: NoMemory) -> Self {
        CheckFault::NoMemory
    }
}
