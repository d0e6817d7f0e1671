//! Why a refactoring is refused.
ghost use Rattle.std.specs.Prelude.{◌≡◌};

use gq_text::NoMemory;
use std::error::Error;
use std::fmt;

/// Why a refactoring is refused. Of several the first in this order is told.
#[derive(Clone, Copy, Debug, PartialEq, Eq)]
pub enum Refusal {
    /// The project is not valid.
    ProjectInvalid,
    /// The project has no such document, or nothing in it that can be renamed is at the offset.
    NothingHere,
    /// The new name is no Name, or is `on` for a fragment.
    BadName,
    /// The new name is the old one.
    SameName,
    /// A fragment of the new name is defined, or an operation of the variable's group defines a variable of it.
    NameTaken,
    /// A spread has another directive than `@skip` and `@include`, or the fragment's definition has one.
    DirectiveInWay,
    /// No object type is possible for the parent type of the selections.
    NoPossibleType,
    /// The range's ends lie in one selection set, and what stands there are no selections of it one after the other.
    NotSiblings,
    /// An inline fragment has a directive, or a condition other than the type of its parent.
    NotRedundant,
    /// An edited text would have more than 4 MiB, too many tokens or too deep a nesting.
    TooLarge,
    /// The edited texts do not read as wanted, or the edited project is not valid. No refactoring of a valid project is refused so.
    SelfCheck,
    /// A growth was refused.
    NoMemory,
}

impl Refusal {
    ghost use Rattle.gq_rename.specs.Refusals.{message_of};

    /// Its number, a space, its name, as clients are told.
    pub fn message(self) -> &'static str
        ensures { result.now ≡ message_of self }
    {
        match self {
            Refusal::ProjectInvalid => "1 ProjectInvalid",
            Refusal::NothingHere => "2 NothingHere",
            Refusal::BadName => "3 BadName",
            Refusal::SameName => "4 SameName",
            Refusal::NameTaken => "5 NameTaken",
            Refusal::DirectiveInWay => "6 DirectiveInWay",
            Refusal::NoPossibleType => "7 NoPossibleType",
            Refusal::NotSiblings => "8 NotSiblings",
            Refusal::NotRedundant => "9 NotRedundant",
            Refusal::TooLarge => "10 TooLarge",
            Refusal::SelfCheck => "11 SelfCheck",
            Refusal::NoMemory => "12 NoMemory",
        }
    }
}

impl fmt::Display for Refusal {
    fn fmt<W: fmt::Write>(&self, f: &mut fmt::Formatter<W>) -> fmt::Result {
        f.write_str(self.message())
    }
}

impl Error for Refusal {}

impl From<NoMemory> for Refusal {
    ghost use Rattle.gq_rename.specs.declared.refusal.Refusal.TheVariants.{NoMemory};

    ghost from_gives = { λ _ refusal. refusal ≡ NoMemory };

    fn from(_error: NoMemory) -> Self {
        Refusal::NoMemory
    }
}
