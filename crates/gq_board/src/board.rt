//! A board as it is opened: the end that publishes, and those that look.
ghost use Rattle.std.specs.Prelude.{◌≡◌, false, [], length, IfOk};
ghost use Rattle.std.specs.List.{AllByRecursion};

use crate::front::{Front, LOOKERS};
use crate::history::{Opened, Room};
use crate::looker::Looker;
use gq_project::Project;
use std::alloc::Global;
use std::sync::Wait;
use thiserror::Error;

/// Why a board could not be opened, or a change not published. It is printed as its name.
#[derive(Clone, Copy, Debug, PartialEq, Eq, Error)]
pub enum BoardFault {
    /// A growth was refused, or 2^64 - 1 changes are published.
    #[error("NoMemory")]
    NoMemory,
    /// A looker got no place.
    #[error("NoPlace")]
    NoPlace,
    /// The front had failed before.
    #[error("Failed")]
    Failed,
}

/// Opens a board of this project, with eight lookers. Where a looker gets no place, the front is closed.
pub fn open<J: Room, R: Wait>(
    rt: &R,
    alloc: Global,
    opened: Opened,
    project: Project,
) -> Result<(Front<J>, Vec<Looker<J>>), BoardFault>
    requires book { opened.log.book ≡ J.book }
    requires base { project ≡ J.base }
    ensures { IfOk result (λ r. (r.0 ≡ ([], false)) × (length r.1.items ≡ 8) × AllByRecursion (λ l. l ≡ []) r.1.items) }
{
    let front = Front::over(alloc, opened, project)?;
    match lookers_of(alloc, &front) {
        Ok(lookers) => Ok((front, lookers)),
        Err(fault) => {
            front.close(rt);
            Err(fault)
        }
    }
}

// All lookers of the board, which know what its front has published.
fn lookers_of<J: Room>(alloc: Global, front: &Front<J>) -> Result<Vec<Looker<J>>, BoardFault>
    ensures { IfOk result (λ lookers. (length lookers.items ≡ 8) × AllByRecursion (λ l. l ≡ front.now.0) lookers.items) }
{
    let mut lookers = Vec::new(alloc);
    while lookers.len() < LOOKERS {
        let looker = front.looker()?;
        let Ok(()) = lookers.push(looker) else {
            return Err(BoardFault::NoMemory);
        };
    }
    Ok(lookers)
}
