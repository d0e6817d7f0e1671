//! What is printed on the two sinks, and the status that this gives.
ghost use Rattle.std.specs.Prelude.{◌≡◌, false};
ghost use Rattle.gq_check.specs.Checks.{EndsWith, Tells};
ghost use Rattle.gq_check.specs.Faults.{fault_line};
ghost use Rattle.gq_check.specs.Helping.Printed.{PrintsError};

use crate::fault::CheckFault;
use gq_rpc::{Sink, send};

/// The status of a command that a fault ended.
pub(crate) const FAULT_STATUS: u8 = 3;

/// Prints these bytes on `out` and on `err`, and answers the status: this one, or 3 where a sink fails. Where that is `out`,
/// `err` gets the line of that fault alone.
pub fn print<O: Sink, E: Sink>(
    output: &[u8],
    error: &[u8],
    status: u8,
    out: &mut O,
    err: &mut E,
) -> u8
    requires out_works { O.failed out.old ≡ false }
    requires err_works { E.failed err.old ≡ false }
    ensures { EndsWith output.now error.now status (O.held out.old) (record { held = O.held out.new; failed = O.failed out.new })
        (E.held err.old) (record { held = E.held err.new; failed = E.failed err.new }) result }
{
    match send(out, output) {
        Ok(()) => print_error(error, status, err),
        Err(_) => print_fault(CheckFault::Device, err),
    }
}

/// Prints these bytes on `err`, and answers the status: this one, or 3 where the sink fails.
fn print_error<E: Sink>(error: &[u8], status: u8, err: &mut E) -> u8
    requires { E.failed err.old ≡ false }
    ensures { PrintsError error.now status (E.held err.old) (record { held = E.held err.new; failed = E.failed err.new }) result }
{
    match send(err, error) {
        Ok(()) => status,
        Err(_) => FAULT_STATUS,
    }
}

/// Prints the line of a fault, and answers the status.
fn print_fault<E: Sink>(fault: CheckFault, err: &mut E) -> u8
    requires { E.failed err.old ≡ false }
    ensures status { result ≡ 3 }
    ensures told { Tells (E.held err.old) (record { held = E.held err.new; failed = E.failed err.new }) (fault_line fault) }
{
    let _ = send(err, fault.line().as_bytes());
    FAULT_STATUS
}
