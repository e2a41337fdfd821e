//! What the programs of this repository have in common: what their words ask, their input and output, and how they end.
#![tactic(auto)]

mod command_line;
mod input;

ghost use Rattle.std.specs.Prelude.{◌≡◌, None, Some, MatchResult, codes};
ghost use Rattle.anyhow.specs.Error.{IsContextOn, IsMadeOf};
ghost use Rattle.std.specs.Process.{exit_status};

pub use command_line::{Asked, UsageError};
pub use input::read_up_to;
use std::io;
use std::process::ExitCode;

/// The status of a program: 0, or 1 for an error. An error is also printed on standard error, as one sentence under the program's
/// name; of that nothing is promised.
pub fn exit_code(rt: &impl Eprint, name: &str, outcome: anyhow::Result<()>) -> ExitCode
    ensures { MatchResult outcome (λ _. exit_status result ≡ 0) (λ _. exit_status result ≡ 1) }
{
    match outcome {
        Ok(()) => ExitCode::SUCCESS,
        Err(e) => {
            let _ = eprintln!(rt; "{name}: {e:#}");
            ExitCode::FAILURE
        }
    }
}

/// The error of a standard input that cannot be read: this message, on some error. That it is the cause is not promised.
pub fn unreadable(cause: io::Error) -> anyhow::Error
    ensures { IsContextOn (IsMadeOf None)
        (Some (codes "standard input cannot be read")) result }
{
    anyhow::Error::from(cause).context("standard input cannot be read")
}

/// The error of a standard output that cannot be written: this message, on some error. That it is the cause is not promised.
pub fn unwritable(cause: io::Error) -> anyhow::Error
    ensures { IsContextOn (IsMadeOf None)
        (Some (codes "standard output cannot be written")) result }
{
    anyhow::Error::from(cause).context("standard output cannot be written")
}

#[cfg(test)]
mod tests;
