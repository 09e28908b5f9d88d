//! How the programs end.
#![tactic(auto)]

ghost use Rattle.std.specs.Prelude.{◌≡◌};
ghost use Rattle.program.specs.Status.{status_of};
ghost use Rattle.std.specs.Process.{exit_status};

use std::process::ExitCode;

/// Prints the error, where there is one, behind the program's name, and answers the status: success only for a run that did all that was asked. A run that was refused has printed why already.
pub fn exit_code(rt: &HostRuntime, name: &str, outcome: anyhow::Result<bool>) -> ExitCode
    ensures { exit_status result ≡ status_of outcome }
{
    match outcome {
        Ok(true) => ExitCode::SUCCESS,
        Ok(false) => ExitCode::FAILURE,
        Err(error) => {
            // Where this cannot be printed, the status alone tells it.
            let _ = eprintln!(rt; "{name}: {error}");
            ExitCode::FAILURE
        }
    }
}
