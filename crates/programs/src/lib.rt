//! What the programs share: they take no arguments but `--help`.
#![tactic(auto)]

ghost use Rattle.std.specs.Prelude.{◌≡◌, ◌⊎◌, IfOk};
ghost use Rattle.programs.specs.Asked.{AskedBy};

use std::env;
use std::process::ExitCode;
use std::rt::Env;

/// What a program is asked to do.
#[derive(Clone, Copy, PartialEq, Eq, Debug)]
pub enum Request {
    /// Its work.
    Work,
    /// To print its help.
    Help,
    /// Something that it does not know.
    Unknown,
}

/// What a program is asked to do by its first argument, if it has one.
pub fn asked(first: Option<&str>) -> Request
    ensures { AskedBy first.entry result }
{
    match first {
        None => Request::Work,
        Some("--help") => Request::Help,
        Some(_) => Request::Unknown,
    }
}

/// Does what a program is asked. Where that is the help, its status is 0; where that is unknown, it prints the help as
/// an error, and its status is 1.
pub fn answer<R: Print + Eprint, F: FnOnce() -> anyhow::Result<ExitCode>>(
    rt: &R,
    help: &str,
    what: Request,
    work: F,
) -> anyhow::Result<ExitCode>
    requires { F.pre work }
    ensures work { what ≡ Request.Work → F.post work result }
    ensures help { what ≡ Request.Help → IfOk result (λ code. code ≡ ExitCode.SUCCESS) }
    ensures unknown { what ≡ Request.Unknown → IfOk result (λ code. code ≡ ExitCode.FAILURE) }
{
    match what {
        Request::Work => work(),
        Request::Help => {
            rt.print(help)?;
            Ok(ExitCode::SUCCESS)
        }
        Request::Unknown => {
            rt.eprint(help)?;
            Ok(ExitCode::FAILURE)
        }
    }
}

/// Does a program's work where it is run with no argument. At `--help` it prints the help, and its status is 0; at any
/// other argument it prints the help as an error, and its status is 1.
// A proof is told nothing of the arguments: which of these gives which status stands at `asked` and `answer`.
pub fn run<R: Env + Alloc + Print + Eprint, F: FnOnce() -> anyhow::Result<ExitCode>>(
    rt: &R,
    help: &str,
    work: F,
) -> anyhow::Result<ExitCode>
    requires { F.pre work }
    ensures { IfOk result (λ code. F.post work (Ok code) ⊎ (code ≡ ExitCode.SUCCESS) ⊎ (code ≡ ExitCode.FAILURE)) }
{
    let first = env::args(rt)?.nth(1);
    let what = asked(first.as_ref().map(|arg| arg.as_str()));
    answer(rt, help, what, work)
}
