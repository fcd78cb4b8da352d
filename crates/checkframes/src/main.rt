//! checkframes: reads frames from the standard input, and says of each line what it is or what is wrong with it.
#![tactic(auto)]

use programs::run;
use reports::check::check_text;
use std::io::Read;
use std::process::ExitCode;

const HELP: &str = "usage: checkframes < FRAMES

Reads lines of frames from the standard input to its end.
Prints a line for each: its number, and the frame's kind, byte count and
name, or the fault's layer and cause and what is wrong; then the total.
Ends with status 0 where all lines are good, and with 1 after a fault.
";

/// Reads the standard input to its end and prints the report on it. The status is 1 where a line is faulty.
fn check_input(rt: &HostRuntime) -> anyhow::Result<ExitCode> {
    let mut bytes = Vec::new(rt.alloc());
    rt.stdin().read_to_end(&mut bytes)?;
    let report = check_text(rt.alloc(), &bytes)?;
    rt.print(report.text.as_str())?;
    if report.faulty > 0 {
        return Ok(ExitCode::FAILURE);
    }
    Ok(ExitCode::SUCCESS)
}

fn main(rt: HostRuntime) -> anyhow::Result<ExitCode> {
    run(&rt, HELP, || check_input(&rt))
}
