//! countclasses: reads a bit page from the standard input, and says how many classes its function has at each width.
#![tactic(auto)]

use bitpages::filling::load_chart;
use charts::BitChart;
use counts::counts_text;
use programs::run;
use reports::words::fault_text;
use std::io::Read;
use std::process::ExitCode;

const HELP: &str = "usage: countclasses < PAGE

Reads a bit page from the standard input to its end: a heading 03 and the
frames 04 of the function's table. Prints a line with the number of inputs
N, then for each width b from 1 to the smaller of 5 and N a line with the
number of classes of the function's columns at its first b inputs.
A fault is printed in words, with its line, layer, cause and node.
Ends with status 0, and with 1 after a fault.
";

/// Reads the standard input to its end and prints the class counts of the page that it is, or its fault, with the status 1.
fn count_input(rt: &HostRuntime) -> anyhow::Result<ExitCode> {
    let heap = rt.alloc();
    let mut bytes = Vec::new(heap);
    rt.stdin().read_to_end(&mut bytes)?;
    let mut chart = BitChart::empty();
    match load_chart(&bytes, &mut chart) {
        Ok(()) => {
            rt.print(counts_text(heap, &chart)?.as_str())?;
            Ok(ExitCode::SUCCESS)
        }
        Err(fault) => {
            rt.println(fault_text(heap, &fault)?)?;
            Ok(ExitCode::FAILURE)
        }
    }
}

fn main(rt: HostRuntime) -> anyhow::Result<ExitCode> {
    run(&rt, HELP, || count_input(&rt))
}
