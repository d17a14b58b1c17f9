// Fills and checks the largest table again and again, so that its speed can be measured: as many rounds as the first line of
// the standard input says.
#![tactic(auto)]

mod model;
mod rounds;

use model::{pins, signals};
use rounds::run;
use std::io;
use std::process::ExitCode;

fn main(rt: HostRuntime) -> io::Result<ExitCode> {
    let mut rounds = 0;
    for line in rt.lines(rt.alloc()) {
        rounds = line?.parse::<u16>().unwrap_or(0);
    }
    let (signals, pins) = (signals(), pins());
    match run(&signals, &pins, rounds) {
        Some(sum) => {
            println!(rt; "{sum}")?;
            Ok(ExitCode::SUCCESS)
        }
        None => Ok(ExitCode::FAILURE),
    }
}
