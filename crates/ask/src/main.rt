// Answers questions about the blocks of four libraries, one a line from standard input.
#![tactic(auto)]

mod answer;
mod question;
mod sample;

use question::Question;
use sample::sample;
use std::io;
use std::process::ExitCode;
use tables::library::take_in;

fn main(rt: HostRuntime) -> io::Result<ExitCode> {
    let Ok(tables) = take_in(&sample()) else {
        return Ok(ExitCode::FAILURE);
    };
    for line in rt.lines(rt.alloc()) {
        match line?.parse::<Question>() {
            Ok(question) => {
                let answer = question.answer(&tables);
                println!(rt; "{answer}")?;
            }
            Err(fault) => println!(rt; "{fault}")?,
        }
    }
    Ok(ExitCode::SUCCESS)
}
