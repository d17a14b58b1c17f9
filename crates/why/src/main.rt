// Reads a case from standard input, and prints its verdict, or why it is declined.
#![tactic(auto)]

use answer::refusal::Refusal;
use answer::verdict::verdict;
use casefile::read::FILE_LIMIT;
use std::io;
use std::io::Read;
use std::process::ExitCode;

// The whole input where a case file may be as long, and one byte more where it is longer.
fn read_input(rt: &HostRuntime) -> io::Result<Vec<u8>> {
    let mut bytes = Vec::new(rt.alloc());
    // A cast: `try_from` would need a branch for what cannot be.
    rt.stdin()
        .take(FILE_LIMIT as u64 + 1)
        .read_to_end(&mut bytes)?;
    Ok(bytes)
}

fn main(rt: HostRuntime) -> io::Result<ExitCode> {
    let bytes = read_input(&rt)?;
    match verdict(bytes.as_slice()) {
        Ok(verdict) => {
            println!(rt; "{verdict}")?;
            Ok(ExitCode::SUCCESS)
        }
        Err(fault) => {
            let refusal = Refusal::from(fault);
            println!(rt; "{refusal}")?;
            Ok(ExitCode::FAILURE)
        }
    }
}
