//! Counts the payload units of a sequence on standard input.
#![tactic(auto)]

use rtr::normalise;
use rtr::pdu::{Counted, Fault};
use std::io::{self, BufReader};
use std::process::ExitCode;

fn count(rt: &HostRuntime) -> Result<u64, Fault> {
    let Ok(input) = BufReader::with_capacity(rt.alloc(), 65536, rt.stdin()) else {
        return Err(Fault::Memory);
    };
    let mut reader = Counted::new(input);
    let mut writer = Counted::new(io::sink());
    normalise(rt.alloc(), &mut reader, &mut writer, 4294967295)
}

fn main(rt: HostRuntime) -> ExitCode {
    match count(&rt) {
        Ok(count) => match println!(rt; "{count} payload units") {
            Ok(()) => ExitCode::SUCCESS,
            Err(_) => ExitCode::FAILURE,
        },
        Err(fault) => {
            let _ = eprintln!(rt; "{fault}");
            ExitCode::FAILURE
        }
    }
}
