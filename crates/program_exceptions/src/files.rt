//! SLURM files.

use data_slurm::{JoinError, Slurm, SlurmReason, SlurmRefusal, read_slurm};
use json::Scratch;
use program_frame::{FAILED, Input, REFUSED, Subject};
use std::io;
use std::io::{Read, Write};

/// The entries of these SLURM files (RFC 8416), in their order. If a file can't be read, is refused
/// or overlaps another one, reports that and fails with the exit status: 1 if it is refused or
/// overlaps, 3 if reading or memory failed.
pub fn read_files<F: Write>(
    rt: &HostRuntime,
    program: &str,
    files: &[String],
    faults: &mut F,
) -> Result<Slurm, u8> {
    let mut slurm = Slurm::new(rt.alloc());
    for file in files {
        match add_file(rt, program, file.as_str(), &mut slurm, faults) {
            Ok(()) => {}
            Err(status) => return Err(status),
        }
    }
    Ok(slurm)
}

/// The bytes of a file, or of standard input.
fn read_all(rt: &HostRuntime, file: &str) -> io::Result<Vec<u8>> {
    let mut input = Input::open(rt, file)?;
    let mut text = Vec::new(rt.alloc());
    input.read_to_end(&mut text)?;
    Ok(text)
}

/// Adds the entries of a file to those of the files before.
fn add_file<F: Write>(
    rt: &HostRuntime,
    program: &str,
    file: &str,
    slurm: &mut Slurm,
    faults: &mut F,
) -> Result<(), u8> {
    let subject = Subject::of_file(program, file);
    let text = match read_all(rt, file) {
        Ok(text) => text,
        Err(error) => return Err(subject.report_unread(&error, faults)),
    };
    let mut scratch = Scratch::new(rt.alloc());
    match read_slurm(rt.alloc(), &text, &mut scratch) {
        Ok(next) => match slurm.join(next) {
            Ok(()) => Ok(()),
            Err(error) => {
                let _ = writeln!(faults, "{subject}: {error}");
                Err(join_status(error))
            }
        },
        Err(refusal) => Err(tell_refusal(subject, &refusal, faults)),
    }
}

fn join_status(error: JoinError) -> u8 {
    match error {
        JoinError::Overlap => REFUSED,
        JoinError::Memory => FAILED,
    }
}

/// Prints why a SLURM file is refused, and returns the status.
fn tell_refusal<F: Write>(subject: Subject<'_>, refusal: &SlurmRefusal<'_>, faults: &mut F) -> u8 {
    let place = refusal.place;
    let reason = &refusal.reason;
    let _ = writeln!(faults, "{subject}: {place}: {reason}");
    match reason {
        SlurmReason::Memory => FAILED,
        _ => REFUSED,
    }
}
