//! The program: the real outside, and the one call that does all.
#![tactic(auto)]

use ssq_files::{FolderDisk, FolderInputs, StandardOutput};
use ssq_outside::{Gate, Output, TaskId};
use ssq_run::stream_main;
use std::alloc::{AllocError, Global};
use std::env;
use std::io::ErrorKind;
use std::process::ExitCode;
use std::rt::Env;

/// A gate that nobody watches.
struct Open;

impl Gate for Open {
    fn at(&self, _task: TaskId) {}
}

/// The words of the command line, the program's name first. Words that are no text are no command, as no words are.
fn words(rt: &(impl Env + Alloc<A = Global>)) -> Result<Vec<String>, AllocError> {
    let mut words = Vec::new(rt.alloc());
    match env::args(rt) {
        Ok(args) => {
            for word in args {
                words.push(word)?;
            }
            Ok(words)
        }
        Err(error) => match error.kind() {
            ErrorKind::OutOfMemory => Err(AllocError),
            _ => Ok(words),
        },
    }
}

fn main(rt: HostRuntime) -> ExitCode {
    let Ok(words) = words(&rt) else {
        let _ = StandardOutput::new(rt).put(b"stopped 10 NoMemory\n");
        return ExitCode::from(10);
    };
    let disk = FolderDisk::new(rt, "checkpoint");
    let inputs = FolderInputs::new(rt);
    let out = StandardOutput::new(rt);
    let ended = stream_main(&rt, rt.alloc(), words.as_slice(), disk, inputs, out, &Open);
    ExitCode::from(ended.status)
}
