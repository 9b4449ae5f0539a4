//! The program: does the command of its words over the current folder and standard output, and exits with its number.
#![tactic(auto)]

use pj_outside::{FolderDepot, StdoutSink};
use pj_top::{Status, drive};
use std::alloc::{AllocError, Global};
use std::env;
use std::env::Env;
use std::io::ErrorKind;
use std::process::ExitCode;

/// The words behind the program's name, or one empty word where one of them is no UTF-8.
fn words<R: Env + Alloc<A = Global>>(rt: &R) -> Result<Vec<String>, AllocError> {
    match env::args(rt) {
        Ok(all) => all.skip(1).collect(rt.alloc()),
        Err(error) if error.kind() == ErrorKind::OutOfMemory => Err(AllocError),
        Err(_) => Ok(vec![in rt.alloc(); String::new(rt.alloc())]?),
    }
}

fn main(rt: HostRuntime) -> ExitCode {
    let status = match words(&rt) {
        Ok(words) => drive(
            &rt,
            rt.alloc(),
            words.as_slice(),
            &mut FolderDepot::new(&rt),
            &mut StdoutSink::new(&rt),
        ),
        Err(_) => Status::NoMemory,
    };
    ExitCode::from(status.code())
}
