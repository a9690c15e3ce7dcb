//! The program: it hands its words to the top call, with the host's files and streams and the mapper of `m_cut`, and ends
//! with the status's number.
#![tactic(auto)]

use lz_base::{HostFiles, HostSink};
use m_cut::CutMapper;
use m_mapper::Mapper;
use s_cli::run;
use std::env;
use std::process::ExitCode;
use std::rt::Env;

/// The number with which the program ends where it finds no memory for its words or its mapper.
const NO_MEMORY: u8 = 5;

// The words after the program's name.
fn words<R: Env + AllocGlobal>(rt: &R) -> Option<Vec<String>> {
    let mut words = Vec::new(rt.alloc());
    let mut args = env::args(rt).ok()?;
    args.next();
    for word in args {
        words.push(word).ok()?;
    }
    Some(words)
}

fn main(rt: HostRuntime) -> ExitCode {
    let Some(words) = words(&rt) else {
        return ExitCode::from(NO_MEMORY);
    };
    let mapper: Box<dyn Mapper> = match Box::new(rt.alloc(), CutMapper::new(rt.alloc())) {
        Ok(mapper) => mapper,
        Err(_) => return ExitCode::from(NO_MEMORY),
    };
    let mut files = HostFiles::new(&rt);
    let mut out = HostSink::new(rt.stdout());
    let mut err = HostSink::new(rt.stderr());
    let status = run(
        rt.alloc(),
        words.as_slice(),
        &mut files,
        &mut out,
        &mut err,
        &mapper,
    );
    ExitCode::from(status.code())
}
