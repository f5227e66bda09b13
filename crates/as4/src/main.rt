//! The program `as4`: passes the words after its name, the system's streams and the machine to `as4_tool`. `as4 --help` shows the
//! words.
#![tactic(auto)]

use as4_flow::{ReaderSource, Sink, WriterSink};
use as4_tool::{Status, run};
use as4_values::{Octets, Seq};
use host_adapters::SystemHost;
use std::env;
use std::env::Env;
use std::io::ErrorKind;
use std::process::ExitCode;

fn main(rt: HostRuntime) -> ExitCode {
    let mut errors = WriterSink::of(rt.stderr());
    let words = match words_of(&rt) {
        Ok(words) => words,
        Err(status) => return refused(&mut errors, status),
    };
    let Ok(mut input) = ReaderSource::of(rt.alloc(), rt.stdin()) else {
        return refused(&mut errors, Status::NoMemory);
    };
    let mut output = WriterSink::of(rt.stdout());
    let mut host = SystemHost::of(rt.alloc(), &rt);
    ExitCode::from(run(
        &rt,
        rt.alloc(),
        &words,
        &mut input,
        &mut output,
        &mut errors,
        &mut host,
    ))
}

// The words after the program's name. `BadWords` if one of them isn't UTF-8.
fn words_of<R: Env + AllocGlobal>(rt: &R) -> Result<Seq<Octets>, Status> {
    let args = match env::args(rt) {
        Ok(args) => args,
        Err(e) if e.kind() == ErrorKind::OutOfMemory => return Err(Status::NoMemory),
        Err(_) => return Err(Status::BadWords),
    };
    let mut words = Vec::new(rt.alloc());
    for word in args.skip(1) {
        if words.push(Octets::of(word.into_bytes())).is_err() {
            return Err(Status::NoMemory);
        }
    }
    Ok(Seq::of(words))
}

// Reports a failure before the run.
fn refused<E: Sink>(errors: &mut E, status: Status) -> ExitCode {
    status.tell(errors);
    ExitCode::from(status.code())
}
