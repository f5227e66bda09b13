//! Runs the example scripts of `data` like `as4 drill`, checks the example messages like `as4 check`, and compares each
//! output with the expected text. Prints a line for each, and exits with 1 if any of them differs.
#![tactic(auto)]

use as4_flow::{MemorySink, MemorySource};
use as4_host::{MemoryHost, Stack};
use as4_tool::run_alone;
use as4_values::{Octets, Seq};
use std::alloc::{AllocError, Global};
use std::process::ExitCode;
use std::rt::Files;
use std::{fs, io};

/// The names of the files, their extensions, and the commands that read them. `NAME.txt` is the expected output for
/// `NAME.EXTENSION`. The messages are in the form that other handlers write.
const EXAMPLES: [(&str, &str, &str); 12] = [
    ("both-ends-crash", "drill", "drill"),
    ("bundled-pulls", "drill", "drill"),
    ("clean-push", "drill", "drill"),
    ("fold-midway", "drill", "drill"),
    ("losses-and-repeats", "drill", "drill"),
    ("power-cuts", "drill", "drill"),
    ("pulls", "drill", "drill"),
    ("retries-until-spent", "drill", "drill"),
    ("through-a-hub", "drill", "drill --hub"),
    ("as-domibus-writes", "as4", "check"),
    ("as-holodeck-writes", "as4", "check"),
    ("as-phase4-writes", "as4", "check"),
];

fn main(rt: HostRuntime) -> io::Result<ExitCode> {
    let mut all_agree = true;
    for (name, ending, command) in EXAMPLES {
        let agrees = agrees(&rt, name, ending, command)?;
        let word = if agrees { "as shown" } else { "differs" };
        println!(rt; "{name}: {word}")?;
        all_agree &= agrees;
    }
    Ok(ExitCode::from(u8::from(!all_agree)))
}

// Whether the command's output for the file is the expected text.
fn agrees<R: Files + AllocGlobal>(
    rt: &R,
    name: &str,
    ending: &str,
    command: &str,
) -> io::Result<bool> {
    let file = fs::read(rt, format!(in rt.alloc(); "{name}.{ending}")?)?;
    let text = fs::read(rt, format!(in rt.alloc(); "{name}.txt")?)?;
    Ok(writes(rt, command, file, &text)?)
}

// Whether the command writes this text for the input, reports nothing on the errors, and ends with 0.
fn writes<R: AllocGlobal>(
    rt: &R,
    command: &str,
    file: Vec<u8>,
    text: &[u8],
) -> Result<bool, AllocError> {
    let words = words_of(rt.alloc(), command)?;
    let mut input = MemorySource::of(file, Vec::new(rt.alloc()), Vec::new(rt.alloc()));
    let mut output = MemorySink::of(rt.alloc(), Vec::new(rt.alloc()), Vec::new(rt.alloc()));
    let mut errors = MemorySink::of(rt.alloc(), Vec::new(rt.alloc()), Vec::new(rt.alloc()));
    let mut host = host_of(rt.alloc())?;
    let status = run_alone(
        rt.alloc(),
        &words,
        &mut input,
        &mut output,
        &mut errors,
        &mut host,
    );
    Ok(status == 0 && output.bytes() == text && errors.bytes().is_empty())
}

// The words of a command.
fn words_of(alloc: Global, command: &str) -> Result<Seq<Octets>, AllocError> {
    let mut words = Vec::new(alloc);
    for word in command.split(' ') {
        words.push(Octets::of(Vec::from_slice(alloc, word.as_bytes())?))?;
    }
    Ok(Seq::of(words))
}

// A host with nothing in it: no example asks it for anything.
fn host_of(alloc: Global) -> Result<MemoryHost, AllocError> {
    let answers = Stack::of(alloc, Seq::of(Vec::new(alloc))).map_err(|_| AllocError)?;
    Ok(MemoryHost::of(alloc, answers, Vec::new(alloc)))
}
