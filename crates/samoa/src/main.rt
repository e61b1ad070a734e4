//! Does what the words ask for with the script that standard input holds, and writes the answer to standard output, which
//! is gathered first. What can't be passed on at the end is a failed write.
#![tactic(auto)]

#[cfg(test)]
mod tests;

use samoa_ends::{Failed, StdSink, StdSource};
use samoa_kinds::full_stock;
use samoa_run::{NoGate, serve};
use std::alloc::Global;
use std::io::{BufWriter, ErrorKind};
use std::process::ExitCode;
use std::{env, io};

fn main(rt: HostRuntime) -> ExitCode {
    let alloc = rt.alloc();
    let Ok(stock) = full_stock(alloc) else {
        return ExitCode::from(6);
    };
    let words = match words_of(&rt, alloc) {
        Ok(words) => words,
        Err(error) if error.kind() == ErrorKind::OutOfMemory => return ExitCode::from(6),
        Err(_) => return ExitCode::from(9),
    };
    let Ok(out) = BufWriter::new(alloc, io::writer(&rt)) else {
        return ExitCode::from(6);
    };
    let mut source = StdSource::new(rt.reader());
    let mut sink = StdSink::new(out);
    let gate = NoGate::new();
    let status = serve(&rt, alloc, &words, &mut source, &mut sink, stock, &gate);
    match sink.flush() {
        Ok(()) => ExitCode::from(status),
        Err(Failed) => ExitCode::from(5),
    }
}

/// The words after the program's name.
fn words_of<R: env::Env + AllocGlobal>(rt: &R, alloc: Global) -> io::Result<Vec<String>> {
    let mut words = Vec::new(alloc);
    for word in env::args(rt)?.skip(1) {
        words.push(word)?;
    }
    Ok(words)
}
