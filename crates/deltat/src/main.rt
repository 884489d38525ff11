//! The program `deltat`: makes the real objects, calls the top call, and tells its answer.
#![tactic(auto)]

use dt_edges::{ReaderSource, WriterSink, put_all};
use dt_items::NoMemory;
use dt_machine::{MachineClock, Moments, UdpWire};
use dt_top::run;
use std::env;
use std::io::ErrorKind;
use std::process::ExitCode;

/// The exit status for want of memory.
const NO_MEMORY: u8 = 4;

/// The words of the command line without the program's name. Words that aren't UTF-8 make no command,
/// so there is none then.
fn words(rt: &HostRuntime) -> Result<Vec<String>, NoMemory> {
    match env::args(rt) {
        Ok(args) => Ok(args.skip(1).collect(rt.alloc())?),
        Err(fault) if fault.kind() == ErrorKind::OutOfMemory => Err(NoMemory),
        Err(_) => Ok(Vec::new(rt.alloc())),
    }
}

/// Runs over standard input, standard output and standard error, with this wire and this clock.
fn serve_words(
    rt: &HostRuntime,
    words: &[String],
    wire: &mut UdpWire<'_, HostRuntime>,
    clock: &mut MachineClock<'_, HostRuntime>,
) -> u8 {
    run(
        rt.alloc(),
        words,
        &mut ReaderSource::new(rt.stdin()),
        &mut WriterSink::new(rt.stdout()),
        &mut WriterSink::new(rt.stderr()),
        wire,
        clock,
    )
}

/// Serves the words of the command line, with a UDP socket that isn't open yet and a clock that has the
/// same moments.
fn serve(rt: &HostRuntime) -> Result<u8, NoMemory> {
    let words = words(rt)?;
    let moments = Moments::new();
    let mut wire = UdpWire::new(rt.alloc(), rt, &moments)?;
    let mut clock = MachineClock::new(rt, &moments);
    Ok(serve_words(rt, &words, &mut wire, &mut clock))
}

fn main(rt: HostRuntime) -> ExitCode {
    match serve(&rt) {
        Ok(status) => ExitCode::from(status),
        Err(NoMemory) => {
            let _ = put_all(b"out of memory\n", &mut WriterSink::new(rt.stderr()));
            ExitCode::from(NO_MEMORY)
        }
    }
}
