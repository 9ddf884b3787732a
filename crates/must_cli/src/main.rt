//! Checks recorded runs of MPI programs: reads one recorded stream of calls per rank, and writes one report.
//!
//! `main` makes the real files and streams and hands them to `run`, which does all that the program does. A check reads
//! the streams one after the other, in time linear in their bytes. It holds one stream at a time in memory, and the
//! findings and their report.
#![tactic(auto)]

ghost use Rattle.std.specs.Prelude.{◌≡◌};
ghost use Rattle.must_cli.specs.declared.WordsFault.TheVariants.{NoMemory as OutOfMemory};

mod bind;
mod check;
mod dump;
mod line;
mod parts;
mod run;
mod status;
#[cfg(test)]
mod tests;

use must_base::{FileTrace, NameText, NoMemory, OpenGate, Sink, StreamSink};
use run::run;
use status::Status;
use std::alloc::Global;
use std::env;
use std::io::ErrorKind;
use std::process::ExitCode;

/// Why the words of the command line couldn't be taken.
enum WordsFault {
    /// They aren't text.
    Refused,
    NoMemory,
}

impl From<NoMemory> for WordsFault {
    ghost from_gives = { λ _ e. e ≡ OutOfMemory };

    fn from(_e: NoMemory) -> WordsFault {
        WordsFault::NoMemory
    }
}

/// The words after the program's name.
fn words_of(rt: &HostRuntime, alloc: Global) -> Result<Vec<NameText>, WordsFault> {
    let args = match env::args(rt) {
        Ok(args) => args,
        Err(e) if e.kind() == ErrorKind::OutOfMemory => return Err(WordsFault::NoMemory),
        Err(_) => return Err(WordsFault::Refused),
    };
    let mut words = Vec::new(alloc);
    for arg in args.skip(1) {
        let word = NameText::new(alloc, arg.as_str())?;
        if words.push(word).is_err() {
            return Err(WordsFault::NoMemory);
        }
    }
    Ok(words)
}

fn main(rt: HostRuntime) -> ExitCode {
    let alloc = rt.alloc();
    let mut out = StreamSink::new(rt.stdout());
    let mut err = StreamSink::new(rt.stderr());
    let status = match words_of(&rt, alloc) {
        Err(WordsFault::Refused) => {
            line::put_usage(&mut err);
            Status::Usage
        }
        Err(WordsFault::NoMemory) => {
            line::put_memory(&mut err);
            Status::NoMemory
        }
        Ok(words) => match rt.clone() {
            Err(_) => {
                line::put_memory(&mut err);
                Status::NoMemory
            }
            Ok(files) => {
                let mut trace = FileTrace::new(alloc, files);
                run(
                    &rt, alloc, &words, &mut trace, &mut out, &mut err, &OpenGate,
                )
            }
        },
    };
    ExitCode::from(status.number())
}
