//! What the programs share: their version, their arguments, input and output, and how they end.
#![tactic(auto)]

ghost use Rattle.std.specs.Prelude.{◌≡◌, IfOk, IfErr, map, string_bytes};
ghost use Rattle.clap.specs.Simple.{HasMatchesOf, app_of};
ghost use Rattle.program.specs.Endings.{status_of, EndsAs, IsFailure, IsAnswerOrUsage};
ghost use Rattle.program.specs.Endings.{NoWords};
ghost use Rattle.program.specs.Files.{shown_name};

use clap::{ArgMatches, Command};
use std::alloc::AllocError;
use std::io::{Read, Write};
use std::process::ExitCode;
use std::{env, fs, io};

/// The version of the programs.
pub const VERSION: &str = "0.9.0";

/// The word for standard input in place of a file.
const STANDARD_INPUT: &str = "-";

/// How a program ends that does not do its work.
#[derive(Debug, Drop)]
pub enum Ending {
    /// The help or the version that the arguments ask for.
    Answered(String),
    /// What is wrong with the arguments.
    Usage(String),
    /// What was refused, or could not be read or written.
    Failed(String),
    /// Memory was wanting.
    NoMemory,
}

impl Ending {
    /// The status: 0 for an answer, 2 for wrong arguments, else 1.
    fn status(&self) -> u8
        ensures { result ≡ status_of self.now }
    {
        match self {
            Ending::Answered(_) => 0,
            Ending::Usage(_) => 2,
            Ending::Failed(_) | Ending::NoMemory => 1,
        }
    }
}

impl From<AllocError> for Ending {
    ghost use Rattle.program.specs.declared.Ending.TheVariants.{NoMemory};

    ghost from_gives = { λ _ e. e ≡ NoMemory };

    fn from(_error: AllocError) -> Ending {
        Ending::NoMemory
    }
}

/// The words of the command line, the program's own first.
pub fn words(rt: &HostRuntime) -> Result<Vec<String>, Ending>
    ensures { IfErr result NoWords }
{
    let heap = rt.alloc();
    match env::args(rt) {
        Ok(words) => Ok(words.collect(heap)?),
        Err(error) if error.kind() == io::ErrorKind::InvalidData => {
            Err(Ending::Usage(format!(in heap; "an argument is not UTF-8")?))
        }
        Err(error) => Err(Ending::Failed(format!(in heap; "cannot read the arguments: {error}")?)),
    }
}

/// The words as the arguments of a command; else its help, its version, or what is wrong with them.
pub fn arguments<'a>(
    rt: &HostRuntime,
    command: Command<'a>,
    words: &'a [String],
) -> Result<ArgMatches<'a>, Ending>
    ensures matches { IfOk result (HasMatchesOf (app_of command.entry)
        (map string_bytes words.entry.now)) }
    ensures refused { IfErr result IsAnswerOrUsage }
{
    match command.try_get_matches_from(words) {
        Ok(matches) => Ok(matches),
        Err(error) => Err(told(rt, &error)?),
    }
}

/// What `clap` answers in place of arguments. Its text begins with `error: ` where they are wrong.
fn told(rt: &HostRuntime, error: &clap::Error) -> Result<Ending, AllocError>
    ensures { IfOk result IsAnswerOrUsage }
{
    let heap = rt.alloc();
    let text = format!(in heap; "{error}")?;
    if !error.use_stderr() {
        return Ok(Ending::Answered(text));
    }
    let text = text.as_str();
    let message = text.strip_prefix("error: ").unwrap_or(text).trim_end();
    Ok(Ending::Usage(String::from_str(heap, message)?))
}

/// What messages call a file.
pub fn file_name(file: &str) -> &str
    ensures { result.now ≡ shown_name file.now }
{
    if file == STANDARD_INPUT {
        "standard input"
    } else {
        file
    }
}

/// The first bytes of a file, up to so many; `-` is standard input.
pub fn read(rt: &HostRuntime, file: &str, at_most: u64) -> Result<Vec<u8>, Ending>
    ensures { IfErr result IsFailure }
{
    if file != STANDARD_INPUT {
        return read_file(rt, file, at_most);
    }
    let mut bytes = Vec::new(rt.alloc());
    match rt.stdin().take(at_most).read_to_end(&mut bytes) {
        Ok(_) => Ok(bytes),
        Err(error) => Err(unread(rt, file_name(file), error)?),
    }
}

/// The first bytes of a file of any name, up to so many.
pub fn read_file(rt: &HostRuntime, file: &str, at_most: u64) -> Result<Vec<u8>, Ending>
    ensures { IfErr result IsFailure }
{
    let mut bytes = Vec::new(rt.alloc());
    let done = match fs::open(rt, file) {
        Ok(opened) => opened.take(at_most).read_to_end(&mut bytes),
        Err(error) => Err(error),
    };
    match done {
        Ok(_) => Ok(bytes),
        Err(error) => Err(unread(rt, file, error)?),
    }
}

fn unread(rt: &HostRuntime, file: &str, error: io::Error) -> Result<Ending, AllocError>
    ensures { IfOk result IsFailure }
{
    let message = format!(in rt.alloc(); "cannot read {file}: {error}")?;
    Ok(Ending::Failed(message))
}

/// Writes bytes to standard output.
pub fn write(rt: &HostRuntime, bytes: &[u8]) -> Result<(), Ending>
    ensures { IfErr result IsFailure }
{
    match rt.stdout().write_all(bytes) {
        Ok(()) => Ok(()),
        Err(error) => Err(Ending::Failed(format!(in rt.alloc();
            "cannot write standard output: {error}"
        )?)),
    }
}

/// Says how a program ended, with its name in front, and answers its status.
pub fn end(rt: &HostRuntime, name: &str, outcome: Result<(), Ending>) -> ExitCode
    ensures { EndsAs outcome result }
{
    let outcome = match outcome {
        Err(Ending::Answered(text)) => write(rt, text.as_bytes()),
        other => other,
    };
    let Err(ending) = outcome else {
        return ExitCode::SUCCESS;
    };
    // Where standard error cannot be written, the status alone tells.
    let _ = match &ending {
        Ending::NoMemory => eprintln!(rt; "{name}: out of memory"),
        Ending::Answered(text) | Ending::Usage(text) | Ending::Failed(text) => {
            eprintln!(rt; "{name}: {text}")
        }
    };
    ExitCode::from(ending.status())
}
