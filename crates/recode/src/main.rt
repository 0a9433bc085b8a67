//! From one form of text into another: `recode SOURCE TARGET [FILE]`.
#![tactic(auto)]

ghost use Rattle.std.specs.Prelude.{◌≡◌, IfOk};
ghost use Rattle.roll.specs.Forms.{form_number};
ghost use Rattle.forms.specs.Names.{form_of_word};

use clap::{Arg, Command};
use forms::{FormSet, LISTED_FORMS, form_of_word};
use program::{Ending, VERSION, arguments, end, file_name, read, words, write};
use report::FaultWords;
use roll::Form;
use std::alloc::{AllocError, Global};
use std::process::ExitCode;
use transcript::{Failure, Transcription, transcribe};

const NAME: &str = "recode";

fn command<'a>(heap: Global) -> Result<Command<'a>, AllocError> {
    let source = Arg::new(heap, "source")
        .value_name("SOURCE")
        .required(true)
        .help("The form of the text");
    let target = Arg::new(heap, "target")
        .value_name("TARGET")
        .required(true)
        .help("The form into which it goes");
    let file = Arg::new(heap, "file")
        .value_name("FILE")
        .default_value("-")
        .help("The text; - is standard input");
    Command::new(heap, NAME)
        .version(VERSION)
        .about("Recodes a text from one form into another")
        .after_help(LISTED_FORMS)
        .arg(source)?
        .arg(target)?
        .arg(file)
}

/// The form of text that a word gives.
fn form(heap: Global, word: &str) -> Result<Form, Ending>
    ensures { IfOk result (λ f. form_of_word word.now ≡ Some (form_number f)) }
{
    match form_of_word(word).map(Form::try_from) {
        Some(Ok(form)) => Ok(form),
        Some(Err(_)) => Err(Ending::Usage(format!(in heap; "a picture has no text: '{word}'")?)),
        None => Err(Ending::Usage(format!(in heap;
            "no form has the name '{word}'; --help lists them"
        )?)),
    }
}

fn run(rt: &HostRuntime, words: &[String]) -> Result<(), Ending> {
    let heap = rt.alloc();
    let given = arguments(rt, command(heap)?, words)?;
    let source = form(heap, given.get_str("source").unwrap_or(""))?;
    let target = form(heap, given.get_str("target").unwrap_or(""))?;
    let file = given.get_str("file").unwrap_or("-");
    let input = read(rt, file, u64::MAX)?;
    let sets = (FormSet::of(heap, source)?, FormSet::of(heap, target)?);
    let mut done = Transcription::empty(heap);
    let outcome = transcribe(sets.0, sets.1, &input, &mut done);
    let file = file_name(file);
    let message = match outcome {
        Ok(()) => return write(rt, &done.text),
        Err(Failure::Faulted(at)) => {
            write(rt, &done.text)?;
            let words = FaultWords::new(source, target, &input, at);
            format!(in heap; "{file}: {words}")?
        }
        // Of the text nothing is promised then, so none is written.
        Err(wanting) => format!(in heap; "{file}: {wanting}")?,
    };
    Err(Ending::Failed(message))
}

fn main(rt: HostRuntime) -> ExitCode {
    match words(&rt) {
        Ok(words) => end(&rt, NAME, run(&rt, &words)),
        Err(ending) => end(&rt, NAME, Err(ending)),
    }
}
