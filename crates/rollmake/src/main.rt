//! Packs page files into a roll: `rollmake FORM FILE [FORM FILE ..]`.
#![tactic(auto)]

use clap::{Arg, Command};
use forms::{LISTED_FORMS, form_of_word};
use program::{Ending, VERSION, arguments, end, read_file, words, write};
use report::LONGEST_INPUT;
use roll::{Builder, LARGEST_ROLL};
use std::alloc::{AllocError, Global};
use std::process::ExitCode;

const NAME: &str = "rollmake";

fn command<'a>(heap: Global) -> Result<Command<'a>, AllocError> {
    let pages = Arg::new(heap, "pages")
        .value_names(&["FORM", "FILE"])
        .num_args(2..)
        .required(true)
        .help(
            "The form of a page (0 or picture: one without text), and the file that has its \
             bytes; -- goes before a file -x",
        );
    Command::new(heap, NAME)
        .version(VERSION)
        .about("Packs files, each a page, into a roll")
        .after_help(LISTED_FORMS)
        .arg(pages)
}

/// The roll of the pages that words give, each by a form and a file.
fn packed(rt: &HostRuntime, words: &[&str]) -> Result<Vec<u8>, Ending> {
    let heap = rt.alloc();
    let mut builder = Builder::new(heap);
    for pair in words.chunks(2) {
        let [form, file] = *pair else {
            let message = format!(in heap; "the last form has no file")?;
            return Err(Ending::Usage(message));
        };
        let Some(form) = form_of_word(form) else {
            let message = format!(in heap; "no form has the name '{form}'; --help lists them")?;
            return Err(Ending::Usage(message));
        };
        let page = read_file(rt, file, LARGEST_ROLL as u64 + 1)?;
        builder = match builder.with_page(form, &page) {
            Ok(builder) => builder,
            Err(refusal) => {
                let message = format!(in heap; "cannot pack {file}: {refusal}")?;
                return Err(Ending::Failed(message));
            }
        };
    }
    Ok(builder.finish()?)
}

fn run(rt: &HostRuntime, words: &[String]) -> Result<(), Ending> {
    let heap = rt.alloc();
    let given = arguments(rt, command(heap)?, words)?;
    let roll = packed(rt, given.get_strs("pages").unwrap_or(&[]))?;
    write(rt, &roll)?;
    if roll.len() > LONGEST_INPUT {
        let size = roll.len();
        // The roll is written all the same.
        let _ = eprintln!(rt;
            "{NAME}: warning: the roll has {size} bytes, and finetalc reads \
            up to {LONGEST_INPUT}"
        );
    }
    Ok(())
}

fn main(rt: HostRuntime) -> ExitCode {
    match words(&rt) {
        Ok(words) => end(&rt, NAME, run(&rt, &words)),
        Err(ending) => end(&rt, NAME, Err(ending)),
    }
}
