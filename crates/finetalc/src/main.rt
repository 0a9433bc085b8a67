//! Reads a roll, and writes the text of its pages in UTF-8 with a line on how each went.
#![tactic(auto)]

use clap::{Arg, ArgAction, Command};
use program::{Ending, VERSION, arguments, end, read, words, write};
use report::{FaultWords, LONGEST_INPUT, RollFault, RollWords, refused_pages, report};
use roll::{Form, Page, Roll};
use std::alloc::{AllocError, Global};
use std::fmt::Write;
use std::process::ExitCode;

const NAME: &str = "finetalc";

const AFTER_HELP: &str = "\
Of each page the text is written, and then a line: the number of the page, its
form and how many characters were read, and ok, or why no more could be read
and from which byte on, as in 6@18. A refused roll is a number alone, 14 to 18.";

fn command<'a>(heap: Global) -> Result<Command<'a>, AllocError> {
    let file = Arg::new(heap, "file")
        .value_name("FILE")
        .default_value("-")
        .help("The roll; - is standard input");
    let explain = Arg::new(heap, "explain")
        .long("explain")
        .action(ArgAction::SetTrue)
        .help("Say on standard error, in words, why each page is refused");
    let strict = Arg::new(heap, "strict")
        .long("strict")
        .action(ArgAction::SetTrue)
        .help("End with status 1 where a page, or the roll, is refused");
    Command::new(heap, NAME)
        .version(VERSION)
        .about("Transcribes the pages of a roll into UTF-8")
        .after_help(AFTER_HELP)
        .arg(file)?
        .arg(explain)?
        .arg(strict)
}

/// Says why a page, or the roll, is refused.
fn explain(rt: &HostRuntime, input: &[u8], fault: RollFault) {
    // Where standard error cannot be written, nothing is left to say it to.
    let _ = match fault {
        RollFault::Refused(refusal) => {
            let words = RollWords(refusal);
            eprintln!(rt; "{NAME}: the roll: {words}")
        }
        RollFault::Faulted { page, fault } => {
            let opened = Roll::open(input).and_then(|roll| roll.page(page as usize));
            let Ok(Page::Text { form, part, .. }) = opened else {
                return;
            };
            let words = FaultWords::new(form, Form::Unicode, part, fault);
            eprintln!(rt; "{NAME}: page {page}: {words}")
        }
    };
}

/// What is refused, shortly.
fn refused(heap: Global, faults: &[RollFault]) -> Result<Ending, AllocError> {
    let mut text = String::from_str(heap, "refused:")?;
    for fault in faults {
        match *fault {
            RollFault::Refused(_) => text.push_str(" the roll")?,
            RollFault::Faulted { page, .. } => write!(text, " page {page}")?,
        }
    }
    Ok(Ending::Failed(text))
}

fn run(rt: &HostRuntime, words: &[String]) -> Result<(), Ending> {
    let heap = rt.alloc();
    let given = arguments(rt, command(heap)?, words)?;
    // One byte more than a report reads tells a longer input.
    let input = read(
        rt,
        given.get_str("file").unwrap_or("-"),
        LONGEST_INPUT as u64 + 1,
    )?;
    write(rt, &report(heap, &input)?)?;
    let (explains, strict) = (given.get_flag("explain"), given.get_flag("strict"));
    if !explains && !strict {
        return Ok(());
    }
    let faults = refused_pages(heap, &input)?;
    if explains {
        for fault in &faults {
            explain(rt, &input, *fault);
        }
    }
    if strict && !faults.is_empty() {
        return Err(refused(heap, &faults)?);
    }
    Ok(())
}

fn main(rt: HostRuntime) -> ExitCode {
    match words(&rt) {
        Ok(words) => end(&rt, NAME, run(&rt, &words)),
        Err(ending) => end(&rt, NAME, Err(ending)),
    }
}
