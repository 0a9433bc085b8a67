//! What is written of a roll.
#![tactic(auto)]

ghost use Rattle.std.specs.Prelude.{◌≡◌, IfOk, string_bytes};
ghost use Rattle.roll.specs.Rolls.{bytes_of};
ghost use Rattle.report.specs.Lines.{line_told};
ghost use Rattle.report.specs.Reports.{PageBlock, AllPagesWritten, number_line, OpensInput};
ghost use Rattle.report.specs.Reports.{Reports, OneReport};

mod explain;
mod fault;
mod refused;
mod text;

pub use explain::{FaultWords, RollWords, refused_bytes};
pub use fault::{RollFault, RollTold};
pub use refused::refused_pages;
use roll::{Page, Roll, RollRefusal};
use std::alloc::{AllocError, Global};
pub use text::{PageText, form_text, page_text};
use transcript::Told;

/// How many bytes a roll may have that [`report`] reads; a longer one is refused by 14.
pub const LONGEST_INPUT: usize = 65_536;

/// How a page went: its number, form and characters, then `ok`, or the refusal, `@` and the
/// offset. Fails only where memory is wanting.
pub fn line(heap: Global, number: u32, page: &PageText) -> Result<String, AllocError>
    ensures { IfOk result (λ s. string_bytes s ≡ line_told number page.now) }
{
    let form = page.form;
    let characters = page.characters;
    match page.outcome {
        Ok(()) => format!(in heap; "{number} {form} {characters} ok"),
        Err(fault) => {
            let RollTold { told, .. } = fault.told();
            let Told {
                number: refusal,
                offset,
                ..
            } = told;
            format!(in heap; "{number} {form} {characters} {refusal}@{offset}")
        }
    }
}

/// The text of a page and its line, each with a line feed behind. `number` is the page's, from 1.
/// Fails only where memory is wanting.
pub fn block(heap: Global, number: u32, page: &Page) -> Result<Vec<u8>, AllocError>
    ensures { IfOk result (λ out. PageBlock number page.now out.items) }
{
    let read = page_text(heap, number, page)?;
    let line = line(heap, number, &read)?;
    let mut out = read.text;
    out.push(b'\n')?;
    out.extend_from_slice(line.as_bytes())?;
    out.push(b'\n')?;
    Ok(out)
}

// A number alone on a line.
fn number_line(heap: Global, number: u8) -> Result<Vec<u8>, AllocError>
    ensures { IfOk result (λ out. out.items ≡ number_line number) }
{
    let line = format!(in heap; "{number}\n")?;
    Ok(line.into_bytes())
}

// The blocks of all pages.
fn blocks(heap: Global, roll: &Roll) -> Result<Vec<u8>, AllocError>
    ensures { IfOk result (λ out. AllPagesWritten (bytes_of roll.now) out.items) }
{
    let mut out = Vec::new(heap);
    for (number, page) in roll.pages() {
        let block = block(heap, number as u32, &page)?;
        out.extend_from_slice(&block)?;
    }
    Ok(out)
}

// An input as a roll; one that is too long for a report is refused as a roll of the wrong size is.
fn opened(input: &[u8]) -> Result<Roll<'_>, RollFault>
    ensures { OpensInput input.now result }
{
    if input.len() > LONGEST_INPUT {
        return Err(RollRefusal::WrongSize.into());
    }
    Ok(Roll::open(input)?)
}

/// All that is written of an input: the blocks of the pages in order, or the number of a refused
/// roll. Fails only where memory is wanting.
pub fn report(heap: Global, input: &[u8]) -> Result<Vec<u8>, AllocError>
    ensures reports { IfOk result (λ out. Reports input.now out.items) }
    ensures one_report { OneReport input.now }
{
    match opened(input) {
        Ok(roll) => blocks(heap, &roll),
        Err(fault) => number_line(heap, fault.told().told.number),
    }
}
