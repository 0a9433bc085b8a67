//! Which pages of a roll are refused.
ghost use Rattle.std.specs.Prelude.{IfOk};
ghost use Rattle.roll.specs.Rolls.{bytes_of};
ghost use Rattle.report.specs.Refused.{AllPagesJudged, RefusedPages};

use crate::fault::RollFault;
use crate::opened;
use crate::text::page_text;
use roll::Roll;
use std::alloc::{AllocError, Global};

/// The faults of the pages that are refused, in order.
fn page_faults(heap: Global, roll: &Roll) -> Result<Vec<RollFault>, AllocError>
    ensures { IfOk result (λ faults. AllPagesJudged (bytes_of roll.now) faults.items) }
{
    let mut faults = Vec::new(heap);
    for (number, page) in roll.pages() {
        let read = page_text(heap, number as u32, &page)?;
        if let Err(fault) = read.outcome {
            faults.push(fault)?;
        }
    }
    Ok(faults)
}

/// What is refused of an input: the roll, by one fault, or pages of it, each by the fault that its
/// line in the [`report`](crate::report) tells. None where all pages end `ok`.
pub fn refused_pages(heap: Global, input: &[u8]) -> Result<Vec<RollFault>, AllocError>
    ensures { IfOk result (λ faults. RefusedPages input.now faults.items) }
{
    match opened(input) {
        Ok(roll) => page_faults(heap, &roll),
        Err(fault) => Ok(vec![in heap; fault]?),
    }
}
