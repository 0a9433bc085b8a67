//! Worked examples: the statement that is proved of the definitions, demonstrations, and tests.
#![tactic(auto)]

ghost use Rattle.examples.specs.Transcripts.{WorkedExamples};

#[cfg(test)]
mod asserts;
mod demonstrations;
#[cfg(test)]
mod layer_examples;
mod odd;
#[cfg(test)]
mod refusals;
#[cfg(test)]
mod rolls;
#[cfg(test)]
mod set_examples;
#[cfg(test)]
mod stacks;
#[cfg(test)]
mod transcripts;

pub use demonstrations::{read_three_deep, read_with_parity};

/// Proves the worked examples; there is nothing to run.
#[tactic(auto, using(crate::proofs::ShownTranscripts::worked_examples))]
pub fn worked_examples()
    ensures { WorkedExamples }
{}
