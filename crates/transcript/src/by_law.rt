//! An offer with the law of transcription, for the sets that it is made between.
ghost use Rattle.transcript.specs.Law.{TranscriptionLaw};
ghost use Rattle.transcript.specs.SameBytes.{SameBytes, SameUnderLayers};
ghost use Rattle.transcript.specs.Stacks.{TheLaw};
ghost use Rattle.transcript.specs.Transcripts.{source_set, target_set, Steps};
ghost use Rattle.transcript.specs.Uses.{offer};

use crate::answers::{Done, Refusal};
use crate::calls::Transcript;
use charset::CharacterSet;

/// [`Transcript::offer`], with the law: it is a call more of every use that led to the transcript,
/// its sets keep the law of transcription, and their causes of writing change nothing but what a 7
/// says.
#[tactic(auto, using(crate::proofs::Whole::the_law, crate::proofs::SameStacks::same_under_layers))]
pub fn offer_by_law<S: CharacterSet, T: CharacterSet>(
    transcript: &mut Transcript<S, T>,
    sector: &[u8],
    output: &mut [u8],
) -> Result<Done, Refusal>
    ensures steps { Steps transcript.old
        (offer sector.now output.old result output.new) transcript.new }
    ensures its_law { TranscriptionLaw (source_set transcript.old) (target_set transcript.old) }
    ensures same_bytes { SameBytes (source_set transcript.old) (target_set transcript.old) }
    ensures same_under_layers { SameUnderLayers }
    ensures the_law { TheLaw }
{
    transcript.offer(sector, output)
}
