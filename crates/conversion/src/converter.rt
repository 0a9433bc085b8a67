//! From one character set into another.
ghost use Rattle.std.specs.Prelude.{◌≡◌, ◌++◌};
ghost use Rattle.conversion.specs.Pairs.{IsRightFor};
ghost use Rattle.conversion.specs.Runs.{Runs};

use crate::met::MetCodings;
use crate::two_sets::TwoSets;
use crate::{Fault, Pause, Run};
use charset::{CharacterSet, Front};

/// Converts characters from one set into another. It keeps which bytes and codings it met, and what
/// they become, so that they are not looked up again.
#[derive(Drop)]
pub struct Converter<S: CharacterSet, T: CharacterSet> {
    sets: TwoSets<S, T>,
    met: MetCodings,
    ghost right: { IsRightFor S.CharacterSet T.CharacterSet sets met },
}

impl<S: CharacterSet, T: CharacterSet> Converter<S, T> {
    ghost use Rattle.conversion.specs.Converters.{source, target, SameSets};

    /// A converter from `source` into `target`, which has met nothing.
    pub fn new(source: S, target: T) -> Converter<S, T>
        ensures same_sets { (result.sets.source ≡ source) × (result.sets.target ≡ target) }
    {
        Converter {
            sets: TwoSets { source, target },
            met: MetCodings::empty(),
        }
    }

    /// Converts the held bytes and then the sector, character after character, into the front of
    /// the output, until an end comes: an opening or nothing is left, the next coding does not fit,
    /// or a fault stands there. The rest of the output stays as it was. How far it came stands in
    /// `run`, whatever ends it.
    pub fn convert(
        &mut self,
        held: Front,
        sector: &[u8],
        output: &mut [u8],
        run: &mut Run,
    ) -> Result<Pause, Fault>
        ensures same_sets { SameSets self.old self.new }
        ensures runs { Runs (source self.old) (target self.old)
            (held ++ sector.now) output.old output.new run.new result }
    {
        self.sets.run(&mut self.met, held, sector, output, run)
    }
}
