//! Two character sets, and characters from the one into the other.
ghost use Rattle.std.specs.Prelude.{◌≡◌, ◌≤◌, ◌++◌, length, drop, Some};
ghost use Rattle.charset.specs.Sets.{set_of};
ghost use Rattle.conversion.specs.Next.{ComesNext};
ghost use Rattle.conversion.specs.Runs.{ByteForByte, Runs};
ghost use Rattle.conversion.specs.Advances.{Advances};

use crate::met::MetCodings;
use crate::{Advance, Fault, Pause, Run, next_coding};
use charset::{CharacterSet, Coding, Front};

/// The two sets of a conversion.
#[derive(Drop)]
pub struct TwoSets<S: CharacterSet, T: CharacterSet> {
    pub(crate) source: S,
    pub(crate) target: T,
}

impl<S: CharacterSet, T: CharacterSet> TwoSets<S, T> {
    ghost use Rattle.conversion.specs.Pairs.{source, target, IsRightFor};

    // What the bytes in front of the input become, in front of the output, as far as that was met;
    // how many these are.
    fn copy_plain(&self, met: &MetCodings, input: &[u8], output: &mut [u8]) -> usize
        requires { IsRightFor S.CharacterSet T.CharacterSet self.now met.now }
        ensures { ByteForByte (source S.CharacterSet self.now) (target T.CharacterSet self.now)
            input.now output.old output.new result }
    {
        let mut count = 0;
        while count < input.len() && count < output.len() {
            let Some(byte) = met.single(input[count]) else {
                break;
            };
            output[count] = byte;
            count += 1;
        }
        count
    }

    // The same of the bytes that stand `at` bytes behind the start of the held bytes and then the
    // sector. None of those that are held: they are few.
    fn plain_at(
        &self,
        met: &MetCodings,
        held: Front,
        sector: &[u8],
        at: usize,
        output: &mut [u8],
    ) -> usize
        requires right { IsRightFor S.CharacterSet T.CharacterSet self.now met.now }
        requires inside { at ≤ length (held ++ sector.now) }
        ensures { ByteForByte (source S.CharacterSet self.now) (target T.CharacterSet self.now)
            (drop at (held ++ sector.now)) output.old output.new result }
    {
        let behind = held.len();
        if at < behind {
            return 0;
        }
        self.copy_plain(met, &sector[at - behind..], output)
    }

    // What comes next in the input: from the codings that were met, where it is one of them.
    fn next(&self, met: &mut MetCodings, input: &[u8]) -> Result<Option<(Coding, usize)>, Fault>
        requires { IsRightFor S.CharacterSet T.CharacterSet self.now met.old }
        ensures right { IsRightFor S.CharacterSet T.CharacterSet self.now met.new }
        ensures next { ComesNext (source S.CharacterSet self.now)
            (target T.CharacterSet self.now) input.now result }
    {
        if let Some(found) = met.find(input) {
            return Ok(Some(found));
        }
        let Some(found) = next_coding(&self.source, &self.target, input)? else {
            return Ok(None);
        };
        let (coding, length) = found;
        met.keep(input, length, coding);
        Ok(Some(found))
    }

    // The character in front of the input into the front of the output.
    fn convert_one(
        &self,
        met: &mut MetCodings,
        input: &[u8],
        output: &mut [u8],
    ) -> Result<Advance, Fault>
        requires { IsRightFor S.CharacterSet T.CharacterSet self.now met.old }
        ensures right { IsRightFor S.CharacterSet T.CharacterSet self.now met.new }
        ensures advances { Advances (source S.CharacterSet self.now)
            (target T.CharacterSet self.now) input.now output.old output.new result }
    {
        let Some((coding, length)) = self.next(met, input)? else {
            return Ok(Advance::Paused(Pause::Open));
        };
        let bytes = coding.as_bytes();
        let written = bytes.len();
        if output.len() < written {
            return Ok(Advance::Paused(Pause::Full));
        }
        output[..written].copy_from_slice(bytes);
        Ok(Advance::Written {
            read: length,
            written,
        })
    }

    // The character that stands there. As long as it begins among the held bytes it is read from a
    // copy of the four bytes there, which decide it.
    fn one_at(
        &self,
        met: &mut MetCodings,
        held: Front,
        sector: &[u8],
        at: usize,
        output: &mut [u8],
    ) -> Result<Advance, Fault>
        requires right { IsRightFor S.CharacterSet T.CharacterSet self.now met.old }
        requires inside { at ≤ length (held ++ sector.now) }
        ensures right { IsRightFor S.CharacterSet T.CharacterSet self.now met.new }
        ensures advances { Advances (source S.CharacterSet self.now)
            (target T.CharacterSet self.now) (drop at (held ++ sector.now))
            output.old output.new result }
    {
        let bytes = held.as_bytes();
        if at < bytes.len() {
            let window = held.window(sector, at);
            self.convert_one(met, window.as_bytes(), output)
        } else {
            self.convert_one(met, &sector[at - bytes.len()..], output)
        }
    }

    // What `convert` does: the bytes that were met alone in both sets at once, the others one at a
    // time.
    pub(crate) fn run(
        &self,
        met: &mut MetCodings,
        held: Front,
        sector: &[u8],
        output: &mut [u8],
        run: &mut Run,
    ) -> Result<Pause, Fault>
        requires { IsRightFor S.CharacterSet T.CharacterSet self.now met.old }
        ensures right { IsRightFor S.CharacterSet T.CharacterSet self.now met.new }
        ensures runs { Runs (source S.CharacterSet self.now) (target T.CharacterSet self.now)
            (held ++ sector.now) output.old output.new run.new result }
    {
        prove!(held.len() <= 4);
        *run = Run::default();
        'turns: loop {
            let copied = self.plain_at(met, held, sector, run.read, &mut output[run.written..]);
            if copied > 0 {
                run.characters += copied;
                run.read += copied;
                run.written += copied;
                continue 'turns;
            }
            match self.one_at(met, held, sector, run.read, &mut output[run.written..])? {
                Advance::Written { read, written } => {
                    run.characters += 1;
                    run.read += read;
                    run.written += written;
                }
                Advance::Paused(pause) => return Ok(pause),
            }
        }
    }
}
