// Whether a study refuses a call, and if so with the smallest number that fits.
ghost use Rattle.std.specs.Prelude.{◌≡◌, ◌<◌, ◌≤◌, ◌⊎◌, length, slice_index_or, None, IfOk, IfErr};
ghost use Rattle.turns.specs.declared.fault.StudyFault.TheVariants.{NoLine, NoBit, ShortBuffer, TieAgainst};
ghost use Rattle.turns.specs.Refusals.{Checked, SettleWrong, SeekWrong, WorstWrong, ShortenWrong, LengthenWrong, TieWrong, UntieWrong};
ghost use Rattle.study.specs.Standing.{plain_of, Tests, DelayAt};

use crate::study::Study;
use lines::limits::MAX_DELAY;
use times::time::Time;
use turns::bits::{agrees, all_bits};
use turns::fault::StudyFault;

// Whether a value is refused, as neither 0 nor 1.
fn check_bit(value: u8) -> Result<(), StudyFault>
    ensures { Tests NoBit (1 < value) result }
{
    if value > 1 {
        return Err(StudyFault::NoBit);
    }
    Ok(())
}

impl<T: Time> Study<T> {
    // Whether a line is refused, as not present.
    fn check_line(&self, line: usize) -> Result<(), StudyFault>
        ensures { Tests NoLine (length (plain_of self.now).lines ≤ line) result }
    {
        if line >= self.lines.len() {
            return Err(StudyFault::NoLine);
        }
        Ok(())
    }

    // Whether the buffers of a search are refused, by how many places its vector and its work have.
    fn check_room(&self, room: usize, work: usize) -> Result<(), StudyFault>
        ensures { Tests ShortBuffer ((room < length (plain_of self.now).ties) ⊎ (work < length (plain_of self.now).lines)) result }
    {
        if room < self.inputs {
            return Err(StudyFault::ShortBuffer);
        }
        if work < self.lines.len() {
            return Err(StudyFault::ShortBuffer);
        }
        Ok(())
    }

    // Whether a settle is refused, by its vector and how many places its two buffers have.
    pub(crate) fn check_settle(
        &self,
        vector: &[u8],
        values: usize,
        times: usize,
    ) -> Result<(), StudyFault>
        ensures { Checked (SettleWrong (plain_of self.now) vector.now values times) result }
    {
        if vector.len() != self.inputs {
            return Err(StudyFault::NoBit);
        }
        if !all_bits(vector) {
            return Err(StudyFault::NoBit);
        }
        if !agrees(&self.ties[..self.inputs], vector) {
            return Err(StudyFault::TieAgainst);
        }
        if values < self.lines.len() {
            return Err(StudyFault::ShortBuffer);
        }
        if times < self.lines.len() {
            return Err(StudyFault::ShortBuffer);
        }
        Ok(())
    }

    // Whether a seek is refused, by its line and value, and how many places its vector and its work have.
    pub(crate) fn check_seek(
        &self,
        line: usize,
        value: u8,
        room: usize,
        work: usize,
    ) -> Result<(), StudyFault>
        ensures { Checked (SeekWrong (plain_of self.now) line value room work) result }
    {
        self.check_line(line)?;
        check_bit(value)?;
        self.check_room(room, work)
    }

    // Whether a worst is refused, by its line, and how many places its vector and its work have.
    pub(crate) fn check_worst(
        &self,
        line: usize,
        room: usize,
        work: usize,
    ) -> Result<(), StudyFault>
        ensures { Checked (WorstWrong (plain_of self.now) line room work) result }
    {
        self.check_line(line)?;
        self.check_room(room, work)
    }

    // A line's present delay, which is to be changed; or why neither a shorten nor a lengthen to that delay can be.
    fn delay_at(&self, line: usize, delay: u32) -> Result<u32, StudyFault>
        ensures { DelayAt (plain_of self.now) line delay result }
    {
        if delay > MAX_DELAY {
            return Err(StudyFault::DelayAbove);
        }
        self.check_line(line)?;
        Ok(self.lines[line].delay)
    }

    // Whether a shorten is refused, by its line and delay.
    pub(crate) fn check_shorten(&self, line: usize, delay: u32) -> Result<(), StudyFault>
        ensures { Checked (ShortenWrong (plain_of self.now) line delay) result }
    {
        if self.delay_at(line, delay)? < delay {
            return Err(StudyFault::NoSuchChange);
        }
        Ok(())
    }

    // Whether a lengthen is refused, by its line and delay.
    pub(crate) fn check_lengthen(&self, line: usize, delay: u32) -> Result<(), StudyFault>
        ensures { Checked (LengthenWrong (plain_of self.now) line delay) result }
    {
        if self.delay_at(line, delay)? >= delay {
            return Err(StudyFault::NoSuchChange);
        }
        Ok(())
    }

    // An input's tie, if it has one; a cell is refused.
    fn tie_at(&self, line: usize) -> Result<Option<bool>, StudyFault>
        ensures input { IfOk result (λ tie. (line < length (plain_of self.now).ties) × (tie ≡ slice_index_or (plain_of self.now).ties line None)) }
        ensures cell { IfErr result (λ fault. (fault ≡ TieAgainst) × (length (plain_of self.now).ties ≤ line)) }
    {
        if line >= self.inputs {
            return Err(StudyFault::TieAgainst);
        }
        Ok(self.ties[line])
    }

    // Whether a tie is refused, by its line and value.
    pub(crate) fn check_tie(&self, line: usize, value: u8) -> Result<(), StudyFault>
        ensures { Checked (TieWrong (plain_of self.now) line value) result }
    {
        self.check_line(line)?;
        check_bit(value)?;
        if self.tie_at(line)?.is_some() {
            return Err(StudyFault::TieAgainst);
        }
        Ok(())
    }

    // Whether an untie is refused, by its line.
    pub(crate) fn check_untie(&self, line: usize) -> Result<(), StudyFault>
        ensures { Checked (UntieWrong (plain_of self.now) line) result }
    {
        self.check_line(line)?;
        if self.tie_at(line)?.is_none() {
            return Err(StudyFault::TieAgainst);
        }
        Ok(())
    }
}
