// The calls that ask of a study. The vectors and settings that they work on lie in arrays for the most inputs, since a call
// can want no memory.
ghost use Rattle.turns.specs.Asked.{settle, seek, worst, told_settle, told_seek, told_worst};
ghost use Rattle.study.specs.Standing.{Promises, Keeps};

use crate::ceilings::is_covered;
use crate::study::Study;
use lines::limits::MAX_INPUTS;
use seeking::seek::Looked;
use settling::latest::Latest;
use times::time::Time;
use turns::answers::Greatest;
use turns::bits::{decide_all, read_bits, write_vector};
use turns::fault::StudyFault;

impl<T: Time> Study<T> {
    // Writes the final value and settle time of every line under a vector into the first places of two buffers; further
    // places stay.
    pub fn settle(
        &self,
        vector: &[u8],
        values: &mut [bool],
        times: &mut [T],
    ) -> Result<(), StudyFault>
        ensures { Promises T.kind self.now self.now (settle vector.now values.old times.old) (told_settle result values.new times.new) }
    {
        self.check_settle(vector, values.len(), times.len())?;
        let mut given = [false; MAX_INPUTS];
        let given = &mut given[..self.inputs];
        read_bits(vector, given);
        self.tied().settle(given, values, times);
        Ok(())
    }

    // Seeks the first vector that settles a line to a value at or after a bound. Found: it is written into the first
    // places of the vector's buffer. Nothing: the buffer is untouched. The work places are left free.
    pub fn seek(
        &mut self,
        line: usize,
        value: u8,
        bound: T,
        vector: &mut [u8],
        work: &mut [Latest<T>],
    ) -> Result<Looked<T>, StudyFault>
        ensures promise { Promises T.kind self.old self.new (seek line value bound vector.old work.old) (told_seek result vector.new work.new) }
        ensures keeps { Keeps self.old self.new result }
    {
        self.check_seek(line, value, vector.len(), work.len())?;
        let place = self.ceiling_place(line, value);
        if is_covered(self.ceilings[place], bound) {
            return Ok(Looked {
                found: None,
                looks: 0,
            });
        }
        let mut setting = self.ties;
        let setting = &mut setting[..self.inputs];
        let looked = self.target(line).look_for(value == 1, bound, setting, work);
        if looked.found.is_none() {
            self.ceilings[place] = Some(bound);
            return Ok(looked);
        }
        write_vector(setting, vector);
        Ok(looked)
    }

    // The line's greatest settle time over the vectors that agree with the ties, and its value under the first vector
    // that reaches it, which is written into the first places of the vector's buffer. The work places are left free.
    pub fn worst(
        &self,
        line: usize,
        vector: &mut [u8],
        work: &mut [Latest<T>],
    ) -> Result<Greatest<T>, StudyFault>
        ensures { Promises T.kind self.now self.now (worst line vector.old work.old) (told_worst result vector.new work.new) }
    {
        self.check_worst(line, vector.len(), work.len())?;
        let target = self.target(line);
        let mut setting = self.ties;
        let setting = &mut setting[..self.inputs];
        let mut at = [false; MAX_INPUTS];
        let at = &mut at[..self.inputs];
        let Some(time) = target.worst_of(setting, None, at, work) else {
            unreachable()
        };
        decide_all(at, setting);
        let value = target.latest_at(true, setting, work).is_some();
        write_vector(setting, vector);
        Ok(Greatest { time, value })
    }
}
