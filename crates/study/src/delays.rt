// The calls that change a delay.
ghost use Rattle.turns.specs.Asked.{shorten, lengthen, told_change};
ghost use Rattle.study.specs.Standing.{Promises, Keeps};

use crate::ceilings::clear;
use crate::study::Study;
use times::time::Time;
use turns::fault::StudyFault;

impl<T: Time> Study<T> {
    // Gives a line a delay no greater than its present one. What was found of every line stays.
    pub fn shorten(&mut self, line: usize, delay: u32) -> Result<(), StudyFault>
        ensures promise { Promises T.kind self.old self.new (shorten line delay) (told_change result) }
        ensures keeps { Keeps self.old self.new result }
    {
        self.check_shorten(line, delay)?;
        self.lines[line].delay = delay;
        Ok(())
    }

    // Gives a line a greater delay. What was found of every line is forgotten.
    pub fn lengthen(&mut self, line: usize, delay: u32) -> Result<(), StudyFault>
        ensures promise { Promises T.kind self.old self.new (lengthen line delay) (told_change result) }
        ensures keeps { Keeps self.old self.new result }
    {
        self.check_lengthen(line, delay)?;
        self.lines[line].delay = delay;
        clear(&mut self.ceilings, 2 * self.lines.len());
        Ok(())
    }
}
