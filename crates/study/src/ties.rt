// The calls that change a tie: each is its check and what it writes, as those that change a delay are.
ghost use Rattle.turns.specs.Asked.{tie, untie, told_change};
ghost use Rattle.study.specs.Standing.{Promises, Keeps};

use crate::ceilings::clear;
use crate::study::Study;
use times::time::Time;
use turns::fault::StudyFault;

impl<T: Time> Study<T> {
    // Fixes an untied input at a value. What was found of every line stays.
    pub fn tie(&mut self, line: usize, value: u8) -> Result<(), StudyFault>
        ensures promise { Promises T.kind self.old self.new (tie line value) (told_change result) }
        ensures keeps { Keeps self.old self.new result }
    {
        self.check_tie(line, value)?;
        self.ties[line] = Some(value == 1);
        Ok(())
    }

    // Frees a tied input. What was found of every line is forgotten.
    pub fn untie(&mut self, line: usize) -> Result<(), StudyFault>
        ensures promise { Promises T.kind self.old self.new (untie line) (told_change result) }
        ensures keeps { Keeps self.old self.new result }
    {
        self.check_untie(line)?;
        self.ties[line] = None;
        clear(&mut self.ceilings, 2 * self.lines.len());
        Ok(())
    }
}
