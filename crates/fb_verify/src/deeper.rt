//! Where a walk goes on in more frames than it began in.

ghost use Rattle.std.specs.Prelude.{◌≤◌, length};
ghost use Rattle.fb_verify.specs.{Stack.Origin, Turns.IsUnderWayOver, Turns.GoneOn, Turns.WentDeeper};

use crate::scratch::{BLANK, Frame};
use crate::stack::{Turn, Walk};
use fb_bytes::Loan;
use fb_rules::site::Halt;

impl Walk<'_, '_> {
    /// Goes on with a walk over these frames, of which so many wait below the top, until it is over, or until it needs
    /// a frame behind the last of them. Answers how many wait then; none where it is over.
    #[inline(always)]
    pub fn go_on(
        &mut self,
        loan: &mut Loan<'_>,
        frames: &mut [Frame],
        waiting: u32,
    ) -> Result<Option<u32>, Halt>
        ghost start: { Origin }
        requires { IsUnderWayOver self.old loan.old start frames.old waiting }
        ensures { GoneOn self.old self.new loan.old loan.new start frames.new result }
    {
        let mut waiting = waiting;
        match self.walk_on(loan, frames, &mut waiting) {
            Turn::Up => Ok(None),
            Turn::Halt => Err(self.halt),
            _ => self.go_slowly(loan, frames, waiting),
        }
    }

    /// The same, a turn by single units first, where a limit may be met in it.
    #[cold]
    #[inline(never)]
    fn go_slowly(
        &mut self,
        loan: &mut Loan<'_>,
        frames: &mut [Frame],
        waiting: u32,
    ) -> Result<Option<u32>, Halt>
        ghost start: { Origin }
        requires { IsUnderWayOver self.old loan.old start frames.old waiting }
        ensures { GoneOn self.old self.new loan.old loan.new start frames.new result }
    {
        let mut waiting = waiting;
        while waiting as usize + 1 < frames.len() || self.limits.depth() as usize <= frames.len() {
            match self.turn_by_units(loan, frames, waiting) {
                Ok(Some(after)) => waiting = after,
                Ok(None) => return Ok(None),
                Err(halt) => return Err(halt),
            }
            match self.walk_on(loan, frames, &mut waiting) {
                Turn::Up => return Ok(None),
                Turn::Halt => return Err(self.halt),
                _ => {}
            }
        }
        Ok(Some(waiting))
    }

    /// Goes on with a walk that used up these frames, in 64 frames. It stands apart, so that only such a walk pays for
    /// them.
    #[cold]
    #[inline(never)]
    pub fn go_deeper(
        &mut self,
        loan: &mut Loan<'_>,
        frames: &[Frame],
        waiting: u32,
    ) -> Result<(), Halt>
        ghost start: { Origin }
        requires goes { IsUnderWayOver self.old loan.old start frames.now waiting }
        requires fewer { length frames.now ≤ 64 }
        requires room { (self.old.limits).depth ≤ 64 }
        ensures { WentDeeper self.old self.new loan.old loan.new start result }
    {
        let mut more = [BLANK; 64];
        let (first, _) = more.split_at_mut(frames.len());
        first.copy_from_slice(frames);
        match self.go_on(loan, &mut more, waiting) {
            Ok(None) => Ok(()),
            Ok(Some(_)) => unreachable!(),
            Err(halt) => Err(halt),
        }
    }
}
