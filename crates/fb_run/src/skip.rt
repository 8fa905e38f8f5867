//! The bytes at the beginning of an input that are left out.

ghost use Rattle.std.specs.Prelude.{IfErr, OnOk, ◌≡◌, ◌-◌, ◌<◌, drop, length};
ghost use Rattle.fb_run.specs.declared.fault.RunFault.TheVariants.{SkipPastEnd};

use crate::fault::RunFault;

/// How many bytes at the beginning of an input are left out, and how many of these were not read yet.
#[derive(Clone, Copy)]
pub struct Skip {
    pub all: u64,
    pub left: u64,
}

impl Skip {
    /// None was read.
    pub fn new(all: u64) -> Skip
        ensures all { result.all ≡ all }
        ensures left { result.left ≡ all }
    {
        Skip { all, left: all }
    }

    /// What of the next bytes of the input stands behind them.
    pub fn behind<'b>(&mut self, bytes: &'b [u8]) -> &'b [u8]
        ensures rest { result.now ≡ drop self.old.left bytes.now }
        ensures left { self.new.left ≡ self.old.left - length bytes.now }
        ensures all { self.new.all ≡ self.old.all }
    {
        let out = self.left.min(bytes.len() as u64);
        self.left -= out;
        &bytes[out as usize..]
    }

    /// Whether the input may end here.
    pub fn end(&self) -> Result<(), RunFault>
        ensures ok { OnOk result (self.now.left ≡ 0) }
        ensures early { IfErr result (λ fault. (0 < self.now.left) × (fault ≡ SkipPastEnd self.now.all)) }
    {
        if self.left > 0 {
            return Err(RunFault::SkipPastEnd { skip: self.all });
        }
        Ok(())
    }
}
