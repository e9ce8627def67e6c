// How many cases passed.
ghost use Rattle.std.specs.Prelude.{◌≡◌};
ghost use Rattle.replay.specs.Tally.{counted};

use std::io;

#[derive(Clone, Copy, Debug, Default, PartialEq, Eq)]
pub struct Tally {
    pub passed: u64,
    pub total: u64,
}

impl Tally {
    // Counts a case. The first that does not pass is written out.
    pub fn count(&mut self, rt: &impl Print, line: &[u8], passes: bool) -> io::Result<()>
        ensures { self.new ≡ counted passes self.old }
    {
        let is_first = self.passed == self.total;
        self.total = self.total.saturating_add(1);
        if passes {
            self.passed = self.passed.saturating_add(1);
            return Ok(());
        }
        if is_first {
            rt.write_all(b"differs: ")?;
            rt.write_all(line)?;
            rt.write_all(b"\n")?;
        }
        Ok(())
    }
}
