use std::fmt;
use std::io::Print;
use std::process::ExitCode;

/// How many texts were as expected, and how many weren't.
#[derive(Default, Drop)]
pub struct Tally {
    same: u32,
    different: u32,
}

impl Tally {
    /// Counts a text, and says so where it isn't as expected.
    pub fn count<R: Print>(
        &mut self,
        rt: &R,
        file: &str,
        name: &str,
        is_expected: bool,
    ) -> anyhow::Result<()> {
        if is_expected {
            self.same = self.same.saturating_add(1);
            return Ok(());
        }
        self.different = self.different.saturating_add(1);
        println!(rt; "{file}: {name}: another text than expected")?;
        Ok(())
    }

    /// Success where every text was as expected.
    pub fn status(&self) -> ExitCode {
        if self.different == 0 {
            ExitCode::SUCCESS
        } else {
            ExitCode::FAILURE
        }
    }
}

impl fmt::Display for Tally {
    fn fmt<W: fmt::Write>(&self, f: &mut fmt::Formatter<W>) -> fmt::Result {
        write!(f, "{} texts as expected, {} not", self.same, self.different)
    }
}
