ghost use Rattle.std.specs.Prelude.{Some};
ghost use Rattle.rds_text.specs.Words.{numbers};

use std::fmt;

/// Numbers with commas between them, or a dash where there are none.
#[derive(Clone, Copy)]
pub struct Numbers<'a>(pub &'a [u64]);

impl fmt::Display for Numbers<'_> {
    ghost output = { λ s. Some (numbers s.0.now) };

    fn fmt<W: fmt::Write>(&self, f: &mut fmt::Formatter<W>) -> fmt::Result {
        let [first, rest @ ..] = self.0 else {
            return write!(f, "-");
        };
        write!(f, "{first}")?;
        for number in rest {
            write!(f, ",{number}")?;
        }
        Ok(())
    }
}
