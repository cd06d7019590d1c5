use rds_wire::Malformed;
use std::fmt;
use std::process::ExitCode;

/// What came of the streams so far.
#[derive(Default, Drop)]
pub struct Tally {
    made: u64,
    read: u64,
    sums: u64,
    lengths: u64,
    numbers: u64,
    acknowledgements: u64,
    generations: u64,
    wrong: u64,
}

impl Tally {
    /// How many frames the streams were made of.
    pub fn made(&self) -> u64 {
        self.made
    }

    /// Counts the frames of a stream, and whether it was answered as by the plain reader.
    pub fn count_stream(&mut self, frames: u64, is_right: bool) {
        self.made = self.made.wrapping_add(frames);
        if !is_right {
            self.wrong = self.wrong.wrapping_add(1);
        }
    }

    /// Counts a frame where one was read.
    pub fn count_frame(&mut self, is_read: bool) {
        if is_read {
            self.read = self.read.wrapping_add(1);
        }
    }

    /// Counts a header that was refused.
    pub fn count_fault(&mut self, fault: Malformed) {
        let count = match fault {
            Malformed::Sum { .. } => &mut self.sums,
            Malformed::Length { .. } => &mut self.lengths,
            Malformed::Sequence { .. } => &mut self.numbers,
            Malformed::Ack { .. } => &mut self.acknowledgements,
            Malformed::Generation { .. } => &mut self.generations,
        };
        *count = count.wrapping_add(1);
    }

    /// Success where no stream was answered otherwise.
    pub fn status(&self) -> ExitCode {
        if self.wrong == 0 {
            ExitCode::SUCCESS
        } else {
            ExitCode::FAILURE
        }
    }
}

impl fmt::Display for Tally {
    fn fmt<W: fmt::Write>(&self, f: &mut fmt::Formatter<W>) -> fmt::Result {
        write!(f, "{} frames: {} read; refused for ", self.made, self.read)?;
        write!(f, "their checksum {}, length {}, ", self.sums, self.lengths)?;
        write!(
            f,
            "number {}, acknowledgement {}, ",
            self.numbers, self.acknowledgements
        )?;
        write!(
            f,
            "generation {}; {} streams wrong",
            self.generations, self.wrong
        )
    }
}
