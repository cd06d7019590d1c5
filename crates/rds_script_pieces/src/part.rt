ghost use Rattle.std.specs.Prelude.{◌+◌, ◌≤◌};
ghost use Rattle.rds_script.specs.declared.script.TheConstants.{MAX_CUTS, MAX_TEXT, MAX_TOTAL};

use rds_script::Script;

/// What was read of a piece of a text, with the head of the text in front of it.
#[derive(Drop)]
pub(crate) struct Part {
    /// The script of the head and the piece.
    pub(crate) script: Script,
    /// How many lines the piece has.
    pub(crate) lines: u32,
    /// How many bytes all payloads have.
    pub(crate) bytes: u32,
    /// How many cuts there are.
    pub(crate) cuts: u32,
    ghost few_lines: { lines ≤ MAX_TEXT + 1 },
    ghost few_bytes: { bytes ≤ MAX_TOTAL },
    ghost few_cuts: { cuts ≤ MAX_CUTS },
}
