ghost use Rattle.std.specs.Prelude.{◌≡◌, ◌↔◌, IsTrue, IfOk, [], map, codes, string_bytes};
ghost use Rattle.rds_run.specs.PlayWords.{ArePlay, play_faults};

use clap::Command;
use clap::error::ErrorKind;
use rds_wire::Memory;
use std::alloc::Global;

/// Whether the words are those of `play`: its name, and after it nothing but what `clap` lets stand after a command
/// without arguments. A request for help is refused.
///
/// # Errors
///
/// Where there is no memory to read the words.
pub fn is_play(alloc: Global, words: &[String]) -> Result<bool, Memory>
    ensures { IfOk result (λ plays. IsTrue plays ↔ ArePlay words.now) }
{
    match words.first() {
        Some(name) if name.as_str() == "play" => stands_alone(alloc, words),
        Some(_) | None => Ok(false),
    }
}

// Whether the words after the command's name are none that `clap` refuses.
fn stands_alone(alloc: Global, words: &[String]) -> Result<bool, Memory>
    ensures { IfOk result (λ plays. IsTrue plays ↔ (play_faults (map string_bytes words.now) ≡ [])) }
{
    match Command::new(alloc, "play").try_get_matches_from(words) {
        Ok(_) => Ok(true),
        Err(error) => match error.kind() {
            ErrorKind::OutOfMemory => Err(Memory),
            _ => Ok(false),
        },
    }
}
