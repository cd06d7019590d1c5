ghost use Rattle.std.specs.Prelude.{◌≡◌, ◌≤◌, ◌++◌, ℕ, List, IfOk, string_bytes};
ghost use Rattle.rds_script.specs.Script.{IsScript};
ghost use Rattle.rds_script.specs.Grammar.{meaning};
ghost use Rattle.rds_model.specs.declared.journal.TheConstants.{MIN_ENTRIES, MAX_ENTRIES};
ghost use Rattle.rds_history.specs.Events.{Event};
ghost use Rattle.rds_history.specs.History.{course, final_hosts};
ghost use Rattle.rds_history.specs.Transcript.{lines};
ghost use Rattle.rds_text.specs.Lines.{end_line};
ghost use Rattle.rds_text.specs.Report.{report as text_of_report};
ghost use Rattle.rds_play.specs.Following.{FollowsCourse};
ghost use Rattle.rds_play_world.specs.Telling.{Tells, state};

use crate::obey::obey;
use rds_play_world::{Stop, World};
use rds_report::report;
use rds_script::Script;
use std::alloc::Global;

/// The transcript and the report of a script.
///
/// # Errors
///
/// What stops the run: a full journal, or want of memory.
pub fn text_of(alloc: Global, script: &Script, limit: u32) -> Result<String, Stop>
    requires script { IsScript script.now }
    requires least { MIN_ENTRIES ≤ limit }
    requires most { limit ≤ MAX_ENTRIES }
    ensures end { IfOk result (λ text. (lines : List ℕ) × (string_bytes text ≡ lines ++ end_line)) }
    ensures exact { FollowsCourse (λ past made. string_bytes made ≡ lines past ++ text_of_report (final_hosts script.now.hosts past))
        (course (meaning script.now) limit) result }
{
    let world = played(alloc, script, limit)?;
    let (ends, mut text) = world.end()?;
    report(alloc, &mut text, &ends)?;
    Ok(text)
}

// What the commands of a script make.
fn played(alloc: Global, script: &Script, limit: u32) -> Result<World, Stop>
    requires script { IsScript script.now }
    requires least { MIN_ENTRIES ≤ limit }
    requires most { limit ≤ MAX_ENTRIES }
    ensures { FollowsCourse (λ past world. Tells limit script.now.hosts past (state world)) (course (meaning script.now) limit) result }
{
    let mut world = World::new(alloc, script.hosts, limit)?;
    for placed in &script.commands {
        obey(&mut world, &placed.command)?;
    }
    Ok(world)
}
