//! The step limits in the definitions of a move and of a drain are no part of what is promised.
ghost use Rattle.std.specs.Prelude.{◌≡◌, ◌≢◌, ◌<◌, ◌≤◌, ◌+◌, ℕ, Ok, Option, None, List, []};
ghost use Rattle.rds_script.specs.declared.script.Command.{Command};
ghost use Rattle.rds_script.specs.declared.script.Placed.{Placed};
ghost use Rattle.rds_text.specs.declared.host.TheConstants.{MAX_HOSTS};
ghost use Rattle.rds_history.specs.Events.{Event};
ghost use Rattle.rds_history.specs.Courses.{again};
ghost use Rattle.rds_history.specs.Drain.{drain, round, rounds};
ghost use Rattle.rds_history.specs.Journals.{moved_in_all};
ghost use Rattle.rds_history.specs.Move.{move_up_to};
ghost use Rattle.rds_history.specs.History.{after, history};
ghost use Rattle.rds_history.specs.Limits.{MovesOnlyWritten, IsMoved, IsDrained, turn_up_to};

/// Over an open stream no more bytes go than were written to it: at first, after each command, and so in the end.
pub fn moved_was_written()
    ensures first { MovesOnlyWritten [] }
    ensures next { (limit hosts : ℕ) (command : Command) (past later : List Event) → MovesOnlyWritten past →
        after limit hosts command past ≡ Ok later → MovesOnlyWritten later }
    ensures last { (limit hosts : ℕ) (commands : List Placed) (past : List Event) →
        history limit hosts commands [] ≡ Ok past → MovesOnlyWritten past }
{}

/// A move has enough turns: any greater number of them comes to the same, whatever happened before. A move that found room
/// in each journal ended because what was asked was moved, or because there is nothing to send, never because its turns were
/// used up; so one more turn changes nothing.
pub fn turns_suffice()
    ensures enough { (limit h k turns : ℕ) (most : Option ℕ) (past : List Event) → limit + 1 ≤ turns →
        again turns (turn_up_to limit h k most) past ≡ move_up_to limit h k most past }
    ensures ended { (limit h k : ℕ) (most : Option ℕ) (past later : List Event) → MovesOnlyWritten past →
        move_up_to limit h k most past ≡ Ok later → IsMoved h k most later }
    ensures still { (limit h k : ℕ) (most : Option ℕ) (past later : List Event) → MovesOnlyWritten past →
        move_up_to limit h k most past ≡ Ok later → turn_up_to limit h k most later ≡ Ok later }
{}

/// A move without a limit takes back no byte.
pub fn moves_go_forward()
    ensures { (limit h k : ℕ) (past later : List Event) → move_up_to limit h k None past ≡ Ok later → moved_in_all past ≤ moved_in_all later }
{}

/// A drain has enough rounds between as many hosts as a script may have: any greater number of them comes to the same,
/// whatever happened before. After a drain that found room in each journal one more round changes nothing.
pub fn rounds_suffice()
    ensures enough { (limit hosts times : ℕ) (past : List Event) → hosts ≤ MAX_HOSTS → rounds limit ≤ times →
        again times (round limit hosts) past ≡ again (rounds limit) (round limit hosts) past }
    ensures still { (limit hosts : ℕ) (past later : List Event) → hosts ≤ MAX_HOSTS → MovesOnlyWritten past →
        drain limit hosts past ≡ Ok later → round limit hosts later ≡ Ok later }
{}

/// After a drain that found room in each journal there is nothing left to do between any two hosts: a stream is open at
/// both ends, nothing is in flight, neither owes a frame, and the last map that each sent is its own as it now is.
pub fn drained_is_quiet()
    ensures { (limit hosts h k : ℕ) (commands : List Placed) (past later : List Event) → hosts ≤ MAX_HOSTS →
        h < hosts → k < hosts → h ≢ k → history limit hosts commands [] ≡ Ok past →
        drain limit hosts past ≡ Ok later → IsDrained h k later }
{}
