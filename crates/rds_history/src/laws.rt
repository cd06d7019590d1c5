//! Laws of the history of a script: what holds of it whatever its commands are. Their bodies are empty or cite other laws;
//! each clause is a theorem.
ghost use Rattle.std.specs.Prelude.{◌≡◌, ◌<◌, ℕ, Ok, List, []};
ghost use Rattle.rds_cong.specs.Map.{has_port};
ghost use Rattle.rds_script.specs.declared.script.Command.{Command};
ghost use Rattle.rds_script.specs.declared.script.Placed.{Placed};
ghost use Rattle.rds_history.specs.EndsAgree.{EndsAgree};
ghost use Rattle.rds_history.specs.Events.{Event};
ghost use Rattle.rds_history.specs.History.{after, history, text_of};
ghost use Rattle.rds_history.specs.InOrder.{HandsOutInOrder};
ghost use Rattle.rds_history.specs.Journals.{is_marked, own_map};
ghost use Rattle.rds_history.specs.WorkedScripts.{hello, text_of_hello, cut_cancel_ping_congestion, text_of_cut_cancel_ping_congestion, three_hosts, text_of_three_hosts};

pub mod constants;
mod limits;
pub mod sound;

pub use limits::{
    drained_is_quiet, moved_was_written, moves_go_forward, rounds_suffice, turns_suffice,
};

/// Each socket hands out what was delivered to it, in order.
pub fn in_order()
    ensures { (limit hosts : ℕ) (commands : List Placed) (past : List Event) (h slot : ℕ) →
        history limit hosts commands [] ≡ Ok past → HandsOutInOrder h slot past }
{}

/// Both ends of a connection have a stream, or none has: at first, after each command, and so in the end.
pub fn ends_agree()
    ensures first { EndsAgree [] }
    ensures next { (limit hosts : ℕ) (command : Command) (past later : List Event) → EndsAgree past →
        after limit hosts command past ≡ Ok later → EndsAgree later }
    ensures last { (limit hosts : ℕ) (commands : List Placed) (past : List Event) →
        history limit hosts commands [] ≡ Ok past → EndsAgree past }
{}

/// The congestion map that a host sends has exactly the ports whose last mark set them, as the transcript shows the marks.
pub fn one_map()
    ensures { (h port : ℕ) (past : List Event) → port < 65536 → has_port (own_map h past) port ≡ is_marked h port past }
{}

/// The definitions give the whole text of a script with one datagram.
pub fn text_of_one_datagram()
    ensures { text_of 2 (history 20 2 hello []) ≡ text_of_hello }
{}

/// The definitions give the whole text of a script with a cut, a cancellation, a ping and a congested port.
pub fn text_of_cut_cancel_ping_congestion()
    ensures { text_of 2 (history 100 2 cut_cancel_ping_congestion []) ≡ text_of_cut_cancel_ping_congestion }
{}

/// The definitions give the whole text of a script between three hosts, with a cut, a cancellation, a ping and a congested
/// port.
pub fn text_of_three_hosts()
    ensures { text_of 3 (history 100 3 three_hosts []) ≡ text_of_three_hosts }
{}
