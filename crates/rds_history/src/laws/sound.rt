//! The headline over the history of a script.
ghost use Rattle.std.specs.Prelude.{◌≡◌, ◌≤◌, ◌^◌, ℕ, Ok, List, []};
ghost use Rattle.rds_script.specs.declared.script.Script.{Script};
ghost use Rattle.rds_script.specs.Script.{IsScript};
ghost use Rattle.rds_history.specs.Events.{Event};
ghost use Rattle.rds_history.specs.Drain.{drain};
ghost use Rattle.rds_history.specs.History.{history};
ghost use Rattle.rds_history.specs.Settled.{IsSettledPast};
ghost use Rattle.rds_history.specs.Sound.{IsSoundPast};

use rds_model::laws::{drained_of_all, fifo_of_all, headline_of_all, no_bad_of_all};

/// Whatever a script in range does, once its commands are done every two hosts stand to each other as they should. Both
/// journals follow the rules, and each host got a beginning of the bytes that the other wrote to each stream. Over the whole
/// connection datagrams come first in, first out, and each once. For each port pair the datagrams delivered are accepted
/// ones, in order and each once, and each accepted one up to the last that arrived is accounted for. The sockets hand out in
/// this order, with their bytes, what was delivered to them, and nothing but what another host of the script sent. Where a
/// port was held by one socket after another, the later one got the higher numbers, and so the report prints what was
/// received for a port pair in the order in which it was sent. The limit on the entries of a journal only keeps the numbers
/// of datagrams below 2^63, since a reader refuses others. The body cites three laws of journals.
pub fn sound()
    ensures { (script : Script) (limit : ℕ) (past : List Event) → IsScript script → limit ≤ 2 ^ 63 →
        history limit script.hosts script.commands.items [] ≡ Ok past → IsSoundPast script.hosts past }
{
    headline_of_all();
    no_bad_of_all();
    fifo_of_all();
}

/// After a drain of a script's history, if it found room in each journal, every two hosts are done with each other: on the
/// open stream nothing is in flight and nothing is owed, no datagram is left to deliver, each host has read the other's
/// congestion map as it now is, and each datagram that was accepted was delivered to a socket, dropped where no socket held
/// its port, taken by port 0, or taken back. The body cites four laws of journals.
pub fn settled_after_drain()
    ensures { (script : Script) (limit : ℕ) (past later : List Event) → IsScript script → limit ≤ 2 ^ 63 →
        history limit script.hosts script.commands.items [] ≡ Ok past → drain limit script.hosts past ≡ Ok later →
        IsSettledPast script.hosts later }
{
    headline_of_all();
    no_bad_of_all();
    fifo_of_all();
    drained_of_all();
}
