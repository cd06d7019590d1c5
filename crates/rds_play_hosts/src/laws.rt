//! Laws of the hosts that a script is played on. Their bodies are empty; each clause is a theorem.
ghost use Rattle.std.specs.Prelude.{ℕ, List, ◌∷◌};
ghost use Rattle.rds_history.specs.Events.{Event};
ghost use Rattle.rds_play_hosts.specs.declared.host.ScriptHost.{ScriptHost};
ghost use Rattle.rds_play_hosts.specs.Elsewhere.{IsElsewhere};
ghost use Rattle.rds_play_hosts.specs.Telling.{TellsHost};

/// A host tells the same of a past after an event that changes nothing of its sockets, ports and marks: one of another
/// host, an entry that delivers nothing, bytes that went, or a line.
pub fn untouched()
    ensures { (a : ℕ) (event : Event) (past : List Event) (x : ScriptHost) → IsElsewhere a event → TellsHost a past x →
        TellsHost a (event ∷ past) x }
{}
