ghost use Rattle.std.specs.Prelude.{◌≡◌, ℕ, IfOk, List, map};
ghost use Rattle.rds_history.specs.Events.{Event};
ghost use Rattle.rds_history.specs.History.{sockets};
ghost use Rattle.rds_text.specs.FinalViews.{socket_view};
ghost use Rattle.rds_play_hosts.specs.declared.host.Arrived.{Arrived as ArrivedAt};
ghost use Rattle.rds_play_hosts.specs.Telling.{TellsHost};

use crate::host::{Arrived, ScriptHost, ScriptSocket};
use rds_model::Datagram;
use rds_text::Kept;
use rds_wire::Memory;
use std::alloc::Global;
use std::collections::VecDeque;

impl ScriptHost {
    /// What each socket received, and what it left unread, by slot.
    ///
    /// # Errors
    ///
    /// Where there is no memory for the lists.
    pub fn into_kept(self, alloc: Global) -> Result<Vec<Kept>, Memory>
        ensures { (h : ℕ) (past : List Event) → TellsHost h past self →
            IfOk result (λ kept. map socket_view kept.items ≡ sockets h past) }
    {
        let mut kept = Vec::new(alloc);
        for socket in self.sockets {
            let ScriptSocket {
                slot,
                port,
                queue,
                got,
                ..
            } = socket;
            let unread = unread(alloc, queue)?;
            kept.push(Kept {
                slot,
                port,
                got,
                unread,
            })?;
        }
        Ok(kept)
    }
}

// The datagrams of a queue.
fn unread(alloc: Global, queue: VecDeque<Arrived>) -> Result<Vec<Datagram>, Memory>
    ensures { IfOk result (λ unread. unread.items ≡ map (λ (a : ArrivedAt). a.datagram) queue.items) }
{
    let mut unread = Vec::new(alloc);
    for arrived in queue {
        let Arrived { datagram, .. } = arrived;
        unread.push(datagram)?;
    }
    Ok(unread)
}
