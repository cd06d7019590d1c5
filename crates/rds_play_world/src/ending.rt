ghost use Rattle.std.specs.Prelude.{◌≡◌, ℕ, ◌≤◌, IfOk, List, string_bytes, vec_len};
ghost use Rattle.rds_text.specs.declared.host.TheConstants.{MAX_HOSTS};
ghost use Rattle.rds_history.specs.Events.{Event};
ghost use Rattle.rds_history.specs.History.{final_hosts};
ghost use Rattle.rds_history.specs.Transcript.{lines};
ghost use Rattle.rds_text.specs.FinalViews.{AreFinalHosts, host_views};
ghost use Rattle.rds_play_world.specs.Ending.{JournalsTell};
ghost use Rattle.rds_play_world.specs.Telling.{HostsTell, Tells, state};

use crate::world::World;
use rds_model::Journal;
use rds_play_hosts::ScriptHost;
use rds_text::{HostEnd, address};
use rds_wire::Memory;
use std::alloc::Global;

impl World {
    /// Ends the script: what each host has in the end, and the transcript.
    ///
    /// # Errors
    ///
    /// Where there is no memory for the lists.
    pub fn end(self) -> Result<(Vec<HostEnd>, String), Memory>
        ensures ends { (limit hosts : ℕ) (past : List Event) → Tells limit hosts past (state self) →
            IfOk result (λ r. host_views r.0.items ≡ final_hosts hosts past) }
        ensures addressed { (limit hosts : ℕ) (past : List Event) → Tells limit hosts past (state self) →
            IfOk result (λ r. AreFinalHosts (host_views r.0.items)) }
        ensures text { (limit hosts : ℕ) (past : List Event) → Tells limit hosts past (state self) →
            IfOk result (λ r. string_bytes r.1 ≡ lines past) }
    {
        let World {
            alloc,
            hosts,
            mesh,
            text,
            ..
        } = self;
        let journals = mesh.into_journals(alloc)?;
        let ends = ends(alloc, hosts, journals)?;
        Ok((ends, text))
    }
}

// What each of the hosts has in the end. The journals are in the order of the hosts.
fn ends(
    alloc: Global,
    hosts: Vec<ScriptHost>,
    journals: Vec<Vec<(u32, Journal)>>,
) -> Result<Vec<HostEnd>, Memory>
    requires few { vec_len hosts ≤ MAX_HOSTS }
    requires paired { vec_len journals ≡ vec_len hosts }
    ensures { (past : List Event) → HostsTell (vec_len hosts) past hosts.items → JournalsTell (vec_len hosts) past journals.items →
        IfOk result (λ ends. host_views ends.items ≡ final_hosts (vec_len hosts) past) }
{
    let mut ends = Vec::new(alloc);
    for (host, journals) in hosts.into_iter().zip(journals) {
        let addr = address(ends.len() as u8);
        let kept = host.into_kept(alloc)?;
        ends.push(HostEnd {
            addr,
            journals,
            kept,
        })?;
    }
    Ok(ends)
}
