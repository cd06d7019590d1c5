ghost use Rattle.std.specs.Prelude.{◌≡◌, ◌<◌, ◌≤◌, ◌+◌, IfOk, OnOk, vec_len};
ghost use Rattle.rds_text.specs.declared.host.TheConstants.{MAX_HOSTS};
ghost use Rattle.rds_play_mesh.specs.Ends.{MeshView};
ghost use Rattle.rds_play_mesh.specs.FinalJournals.{AreJointsOf, AreJournals, HoldJournals};
ghost use Rattle.rds_play_mesh.specs.Places.{triangle};

use crate::mesh::Mesh;
use rds_model::Journal;
use rds_play_pair::Joint;
use rds_text::address;
use rds_wire::Memory;
use std::alloc::Global;

impl Mesh {
    /// Gives up the connections, and keeps the journals: a list for each host, in the order of the hosts, with the address of
    /// each peer and the journal of the connection with it, by peer ascending.
    ///
    /// # Errors
    ///
    /// Where there is no memory for the lists.
    pub fn into_journals(self, alloc: Global) -> Result<Vec<Vec<(u32, Journal)>>, Memory>
        ensures count { IfOk result (λ rows. vec_len rows ≡ self.count) }
        ensures journals { IfOk result (λ rows. AreJournals self rows.items) }
    {
        let Mesh { count, joints } = self;
        rows(alloc, count, joints)
    }
}

// The journals of so many hosts. The joints of each with those below it stand together, lower hosts first.
fn rows(alloc: Global, count: u8, joints: Vec<Joint>) -> Result<Vec<Vec<(u32, Journal)>>, Memory>
    requires few { count ≤ MAX_HOSTS }
    requires full { vec_len joints ≡ triangle count }
    ensures count { IfOk result (λ rows. vec_len rows ≡ count) }
    ensures journals { IfOk result (λ rows. HoldJournals count record { count = count; joints = joints.items } rows.items) }
{
    let mut rows = Vec::new(alloc);
    let mut joints = joints;
    for high in 0..count {
        let later = joints.split_off(usize::from(high))?;
        add_host(alloc, &mut rows, high, joints)?;
        joints = later;
    }
    Ok(rows)
}

// One host more, whose joints with the hosts that are there are these. Each of those has one journal more.
fn add_host(
    alloc: Global,
    rows: &mut Vec<Vec<(u32, Journal)>>,
    high: u8,
    joints: Vec<Joint>,
) -> Result<(), Memory>
    requires high { high < MAX_HOSTS }
    requires below { vec_len rows.old ≡ high }
    requires joined { vec_len joints ≡ high }
    ensures count { OnOk result (vec_len rows.new ≡ high + 1) }
    ensures journals { OnOk result ((m : MeshView) → AreJointsOf high m joints.items →
        HoldJournals high m rows.old.items → HoldJournals (high + 1) m rows.new.items) }
{
    let mut row = Vec::new(alloc);
    for joint in joints {
        let low = row.len();
        let (first, second) = joint.into_journals();
        rows[low].push((address(high), first))?;
        row.push((address(low as u8), second))?;
    }
    rows.push(row)?;
    Ok(())
}
