ghost use Rattle.std.specs.Prelude.{◌≡◌, ◌≢◌, ◌<◌, ◌≤◌, ◌+◌, IfOk, OnOk, OnErr, vec_len};
ghost use Rattle.rds_text.specs.declared.host.TheConstants.{MAX_HOSTS};
ghost use Rattle.rds_model.specs.declared.journal.TheConstants.{MIN_ENTRIES, MAX_ENTRIES};
ghost use Rattle.rds_play_mesh.specs.Ends.{AreNew};

use crate::place::{end_of, place};
use rds_model::{Journal, MAX_SLOTS, Target, Verdict};
use rds_play_pair::Joint;
use rds_text::address;
use rds_wire::{Frame, Memory};
use std::alloc::Global;
use std::marker::Model;

/// The connections between hosts, which are counted from 0: a joint for each two of them. Contracts see both ends of each.
#[derive(Drop)]
pub struct Mesh {
    pub(crate) count: u8,
    pub(crate) joints: Vec<Joint>,
}

impl Model for Mesh {
    ghost use Rattle.rds_play_mesh.specs.Ends.{MeshView};

    ghost Value = { MeshView };

    ghost use Rattle.rds_play_mesh.specs.Inside.{MeshInvariant, mesh_view};

    ghost view = { mesh_view };

    ghost invariant = { MeshInvariant };
}

// The joints of a host with those below it, behind the ones that are there.
fn add_below(alloc: Global, joints: &mut Vec<Joint>, high: u8, limit: u32) -> Result<(), Memory>
    requires least { MIN_ENTRIES ≤ limit }
    requires most { limit ≤ MAX_ENTRIES }
    ensures count { OnOk result (vec_len joints.new ≡ vec_len joints.old + high) }
    ensures new { AreNew limit joints.old.items → OnOk result (AreNew limit joints.new.items) }
{
    for low in 0..high {
        joints.push(Joint::new(alloc, address(low), address(high), MAX_SLOTS, limit)?)?;
    }
    Ok(())
}

impl Mesh {
    ghost use Rattle.std.specs.Prelude.{◌^◌, ℕ, nat_le, true};
    ghost use Rattle.std.specs.Option.{option_copied, option_map};
    ghost use Rattle.rds_wire.specs.declared.frame.Frame.{Frame};
    ghost use Rattle.rds_model.specs.Alive.{alive_bytes, covered, is_alive};
    ghost use Rattle.rds_model.specs.Past.{accepted, highest_pulled, newest_stream, open_stream};
    ghost use Rattle.rds_model.specs.Reading.{verdict_of};
    ghost use Rattle.rds_model.specs.Streams.{was_pulled};
    ghost use Rattle.rds_play_mesh.specs.Ends.{IsNewMesh, end_at, joint_of};
    ghost use Rattle.rds_play_mesh.specs.Known.{KnownOfEnds};

    /// The connections between so many hosts, of which nothing has happened. Each journal may have `limit` entries.
    ///
    /// # Errors
    ///
    /// Where there is no memory for their tables.
    pub fn new(alloc: Global, count: u8, limit: u32) -> Result<Mesh, Memory>
        requires few { count ≤ MAX_HOSTS }
        requires least { MIN_ENTRIES ≤ limit }
        requires most { limit ≤ MAX_ENTRIES }
        ensures { IfOk result (IsNewMesh count limit) }
    {
        let mut joints = Vec::new(alloc);
        for high in 0..count {
            add_below(alloc, &mut joints, high, limit)?;
        }
        Ok(Mesh { count, joints })
    }

    // The joint of two hosts.
    fn joint(&self, host: u8, peer: u8) -> &Joint
        requires host { host < self.now.count }
        requires peer { peer < self.now.count }
        requires apart { peer ≢ host }
        ensures { result.now ≡ joint_of host peer self.now }
    {
        &self.joints[place(host, peer)]
    }

    /// How many hosts there are.
    pub fn count(&self) -> u8
        ensures is { result ≡ self.now.count }
        ensures few { result ≤ MAX_HOSTS }
    {
        self.count
    }

    /// The bytes that a host wrote and that are in flight to a peer.
    pub fn in_flight(&self, host: u8, peer: u8) -> &[u8]
        requires host { host < self.now.count }
        requires peer { peer < self.now.count }
        requires apart { peer ≢ host }
        ensures { result.now ≡ (end_at host peer self.now).flying }
    {
        self.joint(host, peer).in_flight(end_of(host, peer))
    }

    /// The stream that a host has open to a peer, and so the peer to it.
    pub fn stream(&self, host: u8, peer: u8) -> Option<u32>
        requires host { host < self.now.count }
        requires peer { peer < self.now.count }
        requires apart { peer ≢ host }
        ensures { result ≡ open_stream (end_at host peer self.now).past }
    {
        self.joint(host, peer).stream(end_of(host, peer))
    }

    /// The whole frame that has come to a host from a peer and that it didn't pass.
    pub fn waiting(&self, host: u8, peer: u8) -> Option<&Frame>
        requires host { host < self.now.count }
        requires peer { peer < self.now.count }
        requires apart { peer ≢ host }
        ensures { option_copied result ≡ (end_at host peer self.now).waiting }
    {
        self.joint(host, peer).waiting(end_of(host, peer))
    }

    /// What has to become of the frame that waits at a host, or `None` where none does.
    pub fn verdict(&self, host: u8, peer: u8) -> Option<Verdict>
        requires host { host < self.now.count }
        requires peer { peer < self.now.count }
        requires apart { peer ≢ host }
        ensures { result ≡ option_map (λ (f : Frame). verdict_of (end_at host peer self.now).past f.header) (end_at host peer self.now).waiting }
    {
        self.joint(host, peer).verdict(end_of(host, peer))
    }

    /// How many datagrams a host has accepted for a peer, pongs among them.
    pub fn accepted(&self, host: u8, peer: u8) -> u64
        requires host { host < self.now.count }
        requires peer { peer < self.now.count }
        requires apart { peer ≢ host }
        ensures { result ≡ accepted (end_at host peer self.now).past }
    {
        self.joint(host, peer).accepted(end_of(host, peer))
    }

    /// How many bytes the datagrams of a slot have in all that a host has accepted for a peer and that are neither
    /// acknowledged nor taken back. It takes the same time whatever their number.
    pub fn unacked_bytes(&self, host: u8, peer: u8, slot: u16) -> u64
        requires host { host < self.now.count }
        requires peer { peer < self.now.count }
        requires apart { peer ≢ host }
        requires slot { slot < (end_at host peer self.now).slots }
        ensures bytes { result ≡ alive_bytes slot (end_at host peer self.now).past }
        ensures most { result ≤ 2 ^ 52 }
    {
        self.joint(host, peer)
            .unacked_bytes(end_of(host, peer), slot)
    }

    /// Replaces `out` by the numbers of the datagrams to a peer that a cancellation by a slot of a host would take back
    /// now, ascending.
    ///
    /// # Errors
    ///
    /// Where there is no memory for them. `out` is as before.
    pub fn covered(
        &self,
        host: u8,
        peer: u8,
        slot: u16,
        target: &Target,
        out: &mut Vec<u64>,
    ) -> Result<(), Memory>
        requires host { host < self.now.count }
        requires peer { peer < self.now.count }
        requires apart { peer ≢ host }
        ensures ok { OnOk result (out.new.items ≡ covered slot target.now (end_at host peer self.now).past) }
        ensures err { OnErr result (out.new.items ≡ out.old.items) }
    {
        self.joint(host, peer)
            .covered(end_of(host, peer), slot, target, out)
    }

    /// The highest number of a datagram to a peer that a host ever pulled, or 0. Of the numbers that are alive it has pulled
    /// those up to this one, and no other.
    pub fn highest(&self, host: u8, peer: u8) -> u64
        requires host { host < self.now.count }
        requires peer { peer < self.now.count }
        requires apart { peer ≢ host }
        ensures number { result ≡ highest_pulled (end_at host peer self.now).past }
        ensures pulled { (n : ℕ) → is_alive (end_at host peer self.now).past n ≡ true →
            was_pulled (end_at host peer self.now).past n ≡ nat_le n result }
    {
        self.joint(host, peer).highest(end_of(host, peer))
    }

    /// The journal that a host keeps of its connection with a peer.
    pub fn journal(&self, host: u8, peer: u8) -> &Journal
        requires host { host < self.now.count }
        requires peer { peer < self.now.count }
        requires apart { peer ≢ host }
        ensures { result.now.past ≡ (end_at host peer self.now).past }
    {
        self.joint(host, peer).journal(end_of(host, peer))
    }

    /// What every mesh keeps between two hosts: the same stream is open at both ends, at most one frame is on its way each
    /// way, both journals are legal and honest, each datagram was delivered at most once, and no header was refused.
    pub fn known(&self, host: u8, peer: u8)
        requires host { host < self.now.count }
        requires peer { peer < self.now.count }
        requires apart { peer ≢ host }
        ensures { KnownOfEnds (end_at host peer self.now) (end_at peer host self.now) }
    {
        self.joint(host, peer).known();
    }
}
