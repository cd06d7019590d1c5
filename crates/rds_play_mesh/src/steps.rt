ghost use Rattle.std.specs.Prelude.{◌≡◌, ◌≢◌, ◌<◌, ℕ, Err, OnOk, OnErr, IfOk, min, length, ◌⊎◌};
ghost use Rattle.rds_play_pair.specs.declared.error.PairError.TheVariants as errors;
ghost use Rattle.rds_play_pair.specs.Ends.{HasRoomForTwo, IsFull};
ghost use Rattle.rds_play_pair.specs.Steps.{came, opened, ordered, passed, pulled, stream_shut, went};

use crate::mesh::Mesh;
use crate::place::{end_of, place};
use rds_cong::PortMap;
use rds_model::Order;
use rds_play_pair::PairError;

impl Mesh {
    ghost use Rattle.rds_play_mesh.specs.Ends.{ChangesPair, end_at};

    /// Makes room for the next step of a host with a peer: its journal has room for two entries more. Nothing happens in it.
    /// After it that step isn't refused for want of room.
    ///
    /// # Errors
    ///
    /// `Spent` exactly where two entries more would pass the journal's limit, whatever memory there is; else `Memory` where
    /// there is none for them. The mesh is as before in both cases.
    pub fn reserve(&mut self, host: u8, peer: u8) -> Result<(), PairError>
        requires host { host < self.old.count }
        requires peer { peer < self.old.count }
        requires apart { peer ≢ host }
        ensures same { self.new ≡ self.old }
        ensures room { OnOk result (HasRoomForTwo (end_at host peer self.old)) }
        ensures spent { (entries : ℕ) → result ≡ Err (errors.Spent entries) → IsFull entries (end_at host peer self.old) }
    {
        self.joints[place(host, peer)].reserve(end_of(host, peer))
    }

    /// A socket of a host gives an order to its connection with a peer, which takes it if it is allowed: its slot is one of
    /// the host's, its payload isn't too long, and it is no cut.
    ///
    /// # Errors
    ///
    /// `Memory`, and `Spent` where the journal is full. The mesh is as before.
    pub fn order(&mut self, host: u8, peer: u8, order: &Order) -> Result<(), PairError>
        requires host { host < self.old.count }
        requires peer { peer < self.old.count }
        requires apart { peer ≢ host }
        ensures ok { OnOk result
            (ChangesPair host peer (ordered order.now (end_at host peer self.old)) (end_at peer host self.old) self.old self.new) }
        ensures err { OnErr result (self.new ≡ self.old) }
        ensures spent { (entries : ℕ) → result ≡ Err (errors.Spent entries) → IsFull entries (end_at host peer self.old) }
    {
        self.joints[place(host, peer)].order(end_of(host, peer), order)
    }

    /// Opens the next stream between two hosts at both ends, if none is open.
    ///
    /// # Errors
    ///
    /// `Memory`, and `Spent` where one of the journals is full. The mesh is as before.
    pub fn open(&mut self, host: u8, peer: u8) -> Result<(), PairError>
        requires host { host < self.old.count }
        requires peer { peer < self.old.count }
        requires apart { peer ≢ host }
        ensures ok { OnOk result
            (ChangesPair host peer (opened (end_at host peer self.old)) (opened (end_at peer host self.old)) self.old self.new) }
        ensures err { OnErr result (self.new ≡ self.old) }
        ensures spent { (entries : ℕ) → result ≡ Err (errors.Spent entries) →
            IsFull entries (end_at host peer self.old) ⊎ IsFull entries (end_at peer host self.old) }
    {
        self.joints[place(host, peer)].open()
    }

    /// Shuts the open stream between two hosts at both ends, if one is. What was on its way is lost.
    ///
    /// # Errors
    ///
    /// `Memory`, and `Spent` where one of the journals is full. The mesh is as before.
    pub fn cut(&mut self, host: u8, peer: u8) -> Result<(), PairError>
        requires host { host < self.old.count }
        requires peer { peer < self.old.count }
        requires apart { peer ≢ host }
        ensures ok { OnOk result
            (ChangesPair host peer (stream_shut (end_at host peer self.old)) (stream_shut (end_at peer host self.old)) self.old self.new) }
        ensures err { OnErr result (self.new ≡ self.old) }
        ensures spent { (entries : ℕ) → result ≡ Err (errors.Spent entries) →
            IsFull entries (end_at host peer self.old) ⊎ IsFull entries (end_at peer host self.old) }
    {
        self.joints[place(host, peer)].cut()
    }

    /// A host, whose own congestion map is `map`, pulls the frame that it owes to the stream that is open to a peer, if one
    /// is. It does so only where none of its bytes is in flight there, and no frame waits at the peer.
    ///
    /// # Errors
    ///
    /// `Memory`, and `Spent` where the journal is full. The mesh is as before.
    pub fn pull(&mut self, host: u8, peer: u8, map: &PortMap) -> Result<(), PairError>
        requires host { host < self.old.count }
        requires peer { peer < self.old.count }
        requires apart { peer ≢ host }
        ensures ok { OnOk result (ChangesPair host peer (pulled map.now (end_at peer host self.old).waiting (end_at host peer self.old))
            (end_at peer host self.old) self.old self.new) }
        ensures err { OnErr result (self.new ≡ self.old) }
        ensures spent { (entries : ℕ) → result ≡ Err (errors.Spent entries) → IsFull entries (end_at host peer self.old) }
    {
        self.joints[place(host, peer)].pull(end_of(host, peer), map)
    }

    /// Gives to a peer what a host has in flight to it, at most `bytes`, and answers how many bytes that were: as many as
    /// were asked for, or all. With the last of them the frame waits at the peer that the host pulled last.
    ///
    /// # Errors
    ///
    /// `Memory`, and `Spent` where the peer's journal is full. The mesh is as before.
    pub fn feed(&mut self, host: u8, peer: u8, bytes: usize) -> Result<usize, PairError>
        requires host { host < self.old.count }
        requires peer { peer < self.old.count }
        requires apart { peer ≢ host }
        ensures used { IfOk result (λ used. used ≡ min bytes (length (end_at host peer self.old).flying)) }
        ensures ok { IfOk result (λ used. ChangesPair host peer (went used (end_at host peer self.old))
            (came used (end_at host peer self.old) (end_at peer host self.old)) self.old self.new) }
        ensures err { OnErr result (self.new ≡ self.old) }
        ensures spent { (entries : ℕ) → result ≡ Err (errors.Spent entries) → IsFull entries (end_at peer host self.old) }
    {
        self.joints[place(host, peer)].feed(end_of(peer, host), bytes)
    }

    /// A host passes the frame from a peer that waits, if one does: a datagram goes to the socket of `slot`, or no socket
    /// holds its port. Where a ping is passed its pong is accepted.
    ///
    /// # Errors
    ///
    /// `Memory`, and `Spent` where the journal is full. The mesh is as before.
    pub fn pass(&mut self, host: u8, peer: u8, slot: Option<u16>) -> Result<(), PairError>
        requires host { host < self.old.count }
        requires peer { peer < self.old.count }
        requires apart { peer ≢ host }
        ensures ok { OnOk result
            (ChangesPair host peer (passed slot (end_at host peer self.old)) (end_at peer host self.old) self.old self.new) }
        ensures err { OnErr result (self.new ≡ self.old) }
        ensures spent { (entries : ℕ) → result ≡ Err (errors.Spent entries) → IsFull entries (end_at host peer self.old) }
    {
        self.joints[place(host, peer)].pass(end_of(host, peer), slot)
    }
}
