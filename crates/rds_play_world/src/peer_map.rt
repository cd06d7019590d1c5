ghost use Rattle.std.specs.Prelude.{◌≡◌, ◌+◌, ◌-◌, ◌<◌, ◌^◌, false, None, Some, OnOk};
ghost use Rattle.std.specs.Option.{option_map_or};
ghost use Rattle.rds_cong.specs.Map.{has_port};

use rds_cong::PortMap;
use rds_wire::Memory;
use std::alloc::Global;

/// The congestion map of a peer, as it was read last, and how many were read.
#[derive(Drop)]
pub struct PeerMap {
    pub map: Option<PortMap>,
    pub version: u64,
}

impl PeerMap {
    /// No map was read.
    pub fn new() -> PeerMap
        ensures map { result.map ≡ None }
        ensures version { result.version ≡ 0 }
    {
        PeerMap {
            map: None,
            version: 0,
        }
    }

    /// Whether a port of the peer is congested, as far as is known.
    pub fn has(&self, port: u16) -> bool
        ensures { result ≡ option_map_or (λ map. has_port map port) self.now.map false }
    {
        match &self.map {
            Some(map) => map.has(port),
            None => false,
        }
    }

    /// Keeps a map that was read.
    ///
    /// # Errors
    ///
    /// Where there is no memory for it.
    pub fn keep(&mut self, alloc: Global, bytes: &[u8; 8192]) -> Result<(), Memory>
        ensures map { OnOk result (self.new.map ≡ Some bytes.now) }
        ensures version { self.old.version < 2 ^ 64 - 1 → OnOk result (self.new.version ≡ self.old.version + 1) }
    {
        let mut map = PortMap::new(alloc)?;
        map.of_bytes(bytes);
        self.map = Some(map);
        self.version = self.version.saturating_add(1);
        Ok(())
    }
}
