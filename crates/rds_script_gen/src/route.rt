//! From where to where a send goes.

ghost use Rattle.std.specs.Prelude.{◌≡◌};
ghost use Rattle.rds_script_gen.specs.Generator.{receiver, receiver_port, sender, sender_port, state_after};

use crate::draws::Draws;

/// How many hosts there are.
pub(crate) const HOSTS: u8 = 8;

/// The lowest port of a host's sockets.
pub(crate) const FIRST_PORT: u16 = 4000;

/// How many sockets a host has, at ports that follow one another.
pub(crate) const SOCKETS: u8 = 4;

/// The two sockets of a send, which are of two hosts.
#[derive(Clone, Copy)]
pub(crate) struct Route {
    pub(crate) host: u8,
    pub(crate) port: u16,
    pub(crate) to: u8,
    pub(crate) dport: u16,
}

impl Route {
    /// The route that the next four draws give.
    pub(crate) fn next(draws: &mut Draws) -> Route
        ensures state { draws.new.state ≡ state_after 4 draws.old.state }
        ensures host { result.host ≡ sender draws.old.state }
        ensures port { result.port ≡ sender_port draws.old.state }
        ensures to { result.to ≡ receiver draws.old.state }
        ensures dport { result.dport ≡ receiver_port draws.old.state }
    {
        let host = draws.below(HOSTS);
        let socket = draws.below(SOCKETS);
        let step = draws.below(HOSTS - 1);
        let peer_socket = draws.below(SOCKETS);
        Route {
            host,
            port: FIRST_PORT + u16::from(socket),
            to: (host + 1 + step) % HOSTS,
            dport: FIRST_PORT + u16::from(peer_socket),
        }
    }
}
