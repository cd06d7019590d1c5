ghost use Rattle.std.specs.Prelude.{◌≡◌, ◌≢◌, ◌<◌};
ghost use Rattle.rds_text.specs.declared.host.TheConstants.{MAX_HOSTS};
ghost use Rattle.rds_play_mesh.specs.Places.{end_of, place, triangle};

use rds_play_pair::PairEnd;

/// Where the joint of two hosts stands.
pub(crate) fn place(host: u8, peer: u8) -> usize
    requires host { host < MAX_HOSTS }
    requires peer { peer < MAX_HOSTS }
    requires apart { peer ≢ host }
    ensures { result ≡ place host peer }
{
    if host < peer {
        triangle(peer) + usize::from(host)
    } else {
        triangle(host) + usize::from(peer)
    }
}

// How many pairs there are of so many hosts.
fn triangle(hosts: u8) -> usize
    requires { hosts < MAX_HOSTS }
    ensures is { result ≡ triangle hosts }
    ensures few { result < 22 }
{
    let hosts = usize::from(hosts);
    hosts * hosts.saturating_sub(1) / 2
}

/// Which end of their joint is that of the first of two hosts.
pub(crate) fn end_of(host: u8, peer: u8) -> PairEnd
    ensures { result ≡ end_of host peer }
{
    if host < peer {
        PairEnd::First
    } else {
        PairEnd::Second
    }
}
