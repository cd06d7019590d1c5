ghost use Rattle.std.specs.Prelude.{◌≡◌, ◌<◌, ◌+◌, ℕ};

use crate::MAX_HOSTS;

/// The IPv4 address of host A, 10.0.0.1, as a number. The addresses of hosts B, C and so on follow it.
pub const FIRST_ADDRESS: u32 = 0x0A00_0001;

/// The address of a host, counted from 0.
pub fn address(host: u8) -> u32
    ensures { result ≡ FIRST_ADDRESS + host }
{
    FIRST_ADDRESS + host as u32
}

/// The host of an address, counted from 0, where it is the address of a host.
pub fn host_of(addr: u32) -> u8
    ensures some { result < MAX_HOSTS }
    ensures host { (host : ℕ) → host < MAX_HOSTS → addr ≡ FIRST_ADDRESS + host → result ≡ host }
{
    addr.saturating_sub(FIRST_ADDRESS)
        .min(u32::from(MAX_HOSTS) - 1) as u8
}
