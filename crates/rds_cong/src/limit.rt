ghost use Rattle.std.specs.Prelude.{◌≡◌, ◌≤◌};
ghost use Rattle.rds_cong.specs.Limit.{congested_after};

/// Whether the bit of a port is set from now on: above `limit` bytes it is, below half of it it isn't, and in between it
/// stays as it was (`set`). `queued` is the number of bytes that were delivered to the port's socket and not received, `limit`
/// its receive buffer in bytes, at least 2; half of an odd limit is rounded down. Source: the receive path of RDS in Linux.
pub fn hysteresis(set: bool, queued: u64, limit: u64) -> bool
    requires { 2 ≤ limit }
    ensures { result ≡ congested_after set queued limit }
{
    if queued > limit {
        true
    } else if queued < limit / 2 {
        false
    } else {
        set
    }
}
