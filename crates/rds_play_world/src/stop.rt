ghost use Rattle.std.specs.Prelude.{◌<◌};
ghost use Rattle.rds_text.specs.declared.host.TheConstants.{MAX_HOSTS};

/// A journal that is full: that of `host` with `peer` has this many entries, and two more would pass its limit.
#[derive(Clone, Copy)]
pub struct Full {
    pub host: u8,
    pub peer: u8,
    pub entries: u32,
    ghost at: { host < MAX_HOSTS },
    ghost with: { peer < MAX_HOSTS },
}

/// Why a script isn't played on.
#[derive(Clone, Copy)]
pub enum Stop {
    Spent(Full),
    Memory,
}
