//! Whose commands a script's are.
ghost use Rattle.std.specs.Prelude.{◌≡◌};
ghost use Rattle.rds_run_callers.specs.Commands.{commander, binds};

use rds_script::Command;

/// The host whose caller does the command, counted from 0. None does `drain`.
pub fn host_of(command: &Command) -> Option<u8>
    ensures { result ≡ commander command.now }
{
    match command {
        Command::Bind { host, .. }
        | Command::BindAny { host, .. }
        | Command::Send { host, .. }
        | Command::Recv { host, .. }
        | Command::Cancel { host, .. }
        | Command::Close { host, .. }
        | Command::Open { host, .. }
        | Command::Move { host, .. }
        | Command::Cut { host, .. } => Some(*host),
        Command::Drain => None,
    }
}

/// Whether the command binds a socket.
pub fn is_bind(command: &Command) -> bool
    ensures { result ≡ binds command.now }
{
    match command {
        Command::Bind { .. } | Command::BindAny { .. } => true,
        _ => false,
    }
}
