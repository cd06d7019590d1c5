ghost use Rattle.std.specs.Prelude.{◌≡◌, ℕ, List};
ghost use Rattle.rds_script.specs.Script.{IsCommand};
ghost use Rattle.rds_history.specs.Events.{Event};
ghost use Rattle.rds_history.specs.History.{after};
ghost use Rattle.rds_play_world.specs.Coming.{Comes};
ghost use Rattle.rds_play_world.specs.Telling.{IsTelling, Tells, state};

use rds_play_world::{Stop, World};
use rds_script::Command;

/// Does one command.
///
/// # Errors
///
/// As the world's own call for the command: what stops the run.
pub fn obey(world: &mut World, command: &Command) -> Result<(), Stop>
    requires command { IsCommand world.old.count command.now }
    requires telling { IsTelling (state world.old) }
    ensures count { world.new.count ≡ world.old.count }
    ensures course { (limit hosts : ℕ) (past : List Event) → Tells limit hosts past (state world.old) →
        Comes limit hosts (after limit hosts command.now past) result (state world.new) }
{
    match command {
        Command::Bind {
            host,
            port,
            sndbuf,
            rcvbuf,
        } => world.bind(*host, *port, *sndbuf, *rcvbuf),
        Command::BindAny {
            host,
            port,
            sndbuf,
            rcvbuf,
        } => world.bind_any(*host, *port, *sndbuf, *rcvbuf),
        Command::Send {
            host,
            port,
            to,
            dport,
            payload,
        } => world.send(*host, *port, *to, *dport, payload),
        Command::Recv { host, port } => world.recv(*host, *port),
        Command::Cancel {
            host,
            port,
            to,
            dport,
        } => world.cancel(*host, *port, *to, *dport),
        Command::Close { host, port } => world.close(*host, *port),
        Command::Open { host, to } => world.open(*host, *to),
        Command::Move { host, to, bytes } => world.move_bytes(*host, *to, *bytes),
        Command::Cut { host, to } => world.cut(*host, *to),
        Command::Drain => world.drain(),
    }
}
