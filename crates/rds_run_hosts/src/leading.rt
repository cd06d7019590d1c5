//! The leading binds of a script.
ghost use Rattle.std.specs.Prelude.{◌≡◌, ◌≤◌, ℕ, All, IfOk, OnErr, OnOk, [], ◌∷◌, drop, length, take};
ghost use Rattle.rds_script.specs.Script.{IsCommand};
ghost use Rattle.rds_run_rounds.specs.Grid.{EachRow, rows_of};
ghost use Rattle.rds_run_hosts.specs.Parties.{AreParties, HaveObeyed};
ghost use Rattle.rds_run_hosts.specs.Leading.{AllPortsTold, AreLeading, CallersKeep, SamePlaces};
ghost use Rattle.rds_run_settling.specs.Tied.{ArePortsTold, AreTied, LinesLearnPorts};

use rds_fmap::Writer;
use rds_line::Line;
use rds_link::End;
use rds_run_callers::{Caller, host_of, is_bind};
use rds_run_rounds::Lines;
use rds_run_settling::laws::tied_keeps;
use rds_run_settling::settle_ports;
use rds_script::Placed;
use rds_wire::Memory;
use std::alloc::Global;
use std::sync::Wait;

/// Does the leading binds, tells each line the ports that are bound then, and answers how many commands that were.
pub(crate) fn lead<E: End, R: Wait>(
    rt: &R,
    alloc: Global,
    commands: &[Placed],
    callers: &mut Vec<Caller>,
    lines: &mut Lines<E>,
) -> Result<usize, Memory>
    requires commands { All (λ p. IsCommand (length callers.old.items) p.command) commands.now }
    requires parties { (hosts : ℕ) × AreParties hosts callers.old.items (rows_of lines.old.items) }
    ensures count { IfOk result (λ count. count ≤ length commands.now) }
    ensures leading { IfOk result (λ count. AreLeading count commands.now) }
    ensures obeyed { IfOk result (λ count. HaveObeyed (take count commands.now) callers.old.items callers.new.items) }
    ensures parties { (hosts : ℕ) → AreParties hosts callers.old.items (rows_of lines.old.items) →
        OnOk result (AreParties hosts callers.new.items (rows_of lines.new.items)) }
    ensures told { OnOk result (AllPortsTold callers.new.items (rows_of lines.new.items)) }
    ensures lines { OnOk result (EachRow LinesLearnPorts (rows_of lines.old.items) (rows_of lines.new.items)) }
    ensures memory { OnErr result (lines.new ≡ lines.old) }
{
    let leading = bind_leading(rt, alloc, commands, callers)?;
    tied_keeps::<E>();
    tell_all(callers, lines);
    Ok(leading)
}

// Tells the lines of each host the ports of its sockets.
fn tell_all<E: End>(callers: &mut Vec<Caller>, lines: &mut Lines<E>)
    requires { (hosts : ℕ) × AreParties hosts callers.old.items (rows_of lines.old.items) }
    ensures places { SamePlaces callers.old.items callers.new.items }
    ensures told { AllPortsTold callers.new.items (rows_of lines.new.items) }
    ensures lines { EachRow LinesLearnPorts (rows_of lines.old.items) (rows_of lines.new.items) }
    ensures parties { (hosts : ℕ) → AreParties hosts callers.old.items (rows_of lines.old.items) →
        AreParties hosts callers.new.items (rows_of lines.new.items) }
{
    for host in 0..callers.len() {
        tell_ports(&mut callers[host], &mut lines[host]);
    }
}

// Tells the lines of a host the ports of its sockets.
fn tell_ports<E: End>(caller: &mut Caller, lines: &mut Vec<Line<E, Writer>>)
    requires { AreTied caller.old.places lines.old.items }
    ensures places { caller.new.places ≡ caller.old.places }
    ensures told { ArePortsTold caller.new.places lines.new.items }
    ensures lines { LinesLearnPorts lines.old.items lines.new.items }
    ensures tied { AreTied caller.new.places lines.new.items }
{
    settle_ports(caller, lines);
}

// Does the leading binds, and answers how many there are.
fn bind_leading<R: Wait>(
    rt: &R,
    alloc: Global,
    commands: &[Placed],
    callers: &mut Vec<Caller>,
) -> Result<usize, Memory>
    requires { All (λ p. IsCommand (length callers.old.items) p.command) commands.now }
    ensures count { IfOk result (λ count. count ≤ length commands.now) }
    ensures leading { IfOk result (λ count. AreLeading count commands.now) }
    ensures obeyed { IfOk result (λ count. HaveObeyed (take count commands.now) callers.old.items callers.new.items) }
    ensures keeps { CallersKeep callers.old.items callers.new.items }
{
    let mut count = 0;
    for placed in commands {
        if !is_bind(&placed.command) {
            break;
        }
        bind(rt, alloc, placed, callers)?;
        count += 1;
    }
    Ok(count)
}

// Does a command of the host that is to do it.
fn bind<R: Wait>(
    rt: &R,
    alloc: Global,
    placed: &Placed,
    callers: &mut Vec<Caller>,
) -> Result<(), Memory>
    requires { IsCommand (length callers.old.items) placed.now.command }
    ensures obeyed { OnOk result (HaveObeyed (placed.now ∷ []) callers.old.items callers.new.items) }
    ensures keeps { CallersKeep callers.old.items callers.new.items }
{
    let Some(host) = host_of(&placed.command) else {
        return Ok(());
    };
    callers[usize::from(host)].obey(rt, alloc, &placed.command)
}

/// The commands from this place on.
pub(crate) fn commands_from(commands: &[Placed], place: usize) -> &[Placed]
    requires place { place ≤ length commands.now }
    ensures each { (hosts : ℕ) → All (λ p. IsCommand hosts p.command) commands.now → All (λ p. IsCommand hosts p.command) result.now }
    ensures rest { result.now ≡ drop place commands.now }
{
    let (_, rest) = commands.split_at(place);
    rest
}
