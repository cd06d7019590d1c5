//! The callers of a run, beside its workers.
ghost use Rattle.std.specs.Prelude.{◌≡◌, ◌≤◌, ℕ, All, IfOk, List, OnOk, Ok, Vec, length, map};
ghost use Rattle.rds_text.specs.declared.host.TheConstants.{MAX_HOSTS};
ghost use Rattle.std.specs.Global.{Global};
ghost use Rattle.rds_run_callers.specs.Places.{PlacesKeep};
ghost use Rattle.rds_run_hosts.specs.Leading.{AreJobs, CallersKeep, HasCalled};
ghost use Rattle.rds_run_hosts.specs.Obeyed.{HasObeyed, DoesCommand};
ghost use Rattle.rds_run_hosts.specs.Parties.{AreParties, HaveLed, HaveNotLooked, HaveObeyed};
ghost use Rattle.rds_run_hosts.specs.Preparing.{HaveCounted, HaveStreamsOf};
ghost use Rattle.rds_script.specs.declared.script.Placed.{Placed as PlacedCommand};
ghost use Rattle.rds_script.specs.Script.{IsCommand, IsScript};
ghost use Rattle.rds_host.specs.Held.{ends_of_all};
ghost use Rattle.rds_host.specs.Lines.{AreTurned, pair_of};
ghost use Rattle.rds_run_rounds.specs.Connection.{AreHosts};
ghost use Rattle.rds_run_rounds.specs.Grid.{EachRow, rows_of};

use crate::leading::{commands_from, lead};
use crate::working::work_all;
use rds_beside::map_vec;
use rds_host::Stop;
use rds_host::laws::turned_keeps;
use rds_link::{End, Gate};
use rds_run_callers::{Caller, host_of};
use rds_run_rounds::Lines;
use rds_run_rounds::laws::connected_keeps;
use rds_run_settling::laws::tied_keeps;
use rds_script::{Placed, Script};
use rds_wire::Memory;
use std::alloc::Global;
use std::sync::Wait;
use std::thread;
use std::thread::Threads;

/// How often a gate is asked at most before a command.
const ASKS: u32 = 50_000_000;

// Asks the gate until it lets the caller go on.
fn wait_at<G: Gate>(gate: &G, host: u8, turn: u32) {
    for _ in 0..ASKS {
        if gate.at(u32::from(host), turn) {
            return;
        }
    }
}

// Does a command once the gate lets the caller go on, if it is one of the host's, and answers whether it is.
fn call<R: Wait, G: Gate>(
    rt: &R,
    alloc: Global,
    placed: &Placed,
    host: u8,
    gate: &G,
    turn: u32,
    caller: &mut Caller,
) -> Result<bool, Memory>
    requires { (hosts : ℕ) × IsCommand hosts placed.now.command }
    ensures did { OnOk result (DoesCommand host placed.now caller.old.places caller.new.places) }
    ensures keeps { PlacesKeep caller.old.places caller.new.places }
{
    if host_of(&placed.command) != Some(host) {
        return Ok(false);
    }
    wait_at(gate, host, turn);
    caller.obey(rt, alloc, &placed.command)?;
    Ok(true)
}

// Does all of a host's commands in their order, each once the gate lets it. Where memory runs out, the caller is given up.
fn call_all<R: Wait, G: Gate>(
    rt: &R,
    alloc: Global,
    commands: &[Placed],
    host: u8,
    gate: &G,
    mut caller: Caller,
) -> Result<Caller, Memory>
    requires { (hosts : ℕ) × All (λ p. IsCommand hosts p.command) commands.now }
    ensures did { IfOk result (λ after. HasObeyed host commands.now caller.places after.places) }
    ensures keeps { IfOk result (λ after. PlacesKeep caller.places after.places) }
{
    let mut turn = 0u32;
    for placed in commands {
        if call(rt, alloc, placed, host, gate, turn, &mut caller)? {
            turn = turn.saturating_add(1);
        }
    }
    Ok(caller)
}

// The callers of all hosts, each by a thread of its own. When they have ended, the workers are told to stop.
fn call_then_stop<R: Threads + Wait + Sync, G: Gate + Sync>(
    rt: &R,
    alloc: Global,
    commands: &[Placed],
    gate: &G,
    callers: Vec<Caller>,
    stop: &Stop,
) -> Result<Vec<Caller>, Memory>
    requires few { length callers.items ≤ MAX_HOSTS }
    requires commands { (hosts : ℕ) × All (λ p. IsCommand hosts p.command) commands.now }
    ensures obeyed { IfOk result (λ after. HaveObeyed commands.now callers.items after.items) }
    ensures keeps { IfOk result (λ after. CallersKeep callers.items after.items) }
{
    let after = call_beside(rt, alloc, commands, gate, callers);
    stop.set();
    after
}

// The callers of all hosts, each by a thread of its own. The calling thread only waits for them, so that the thread that it made for the
// workers has its processor at once.
fn call_beside<R: Threads + Wait + Sync, G: Gate + Sync>(
    rt: &R,
    alloc: Global,
    commands: &[Placed],
    gate: &G,
    callers: Vec<Caller>,
) -> Result<Vec<Caller>, Memory>
    requires few { length callers.items ≤ MAX_HOSTS }
    requires commands { (hosts : ℕ) × All (λ p. IsCommand hosts p.command) commands.now }
    ensures obeyed { IfOk result (λ after. HaveObeyed commands.now callers.items after.items) }
    ensures keeps { IfOk result (λ after. CallersKeep callers.items after.items) }
{
    let jobs = numbered(alloc, callers)?;
    let call = |job: (u8, Caller)| -> Result<Caller, Memory>
        requires { (hosts : ℕ) × All (λ p. IsCommand hosts p.command) commands.now }
        ensures { IfOk result (HasCalled job.0 commands.entry.now job.1) }
    { call_all(rt, alloc, commands, job.0, gate, job.1) };
    let done = map_vec(rt, jobs, &call)?;
    all_of(alloc, done)
}

// Each caller with the number of its host.
fn numbered(alloc: Global, callers: Vec<Caller>) -> Result<Vec<(u8, Caller)>, Memory>
    requires { length callers.items ≤ MAX_HOSTS }
    ensures { IfOk result (λ jobs. AreJobs callers.items jobs.items) }
{
    let mut jobs = Vec::new(alloc);
    let mut host = 0u8;
    for caller in callers {
        jobs.push((host, caller))?;
        host += 1;
    }
    Ok(jobs)
}

// The callers, where none ran out of memory.
fn all_of(alloc: Global, done: Vec<Result<Caller, Memory>>) -> Result<Vec<Caller>, Memory>
    ensures { IfOk result (λ callers. map Ok callers.items ≡ done.items) }
{
    let mut callers = Vec::new(alloc);
    for caller in done {
        callers.push(caller?)?;
    }
    Ok(callers)
}

/// Does the commands of a script: the leading binds on the calling thread, and then the others by a caller of each host, while workers
/// turn the lines. Before each of these its caller asks the gate. The seats of the lines are told of the ports that were bound before
/// any of these threads starts. Where memory runs out, the callers are given up.
pub fn play<E: End + Send, R: Threads + Wait + Sync, G: Gate + Sync>(
    rt: &R,
    alloc: Global,
    script: &Script,
    gate: &G,
    mut callers: Vec<Caller>,
    mut lines: Lines<E>,
) -> (Result<Vec<Caller>, Memory>, Lines<E>)
    requires script { IsScript script.now }
    requires parties { AreParties script.now.hosts callers.items (rows_of lines.items) }
    requires looks { HaveNotLooked (rows_of lines.items) }
    ensures obeyed { IfOk result.0 (λ after. HaveObeyed script.now.commands.items callers.items after.items) }
    ensures led { IfOk result.0 (λ after. HaveLed script.now.commands.items callers.items after.items (rows_of result.1.items)) }
    ensures parties { IfOk result.0 (λ after. AreParties script.now.hosts after.items (rows_of result.1.items)) }
    ensures hosts { (limit hosts : ℕ) → AreHosts E.means limit hosts (rows_of lines.items) → AreHosts E.means limit hosts (rows_of result.1.items) }
    ensures counted { (commands : List PlacedCommand) (before after : ℕ) → HaveCounted commands before after (rows_of lines.items) →
        HaveCounted commands before after (rows_of result.1.items) }
    ensures numbered { (streams : List (List (Vec (ℕ × E) Global))) → HaveStreamsOf streams (rows_of lines.items) →
        HaveStreamsOf streams (rows_of result.1.items) }
    ensures ends { ends_of_all (rows_of result.1.items) ≡ ends_of_all (rows_of lines.items) }
{
    let commands = script.commands.as_slice();
    let Ok(leading) = lead(rt, alloc, commands, &mut callers, &mut lines) else {
        return (Err(Memory), lines);
    };
    tied_keeps::<E>();
    turned_keeps::<E>();
    connected_keeps::<E>();
    play_beside(
        rt,
        alloc,
        commands_from(commands, leading),
        gate,
        callers,
        lines,
    )
}

// Does these commands, while workers turn the lines. Where no thread can be made the callers go first, so that the workers find the
// flag set.
fn play_beside<E: End + Send, R: Threads + Wait + Sync, G: Gate + Sync>(
    rt: &R,
    alloc: Global,
    commands: &[Placed],
    gate: &G,
    callers: Vec<Caller>,
    lines: Lines<E>,
) -> (Result<Vec<Caller>, Memory>, Lines<E>)
    requires few { length callers.items ≤ MAX_HOSTS }
    requires commands { (hosts : ℕ) × All (λ p. IsCommand hosts p.command) commands.now }
    ensures turned { EachRow (AreTurned E.means pair_of) (rows_of lines.items) (rows_of result.1.items) }
    ensures obeyed { IfOk result.0 (λ after. HaveObeyed commands.now callers.items after.items) }
    ensures keeps { IfOk result.0 (λ after. CallersKeep callers.items after.items) }
{
    let stop = Stop::new();
    let stop = &stop;
    let (lines, callers) = thread::join(
        rt,
        move || -> Lines<E>
            ensures { EachRow (AreTurned E.means pair_of) (rows_of lines.items) (rows_of result.items) }
        { work_all(rt, alloc, lines, stop) },
        move || -> Result<Vec<Caller>, Memory>
            requires few { length callers.items ≤ MAX_HOSTS }
            requires commands { (hosts : ℕ) × All (λ p. IsCommand hosts p.command) commands.now }
            ensures obeyed { IfOk result (λ after. HaveObeyed commands.entry.now callers.items after.items) }
            ensures keeps { IfOk result (λ after. CallersKeep callers.items after.items) }
        { call_then_stop(rt, alloc, commands, gate, callers, stop) },
    );
    (callers, lines)
}
