ghost use Rattle.std.specs.Prelude.{◌≡◌, ◌≤◌};
ghost use Rattle.rds_script.specs.Script.{payload_len, cut_count, payload_total, cut_total};

use crate::command::command_of;
use crate::fault::Fault;
use crate::line::{first_word, has_words, is_named, is_text_line};
use crate::name::Name;
use crate::place::number_at;
use crate::rooms::Rooms;
use crate::script::{MAX_CUTS, MAX_TOTAL};
use crate::{Cause, Command, Placed, Script};
use rds_wire::Memory;
use std::alloc::Global;

/// The script of the lines that were read so far; it has 0 hosts before its first command.
#[derive(Drop)]
pub(crate) struct Draft {
    pub(crate) script: Script,
    /// What the payloads are made from.
    rooms: Rooms,
    /// The payload bytes of all sends.
    total: u32,
    /// How many cuts there are.
    cuts: u32,
    ghost total_is: { total ≡ payload_total script.commands.items },
    ghost total_fits: { total ≤ 16777216 },
    ghost cuts_are: { cuts ≡ cut_total script.commands.items },
    ghost cuts_fit: { cuts ≤ 1024 },
}

impl Draft {
    ghost use Rattle.std.specs.Prelude.{◌≡◌, IfOk};
    ghost use Rattle.rds_script.specs.Text.{words};
    ghost use Rattle.rds_script.specs.Grammar.{meaning, nothing};
    ghost use Rattle.rds_script.specs.Reading as reading;
    ghost use Rattle.rds_script.specs.Reading.{Becomes};
    ghost use Rattle.rds_script.specs.declared.name.Name.TheVariants as names;

    /// Nothing yet, with room for so many commands.
    pub(crate) fn with_room(alloc: Global, commands: usize) -> Result<Draft, Memory>
        ensures { IfOk result (λ draft. meaning draft.script ≡ nothing) }
    {
        Ok(Draft {
            script: Script {
                hosts: 0,
                hosts_line: 0,
                commands: Vec::with_capacity(alloc, commands)?,
            },
            rooms: Rooms::new(alloc),
            total: 0,
            cuts: 0,
        })
    }

    /// Reads the next line, which has this number. After a fault the draft is of no use.
    #[tactic(auto, unfolding(crate::specs::Reading::line_at))]
    pub(crate) fn read_line(&mut self, number: u32, line: &[u8]) -> Result<(), Fault>
        ensures { Becomes result (reading.line_at (meaning self.old.script) number line.now)
            (meaning self.new.script) }
    {
        if !is_text_line(line) {
            return Err(Fault::Refused(Cause::Text));
        }
        let (word, rest) = first_word(line);
        if !is_named(word) {
            return Ok(());
        }
        let Some(name) = Name::of(word) else {
            return Err(Fault::Refused(Cause::Command));
        };
        self.read_command(number, name, rest)
    }

    /// Reads a line that begins with this name and has these other words.
    #[tactic(auto, unfolding(crate::specs::Reading::counted))]
    fn read_command(&mut self, number: u32, name: Name, rest: &[u8]) -> Result<(), Fault>
        ensures { Becomes result (reading.counted (meaning self.old.script) number name (words rest.now))
            (meaning self.new.script) }
    {
        if name.is_hosts() != (self.script.hosts == 0) {
            return Err(Fault::Refused(Cause::Command));
        }
        if name.is_hosts() {
            return self.read_hosts(number, rest);
        }
        let command = command_of(&mut self.rooms, self.script.hosts, name, rest)?;
        self.add(number, command)
    }

    #[tactic(auto, unfolding(crate::specs::Reading::hosts_at))]
    fn read_hosts(&mut self, number: u32, rest: &[u8]) -> Result<(), Fault>
        ensures { Becomes result (reading.exact names.Hosts (words rest.now)
            (reading.hosts_at (meaning self.old.script) number (words rest.now))) (meaning self.new.script) }
    {
        if !has_words(rest, 1) {
            return Err(Fault::Refused(Cause::Words));
        }
        let (hosts, _) = number_at(2, 8, rest)?;
        self.script.hosts = hosts as u8;
        self.script.hosts_line = number;
        Ok(())
    }

    #[tactic(auto, unfolding(crate::specs::Reading::with_command))]
    fn add(&mut self, number: u32, command: Command) -> Result<(), Fault>
        ensures { Becomes result (reading.with_command (meaning self.old.script) number command)
            (meaning self.new.script) }
    {
        let total = self.total + sent_len(&command);
        if total > MAX_TOTAL {
            return Err(Fault::Refused(Cause::Total));
        }
        let cuts = self.cuts + cuts_of(&command);
        if cuts > MAX_CUTS {
            return Err(Fault::Refused(Cause::Cuts));
        }
        self.script.commands.push(Placed {
            line: number,
            command,
        })?;
        self.total = total;
        self.cuts = cuts;
        Ok(())
    }
}

/// How many payload bytes a command sends.
fn sent_len(command: &Command) -> u32
    ensures { result ≡ payload_len command.now }
{
    match command {
        Command::Send { payload, .. } => payload.len(),
        _ => 0,
    }
}

/// 1 for a cut, and 0 for any other command.
fn cuts_of(command: &Command) -> u32
    ensures { result ≡ cut_count command.now }
{
    match command {
        Command::Cut { .. } => 1,
        _ => 0,
    }
}
