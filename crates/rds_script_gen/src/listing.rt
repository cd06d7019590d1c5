//! The commands of a script, while it is made.

ghost use Rattle.std.specs.Prelude.{◌≡◌, ◌<◌, ◌++◌, ◌∷◌, [], IfOk, length};
ghost use Rattle.rds_script_gen.specs.Generator.{on_lines};
ghost use Rattle.rds_script_gen.specs.declared.listing.TheConstants.{MAX_COMMANDS};

use rds_script::{Command, Placed};
use rds_wire::Memory;
use std::alloc::Global;
use std::marker::Model;

/// The line of `hosts`, which is the first.
pub(crate) const HOSTS_LINE: u32 = 1;

/// More commands than the script of the most sends has.
pub(crate) const MAX_COMMANDS: usize = 250_000;

/// Commands on lines that follow one another. Contracts see the list of the commands.
#[derive(Drop)]
pub(crate) struct Listing {
    placed: Vec<Placed>,
}

impl Model for Listing {
    ghost use Rattle.std.specs.Prelude.{◌≡◌, List, map};
    ghost use Rattle.rds_script.specs.declared.script.Command.{Command};
    ghost use Rattle.rds_script_gen.specs.Generator.{on_lines};

    ghost Value = { List Command };

    ghost view = { λ l. map (λ p. p.command) l.placed.items };

    ghost invariant = { λ l. l.placed.items ≡ on_lines (map (λ p. p.command) l.placed.items) };
}

impl Listing {
    /// No command yet, and room for so many.
    pub(crate) fn with_room(alloc: Global, commands: usize) -> Result<Listing, Memory>
        ensures { IfOk result (λ listing. listing ≡ []) }
    {
        Ok(Listing {
            placed: Vec::with_capacity(alloc, commands)?,
        })
    }

    /// Adds a command on the next line.
    pub(crate) fn add(&mut self, command: Command) -> Result<(), Memory>
        requires { length self.old < MAX_COMMANDS }
        ensures { IfOk result (λ _. self.new ≡ self.old ++ command ∷ []) }
    {
        let line = HOSTS_LINE + 1 + self.placed.len() as u32;
        self.placed.push(Placed { line, command })?;
        Ok(())
    }

    /// The commands with their lines.
    pub(crate) fn into_placed(self) -> Vec<Placed>
        ensures { result.items ≡ on_lines self }
    {
        self.placed
    }
}
