ghost use Rattle.std.specs.Prelude.{◌↔◌, ℕ, IfOk, IsTrue, MatchOption, codes, map, option_map, string_bytes};
ghost use Rattle.clap.specs.Words.{first_value, found_of};
ghost use Rattle.rds_run.specs.GenWords.{AreGen, AreNumbers, IsFound, IsNamed, IsPlain, TakesGen};

use clap::error::ErrorKind;
use clap::{Arg, ArgAction, ArgMatches, Command};
use rds_wire::Memory;
use std::alloc::Global;

/// How many sends a generated script may have.
const MOST_SENDS: u64 = 100_000;

/// The number of sends and the seed, if the words are those of `gen`: its name, and after it these two numbers and nothing else. A
/// request for help is refused.
///
/// # Errors
///
/// Where there is no memory to read the words.
pub fn gen_numbers(alloc: Global, words: &[String]) -> Result<Option<(u32, u64)>, Memory>
    ensures { IfOk result (IsFound (AreGen words.now)) }
{
    match words.first() {
        Some(name) if name.as_str() == "gen" => two_numbers(alloc, words),
        Some(_) | None => Ok(None),
    }
}

// The two numbers after the command's name, if `clap` refuses no word.
fn two_numbers(alloc: Global, words: &[String]) -> Result<Option<(u32, u64)>, Memory>
    ensures { IfOk result (IsFound (TakesGen (map string_bytes words.now))) }
{
    let sends = Arg::new(alloc, "sends")
        .required(true)
        .action(ArgAction::Set);
    let seed = Arg::new(alloc, "seed")
        .required(true)
        .action(ArgAction::Set);
    let command = Command::new(alloc, "gen").arg(sends)?.arg(seed)?;
    match command.try_get_matches_from(words) {
        Ok(matches) => Ok(numbers(&matches)),
        Err(error) => match error.kind() {
            ErrorKind::OutOfMemory => Err(Memory),
            _ => Ok(None),
        },
    }
}

// The two numbers that `clap` found, if they are numbers and in range.
fn numbers(matches: &ArgMatches) -> Option<(u32, u64)>
    ensures { IsFound (AreNumbers (first_value (found_of matches.now) (codes "sends")) (first_value (found_of matches.now) (codes "seed"))) result }
{
    let sends = number_in(matches.get_str("sends"), 1, MOST_SENDS)?;
    let seed = number_in(matches.get_str("seed"), 0, u64::MAX)?;
    Some((sends as u32, seed))
}

// The number that a word is, if it is one and in these bounds.
fn number_in(word: Option<&str>, low: u64, high: u64) -> Option<u64>
    ensures { MatchOption result
        ((n : ℕ) → IsNamed low high (option_map (λ s. s.now) word.entry) n → ⊥)
        (λ n. IsNamed low high (option_map (λ s. s.now) word.entry) n) }
{
    let word = word?;
    let number = word.parse::<u64>().ok()?;
    if !is_plain(word.as_bytes()) || number < low || high < number {
        return None;
    }
    Some(number)
}

// Whether no sign stands before digits, and no zero before others.
fn is_plain(digits: &[u8]) -> bool
    ensures { IsTrue result ↔ IsPlain digits.now }
{
    match digits {
        [b'+', ..] => false,
        [b'0', others @ ..] => others.is_empty(),
        _ => true,
    }
}
