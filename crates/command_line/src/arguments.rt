//! The command, and the options that the words give.

ghost use Rattle.std.specs.Prelude.{◌≡◌, ◌≢◌, ◌≤◌, IfOk, IfSome, Err, [], false, true, map, string_bytes};
ghost use Rattle.clap.specs.Walk.{rule_of, rows_of};
ghost use Rattle.clap.specs.Simple.{app_of, matches_of};
ghost use Rattle.clap.specs.Faults.{fault_of};
ghost use Rattle.clap.specs.Matches.{found_of};
ghost use Rattle.command_line.specs.Command.{command, number_rule, flag_rule, is_usage, options_of};
ghost use Rattle.command_line.specs.Command.{asks_both, options_in, mode_of, is_set, number_of};
ghost use Rattle.command_line.specs.Command.{are_plain, is_plain, is_plain_at};
ghost use Rattle.command_line.specs.Matches.{has_number, AreRead};
ghost use Rattle.options.specs.Asked.{AreInRange};

use clap::builder::ValueParser;
use clap::error::ErrorKind;
use clap::{Arg, ArgAction, ArgMatches, Command};
use options::limits::{
    DEFAULT_JUDGE_STEPS, DEFAULT_TURNS, DEFAULT_WORKERS, LAST_MADE, MAX_JUDGE_STEPS, MAX_TURNS,
    MAX_WORKERS,
};
use options::{Mode, Options};
use std::alloc::{AllocError, Global};

/// Why words give no options.
#[derive(Clone, Copy, Debug, PartialEq, Eq)]
pub enum WordsFault {
    /// The words are no words of the command, or ask for help, or for two jobs.
    Usage,
    /// Memory ran out.
    Memory,
}

// An option that takes one whole number from low to high.
fn number<'a>(alloc: Global, name: &'a str, low: u64, high: u64) -> Arg<'a>
    ensures local { result.global ≡ false }
    ensures rule { rule_of result ≡ number_rule name.entry.now low high }
{
    Arg::new(alloc, name)
        .long(name)
        .action(ArgAction::Set)
        .value_parser(ValueParser::unsigned(low, high))
}

// An option without a value.
fn flag<'a>(alloc: Global, name: &'a str) -> Arg<'a>
    ensures local { result.global ≡ false }
    ensures rule { rule_of result ≡ flag_rule name.entry.now }
{
    Arg::new(alloc, name).long(name).action(ArgAction::SetTrue)
}

fn command<'a>(alloc: Global) -> Result<Command<'a>, AllocError>
    ensures { IfOk result (λ c. app_of c ≡ command) }
{
    Command::new(alloc, "beagle")
        .no_binary_name(true)
        .arg(number(alloc, "workers", 1, MAX_WORKERS))?
        .arg(number(alloc, "turns", 1, MAX_TURNS))?
        .arg(number(alloc, "judge-steps", 1, MAX_JUDGE_STEPS))?
        .arg(flag(alloc, "ordinary"))?
        .arg(flag(alloc, "check"))?
        .arg(number(alloc, "make", 0, LAST_MADE))
}

// The number of an option, where it is there.
fn number_of(matches: &ArgMatches, name: &str, low: u64, high: u64) -> Option<u64>
    requires { has_number low high name.now (rows_of (found_of matches.now)) ≡ true }
    ensures value { result ≡ number_of name.now (rows_of (found_of matches.now)) }
    ensures bound { IfSome result (λ n. (low ≤ n) × (n ≤ high)) }
{
    matches.get_one::<u64>(name)
}

// Whether an option without a value is there.
fn is_set(matches: &ArgMatches, name: &str) -> bool
    ensures { result ≡ is_set name.now (rows_of (found_of matches.now)) }
{
    matches.get_one(name).unwrap_or(false)
}

// Whether both jobs are asked for.
fn asks_both(matches: &ArgMatches) -> bool
    requires { AreRead (rows_of (found_of matches.now)) }
    ensures { result ≡ asks_both (rows_of (found_of matches.now)) }
{
    is_set(matches, "check") && number_of(matches, "make", 0, LAST_MADE).is_some()
}

// What the run does.
fn mode_of(matches: &ArgMatches) -> Mode
    requires { AreRead (rows_of (found_of matches.now)) }
    ensures { result ≡ mode_of (rows_of (found_of matches.now)) }
{
    if is_set(matches, "check") {
        return Mode::Check;
    }
    match number_of(matches, "make", 0, LAST_MADE) {
        Some(number) => Mode::Make(number as u32),
        None => Mode::Prove,
    }
}

// The options that the matches of a command line give.
fn options_in(matches: &ArgMatches) -> Options
    requires { AreRead (rows_of (found_of matches.now)) }
    ensures value { result ≡ options_in (rows_of (found_of matches.now)) }
    ensures ranges { AreInRange result }
{
    Options {
        workers: number_of(matches, "workers", 1, MAX_WORKERS).unwrap_or(u64::from(
            DEFAULT_WORKERS,
        )) as u32,
        turns: number_of(matches, "turns", 1, MAX_TURNS).unwrap_or(u64::from(DEFAULT_TURNS)) as u32,
        judge_steps: number_of(matches, "judge-steps", 1, MAX_JUDGE_STEPS).unwrap_or(
            DEFAULT_JUDGE_STEPS,
        ),
        ordinary: is_set(matches, "ordinary"),
        mode: mode_of(matches),
    }
}

// Whether the text has no plus sign in front, and no zero in front of other digits.
fn is_plain(text: &str) -> bool
    ensures { result ≡ is_plain text.now }
{
    match text.as_bytes() {
        [b'+', ..] => false,
        [b'0', rest @ ..] => rest.is_empty(),
        _ => true,
    }
}

// Whether the value of an option, where it is there, is plain.
fn is_plain_at(matches: &ArgMatches, name: &str) -> bool
    ensures { result ≡ is_plain_at name.now (rows_of (found_of matches.now)) }
{
    match matches.get_str(name) {
        Some(text) => is_plain(text),
        None => true,
    }
}

// Whether the values of the options with a number are plain.
fn are_plain(matches: &ArgMatches) -> bool
    ensures { result ≡ are_plain (rows_of (found_of matches.now)) }
{
    is_plain_at(matches, "workers")
        && is_plain_at(matches, "turns")
        && is_plain_at(matches, "judge-steps")
        && is_plain_at(matches, "make")
}

// The matches of the words, or why there are none.
fn matches_of<'a>(alloc: Global, words: &'a [String]) -> Result<ArgMatches<'a>, WordsFault>
    ensures rows { IfOk result (λ m. rows_of (found_of m) ≡ matches_of command (map string_bytes words.entry.now)) }
    ensures read { IfOk result (λ m. AreRead (rows_of (found_of m))) }
    ensures taken { IfOk result (λ _. fault_of command (map string_bytes words.entry.now) ≡ []) }
    ensures usage { result ≡ Err WordsFault.Usage → fault_of command (map string_bytes words.entry.now) ≢ [] }
{
    let Ok(command) = command(alloc) else {
        return Err(WordsFault::Memory);
    };
    match command.try_get_matches_from(words) {
        Ok(matches) => Ok(matches),
        Err(error) if error.kind() == ErrorKind::OutOfMemory => Err(WordsFault::Memory),
        Err(_) => Err(WordsFault::Usage),
    }
}

/// The options that the words of a command line give, the program's name left out.
///
/// Each number is that of its option, or else its default.
/// `Usage` comes exactly where the words are refused by the command of six arguments, a wish for help among them, or
/// `--check` stands beside `--make`, or a number has a plus sign or a needless zero in front; `Memory` only where
/// memory ran out.
pub fn options_of(alloc: Global, words: &[String]) -> Result<Options, WordsFault>
    ensures accepted { IfOk result (λ _. is_usage (map string_bytes words.now) ≡ false) }
    ensures given { IfOk result (λ o. o ≡ options_of (map string_bytes words.now)) }
    ensures ranges { IfOk result AreInRange }
    ensures usage { result ≡ Err WordsFault.Usage → is_usage (map string_bytes words.now) ≡ true }
{
    let matches = matches_of(alloc, words)?;
    if asks_both(&matches) || !are_plain(&matches) {
        return Err(WordsFault::Usage);
    }
    Ok(options_in(&matches))
}
