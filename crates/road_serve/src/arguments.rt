//! The arguments of the program.

ghost use Rattle.std.specs.Prelude.{◌≡◌, ◌≢◌, ◌<◌, ◌≤◌, IfOk, IfSome, Err, true, false, option_map};
ghost use Rattle.clap.specs.Words.{app_of, found_of, kind_of, rows_of};
ghost use Rattle.clap.specs.declared.error.kind.ErrorKind.TheVariants as kinds;
ghost use Rattle.road_format.specs.Views.{texts};
ghost use Rattle.road_plan.specs.declared.limits.TheConstants.{MOST_WORKERS};
ghost use Rattle.road_serve.specs.Arguments.{are_accepted, are_read, command_line, script_of, words_matches};
ghost use Rattle.road_serve.specs.Arguments.{worker_count, workers_of};
ghost use Rattle.road_serve.specs.declared.arguments.ArgumentFault.TheVariants.{Refused};

use clap::error::ErrorKind;
use clap::{Arg, ArgMatches, Command, Error};
use road_plan::limits::MOST_WORKERS;
use std::alloc::{AllocError, Global};

// Why arguments cannot be read.
#[derive(Clone, Copy, Debug, PartialEq, Eq)]
pub(crate) enum ArgumentFault {
    // They are not accepted.
    Refused,
    // An allocation failed.
    OutOfMemory,
}

impl From<AllocError> for ArgumentFault {
    ghost use Rattle.road_serve.specs.declared.arguments.ArgumentFault.TheVariants.{OutOfMemory};

    ghost from_gives = { λ _ fault. fault ≡ OutOfMemory };

    fn from(_failed: AllocError) -> ArgumentFault {
        ArgumentFault::OutOfMemory
    }
}

// The content of the arguments.
#[derive(Clone, Copy, Debug, PartialEq, Eq)]
pub(crate) struct Arguments<'a> {
    // The path of the script; None to read standard input.
    pub script: Option<&'a str>,
    // The number of worker threads that compute the speeds, 1 to 16; None to compute them on the main thread.
    pub workers: Option<u32>,
}

// Read the arguments of the program: `Refused` if they are not accepted, `OutOfMemory` if an allocation failed.
pub(crate) fn arguments_in<'a>(
    alloc: Global,
    words: &'a [String],
) -> Result<Arguments<'a>, ArgumentFault>
    ensures accepted { IfOk result (λ asked. are_accepted (texts words.now) ≡ true) }
    ensures script { IfOk result (λ asked. option_map (λ p. p.now) asked.script ≡ script_of (texts words.now)) }
    ensures workers { IfOk result (λ asked. asked.workers ≡ workers_of (texts words.now)) }
    ensures few { IfOk result (λ asked. IfSome asked.workers (λ count. (0 < count) × (count ≤ MOST_WORKERS))) }
    ensures refused { result ≡ Err Refused → are_accepted (texts words.now) ≡ false }
{
    let matches = matches_in(alloc, words)?;
    let script = matches.get_str("script");
    match matches.get_str("workers") {
        None => Ok(Arguments {
            script,
            workers: None,
        }),
        Some(text) => match count_in(text) {
            Some(count) => Ok(Arguments {
                script,
                workers: Some(count),
            }),
            None => Err(ArgumentFault::Refused),
        },
    }
}

// Make the `clap` command of the program, with its options.
fn program_command<'a>(alloc: Global) -> Result<Command<'a>, AllocError>
    ensures { IfOk result (λ command. app_of command ≡ command_line) }
{
    let script = Arg::new(alloc, "script").long("script");
    let workers = Arg::new(alloc, "workers").long("workers");
    let command = Command::new(alloc, "road_lab")
        .no_binary_name(true)
        .arg(script)?
        .arg(workers)?;
    Ok(command)
}

// Return what `clap` finds in the arguments.
fn matches_in<'a>(alloc: Global, words: &'a [String]) -> Result<ArgMatches<'a>, ArgumentFault>
    ensures read { IfOk result (λ found. are_read (texts words.now) ≡ true) }
    ensures found { IfOk result (λ found. rows_of (found_of found) ≡ words_matches (texts words.now)) }
    ensures refused { result ≡ Err Refused → are_read (texts words.now) ≡ false }
{
    let command = program_command(alloc)?;
    match command.try_get_matches_from(words) {
        Ok(matches) => Ok(matches),
        Err(error) => Err(fault_of(&error)),
    }
}

// Read the number of workers that a value names. Return None if it is not a number from 1 to 16.
fn count_in(text: &str) -> Option<u32>
    ensures number { result ≡ worker_count text.now }
    ensures few { IfSome result (λ count. (0 < count) × (count ≤ MOST_WORKERS)) }
{
    let count = text.parse::<u32>().ok()?;
    if count == 0 || count > MOST_WORKERS {
        return None;
    }
    Some(count)
}

// Return why `clap` did not read the arguments.
fn fault_of(error: &Error) -> ArgumentFault
    ensures { result ≡ Refused → kind_of error.now ≢ kinds.OutOfMemory }
{
    match error.kind() {
        ErrorKind::OutOfMemory => ArgumentFault::OutOfMemory,
        _ => ArgumentFault::Refused,
    }
}
