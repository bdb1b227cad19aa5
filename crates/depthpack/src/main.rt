// depthpack: records of depths in, packages in hexadecimal out.
#![tactic(auto)]

mod failure;
mod line;
mod plain;
mod stream;
mod tally;

use failure::Failure;
use std::process::ExitCode;
use std::{env, fs};
use tally::Tally;

const HELP: &str = "usage: depthpack [FILE]

Packs depth records into PostgreSQL's binary NUMERIC, one line of output for each record.
The records come from FILE, or from standard input where no file or - is named.

A record is 20 bytes, each number most significant byte first:
  byte 0        type of the numbers: 1 u16, 2 u32, 3 u64, 4 packed decimal
  byte 1        sign: 0 plus, 1 minus
  bytes 2-3     precision: how many fractional digits at most (0 counts as 1, at most 16383)
  bytes 4-11    numerator, of type 4 as sixteen decimal digits of four bits
  bytes 12-19   denominator, likewise; over 0 the depth is an infinity, or NaN for 0 over 0

A line is
  the package in lower-case hexadecimal,
  refused 10     four bits of a packed decimal are above 9,
  refused 11     a number passes the greatest of its type,
  bad record     another type or another sign, or
  short record   the input ends inside the record.

At the end standard error tells how many records were packed, refused, bad and short.
The status is 0, or 1 with a message if the input cannot be read or the output cannot be written
(as into a pipe that its reader has closed), if an option is unknown or if more than one file is
named.
";

fn main(rt: HostRuntime) -> ExitCode {
    match run(&rt) {
        Ok(()) => ExitCode::SUCCESS,
        Err(failure) => {
            let _ = eprintln!(rt; "depthpack: {failure}");
            ExitCode::FAILURE
        }
    }
}

enum Command {
    Help,
    PackInput,
    PackFile(String),
}

fn run(rt: &HostRuntime) -> Result<(), Failure> {
    let tally = match read_command(rt)? {
        Command::Help => return help(rt),
        Command::PackInput => stream::pack_records(&mut rt.stdin(), &mut rt.stdout())?,
        Command::PackFile(path) => pack_file(rt, path)?,
    };
    let _ = eprintln!(rt; "depthpack: {tally}");
    Ok(())
}

fn help(rt: &HostRuntime) -> Result<(), Failure> {
    rt.print(HELP).map_err(Failure::Write)
}

fn pack_file(rt: &HostRuntime, path: String) -> Result<Tally, Failure> {
    let mut file = fs::open(rt, path.as_str()).map_err(|error| Failure::Open(path, error))?;
    stream::pack_records(&mut file, &mut rt.stdout())
}

// What the arguments ask for.
fn read_command(rt: &HostRuntime) -> Result<Command, Failure> {
    let mut words = env::args(rt).map_err(Failure::Arguments)?.skip(1);
    let word = match (words.next(), words.next()) {
        (None, _) => return Ok(Command::PackInput),
        (Some(word), None) => word,
        (Some(_), Some(_)) => return Err(Failure::SeveralFiles),
    };
    match word.as_str() {
        "--help" => Ok(Command::Help),
        "-" => Ok(Command::PackInput),
        text if text.starts_with('-') => Err(Failure::UnknownOption(word)),
        _ => Ok(Command::PackFile(word)),
    }
}
