//! Converts a binary COPY on standard input to lines in the text format of COPY on standard output,
//! or such lines to a binary COPY.
//!
//! The exit status is 0 if the whole input was converted, and 1 otherwise. A message on standard
//! error says why, unless the output is a pipe that its reader closed. If standard error is a
//! terminal, it shows the progress of the COPY.
#![tactic(auto)]

ghost use Rattle.std.specs.Prelude.{◌≡◌, true, IfErr, IfOk, IfSome, IsOk, OnErr, OnOk};
ghost use Rattle.std.specs.Process.{exit_status};
ghost use Rattle.copy_cells.specs.Commands.{AreTypes, IsAsked, word_of};
ghost use Rattle.pg_copy.specs.Arguments.{first_word};
ghost use Rattle.copy_cells.specs.Outputs.{Converts, Leaves};

mod progress;
mod watched;

use anyhow::{Context, Result, bail};
use pg_copy::arguments::{ArgumentFault, Request, parse};
use pg_copy::columns::Column;
use pg_copy::copy_fault::CopyFault;
use pg_copy::read::read;
use pg_copy::types::Base;
use pg_copy::write::write;
use progress::Progress;
use std::alloc::Global;
use std::cell::Cell;
use std::fmt::Write;
use std::process::ExitCode;
use std::{env, io};
use watched::Watched;

/// What `--version` prints.
const VERSION: &str = "Nidzovu 0.1.0";

/// The text that `--help` prints before the names of types.
const HELP: &str = "\
copy_cells read TYPE.. reads a binary COPY of columns of these types, and writes each row as a line of COPY's text
format:
    psql -c 'COPY t TO STDOUT (FORMAT binary)' | copy_cells read bigint text 'timestamp with time zone'
copy_cells write TYPE.. reads such lines, and writes a binary COPY of a row for each:
    copy_cells write bigint text timestamptz < lines | psql -c 'COPY t FROM STDIN (FORMAT binary)'
copy_read and copy_write stand for these two commands. Values are written, and read, as the server writes them with
DateStyle ISO, TimeZone UTC and IntervalStyle postgres.

A word may hold several types with commas between, so the types of a table are what this command prints:
    psql -Atc \"SELECT string_agg(format_type(atttypid, atttypmod), ', ' ORDER BY attnum)
        FROM pg_attribute WHERE attrelid = 't'::regclass AND attnum > 0 AND NOT attisdropped\"
scripts/columns t prints them too where the table has enumerated types, domains or composite types.

";

/// The text that `--help` prints after the names of types.
const NOTES: &str = "\
Names are those that format_type prints, too: integer, character varying(20), timestamp(3) with time zone.
[] after a type says arrays of it. A domain is named by its base type, an enumerated type enum, and a composite type
by its fields: (name text, price bigint). raw is a column of any type, as the bytes of its cells, like those of bytea.
Whole rows alone are written, and after a fault an end by which a server that reads them refuses them all. Standard
error tells the fault, with its row or line and its column, and the status is 1. Where standard error is a terminal and
standard output is none, the rows and the MB that were read are shown there.
";

/// The direction of the conversion.
#[derive(Debug, Clone, Copy)]
enum Direction {
    /// From a binary COPY to lines.
    Read,
    /// From lines to a binary COPY.
    Write,
}

impl Direction {
    /// Converts the input. After a fault it leaves what no server loads, as `read` and `write` do.
    fn copy<R: io::Read, W: io::Write>(
        self,
        alloc: Global,
        columns: &[Column],
        input: &mut R,
        output: &mut W,
    ) -> Result<(), CopyFault>
        ensures ok { OnOk result (Converts self columns.now (R.remaining input.old) (W.contents output.old)
            (W.contents output.new)) }
        ensures err { IfErr result (λ e. Leaves self columns.now e (R.remaining input.old) (R.remaining input.new)
            (W.contents output.old) (W.contents output.new)) }
    {
        match self {
            Direction::Read => read(alloc, columns, input, output),
            Direction::Write => write(alloc, columns, input, output),
        }
    }

    /// Whether the last line of the output tells why the conversion stopped.
    fn tells(self, outcome: &Result<(), CopyFault>) -> bool {
        matches!(self, Direction::Read) && !matches!(outcome, Ok(()) | Err(CopyFault::Write))
    }
}

fn main(rt: HostRuntime) -> Result<ExitCode> {
    let args = env::args(&rt).context("reading the arguments, which have to be UTF-8")?;
    let words: Vec<String> = args.skip(1).collect(rt.alloc())?;
    match request_of(rt.alloc(), words.as_slice())? {
        Asked::Help => help(&rt)?,
        Asked::Version => println!(rt; "{VERSION}")?,
        Asked::Copy(direction, columns) => return copy(rt, direction, columns.as_slice()),
        Asked::Refused(fault) => return refuse(&rt, &fault),
    }
    Ok(ExitCode::SUCCESS)
}

/// Converts standard input, and shows the progress if there is a terminal for it.
fn copy(rt: HostRuntime, direction: Direction, columns: &[Column]) -> Result<ExitCode> {
    let error = Cell::new(None);
    let mut input = Watched::new(rt.stdin(), &error);
    let mut output = Watched::new(rt.stdout(), &error);
    let Some(progress) = Progress::start(rt) else {
        let outcome = direction.copy(rt.alloc(), columns, &mut input, &mut output);
        return ended(&rt, outcome, error.get());
    };
    let mut input = progress.count(input, matches!(direction, Direction::Write));
    let mut output = progress.count(output, matches!(direction, Direction::Read));
    let outcome = direction.copy(rt.alloc(), columns, &mut input, &mut output);
    progress.finish(direction.tells(&outcome));
    ended(&rt, outcome, error.get())
}

/// Returns the exit status, which is 0 exactly if the whole input was converted. Otherwise a message
/// tells the fault, and for a failed read or write the error of the stream; but not that a pipe is
/// closed, whose reader wants no more.
fn ended(
    rt: &HostRuntime,
    outcome: Result<(), CopyFault>,
    error: Option<io::Error>,
) -> Result<ExitCode>
    ensures whole { OnOk outcome (IsOk result) }
    ensures zero { OnOk outcome (IfOk result (λ code. exit_status code ≡ 0)) }
    ensures part { IfOk result (λ code. exit_status code ≡ 0 → OnErr outcome ⊥) }
{
    let Err(fault) = outcome else {
        return Ok(ExitCode::from(0));
    };
    match error_of(&fault, error) {
        Some(error) if error.kind() == io::ErrorKind::BrokenPipe => {}
        Some(error) => eprintln!(rt; "Error: {fault}: {error}")?,
        None => eprintln!(rt; "Error: {fault}")?,
    }
    Ok(ExitCode::from(1))
}

/// Tells why a command line is refused, and returns the exit status 1. An error of `anyhow` would cut
/// a list of many types, and a text that is refused.
fn refuse(rt: &HostRuntime, fault: &ArgumentFault) -> Result<ExitCode>
    ensures { IfOk result (λ code. exit_status code ≡ 1) }
{
    let status = 1;
    eprintln!(rt; "Error: {fault}")?;
    Ok(ExitCode::from(status))
}

/// Returns the error of the stream, if the fault is that of a stream.
fn error_of(fault: &CopyFault, error: Option<io::Error>) -> Option<io::Error> {
    match fault {
        CopyFault::Read | CopyFault::Write => error,
        _ => None,
    }
}

/// Prints the help.
fn help(rt: &HostRuntime) -> Result<()> {
    rt.print(HELP)?;
    let with_arrays = names(rt.alloc(), true)?;
    let without_arrays = names(rt.alloc(), false)?;
    println!(rt; "Types:\n{with_arrays}\nand without arrays:\n{without_arrays}")?;
    Ok(rt.print(NOTES)?)
}

/// Returns the names of the types that have arrays, or of those that have none, on lines of about
/// 100 bytes.
fn names(alloc: Global, has_arrays: bool) -> Result<String> {
    let mut names = String::new(alloc);
    let mut width: usize = 0;
    for &base in Base::ALL {
        if base.has_arrays() != has_arrays {
            continue;
        }
        if width > 100 {
            names.push('\n')?;
            width = 0;
        }
        let name = base.name();
        write!(names, " {name}")?;
        width = width.saturating_add(name.len()).saturating_add(1);
    }
    Ok(names)
}

/// What the words of a command line ask for.
#[derive(Drop)]
enum Asked {
    Help,
    Version,
    Copy(Direction, Vec<Column>),
    /// A COPY of types that are refused.
    Refused(ArgumentFault),
}

/// Returns the direction that a word asks for.
fn direction_of(word: &str) -> Option<Direction>
    ensures { IfSome result (λ direction. word.now ≡ word_of direction) }
{
    match word {
        "read" => Some(Direction::Read),
        "write" => Some(Direction::Write),
        _ => None,
    }
}

/// Whether this is the first of the words.
fn is_first(word: &str, words: &[String]) -> bool
    ensures { result ≡ true → first_word words.now ≡ word.now }
{
    match words.first() {
        Some(first) => first.as_str() == word,
        None => false,
    }
}

/// Returns the words that are types: those after `--`, or all.
fn types_of(words: &[String]) -> &[String]
    ensures { AreTypes words.now result.now }
{
    match words.split_first() {
        Some((first, types)) if first.as_str() == "--" => types,
        _ => words,
    }
}

/// Returns what the words of a command line ask for.
fn request_of(alloc: Global, words: &[String]) -> Result<Asked>
    ensures { IfOk result (IsAsked words.now) }
{
    let Some((word, rest)) = words.split_first() else {
        bail!("no direction is given; --help says how");
    };
    if is_first("--help", words) {
        return Ok(Asked::Help);
    }
    if is_first("--version", words) || is_first("--version", rest) {
        return Ok(Asked::Version);
    }
    let Some(direction) = direction_of(word.as_str()) else {
        bail!("no direction {word}; --help says which");
    };
    match parse(alloc, types_of(rest)) {
        Ok(Request::Help) => Ok(Asked::Help),
        Ok(Request::Copy(columns)) => Ok(Asked::Copy(direction, columns)),
        Err(fault) => Ok(Asked::Refused(fault)),
    }
}
