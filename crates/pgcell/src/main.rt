//! Answers each line of standard input with a line on standard output: `norm NAME CELL`, which reads
//! the cell as the type of that name and writes its value again, `type OID` and `lsn TEXT`. A cell is
//! its bytes in hexadecimal digits, `-` if it has none, or `NULL`. With `--names` it prints the names
//! of types instead, one line for each base name; other arguments are ignored.
//!
//! The exit status is 0 if every line was answered or the names were printed, and 1 if the input
//! could not be read, the output could not be written, or memory ran out. Nothing else is printed.
#![tactic(auto)]

ghost use Rattle.std.specs.Prelude.{◌≡◌, MatchResult};
ghost use Rattle.std.specs.Process.{exit_status};

mod answer;
mod norm;
mod request;
mod run;
mod user_types;

use named_types::Base;
use run::run;
use std::env;
use std::io::{self, Write};
use std::process::ExitCode;

fn main(rt: HostRuntime) -> ExitCode {
    let Ok(mut arguments) = env::args(&rt) else {
        return ExitCode::FAILURE;
    };
    match arguments.nth(1) {
        Some(argument) if argument.as_str() == "--names" => status(print_names(&mut rt.stdout())),
        _ => status(run(rt.alloc(), &mut rt.stdin(), &mut rt.stdout())),
    }
}

/// Returns the exit status: 0 if all was printed, and 1 after an error.
fn status<E: Drop>(outcome: Result<(), E>) -> ExitCode
    ensures { MatchResult outcome (λ _. exit_status result ≡ 0) (λ _. exit_status result ≡ 1) }
{
    match outcome {
        Ok(()) => ExitCode::SUCCESS,
        Err(_) => ExitCode::FAILURE,
    }
}

/// Prints the names of each base name, one line for each.
fn print_names<W: Write>(output: &mut W) -> io::Result<()> {
    for &base in Base::ALL {
        let name = base.name();
        write!(output, "{name} {name}?")?;
        if base.has_arrays() {
            write!(output, " {name}[] {name}?[]")?;
        }
        writeln!(output)?;
    }
    Ok(())
}
