//! The work that `scripts/bench` measures: each conversion, rows of several columns, parameters,
//! documents, and types.
//!
//! `benchmark CASE TURNS` runs a case that number of times, and prints its name and the checksum of
//! what it made. Without arguments it runs each case once, except those of a megabyte and more.
#![tactic(auto)]

mod cases;
mod columns;
mod dates;
mod documents;
mod lists;
mod maps;
mod numbers;
mod records;
mod small_values;
mod sum;
mod texts;
mod types;
mod values;
mod work;

use anyhow::{Context, Result};
use std::alloc::Global;
use std::env;

fn main(rt: HostRuntime) -> Result<()> {
    let mut words = env::args(&rt)?.skip(1);
    match (words.next(), words.next()) {
        (Some(case), Some(turns)) => {
            let turns = turns.as_str().parse::<u32>().context("TURNS is no number")?;
            show(&rt, rt.alloc(), case.as_str(), turns)
        }
        _ => show_once(&rt, rt.alloc(), cases::NAMES),
    }
}

/// Runs each of the cases once.
fn show_once(rt: &impl Print, alloc: Global, cases: &[&str]) -> Result<()> {
    for case in cases {
        show(rt, alloc, case, 1)?;
    }
    Ok(())
}

/// Runs the case `turns` times, and prints its name and its checksum.
fn show(rt: &impl Print, alloc: Global, case: &str, turns: u32) -> Result<()> {
    let sum = cases::run(alloc, case, turns).context("no such CASE")??;
    println!(rt; "{case} {sum:016x}")?;
    Ok(())
}
