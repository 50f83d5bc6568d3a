//! Runs the cases of `data/` over memory, from words and files to the output, the status and the
//! line of the fault.
//!
//! It prints for each file of cases how many passed, and each case that failed with what differs.
#![tactic(auto)]

mod answer;
mod suite;

use answer::answer_of;
use std::alloc::Global;
use std::fs;
use std::process::ExitCode;
use suite::{Case, Suite};

/// The file that names the files of cases, one a line.
const INDEX: &str = "suites.txt";

/// Runs a case, prints what differs, and says whether nothing did.
fn passes(
    rt: &impl Print,
    alloc: Global,
    file: &str,
    suite: &Suite,
    case: &Case,
) -> anyhow::Result<bool> {
    let answer = answer_of(alloc, suite, case)?;
    let differences = answer.differences(alloc, suite, case)?;
    if differences.is_empty() {
        return Ok(true);
    }
    println!(rt; "{file}: {} FAILED", case.name)?;
    print!(rt; "{differences}")?;
    Ok(false)
}

/// Runs the cases of a file, and says whether all passed.
fn run_file(rt: &HostRuntime, alloc: Global, file: &str) -> anyhow::Result<bool> {
    let text = fs::read_to_string(rt, file)?;
    let suite: Suite = toml::from_str(alloc, text.as_str())?;
    let mut passed: usize = 0;
    for case in &suite.case {
        if passes(rt, alloc, file, &suite, case)? {
            passed = passed.saturating_add(1);
        }
    }
    println!(rt; "{file}: {passed} of {} cases passed", suite.case.len())?;
    Ok(passed == suite.case.len())
}

fn main(rt: HostRuntime) -> anyhow::Result<ExitCode> {
    let alloc = rt.alloc();
    let index = fs::read_to_string(&rt, INDEX)?;
    let mut all_passed = true;
    for file in index.as_str().lines() {
        all_passed &= run_file(&rt, alloc, file)?;
    }
    Ok(if all_passed {
        ExitCode::SUCCESS
    } else {
        ExitCode::FAILURE
    })
}
