//! The scripts of a folder.

use crate::case::{Outcome, run_case};
use crate::verdict::{Difference, Fault, Place, Verdict};
use case_lines::content_of;
use std::alloc::Global;
use std::fs;
use std::rt::Files;

/// The paths of the scripts in the folder, and in the folders that stand in it, from the folder on and in order.
pub fn script_names(rt: &HostRuntime, folder: &str) -> anyhow::Result<Vec<String>> {
    let mut names = Vec::new(rt.alloc());
    for entry in fs::read_dir(rt, folder)? {
        let entry = entry?;
        if entry.file_name().ends_with(".script") {
            names.push(String::from_str(rt.alloc(), entry.file_name())?)?;
        } else {
            push_scripts_of(rt, folder, entry.file_name(), &mut names)?;
        }
    }
    names.sort()?;
    Ok(names)
}

/// Puts the paths of the scripts of an inner folder at the end, where it is a folder.
fn push_scripts_of(
    rt: &HostRuntime,
    folder: &str,
    inner: &str,
    names: &mut Vec<String>,
) -> anyhow::Result<()> {
    let path = format!(in rt.alloc(); "{folder}/{inner}")?;
    if !fs::metadata(rt, path.as_str())?.is_dir() {
        return Ok(());
    }
    for entry in fs::read_dir(rt, path.as_str())? {
        let entry = entry?;
        let name = entry.file_name();
        if name.ends_with(".script") {
            names.push(format!(in rt.alloc(); "{inner}/{name}")?)?;
        }
    }
    Ok(())
}

/// Runs the case of a file, and prints its line.
pub fn run_file(rt: &HostRuntime, folder: &str, file: &str) -> anyhow::Result<Verdict> {
    let path = format!(in rt.alloc(); "{folder}/{file}")?;
    let text = fs::read(rt, path.as_str())?;
    let Outcome { run: _, verdict } = run_case(rt.alloc(), &text)?;
    print_verdict(rt, file.trim_end_matches(".script"), &verdict)?;
    Ok(verdict)
}

fn print_verdict(rt: &HostRuntime, name: &str, verdict: &Verdict) -> anyhow::Result<()> {
    match verdict {
        Verdict::Passes => println!(rt; "pass {name}")?,
        Verdict::BadLine(line) => println!(rt; "FAIL {name}: line {line} of the script is bad")?,
        Verdict::Fails(fault) => print_fault(rt, name, fault)?,
    }
    Ok(())
}

fn print_fault(rt: &HostRuntime, name: &str, fault: &Fault) -> anyhow::Result<()> {
    match fault {
        Fault::Differs(place, difference) => print_difference(rt, name, place, difference)?,
        Fault::Absent(path) => println!(rt; "FAIL {name}: there is no file {path}")?,
        Fault::Present(path) => println!(rt; "FAIL {name}: there is a file {path}")?,
        Fault::FileCount { expected, got } => {
            println!(rt; "FAIL {name}: {got} files, expected {expected}")?;
        }
        Fault::Gave { plugin, turn } => {
            println!(rt; "FAIL {name}: what plugin {plugin} gave back in its turn {turn}")?;
        }
        Fault::Status { expected, got } => {
            println!(rt; "FAIL {name}: status {got}, expected {expected}")?;
        }
    }
    Ok(())
}

fn print_difference(
    rt: &HostRuntime,
    name: &str,
    place: &Place,
    difference: &Difference,
) -> anyhow::Result<()> {
    let Difference {
        line,
        expected,
        got,
    } = difference;
    match place {
        Place::Output => println!(rt; "FAIL {name}: line {line} of the output")?,
        Place::Turn { plugin, turn } => {
            println!(rt; "FAIL {name}: line {line} of turn {turn} of plugin {plugin}")?;
        }
        Place::File(path) => println!(rt; "FAIL {name}: line {line} of the file {path}")?,
    }
    println!(rt; "  expected {}", shown(rt.alloc(), expected.as_slice())?)?;
    println!(rt; "  got      {}", shown(rt.alloc(), got.as_slice())?)?;
    Ok(())
}

/// A line of an output or of a file as it is printed.
fn shown(alloc: Global, line: &[u8]) -> anyhow::Result<String> {
    if line.is_empty() {
        return Ok(String::from_str(alloc, "nothing more")?);
    }
    let content = content_of(line);
    let text = String::from_utf8_lossy(alloc, content)?;
    if content.len() < line.len() {
        return Ok(text);
    }
    Ok(format!(in alloc; "{text} (without LF)")?)
}
