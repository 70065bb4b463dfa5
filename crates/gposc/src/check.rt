// `gposc check RULES`: reads a rule file, and says what it has.
use crate::enter::enter_all;
use anyhow::anyhow;
use rulefile::{Error, RuleFile, StatementKind, parse};
use std::{fs, io};

pub fn print_usage(rt: &HostRuntime) -> io::Result<()> {
    println!(rt; "usage: gposc check RULES")?;
    println!(rt; "  reads a rule file and prints its statements and names")
}

// Reads a file and prints what it has; a wrong file is reported as FILE:LINE: text on standard error.
pub fn check_file(rt: &HostRuntime, path: &str) -> anyhow::Result<()> {
    let Ok(text) = fs::read(rt, path) else {
        eprintln!(rt; "{path}: this file cannot be read")?;
        return Err(anyhow!("no rule file"));
    };
    match parse(rt.alloc(), text.as_slice()) {
        Ok(file) => {
            print_counts(rt, &file)?;
            print_names(rt, &file)?;
            enter_all(rt, &file)
        }
        Err(Error::Memory) => {
            eprintln!(rt; "{path}: there is not enough memory for this file")?;
            Err(anyhow!("no memory"))
        }
        Err(Error::Wrong(mistake)) => {
            eprintln!(rt; "{path}:{mistake}")?;
            Err(anyhow!("the rule file is wrong"))
        }
    }
}

// The kinds of statements in the order in which their counts are printed.
const KINDS: [StatementKind; 9] = [
    StatementKind::Set,
    StatementKind::Device,
    StatementKind::Deltas,
    StatementKind::Single,
    StatementKind::Pair,
    StatementKind::Class,
    StatementKind::Break,
    StatementKind::Build,
    StatementKind::Ask,
];

// How many statements of each kind there are.
fn print_counts(rt: &HostRuntime, file: &RuleFile) -> io::Result<()> {
    for kind in KINDS {
        let count = file.count(kind);
        println!(rt; "{kind} {count}")?;
    }
    Ok(())
}

// Each name, what it names, the line that gives it, and how many statements use it.
fn print_names(rt: &HostRuntime, file: &RuleFile) -> io::Result<()> {
    for (place, entry) in file.entries.iter().enumerate() {
        let kind = entry.kind;
        let line = entry.line;
        let uses = file.uses(place);
        match std::str::from_utf8(entry.name.as_slice()) {
            Ok(name) => println!(rt; "{kind} {name} line {line} used {uses}")?,
            Err(_) => println!(rt; "{kind} line {line} used {uses}")?,
        }
    }
    Ok(())
}
