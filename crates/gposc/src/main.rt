// The command `gposc`: checks rule files.
#![tactic(auto)]

mod check;
mod enter;

use anyhow::anyhow;
use check::{check_file, print_usage};
use std::env;

fn main(rt: HostRuntime) -> anyhow::Result<()> {
    let mut words = env::args(&rt)?;
    let _program = words.next();
    let Some(command) = words.next() else {
        print_usage(&rt)?;
        return Ok(());
    };
    match (command.as_str(), words.next(), words.next()) {
        ("check", Some(path), None) => check_file(&rt, path.as_str()),
        _ => {
            print_usage(&rt)?;
            Err(anyhow!("wrong words"))
        }
    }
}
