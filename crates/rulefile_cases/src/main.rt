// Reads rule files from standard input, one a line with `;` for its line ends, and prints what each says last.
#![tactic(auto)]

mod show;

ghost use Rattle.std.specs.Prelude.{◌≡◌, ◌==◌, if◌then◌else◌, map, IfOk};

use rulefile::{Error, parse};
use show::show_file;
use std::alloc::{AllocError, Global};

// The text of a case, with a line feed for each `;`.
fn text_of(heap: Global, case: &[u8]) -> Result<Vec<u8>, AllocError>
    ensures { IfOk result (λ v. v.items ≡ map (λ b. if b == 59 then 10 else b) case.now) }
{
    case.iter()
        .map(|byte| if *byte == b';' { b'\n' } else { *byte })
        .collect(heap)
}

fn show_case(rt: &HostRuntime, case: &str) -> anyhow::Result<()> {
    let text = text_of(rt.alloc(), case.as_bytes())?;
    match parse(rt.alloc(), text.as_slice()) {
        Ok(file) => show_file(rt, &file)?,
        Err(Error::Wrong(mistake)) => println!(rt; "{mistake}")?,
        Err(Error::Memory) => return Err(Error::Memory.into()),
    }
    Ok(())
}

fn main(rt: HostRuntime) -> anyhow::Result<()> {
    for line in rt.lines(rt.alloc()) {
        let case = line?;
        show_case(&rt, case.as_str())?;
    }
    Ok(())
}
