// Enters the sets, devices and delta lists of a rule file, and says what each was answered.
ghost use Rattle.std.specs.Prelude.{◌≡◌, map, vec_len, IfOk};

use denials::denial::{Denial, Part};
use rulefile::{RuleFile, Statement};
use std::alloc::{AllocError, Global};
use std::io;
use storage::delta::Delta;
use storage::entries::{enter_deltas, enter_device, enter_set};
use storage::interner::Interner;
use storage::span::Span;

// The number of an entry or why it was denied; none for a statement of another kind.
type Answer = Option<Result<u16, Denial>>;

// The line of a statement, and its number or why it was denied.
fn print_answer(rt: &HostRuntime, line: usize, answer: Result<u16, Denial>) -> io::Result<()> {
    match answer {
        Ok(n) => println!(rt; "{line} taken {n}"),
        Err(denial) => println!(rt; "{line} denied {denial}"),
    }
}

// Enters each statement that `enter` answers.
fn enter_each<F: FnMut(&Statement) -> Result<Answer, AllocError>>(
    rt: &HostRuntime,
    file: &RuleFile,
    mut enter: F,
) -> anyhow::Result<()>
    requires { F.IsAlwaysCallable enter }
{
    for line in file.statements.iter() {
        if let Some(answer) = enter(&line.statement)? {
            print_answer(rt, line.number, answer)?;
        }
    }
    Ok(())
}

// A pool of so many elements and a table of so many places, to bring.
fn bring<T: Copy + Default, H: Copy + Default>(
    heap: Global,
    elements: u32,
    places: u32,
) -> Result<(Vec<T>, Vec<Span<H>>), AllocError>
    ensures { IfOk result (λ r. (vec_len r.0 ≡ elements) × (vec_len r.1 ≡ places)) }
{
    let pool = vec![in heap; T::default(); elements as usize]?;
    let table = vec![in heap; Span::default(); places as usize]?;
    Ok((pool, table))
}

// The deltas of a statement as the part takes them: no `From`, since both types are other crates'.
fn deltas_of(heap: Global, list: &[rulefile::Delta]) -> Result<Vec<Delta>, AllocError>
    ensures { IfOk result (λ v. v.items ≡ map (λ d. record { region = d.region; delta = d.delta }) list.now) }
{
    list.iter()
        .map(|entry| Delta {
            region: entry.region,
            delta: entry.delta,
        })
        .collect(heap)
}

// The three below stay apart: a bound on a closure over `&mut Interner` is refused, so that each makes its interner and lends it.
fn enter_sets(rt: &HostRuntime, file: &RuleFile) -> anyhow::Result<()> {
    let storage = file.storage;
    let (mut pool, mut table) = bring(rt.alloc(), storage.set_pool, storage.sets)?;
    let mut sets = Interner::new(pool.as_mut_slice(), table.as_mut_slice(), 65534, Part::Sets);
    enter_each(rt, file, |statement| match statement {
        Statement::Set { entry: _, glyphs } => Ok(Some(enter_set(&mut sets, glyphs.as_slice()))),
        _ => Ok(None),
    })
}

fn enter_devices(rt: &HostRuntime, file: &RuleFile) -> anyhow::Result<()> {
    let storage = file.storage;
    let (mut pool, mut table) = bring(rt.alloc(), storage.device_pool, storage.devices)?;
    let mut devices = Interner::new(
        pool.as_mut_slice(),
        table.as_mut_slice(),
        65535,
        Part::Devices,
    );
    enter_each(rt, file, |statement| match statement {
        Statement::Device {
            entry: _,
            first,
            last,
            values,
        } => Ok(Some(enter_device(&mut devices, *first, *last, values.as_slice()))),
        _ => Ok(None),
    })
}

fn enter_delta_lists(rt: &HostRuntime, file: &RuleFile) -> anyhow::Result<()> {
    let heap = rt.alloc();
    let storage = file.storage;
    let (mut pool, mut table) = bring(heap, storage.delta_pool, storage.deltas)?;
    let mut lists = Interner::new(
        pool.as_mut_slice(),
        table.as_mut_slice(),
        65535,
        Part::Deltas,
    );
    enter_each(rt, file, |statement| match statement {
        Statement::Deltas { entry: _, deltas } => {
            let list = deltas_of(heap, deltas.as_slice())?;
            Ok(Some(enter_deltas(&mut lists, list.as_slice())))
        },
        _ => Ok(None),
    })
}

// Enters the sets, then the devices, then the delta lists.
pub fn enter_all(rt: &HostRuntime, file: &RuleFile) -> anyhow::Result<()> {
    enter_sets(rt, file)?;
    enter_devices(rt, file)?;
    enter_delta_lists(rt, file)
}
