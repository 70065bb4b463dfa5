// Prints what a file says: how the lookup is opened, and the last statement.
use rulefile::{
    Lookup, Metric, Question, Record, Records, Reference, RuleFile, SetReference, Statement,
    Storage,
};
use std::{fmt, io};

// A device or a delta list beside a metric.
#[derive(Clone, Copy, Debug, PartialEq, Eq)]
struct Beside(Reference);

impl fmt::Display for Beside {
    fn fmt<W: fmt::Write>(&self, f: &mut fmt::Formatter<W>) -> fmt::Result {
        match self.0 {
            Reference::DeviceNumber(n) => write!(f, "device#{n}"),
            Reference::DeltasNumber(n) => write!(f, "deltas#{n}"),
            Reference::Entered(entry) => write!(f, "entry {entry}"),
        }
    }
}

// A set of a class rule.
#[derive(Clone, Copy, Debug, PartialEq, Eq)]
struct Set(SetReference);

impl fmt::Display for Set {
    fn fmt<W: fmt::Write>(&self, f: &mut fmt::Formatter<W>) -> fmt::Result {
        match self.0 {
            SetReference::SetNumber(n) => write!(f, "#{n}"),
            SetReference::EnteredSet(entry) => write!(f, "entry {entry}"),
        }
    }
}

fn show_metric(rt: &HostRuntime, word: &str, metric: Metric) -> io::Result<()> {
    let default = metric.default;
    print!(rt; " {word}={default}")?;
    if let Some(reference) = metric.beside {
        let beside = Beside(reference);
        print!(rt; "@{beside}")?;
    }
    Ok(())
}

fn show_record(rt: &HostRuntime, record: Record) -> io::Result<()> {
    print!(rt; " [")?;
    let metrics = [
        ("xadv", record.x_advance),
        ("yadv", record.y_advance),
        ("xpla", record.x_placement),
        ("ypla", record.y_placement),
    ];
    for (word, metric) in metrics {
        if let Some(metric) = metric {
            show_metric(rt, word, metric)?;
        }
    }
    print!(rt; " ]")
}

fn show_records(rt: &HostRuntime, records: Records) -> io::Result<()> {
    show_record(rt, records.first)?;
    show_record(rt, records.second)
}

fn show_question(rt: &HostRuntime, question: Question) -> io::Result<()> {
    let Question {
        first,
        second,
        ppem,
        region,
    } = question;
    print!(rt; "ask {first}")?;
    if let Some(second) = second {
        print!(rt; " {second}")?;
    }
    print!(rt; " ppem {ppem}")?;
    if let Some(region) = region {
        print!(rt; " region {region}")?;
    }
    Ok(())
}

fn show_statement(rt: &HostRuntime, statement: &Statement) -> io::Result<()> {
    match statement {
        Statement::Set { entry, glyphs } => print!(rt; "set {entry} {glyphs:?}"),
        Statement::Device {
            entry,
            first,
            last,
            values,
        } => print!(rt; "device {entry} {first} {last} {values:?}"),
        Statement::Deltas { entry, deltas } => {
            print!(rt; "deltas {entry}")?;
            for delta in deltas {
                let region = delta.region;
                let value = delta.delta;
                print!(rt; " {region}:{value}")?;
            }
            Ok(())
        }
        Statement::Single { glyph, record } => {
            print!(rt; "single {glyph}")?;
            show_record(rt, *record)
        }
        Statement::Pair {
            first,
            second,
            records,
        } => {
            print!(rt; "pair {first} {second}")?;
            show_records(rt, *records)
        }
        Statement::Class {
            first,
            second,
            records,
        } => {
            let first = Set(*first);
            let second = Set(*second);
            print!(rt; "class {first} {second}")?;
            show_records(rt, *records)
        }
        Statement::Break => print!(rt; "break"),
        Statement::Build => print!(rt; "build"),
        Statement::Ask { question } => show_question(rt, *question),
    }
}

fn show_storage(rt: &HostRuntime, storage: Storage) -> io::Result<()> {
    let Storage {
        sets,
        set_pool,
        devices,
        device_pool,
        deltas,
        delta_pool,
        rules,
        store,
    } = storage;
    print!(rt;
        "storage {sets} {set_pool} {devices} {device_pool} {deltas} {delta_pool} {rules} {store} "
    )
}

fn show_lookup(rt: &HostRuntime, lookup: Lookup) -> io::Result<()> {
    let kind = lookup.kind;
    let flags = lookup.flags;
    print!(rt; "lookup {kind} {flags}")?;
    if let Some(n) = lookup.mark_set {
        print!(rt; " markset {n}")?;
    }
    Ok(())
}

// The last statement, or how the lookup is opened where there is none.
pub fn show_file(rt: &HostRuntime, file: &RuleFile) -> io::Result<()> {
    match file.statements.last() {
        Some(line) => {
            let number = line.number;
            print!(rt; "{number}: ")?;
            show_statement(rt, &line.statement)?;
        }
        None => {
            show_storage(rt, file.storage)?;
            let store = file.store;
            print!(rt; "{store} ")?;
            show_lookup(rt, file.lookup)?;
        }
    }
    println!(rt; "")
}
