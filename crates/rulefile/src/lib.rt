// Reads rule files: the text of a lookup's rules, one statement a line.
#![tactic(auto)]

mod entries;
mod fault;
mod file;
mod keywords;
mod lists;
mod names;
mod numbers;
mod parser;
mod queries;
mod records;
mod rules;
mod statements;
mod storage;
mod words;

pub use fault::Fault;
pub use file::parse;
pub use rules::{
    Delta, Entry, EntryKind, Error, Line, Lookup, LookupKind, Metric, Mistake, Question, Record,
    Records, Reference, RuleFile, SetReference, Statement, StatementKind, Storage, StoreKind,
};
