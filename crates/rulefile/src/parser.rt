// Reads a rule file line by line, and keeps what the lines before have said.
ghost use Rattle.rulefile.specs.Names.{names_in};
ghost use Rattle.rulefile.specs.Steps.{before_lookup, rule_of};
ghost use Rattle.rulefile.specs.Words.{words_in};
ghost use Rattle.std.specs.Prelude.{◌≡◌, OnOk};

use crate::entries::read_entry;
use crate::fault::{Fault, Stop};
use crate::keywords::{Keyword, RuleKind, keyword_of};
use crate::names::Names;
use crate::rules::{EntryKind, Line, Lookup, LookupKind, Statement, Storage, StoreKind};
use crate::statements::{
    read_class, read_end, read_lookup, read_pair, read_question, read_single, read_store,
};
use crate::storage::read_storage;
use crate::words::{cut_words, word_at, words_from};
use std::alloc::{AllocError, Global};

// What the lines so far have said, and where it is kept.
// No model: it is taken apart in the end, and `state_of` is what its fields say.
#[derive(Debug, Drop)]
pub(crate) struct Parser {
    pub heap: Global,
    pub storage: Option<Storage>,
    pub store: Option<StoreKind>,
    pub lookup: Option<Lookup>,
    pub names: Names,
    pub statements: Vec<Line>,
}

// `storage` and `store` stand before `lookup`, each at most once.
fn check_opening(opened: bool, given: bool) -> Result<(), Fault>
    ensures { result ≡ before_lookup opened given }
{
    if opened {
        Err(Fault::AfterLookup)
    } else if given {
        Err(Fault::Twice)
    } else {
        Ok(())
    }
}

// The statements that hold no list and give no name.
fn read_rule(
    names: &Names,
    kind: LookupKind,
    rule: RuleKind,
    words: &[&[u8]],
) -> Result<Statement, Fault>
    ensures { result ≡ rule_of (names_in names.now) kind rule (words_in words.now) }
{
    // No switch on a step: each pair is a sentence of the file format, and the contract says it case by case.
    match (rule, kind) {
        (RuleKind::Single, LookupKind::Single) => read_single(names, words),
        (RuleKind::Single, LookupKind::Pair) => Err(Fault::SingleOnly),
        (RuleKind::Pair, LookupKind::Pair) => read_pair(names, words),
        (RuleKind::Pair, LookupKind::Single) => Err(Fault::PairOnly),
        (RuleKind::Class, LookupKind::Pair) => read_class(names, words),
        (RuleKind::Class, LookupKind::Single) => Err(Fault::PairOnly),
        (RuleKind::Break, _) => read_end(words_from(words, 1)).map(|()| Statement::Break),
        (RuleKind::Build, _) => read_end(words_from(words, 1)).map(|()| Statement::Build),
        (RuleKind::Ask, _) => {
            let question = read_question(kind, words)?;
            Ok(Statement::Ask { question })
        }
    }
}

impl Parser {
    ghost use Rattle.rulefile.specs.Entries.{said};
    ghost use Rattle.rulefile.specs.Files.{nothing};
    ghost use Rattle.rulefile.specs.Outcomes.{Answered};
    ghost use Rattle.rulefile.specs.Steps.{and_names, and_says, enter_step, entry_here, line_step, lookup_step, may_enter, rule_here, rule_step, state_of, statement_step, storage_step, store_step};
    ghost use Rattle.rulefile.specs.Names.{name_given};

    // Before the first line.
    pub(crate) fn new(heap: Global) -> Parser
        ensures { state_of result ≡ nothing }
    {
        Parser {
            heap,
            storage: None,
            store: None,
            lookup: None,
            names: Names {
                entries: Vec::new(heap),
            },
            statements: Vec::new(heap),
        }
    }

    fn take_storage(&mut self, words: &[&[u8]]) -> Result<(), Stop>
        ensures { Answered (λ _. state_of self.new) result (storage_step (state_of self.old) (words_in words.now)) }
    {
        check_opening(self.lookup.is_some(), self.storage.is_some())?;
        let storage = read_storage(words)?;
        self.storage = Some(storage);
        Ok(())
    }

    // Stays apart from `take_storage`: they differ in the field and in what reads it, and a function over both is longer.
    fn take_store(&mut self, words: &[&[u8]]) -> Result<(), Stop>
        ensures { Answered (λ _. state_of self.new) result (store_step (state_of self.old) (words_in words.now)) }
    {
        check_opening(self.lookup.is_some(), self.store.is_some())?;
        let store = read_store(words)?;
        self.store = Some(store);
        Ok(())
    }

    fn take_lookup(&mut self, words: &[&[u8]]) -> Result<(), Stop>
        ensures { Answered (λ _. state_of self.new) result (lookup_step (state_of self.old) (words_in words.now)) }
    {
        if self.lookup.is_some() {
            return Err(Stop::Wrong(Fault::Twice));
        }
        let lookup = read_lookup(words)?;
        self.lookup = Some(lookup);
        Ok(())
    }

    // One statement more.
    fn say(&mut self, number: usize, statement: Statement) -> Result<(), AllocError>
        ensures { OnOk result (state_of self.new ≡ and_says (state_of self.old) number (said statement)) }
    {
        self.statements.push(Line { number, statement })?;
        Ok(())
    }

    // One name more.
    fn give_name(&mut self, kind: EntryKind, number: usize, name: &[u8]) -> Result<(), AllocError>
        ensures { OnOk result (state_of self.new ≡ and_names (state_of self.old) (name_given kind number name.now)) }
    {
        self.names.give(self.heap, kind, number, name)
    }

    fn read_rule_here(&self, rule: RuleKind, words: &[&[u8]]) -> Result<Statement, Fault>
        ensures { result ≡ rule_here (state_of self.now) rule (words_in words.now) }
    {
        let lookup = self.lookup.ok_or(Fault::NoLookup)?;
        read_rule(&self.names, lookup.kind, rule, words)
    }

    // A name may be given after `lookup`, once.
    fn check_entry(&self, name: &[u8]) -> Result<(), Fault>
        ensures { result ≡ may_enter (state_of self.now) name.now }
    {
        if self.lookup.is_none() {
            return Err(Fault::NoLookup);
        }
        self.names.check_fresh(name)
    }

    fn read_entry_here(&self, kind: EntryKind, words: &[&[u8]]) -> Result<Statement, Stop>
        ensures { Answered said result (entry_here (state_of self.now) kind (words_in words.now)) }
    {
        self.check_entry(word_at(words, 1))?;
        read_entry(self.heap, kind, self.names.len(), words)
    }

    fn take_rule(&mut self, number: usize, rule: RuleKind, words: &[&[u8]]) -> Result<(), Stop>
        ensures { Answered (λ _. state_of self.new) result (rule_step (state_of self.old) number rule (words_in words.now)) }
    {
        let statement = self.read_rule_here(rule, words)?;
        self.say(number, statement)?;
        Ok(())
    }

    fn take_entry(&mut self, number: usize, kind: EntryKind, words: &[&[u8]]) -> Result<(), Stop>
        ensures { Answered (λ _. state_of self.new) result (enter_step (state_of self.old) number kind (words_in words.now)) }
    {
        let statement = self.read_entry_here(kind, words)?;
        self.give_name(kind, number, word_at(words, 1))?;
        self.say(number, statement)?;
        Ok(())
    }

    // The statement of a line that has words.
    fn take_statement(&mut self, number: usize, words: &[&[u8]]) -> Result<(), Stop>
        ensures { Answered (λ _. state_of self.new) result (statement_step (state_of self.old) number (words_in words.now)) }
    {
        let keyword = keyword_of(word_at(words, 0)).ok_or(Fault::Statement)?;
        match keyword {
            Keyword::Storage => self.take_storage(words),
            Keyword::Store => self.take_store(words),
            Keyword::Lookup => self.take_lookup(words),
            Keyword::Entry(kind) => self.take_entry(number, kind, words),
            Keyword::Rule(rule) => self.take_rule(number, rule, words),
        }
    }

    // One line more.
    pub(crate) fn take_line(&mut self, number: usize, line: &[u8]) -> Result<(), Stop>
        ensures { Answered (λ _. state_of self.new) result (line_step (state_of self.old) number line.now) }
    {
        let words = cut_words(self.heap, line)?;
        if words.is_empty() {
            return Ok(());
        }
        self.take_statement(number, words.as_slice())
    }
}
