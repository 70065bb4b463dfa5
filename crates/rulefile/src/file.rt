// Reads a whole rule file. Linear in the text, but for the search of each name among those before it.
ghost use Rattle.rulefile.specs.Files.{Parsed, Rises, Within, file_of, finished, lines_from, lines_of, nothing, parsed};
ghost use Rattle.rulefile.specs.Steps.{state_of};
ghost use Rattle.rulefile.specs.Words.{words_in};
ghost use Rattle.std.specs.Prelude.{◌≡◌, length, IfOk, IfErr};

use crate::fault::Fault;
use crate::names::Names;
use crate::parser::Parser;
use crate::rules::{Error, Mistake, RuleFile, StoreKind};
use crate::storage::default_storage;
use std::alloc::{AllocError, Global};

// The lines of a text; what follows its last line end is a line too.
fn cut_lines(heap: Global, text: &[u8]) -> Result<Vec<&[u8]>, AllocError>
    ensures { IfOk result (λ v. words_in v.items ≡ lines_of text.now) }
{
    text.split(|byte| *byte == b'\n').collect(heap)
}

// What the lines say, one after another.
fn read_lines(heap: Global, lines: &[&[u8]]) -> Result<Parser, Error>
    ensures { Parsed state_of result (lines_from nothing 1 (words_in lines.now)) }
{
    let mut parser = Parser::new(heap);
    for (at, line) in lines.iter().enumerate() {
        let number = at + 1;
        parser
            .take_line(number, line)
            .map_err(|stop| stop.at(number))?;
    }
    Ok(parser)
}

// The file that the lines have said, which has to have a lookup.
fn finish(parser: Parser, lines: usize) -> Result<RuleFile, Error>
    ensures { Parsed file_of result (finished lines (state_of parser)) }
{
    let Parser {
        heap: _,
        storage,
        store,
        lookup,
        names: Names { entries },
        statements,
    } = parser;
    let lookup = lookup.ok_or(Error::Wrong(Mistake {
        line: lines,
        fault: Fault::NoLookup,
    }))?;
    Ok(RuleFile {
        storage: storage.unwrap_or(default_storage()),
        store: store.unwrap_or(StoreKind::TrimSharing),
        lookup,
        entries,
        statements,
    })
}

// What the text says, or its first mistake: of this answer `parse` shows two facts more.
fn read_text(heap: Global, text: &[u8]) -> Result<RuleFile, Error>
    ensures { Parsed file_of result (parsed text.now) }
{
    let lines = cut_lines(heap, text)?;
    let parser = read_lines(heap, lines.as_slice())?;
    finish(parser, lines.len())
}

// What the text of a rule file says, or its first mistake.
pub fn parse(heap: Global, text: &[u8]) -> Result<RuleFile, Error>
    ensures value { Parsed file_of result (parsed text.now) }
    ensures place { IfErr result (Within (length (lines_of text.now))) }
    ensures rising { IfOk result (λ f. Rises 0 (file_of f).statements) }
{
    read_text(heap, text)
}
