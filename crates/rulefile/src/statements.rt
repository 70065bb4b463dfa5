// Reads the statements that hold no list: rules, questions, and how a lookup is opened.
ghost use Rattle.std.specs.Prelude.{◌≡◌};
ghost use Rattle.rulefile.specs.Names.{names_in};
ghost use Rattle.rulefile.specs.Statements.{after_option, asked_of, class_of, lookup_kind_of, lookup_of, no_more, option_of, pair_of, past_second, question_of, second_of, single_of, store_kind_of, store_of};
ghost use Rattle.rulefile.specs.Words.{words_in};

use crate::fault::Fault;
use crate::lists::Item;
use crate::names::Names;
use crate::numbers::{number16, unsigned};
use crate::records::{read_record, read_records};
use crate::rules::{Lookup, LookupKind, Question, Statement, StoreKind};
use crate::words::{word_at, words_from};

// The size and the region of a question.
#[derive(Clone, Copy, Debug, PartialEq, Eq)]
struct Asked {
    ppem: u16,
    region: Option<u16>,
}

// The number after a key that the words may begin with.
fn read_option(words: &[&[u8]], key: &[u8], fault: Fault) -> Result<Option<u16>, Fault>
    ensures { result ≡ option_of (words_in words.now) key.now fault }
{
    if word_at(words, 0) != key {
        return Ok(None);
    }
    number16(word_at(words, 1)).map(Some).ok_or(fault)
}

// The words after a key and its number, if they are there.
fn past_option<'a>(words: &'a [&'a [u8]], option: Option<u16>) -> &'a [&'a [u8]]
    ensures { words_in result.now ≡ after_option option (words_in words.now) }
{
    match option {
        Some(_) => words_from(words, 2),
        None => words,
    }
}

// The statement has no more words.
pub(crate) fn read_end(words: &[&[u8]]) -> Result<(), Fault>
    ensures { result ≡ no_more (words_in words.now) }
{
    if words.is_empty() {
        Ok(())
    } else {
        Err(Fault::Extra)
    }
}

impl TryFrom<&[u8]> for LookupKind {
    type Error = Fault;

    ghost try_from_gives = { λ w r. r ≡ lookup_kind_of w.now };

    fn try_from(word: &[u8]) -> Result<LookupKind, Fault> {
        match word {
            b"single" => Ok(LookupKind::Single),
            b"pair" => Ok(LookupKind::Pair),
            _ => Err(Fault::LookupKind),
        }
    }
}

impl TryFrom<&[u8]> for StoreKind {
    type Error = Fault;

    ghost try_from_gives = { λ w r. r ≡ store_kind_of w.now };

    fn try_from(word: &[u8]) -> Result<StoreKind, Fault> {
        match word {
            b"flat" => Ok(StoreKind::Flat),
            b"sharing" => Ok(StoreKind::Sharing),
            b"trim+flat" => Ok(StoreKind::TrimFlat),
            b"trim+sharing" => Ok(StoreKind::TrimSharing),
            _ => Err(Fault::StoreKind),
        }
    }
}

// lookup KIND FLAGS [markset N]
pub(crate) fn read_lookup(words: &[&[u8]]) -> Result<Lookup, Fault>
    ensures { result ≡ lookup_of (words_in words.now) }
{
    let kind = LookupKind::try_from(word_at(words, 1))?;
    let flags = unsigned(word_at(words, 2), 0xffff_ffff).ok_or(Fault::Flags)?;
    let rest = words_from(words, 3);
    let mark_set = read_option(rest, b"markset", Fault::MarkSet)?;
    read_end(past_option(rest, mark_set))?;
    Ok(Lookup {
        kind,
        flags,
        mark_set,
    })
}

// store KIND
pub(crate) fn read_store(words: &[&[u8]]) -> Result<StoreKind, Fault>
    ensures { result ≡ store_of (words_in words.now) }
{
    read_end(words_from(words, 2))?;
    StoreKind::try_from(word_at(words, 1))
}

// single GLYPH RECORD
pub(crate) fn read_single(names: &Names, words: &[&[u8]]) -> Result<Statement, Fault>
    ensures { result ≡ single_of (names_in names.now) (words_in words.now) }
{
    let glyph = u16::read(word_at(words, 1))?;
    let record = read_record(names, words_from(words, 2))?;
    Ok(Statement::Single { glyph, record })
}

// pair GLYPH GLYPH RECORD [/ RECORD]
pub(crate) fn read_pair(names: &Names, words: &[&[u8]]) -> Result<Statement, Fault>
    ensures { result ≡ pair_of (names_in names.now) (words_in words.now) }
{
    let first = u16::read(word_at(words, 1))?;
    let second = u16::read(word_at(words, 2))?;
    let records = read_records(names, words_from(words, 3))?;
    Ok(Statement::Pair {
        first,
        second,
        records,
    })
}

// class SET SET RECORD [/ RECORD]
pub(crate) fn read_class(names: &Names, words: &[&[u8]]) -> Result<Statement, Fault>
    ensures { result ≡ class_of (names_in names.now) (words_in words.now) }
{
    let first = names.read_set(word_at(words, 1))?;
    let second = names.read_set(word_at(words, 2))?;
    let records = read_records(names, words_from(words, 3))?;
    Ok(Statement::Class {
        first,
        second,
        records,
    })
}

// The second glyph of a question, in a pair lookup.
fn read_second(kind: LookupKind, words: &[&[u8]]) -> Result<Option<u16>, Fault>
    ensures { result ≡ second_of kind (words_in words.now) }
{
    match kind {
        LookupKind::Single => Ok(None),
        LookupKind::Pair => u16::read(word_at(words, 2)).map(Some),
    }
}

// The place after the glyphs of a question.
fn past_glyphs(second: Option<u16>) -> usize
    ensures { result ≡ past_second second }
{
    match second {
        Some(_) => 3,
        None => 2,
    }
}

// [ppem P] [region R] and no more
fn read_asked(words: &[&[u8]]) -> Result<Asked, Fault>
    ensures { result ≡ asked_of (words_in words.now) }
{
    let ppem = read_option(words, b"ppem", Fault::PixelSize)?;
    let rest = past_option(words, ppem);
    let region = read_option(rest, b"region", Fault::Region)?;
    read_end(past_option(rest, region))?;
    Ok(Asked {
        ppem: ppem.unwrap_or(0),
        region,
    })
}

// ask GLYPH [GLYPH] [ppem P] [region R]
pub(crate) fn read_question(kind: LookupKind, words: &[&[u8]]) -> Result<Question, Fault>
    ensures { result ≡ question_of kind (words_in words.now) }
{
    let first = u16::read(word_at(words, 1))?;
    let second = read_second(kind, words)?;
    let asked = read_asked(words_from(words, past_glyphs(second)))?;
    Ok(Question {
        first,
        second,
        ppem: asked.ppem,
        region: asked.region,
    })
}
