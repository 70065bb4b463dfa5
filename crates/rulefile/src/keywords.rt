// The words that a line may begin with.
ghost use Rattle.rulefile.specs.Keywords.{entry_word, keyword_of, opening_word, rule_word};
ghost use Rattle.std.specs.Prelude.{◌≡◌};

use crate::rules::EntryKind;

// Which rule or other statement after `lookup`, but for the entries.
#[derive(Clone, Copy, Debug, PartialEq, Eq)]
pub(crate) enum RuleKind {
    Single,
    Pair,
    Class,
    Break,
    Build,
    Ask,
}

// What kind of statement a line has.
#[derive(Clone, Copy, Debug, PartialEq, Eq)]
pub(crate) enum Keyword {
    Storage,
    Store,
    Lookup,
    Entry(EntryKind),
    Rule(RuleKind),
}

// The statements that stand before all others.
fn opening_word(word: &[u8]) -> Option<Keyword>
    ensures { result ≡ opening_word word.now }
{
    match word {
        b"storage" => Some(Keyword::Storage),
        b"store" => Some(Keyword::Store),
        b"lookup" => Some(Keyword::Lookup),
        _ => None,
    }
}

// The statements that give a name.
fn entry_word(word: &[u8]) -> Option<EntryKind>
    ensures { result ≡ entry_word word.now }
{
    match word {
        b"set" => Some(EntryKind::Set),
        b"device" => Some(EntryKind::Device),
        b"deltas" => Some(EntryKind::Deltas),
        _ => None,
    }
}

// The other statements.
fn rule_word(word: &[u8]) -> Option<RuleKind>
    ensures { result ≡ rule_word word.now }
{
    match word {
        b"single" => Some(RuleKind::Single),
        b"pair" => Some(RuleKind::Pair),
        b"class" => Some(RuleKind::Class),
        b"break" => Some(RuleKind::Break),
        b"build" => Some(RuleKind::Build),
        b"ask" => Some(RuleKind::Ask),
        _ => None,
    }
}

// The statement that a line's first word stands for. Options and no `TryFrom`: three tables are tried in turn, and only the last miss is
// a fault.
pub(crate) fn keyword_of(word: &[u8]) -> Option<Keyword>
    ensures { result ≡ keyword_of word.now }
{
    opening_word(word)
        .or(entry_word(word).map(Keyword::Entry))
        .or(rule_word(word).map(Keyword::Rule))
}
