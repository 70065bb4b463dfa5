// Cuts a line into its words, which borrow the line.
// Linear in the line's length.
ghost use Rattle.std.specs.Prelude.{◌≡◌, ◌==◌, drop, IfOk, position};
ghost use Rattle.std.specs.List.{list_all};
ghost use Rattle.std.specs.Option.{option_map};
ghost use Rattle.rulefile.specs.Words.{is_name, letter, name_byte, split_once, word, words_in, words_of};

use std::alloc::{AllocError, Global};

// The words of a line, without its comment.
pub(crate) fn cut_words(heap: Global, line: &[u8]) -> Result<Vec<&[u8]>, AllocError>
    ensures { IfOk result (λ v. words_in v.items ≡ words_of line.now) }
{
    line.split(|byte| *byte == b' ')
        .filter(|word| !word.is_empty())
        .take_while(|word| *word != b"#".as_slice())
        .collect(heap)
}

// The word at a place, counted from 0, or no bytes where there is none, as the definition `word` has it: no word is empty.
pub(crate) fn word_at<'a>(words: &[&'a [u8]], at: usize) -> &'a [u8]
    ensures { result.now ≡ word (words_in words.now) at }
{
    words.get(at).copied().unwrap_or(&[])
}

// The words from a place on.
pub(crate) fn words_from<'a>(words: &'a [&'a [u8]], from: usize) -> &'a [&'a [u8]]
    ensures { words_in result.now ≡ drop from (words_in words.now) }
{
    words.get(from..).unwrap_or(&[])
}

// Where a byte first stands in a word.
fn position(word: &[u8], byte: u8) -> Option<usize>
    ensures { result ≡ position (λ b. b == byte) word.now }
{
    word.iter().position(|b| *b == byte)
}

// What stands before and after the first of a byte in a word.
pub(crate) fn split_once(word: &[u8], byte: u8) -> Option<(&[u8], &[u8])>
    ensures { option_map (λ p. (p.0.now, p.1.now)) result ≡ split_once byte word.now }
{
    let at = position(word, byte)?;
    Some((&word[..at], &word[at + 1..]))
}

fn is_letter(byte: u8) -> bool
    ensures { result ≡ letter byte }
{
    byte.is_ascii_alphabetic()
}

fn is_name_byte(byte: u8) -> bool
    ensures { result ≡ name_byte byte }
{
    is_letter(byte) || byte.is_ascii_digit() || matches!(byte, b'_' | b'.' | b'-')
}

fn are_name_bytes(bytes: &[u8]) -> bool
    ensures { result ≡ list_all name_byte bytes.now }
{
    bytes.iter().all(|byte| is_name_byte(*byte))
}

// Whether a word is a name: a letter, then letters, digits, `_`, `.` and `-`.
pub(crate) fn is_name(word: &[u8]) -> bool
    ensures { result ≡ is_name word.now }
{
    match word {
        [first, rest @ ..] => is_letter(*first) && are_name_bytes(rest),
        [] => false,
    }
}
