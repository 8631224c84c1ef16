//! Words and numbers of a line.
ghost use Rattle.std.specs.Prelude.{◌≡◌, ◌≢◌, ℕ, List, [], ◌∷◌, ◌++◌, ◌==◌, ◌≤◌, position, decimal, MatchOption, IfOk};
ghost use Rattle.f2_script.specs.Cuts.{Finds, Lacks, IsCutAt};
ghost use Rattle.f2_script.specs.Words.{Number, IsWord, AreWords, split_words, shown};

use itoa::Buffer;
use std::alloc::{AllocError, Global};
use std::str;

fn place_of(text: &[u8], byte: u8) -> Option<usize>
    ensures { result ≡ position (λ b. b == byte) text.now }
{
    text.iter().position(|b| *b == byte)
}

/// What stands before the first such byte, and what stands after it.
pub fn cut_at(text: &[u8], byte: u8) -> Option<(&[u8], &[u8])>
    ensures { MatchOption result (Lacks byte text.now) (λ x. IsCutAt byte text.now x.0.now x.1.now) }
{
    let at = place_of(text, byte)?;
    Some((&text[..at], &text[at + 1..]))
}

/// What follows a word at the front of the text.
pub fn after<'a>(text: &'a [u8], word: &[u8]) -> Option<&'a [u8]>
    ensures { MatchOption result ((rest : List ℕ) → text.now ≢ word.now ++ rest) (λ rest. text.now ≡ word.now ++ rest.now) }
{
    text.strip_prefix(word)
}

/// The words of a line.
pub fn words_of(alloc: Global, line: &[u8]) -> Result<Vec<&[u8]>, AllocError>
    ensures { IfOk result (λ words. shown words.items ≡ split_words line.now) }
{
    line.split(|b| *b == b' ').collect(alloc)
}

/// The number that the text is, up to a limit. With a sign or a leading zero it is none.
fn number_to(text: &[u8], limit: u64) -> Option<u64>
    ensures { Finds (λ n. (n ≤ limit) × (text.now ≡ decimal n)) result }
{
    let Ok(digits) = str::from_utf8(text) else {
        return None;
    };
    let Ok(number) = digits.parse::<u64>() else {
        return None;
    };
    if number <= limit && Buffer::new().format(number).as_bytes() == text {
        Some(number)
    } else {
        None
    }
}

/// The number that the text is, from a least to a greatest one.
pub fn number(text: &[u8], least: u64, most: u64) -> Option<u64>
    ensures { Finds (λ n. IsWord (Number least most n) text.now) result }
{
    let number = number_to(text, most)?;
    if number < least {
        return None;
    }
    Some(number)
}

/// The number that the words are, from a least to a greatest one.
pub fn one_number(words: &[&[u8]], least: u64, most: u64) -> Option<u64>
    ensures { Finds (λ n. AreWords (Number least most n ∷ []) (shown words.now)) result }
{
    let [word] = words else {
        return None;
    };
    number(word, least, most)
}
