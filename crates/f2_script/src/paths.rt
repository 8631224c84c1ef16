//! Paths of a line.
ghost use Rattle.std.specs.Prelude.{◌≡◌, ℕ, ◌<◌, ◌==◌, List, IfOk, MatchOption};
ghost use Rattle.std.specs.List.{slice_split};
ghost use Rattle.f2_script.specs.Text.{is_plain as shows_itself, upper_digit};
ghost use Rattle.f2_script.specs.Cuts.{Finds};
ghost use Rattle.f2_script.specs.Paths.{BeginsWith, IsNameText, AreNames, IsPathText};

use crate::words::{after, cut_at};
use f2_model::{Name, Path};
use std::alloc::{AllocError, Global};

/// Whether a byte of a name shows as itself.
pub fn is_plain(byte: u8) -> bool
    ensures { result ≡ shows_itself byte }
{
    byte.is_ascii_graphic() && byte != b'%' && byte != b'/'
}

/// The value of an upper-case hexadecimal digit.
fn digit_value(digit: u8) -> Option<u8>
    ensures { Finds (λ value. (value < 16) × (digit ≡ upper_digit value)) result }
{
    match digit {
        b'0'..=b'9' => Some(digit - b'0'),
        b'A'..=b'F' => Some(digit - b'A' + 10),
        _ => None,
    }
}

/// The byte of a name that the text begins with, and the text after it.
fn first_byte(text: &[u8]) -> Option<(u8, &[u8])>
    ensures { MatchOption result ((b : ℕ) (rest : List ℕ) → ¬ (BeginsWith text.now b rest)) (λ x. BeginsWith text.now x.0 x.1.now) }
{
    match text {
        [b'%', high, low, rest @ ..] => {
            let high = digit_value(*high)?;
            let low = digit_value(*low)?;
            Some((16 * high + low, rest))
        }
        [byte, rest @ ..] if is_plain(*byte) => Some((*byte, rest)),
        _ => None,
    }
}

/// The name that the text is.
fn name_of(alloc: Global, text: &[u8]) -> Result<Option<Name>, AllocError>
    ensures { IfOk result (Finds (IsNameText text.now)) }
{
    let mut name = Name::new(alloc);
    let mut left = text;
    while !left.is_empty() {
        let Some((byte, rest)) = first_byte(left) else {
            return Ok(None);
        };
        name.push(byte)?;
        left = rest;
    }
    Ok(Some(name))
}

/// The names that the text is, with a `/` between each two.
fn names_of(alloc: Global, text: &[u8]) -> Result<Option<Path>, AllocError>
    ensures { IfOk result (Finds (AreNames (slice_split (λ b. b == 47) text.now))) }
{
    let mut path = Path::new(alloc);
    let mut left = text;
    while let Some((part, rest)) = cut_at(left, b'/') {
        let Some(name) = name_of(alloc, part)? else {
            return Ok(None);
        };
        path.push(name)?;
        left = rest;
    }
    let Some(name) = name_of(alloc, left)? else {
        return Ok(None);
    };
    path.push(name)?;
    Ok(Some(path))
}

/// The path that the text is.
pub fn path_of(alloc: Global, text: &[u8]) -> Result<Option<Path>, AllocError>
    ensures { IfOk result (Finds (IsPathText text.now)) }
{
    let Some(names) = after(text, b"/") else {
        return Ok(None);
    };
    if names.is_empty() {
        return Ok(Some(Path::new(alloc)));
    }
    names_of(alloc, names)
}
