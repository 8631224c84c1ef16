//! Writing names, numbers and paths at the end of a text.
ghost use Rattle.std.specs.Prelude.{◌≡◌, ◌∷◌, ◌++◌, ◌<◌, decimal, IfOk, OnOk};
ghost use Rattle.f2_script.specs.Text.{upper_digit as upper, lower_digit as lower, byte_text, name_text, path_text};
ghost use Rattle.f2_script.specs.Replies.{hex_text, names_text};

use crate::paths::is_plain;
use f2_model::{Name, Path};
use itoa::Buffer;
use std::alloc::{AllocError, Global};

fn upper_digit(digit: u8) -> u8
    requires { digit < 16 }
    ensures { result ≡ upper digit }
{
    if digit >= 10 {
        b'A' + (digit - 10)
    } else {
        b'0' + digit
    }
}

fn lower_digit(digit: u8) -> u8
    requires { digit < 16 }
    ensures { result ≡ lower digit }
{
    if digit >= 10 {
        b'a' + (digit - 10)
    } else {
        b'0' + digit
    }
}

/// Writes a number.
pub fn push_number(text: &mut Vec<u8>, number: u64) -> Result<(), AllocError>
    ensures { OnOk result (text.new.items ≡ text.old.items ++ decimal number) }
{
    text.extend_from_slice(Buffer::new().format(number).as_bytes())
}

/// Writes a space and a number.
pub fn push_argument(text: &mut Vec<u8>, number: u64) -> Result<(), AllocError>
    ensures { OnOk result (text.new.items ≡ text.old.items ++ 32 ∷ decimal number) }
{
    text.push(b' ')?;
    push_number(text, number)
}

fn push_byte(text: &mut Vec<u8>, byte: u8) -> Result<(), AllocError>
    ensures { OnOk result (text.new.items ≡ text.old.items ++ byte_text byte) }
{
    if is_plain(byte) {
        text.push(byte)?;
    } else {
        text.extend_from_slice(&[b'%', upper_digit(byte / 16), upper_digit(byte % 16)])?;
    }
    Ok(())
}

/// Writes a name.
pub fn push_name(text: &mut Vec<u8>, name: &[u8]) -> Result<(), AllocError>
    ensures { OnOk result (text.new.items ≡ text.old.items ++ name_text name.now) }
{
    for byte in name {
        push_byte(text, *byte)?;
    }
    Ok(())
}

/// Writes names, with a byte before each.
pub fn push_names(text: &mut Vec<u8>, mark: u8, names: &[Name]) -> Result<(), AllocError>
    ensures { OnOk result (text.new.items ≡ text.old.items ++ names_text mark names.now) }
{
    for name in names {
        text.push(mark)?;
        push_name(text, name.as_slice())?;
    }
    Ok(())
}

/// Writes a path.
pub fn push_path(text: &mut Vec<u8>, path: &Path) -> Result<(), AllocError>
    ensures { OnOk result (text.new.items ≡ text.old.items ++ path_text path.now) }
{
    let names = path.as_slice();
    if names.is_empty() {
        text.push(b'/')?;
        return Ok(());
    }
    push_names(text, b'/', names)
}

/// Writes bytes in hexadecimal digits.
pub fn push_hex(text: &mut Vec<u8>, bytes: &[u8]) -> Result<(), AllocError>
    ensures { OnOk result (text.new.items ≡ text.old.items ++ hex_text bytes.now) }
{
    for byte in bytes {
        text.push(lower_digit(*byte / 16))?;
        text.push(lower_digit(*byte % 16))?;
    }
    Ok(())
}

/// Writes a space and a word.
pub fn push_word(text: &mut Vec<u8>, word: &[u8]) -> Result<(), AllocError>
    ensures { OnOk result (text.new.items ≡ text.old.items ++ 32 ∷ word.now) }
{
    text.push(b' ')?;
    text.extend_from_slice(word)
}

/// A word and a number.
pub fn with_number(alloc: Global, word: &[u8], number: u64) -> Result<Vec<u8>, AllocError>
    ensures { IfOk result (λ text. text.items ≡ word.now ++ 32 ∷ decimal number) }
{
    let mut text = Vec::from_slice(alloc, word)?;
    push_argument(&mut text, number)?;
    Ok(text)
}

/// A word and two numbers.
pub fn with_numbers(
    alloc: Global,
    word: &[u8],
    first: u64,
    second: u64,
) -> Result<Vec<u8>, AllocError>
    ensures { IfOk result (λ text. text.items ≡ word.now ++ 32 ∷ (decimal first ++ 32 ∷ decimal second)) }
{
    let mut text = with_number(alloc, word, first)?;
    push_argument(&mut text, second)?;
    Ok(text)
}
