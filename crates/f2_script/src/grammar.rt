//! Reading a script.
ghost use Rattle.std.specs.Prelude.{◌≡◌, true, ◌∷◌, ◌++◌, [], ◌<◌, ◌⊎◌, ◌↔◌, ℕ, List, length, codes, IfOk, IfSome, MatchOption, IsErrOf};
ghost use Rattle.f2_script.specs.Cuts.{Finds};
ghost use Rattle.f2_script.specs.Grammar.{lines_of, IsTooLong, takes, runs, MayFollow, MayStand, IsLineHere, Spells, IsFirstFault};
ghost use Rattle.f2_script.specs.Faults.{UnlessMemory};
ghost use Rattle.f2_script.specs.declared.script.Line.{Line};

use crate::line_readers::line_of;
use crate::script::{Grammar, Line, Lines, ScriptFault};
use crate::words::cut_at;
use f2_model::Request;
use std::alloc::{AllocError, Global};

/// The most bytes of a script.
const MOST_BYTES: usize = 1_048_576;

/// The most lines of a script.
const MOST_LINES: usize = 65_536;

/// The first line of the text without its end, and the bytes after it. None where no byte is left.
fn next_line(text: &[u8]) -> Option<(&[u8], &[u8])>
    ensures line { MatchOption result (lines_of text.now ≡ []) (λ x. lines_of text.now ≡ x.0.now ∷ lines_of x.1.now) }
    ensures shorter { IfSome result (λ x. length x.1.now < length text.now) }
{
    if text.is_empty() {
        return None;
    }
    if let Some(found) = cut_at(text, b'\n') {
        return Some(found);
    }
    Some((text, &[]))
}

fn line_count(bytes: &[u8]) -> usize
    ensures { result ≡ length (lines_of bytes.now) }
{
    let mut count = 0usize;
    let mut left = bytes;
    while let Some((_, rest)) = next_line(left) {
        count += 1;
        left = rest;
    }
    count
}

/// Whether a grammar takes a line.
fn is_taken(grammar: Grammar, line: &Line) -> bool
    ensures { result ≡ takes grammar line.now }
{
    match grammar {
        Grammar::Whole => true,
        Grammar::Replay => matches!(
            line,
            Line::Mkfs { .. }
                | Line::Call {
                    request: Request::Create { .. } | Request::Write { .. } | Request::Sync,
                    ..
                }
                | Line::Crash { .. }
                | Line::Mount
                | Line::Tree
        ),
        Grammar::Plain => match line {
            Line::Crash { pick } => *pick == 0 || *pick == u64::MAX,
            Line::Fail { .. } | Line::Stop { .. } => false,
            _ => true,
        },
    }
}

/// Whether a line is one that runs.
fn is_run(line: &Line) -> bool
    ensures { result ≡ runs line.now }
{
    !matches!(line, Line::Skipped)
}

/// Whether a line may stand in a script, by whether one that runs stands before it.
fn may_follow(begun: bool, line: &Line) -> bool
    ensures { (result ≡ true) ↔ MayFollow begun line.now }
{
    match line {
        Line::Skipped => true,
        Line::Mkfs { .. } => !begun,
        _ => begun,
    }
}

/// Whether the grammar takes a line, and it may stand in a script.
fn may_stand(grammar: Grammar, begun: bool, line: &Line) -> bool
    ensures { (result ≡ true) ↔ MayStand grammar begun line.now }
{
    is_taken(grammar, line) && may_follow(begun, line)
}

/// The line that the text is, where it may stand.
fn line_here(
    alloc: Global,
    grammar: Grammar,
    begun: bool,
    text: &[u8],
) -> Result<Option<Line>, AllocError>
    ensures { IfOk result (Finds (IsLineHere grammar begun text.now)) }
{
    let Some(line) = line_of(alloc, text)? else {
        return Ok(None);
    };
    if !may_stand(grammar, begun, &line) {
        return Ok(None);
    }
    Ok(Some(line))
}

/// The lines of a script that isn't too long.
fn read_lines(alloc: Global, bytes: &[u8], grammar: Grammar) -> Result<Lines, ScriptFault>
    requires { length (lines_of bytes.now) < 65537 }
    ensures ok { IfOk result (Spells grammar bytes.now) }
    ensures too_long { IsErrOf result ScriptFault.TooLong → ⊥ }
    ensures line { (n : ℕ) → IsErrOf result (ScriptFault.Line n) → IsFirstFault grammar bytes.now n }
{
    let mut lines = Lines::new(alloc);
    let mut begun = false;
    let mut left = bytes;
    while let Some((text, rest)) = next_line(left) {
        let Some(line) = line_here(alloc, grammar, begun, text)? else {
            return Err(ScriptFault::Line {
                line: lines.len() as u32 + 1,
            });
        };
        begun = begun || is_run(&line);
        lines.push(line)?;
        left = rest;
    }
    Ok(lines)
}

/// Whether there are more bytes or more lines than a script may have.
fn is_too_long(bytes: &[u8]) -> bool
    ensures { (result ≡ true) ↔ IsTooLong bytes.now }
{
    bytes.len() > MOST_BYTES || line_count(bytes) > MOST_LINES
}

/// The lines that the bytes of a script are.
///
/// A script is first measured, and then read to the first line that isn't in the grammar at its place.
/// Its cost is linear in the bytes.
pub fn parse(alloc: Global, bytes: &[u8], grammar: Grammar) -> Result<Lines, ScriptFault>
    ensures ok { IfOk result (Spells grammar bytes.now) }
    ensures too_long { IsErrOf result ScriptFault.TooLong ↔ IsTooLong bytes.now }
    ensures line { (n : ℕ) → IsErrOf result (ScriptFault.Line n) → IsFirstFault grammar bytes.now n }

    // Unless memory is refused, a script that isn't too long is read, or its first fault is named.
    ensures read { (lines : List Line) → ¬ (IsTooLong bytes.now) → Spells grammar bytes.now lines → UnlessMemory result (Ok lines) }
    ensures fault { (n : ℕ) → ¬ (IsTooLong bytes.now) → IsFirstFault grammar bytes.now n → UnlessMemory result (Err (ScriptFault.Line n)) }
{
    if is_too_long(bytes) {
        return Err(ScriptFault::TooLong);
    }
    read_lines(alloc, bytes, grammar)
}
