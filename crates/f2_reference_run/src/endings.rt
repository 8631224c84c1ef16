//! The line that is printed last.
ghost use Rattle.std.specs.Prelude.{◌≡◌, ◌++◌, OnOk};
ghost use Rattle.f2_play.specs.Endings.{last_line, numbered_line};

use f2_play::{Status, bad_image_head, bad_image_number, limit_head};
use itoa::Buffer;
use std::alloc::AllocError;

/// Puts the last line of a status behind a text, where it has one. Where memory is refused the text may end anywhere
/// in it.
pub fn push_last_line(status: Status, text: &mut Vec<u8>) -> Result<(), AllocError>
    ensures { OnOk result (text.new.items ≡ text.old.items ++ last_line status) }
{
    match status {
        Status::Usage => text.extend_from_slice(b"f2n: usage\n"),
        Status::TooLong => text.extend_from_slice(b"f2n: toolong\n"),
        Status::Script { line } => push_numbered(text, b"f2n: script line ", u64::from(line)),
        Status::DiskFault => text.extend_from_slice(b"f2n: diskfault\n"),
        Status::BadImage(bad) => push_numbered(text, bad_image_head(&bad), bad_image_number(&bad)),
        Status::Geometry { limit, value } => push_numbered(
            text,
            limit_head(limit),
            u64::from(value),
        ),
        Status::Done | Status::SourceFault | Status::SinkFault | Status::Memory => Ok(()),
    }
}

/// Puts a line that ends with a number behind a text.
fn push_numbered(text: &mut Vec<u8>, head: &[u8], number: u64) -> Result<(), AllocError>
    ensures { OnOk result (text.new.items ≡ text.old.items ++ numbered_line head.now number) }
{
    text.extend_from_slice(head)?;
    text.extend_from_slice(Buffer::new().format(number).as_bytes())?;
    text.push(b'\n')?;
    Ok(())
}
