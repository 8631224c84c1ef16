//! Writing texts to a sink.
ghost use Rattle.std.specs.Prelude.{◌≡◌, ◌≤◌, ◌⊎◌, ◌∷◌, ◌++◌, [], decimal, IsOk};
ghost use Rattle.f2_disk.specs.Faults.{HasCause, Rose};
ghost use Rattle.f2_play.specs.Endings.{IsSilent, last_line, numbered_line};
ghost use Rattle.f2_top.specs.Replay.{Finishes};
ghost use Rattle.f2_top.specs.Streams.{Puts};

use f2_disk::{Failed, Sink};
use f2_play::{Status, bad_image_head, bad_image_number, limit_head};
use itoa::Buffer;

/// Writes a text as a whole.
pub(crate) fn put<K: Sink>(sink: &mut K, text: &[u8]) -> Result<(), Failed>
    ensures bytes { Puts (K.written sink.old) (K.written sink.new) result text.now }
    ensures cause { HasCause (K.faults sink.old) (K.faults sink.new) result }
{
    let mut left = text;
    while !left.is_empty() {
        let taken = match sink.write(left) {
            Ok(taken) => taken,
            Err(failed) => return Err(failed),
        };
        left = left.split_at(taken).1;
    }
    Ok(())
}

/// Writes a number and the end of its line.
fn put_number<K: Sink>(sink: &mut K, number: u64) -> Result<(), Failed>
    ensures bytes { Puts (K.written sink.old) (K.written sink.new) result (decimal number ++ 10 ∷ []) }
    ensures cause { HasCause (K.faults sink.old) (K.faults sink.new) result }
{
    put(sink, Buffer::new().format(number).as_bytes())?;
    put(sink, b"\n")
}

/// Writes a line that ends with a number.
fn put_numbered<K: Sink>(sink: &mut K, head: &[u8], number: u64) -> Result<(), Failed>
    ensures bytes { Puts (K.written sink.old) (K.written sink.new) result (numbered_line head.now number) }
    ensures cause { HasCause (K.faults sink.old) (K.faults sink.new) result }
{
    put(sink, head)?;
    put_number(sink, number)
}

/// Writes the last line of a status, where it has one.
pub(crate) fn put_last_line<K: Sink>(sink: &mut K, status: Status) -> Result<(), Failed>
    ensures bytes { Puts (K.written sink.old) (K.written sink.new) result (last_line status) }
    ensures cause { HasCause (K.faults sink.old) (K.faults sink.new) result }
    ensures silent { IsSilent status → IsOk result }
    ensures kept { IsSilent status → sink.new ≡ sink.old }
{
    match status {
        Status::Usage => put(sink, b"f2n: usage\n"),
        Status::TooLong => put(sink, b"f2n: toolong\n"),
        Status::Script { line } => put_numbered(sink, b"f2n: script line ", u64::from(line)),
        Status::DiskFault => put(sink, b"f2n: diskfault\n"),
        Status::BadImage(bad) => put_numbered(sink, bad_image_head(&bad), bad_image_number(&bad)),
        Status::Geometry { limit, value } => put_numbered(
            sink,
            limit_head(limit),
            u64::from(value),
        ),
        Status::Done | Status::SourceFault | Status::SinkFault | Status::Memory => Ok(()),
    }
}

/// Writes the last line of a status, and gives the status with which the run ends then.
pub(crate) fn finish<K: Sink>(sink: &mut K, status: Status) -> Status
    ensures finished { Finishes (K.written sink.old) (K.written sink.new) status result }
    ensures kept { IsSilent status → sink.new ≡ sink.old }
    ensures later { K.faults sink.old ≤ K.faults sink.new }
    ensures cause { result ≡ Status.SinkFault → (status ≡ Status.SinkFault) ⊎ Rose (K.faults sink.old) (K.faults sink.new) }
{
    match put_last_line(sink, status) {
        Ok(()) => status,
        Err(_) => Status::SinkFault,
    }
}
