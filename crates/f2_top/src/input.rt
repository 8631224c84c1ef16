//! Reading a script as a whole.
ghost use Rattle.std.specs.Prelude.{◌≡◌, ◌≤◌, IfOk, OnErr, Err};
ghost use Rattle.f2_disk.specs.Faults.{Rose};
ghost use Rattle.f2_top.specs.Reads.{TakesScript, TakesSome};

use f2_disk::Source;
use std::alloc::Global;

/// A script with more bytes is too long.
const MOST_BYTES: usize = 1_048_576;

/// How many bytes a read asks for.
const PAGE: usize = 4096;

/// Why a script couldn't be read.
#[derive(Clone, Copy, Debug, PartialEq, Eq)]
pub(crate) enum Unread {
    Failed,
    Memory,
}

/// The bytes of a source to its end, or its first bytes where they are more than a script may have.
pub(crate) fn read_script<S: Source>(alloc: Global, source: &mut S) -> Result<Vec<u8>, Unread>
    ensures ok { IfOk result (λ script. TakesScript (S.remaining source.old) (S.remaining source.new) script.items) }
    ensures err { OnErr result (TakesSome (S.remaining source.old) (S.remaining source.new)) }
    ensures later { S.faults source.old ≤ S.faults source.new }
    ensures cause { result ≡ Err Unread.Failed → Rose (S.faults source.old) (S.faults source.new) }
{
    let mut script = Vec::new(alloc);
    let mut page = [0; PAGE];
    while script.len() <= MOST_BYTES {
        let Ok(count) = source.read(&mut page) else {
            return Err(Unread::Failed);
        };
        if count == 0 {
            return Ok(script);
        }
        if script.extend_from_slice(&page[..count]).is_err() {
            return Err(Unread::Memory);
        }
    }
    Ok(script)
}
