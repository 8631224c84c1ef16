//! The calls that a `gen` line makes.
ghost use Rattle.std.specs.Prelude.{◌≡◌, ◌<◌, ◌^◌, IfOk};
ghost use Rattle.f2_script.specs.Generator.{after as number_after, drawn as draw_of, seat_of as seat_drawn, path_of as path_drawn, piece_of as piece_drawn, call_of as call_drawn};

use crate::texts::push_number;
use f2_model::{Name, Path, Piece, Pieces, Request};
use std::alloc::{AllocError, Global};

/// The factor of the generator.
const FACTOR: u64 = 6_364_136_223_846_793_005;

/// The step of the generator.
const STEP: u64 = 1_442_695_040_888_963_407;

/// The number after a number.
fn after(x: u64) -> u64
    ensures { result ≡ number_after x }
{
    x.wrapping_mul(FACTOR).wrapping_add(STEP)
}

/// The path of a draw.
fn path_of(alloc: Global, draw: u32) -> Result<Path, AllocError>
    ensures { IfOk result (λ path. path ≡ path_drawn draw) }
{
    let mut text = Vec::from_slice(alloc, b"g")?;
    push_number(&mut text, u64::from(draw % 7))?;
    let mut path = Path::new(alloc);
    path.push(Name::from_vec(text))?;
    Ok(path)
}

/// The piece of a draw.
fn piece_of(draw: u32) -> Piece
    ensures { result ≡ piece_drawn draw }
{
    Piece {
        off: 1_000 * u64::from(draw / 70 % 64),
        len: 1 + draw / 70 / 64 % 5_000,
        byte: (draw % 251) as u8,
    }
}

/// The call of a draw.
fn call_of(alloc: Global, draw: u32) -> Result<Request, AllocError>
    ensures { IfOk result (λ request. request ≡ call_drawn draw) }
{
    let path = path_of(alloc, draw)?;
    let piece = piece_of(draw);
    Ok(match draw / 7 % 10 {
        0 | 1 => Request::Create { path },
        2..=5 => Request::Write {
            path,
            pieces: Pieces::from_slice(alloc, &[piece])?,
        },
        6 => Request::Truncate {
            path,
            size: piece.off,
        },
        7 => Request::Unlink { path },
        _ => Request::Fsync { path },
    })
}

/// The next number of the generator, and the seat and the call that it draws.
///
/// A `gen` line begins with its start, and each call begins with the number of the call before.
pub fn next_call(alloc: Global, x: u64) -> Result<(u64, u8, Request), AllocError>
    ensures number { IfOk result (λ next. next.0 ≡ number_after x) }
    ensures seat { IfOk result (λ next. next.1 ≡ seat_drawn (draw_of (number_after x))) }
    ensures call { IfOk result (λ next. next.2 ≡ call_drawn (draw_of (number_after x))) }
{
    let x = after(x);
    let draw = (x >> 33) as u32;
    let request = call_of(alloc, draw)?;
    Ok((x, 1 + (draw % 8) as u8, request))
}
