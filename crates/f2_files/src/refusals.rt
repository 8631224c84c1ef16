//! The refusals of a call by its paths, the directories and its numbers, in the order in which they are tested.
ghost use Rattle.std.specs.Prelude.{◌≡◌, nat_lt, zip};
ghost use Rattle.std.specs.List.{list_all, list_any};
ghost use Rattle.f2_model.specs.Content.{end_of};
ghost use Rattle.f2_model.specs.Names.{same_name};
ghost use Rattle.f2_model.specs.Call.{goes_below, has_bad_name};
ghost use Rattle.f2_files.specs.Led.{led};
ghost use Rattle.f2_files.specs.Refused.{exceeds, goes_deep, has_more, is_bound, leads_to_directory, led_parent, onto_directory, refused_by, stops};

use crate::directories::Directories;
use f2_model::{Kind, Limits, Name, Piece, Reply, Request};

/// The deepest that a directory may stand.
const MOST_DEPTH: usize = 15;

/// The first refusal of a call, or `None` where there is none; want of space is asked apart.
pub(crate) fn refused_by(
    limits: Limits,
    directories: &Directories,
    request: &Request,
) -> Option<Reply>
    ensures { result ≡ refused_by limits directories.now request.now }
{
    if has_bad_name(request) {
        return Some(Reply::BadName);
    }
    if let Some(refused) = stops(directories, request) {
        return Some(refused);
    }
    if leads_to_directory(directories, request) {
        return Some(Reply::IsDir);
    }
    if is_bound(directories, request) {
        return Some(Reply::Exists);
    }
    if has_more(directories, request) {
        return Some(Reply::NotEmpty);
    }
    if exceeds(limits, directories, request) {
        return Some(Reply::TooBig);
    }
    None
}

/// Whether a path goes on below another one.
fn goes_below(path: &[Name], top: &[Name]) -> bool
    ensures { result ≡ goes_below path.now top.now }
{
    top.len() < path.len() && agree(top, path)
}

/// Whether two paths have the same names as far as both go.
fn agree(one: &[Name], other: &[Name]) -> bool
    ensures { result ≡ list_all (λ (a, b). same_name a b) (zip one.now other.now) }
{
    one.iter().zip(other).all(|(a, b)| a.is_same(b))
}

/// Whether a path of the call is none that it could have.
fn has_bad_name(request: &Request) -> bool
    ensures { result ≡ has_bad_name request.now }
{
    match request {
        Request::Create { path }
        | Request::Mkdir { path }
        | Request::Write { path, .. }
        | Request::Truncate { path, .. }
        | Request::Unlink { path }
        | Request::Read { path, .. }
        | Request::List { path }
        | Request::Fsync { path } => !path.is_good(),
        Request::Rmdir { path } => !path.is_good() || path.is_empty(),
        Request::Rename { from, to } => {
            !from.is_good()
                || !to.is_good()
                || from.is_empty()
                || goes_below(to.as_slice(), from.as_slice())
        }
        Request::Sync => false,
    }
}

/// The directory at the end of a path, or the first refusal; a file there is refused too.
fn led_directory(directories: &Directories, path: &[Name]) -> Result<(u32, Kind), Reply>
    ensures { result ≡ onto_directory (led directories.now path.now) }
{
    let place = directories.led(path)?;
    if place.1 != Kind::Directory {
        return Err(Reply::NotDir);
    }
    Ok(place)
}

/// The directory in which the last name of a path stands, or would stand, or the first refusal on the way.
pub(crate) fn led_parent(directories: &Directories, path: &[Name]) -> Result<(u32, Kind), Reply>
    ensures { result ≡ led_parent directories.now path.now }
{
    let names = path.len().saturating_sub(1);
    led_directory(directories, &path[..names])
}

/// Where the names of a call stop; the first path is followed before the second.
fn stops(directories: &Directories, request: &Request) -> Option<Reply>
    ensures { result ≡ stops directories.now request.now }
{
    match request {
        Request::Create { path } | Request::Mkdir { path } => {
            led_parent(directories, path.as_slice()).err()
        }
        Request::Write { path, .. }
        | Request::Truncate { path, .. }
        | Request::Unlink { path }
        | Request::Read { path, .. }
        | Request::Fsync { path } => directories.led(path.as_slice()).err(),
        Request::Rmdir { path } | Request::List { path } => {
            led_directory(directories, path.as_slice()).err()
        }
        Request::Rename { from, to } => match directories.led(from.as_slice()) {
            Ok(_) => led_parent(directories, to.as_slice()).err(),
            Err(refused) => Some(refused),
        },
        Request::Sync => None,
    }
}

/// Whether a call that wants a file names a directory.
fn leads_to_directory(directories: &Directories, request: &Request) -> bool
    ensures { result ≡ leads_to_directory directories.now request.now }
{
    match request {
        Request::Write { path, .. }
        | Request::Truncate { path, .. }
        | Request::Unlink { path }
        | Request::Read { path, .. } => {
            directories
                .led(path.as_slice())
                .is_ok_and(|place| place.1 == Kind::Directory)
        }
        _ => false,
    }
}

/// Whether a call that makes a name finds it there.
fn is_bound(directories: &Directories, request: &Request) -> bool
    ensures { result ≡ is_bound directories.now request.now }
{
    match request {
        Request::Create { path } | Request::Mkdir { path } => {
            directories.led(path.as_slice()).is_ok()
        }
        Request::Rename { to, .. } => directories.led(to.as_slice()).is_ok(),
        _ => false,
    }
}

/// Whether a directory that is to go has a name in it.
fn has_more(directories: &Directories, request: &Request) -> bool
    ensures { result ≡ has_more directories.now request.now }
{
    match request {
        Request::Rmdir { path } => directories
            .led(path.as_slice())
            .is_ok_and(|place| { directories.is_occupied(place.0) }),
        _ => false,
    }
}

/// Whether a piece ends past a size.
fn ends_past(pieces: &[Piece], size: u64) -> bool
    ensures { result ≡ list_any (λ piece. nat_lt size (end_of piece)) pieces.now }
{
    pieces.iter().any(|piece| u128::from(size) < u128::from(piece.off) + u128::from(piece.len))
}

/// Whether a directory at or below a place would stand too deep, were the place moved to a depth.
fn goes_deep(directories: &Directories, depth: usize, place: (u32, Kind)) -> bool
    ensures { result ≡ goes_deep directories.now depth place }
{
    place.1 == Kind::Directory
        && directories.reaches(place.0, (MOST_DEPTH + 1).saturating_sub(depth))
}

/// Whether a call would make a file too long, or a directory too deep.
fn exceeds(limits: Limits, directories: &Directories, request: &Request) -> bool
    ensures { result ≡ exceeds limits directories.now request.now }
{
    match request {
        Request::Write { pieces, .. } => ends_past(pieces.as_slice(), limits.size),
        Request::Truncate { size, .. } => *size > limits.size,
        Request::Mkdir { path } => path.len() > MOST_DEPTH,
        Request::Rename { from, to } => {
            directories
                .led(from.as_slice())
                .is_ok_and(|place| goes_deep(directories, to.len(), place))
        }
        _ => false,
    }
}
