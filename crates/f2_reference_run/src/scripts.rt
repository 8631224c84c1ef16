//! Running a script.
ghost use Rattle.std.specs.Prelude.{◌≡◌, false, IfOk, MatchResult, is_some};
ghost use Rattle.f2_format.specs.Geometry.{node_third, data_third};
ghost use Rattle.f2_spans.specs.Spans.{MOST_SIZE as most_size};
ghost use Rattle.f2_script.specs.Steps.{made_spelling};
ghost use Rattle.f2_script.specs.declared.script.Line.TheVariants as verb;
ghost use Rattle.f2_play.specs.Lines.{ended, granted};
ghost use Rattle.f2_reference_run.specs.Chosen.{PrintsChosen};
ghost use Rattle.f2_reference_run.specs.Runs.{AreStanding, EndsAs, PlaysNext, Stands, StopsAt};

use crate::player::Player;
use f2_layout::{BadGeometry, Geometry};
use f2_model::Limits;
use f2_play::Status;
use f2_reference::Machine;
use f2_script::{Grammar, Line, ScriptFault, made_text, parse};
use std::alloc::{AllocError, Global};

/// The numbers that one block of the node address table has entries for.
const NIDS_A_BLOCK: u32 = 455;

/// The bytes of the longest file: those of 1,057,053,439 pages.
const MOST_SIZE: u64 = 1_057_053_439 * 4096;

/// What an image of these sizes grants.
fn limits(geometry: &Geometry) -> Limits
    ensures { result ≡ granted most_size geometry.now }
{
    Limits {
        nodes: geometry.cn(),
        data_blocks: geometry.cd(),
        nids: NIDS_A_BLOCK * geometry.nat(),
        size: MOST_SIZE,
    }
}

/// The line that is printed for an image of these sizes.
fn made_line(alloc: Global, geometry: &Geometry) -> Result<Vec<u8>, AllocError>
    ensures { IfOk result (λ printed. printed.items ≡ ended (made_spelling (node_third geometry.now) (data_third geometry.now))) }
{
    let mut printed = made_text(alloc, geometry.cn(), geometry.cd())?;
    printed.push(b'\n')?;
    Ok(printed)
}

/// Makes the machine of a `mkfs` line, and gives what the line prints.
fn make(alloc: Global, blocks: u32, nat: u32) -> Result<(Option<Player>, Vec<u8>), Status>
    ensures { MatchResult result (λ next. PlaysNext None (verb.Mkfs blocks nat) next.1.items next.0) (λ status. StopsAt status None (verb.Mkfs blocks nat)) }
{
    let geometry = match Geometry::new(blocks, nat) {
        Ok(geometry) => geometry,
        Err(BadGeometry { limit, value }) => return Err(Status::Geometry { limit, value }),
    };
    let machine = Machine::made(alloc, limits(&geometry))?;
    let printed = made_line(alloc, &geometry)?;
    Ok((Some(Player::new(alloc, machine)), printed))
}

/// Plays a line where it stands, and gives the machine after it with what it prints.
fn play_next(
    alloc: Global,
    player: Option<Player>,
    line: Line,
) -> Result<(Option<Player>, Vec<u8>), Status>
    requires { Stands (is_some player) line }
    ensures { MatchResult result (λ next. PlaysNext player line next.1.items next.0) (λ status. StopsAt status player line) }
{
    match (player, line) {
        (Some(mut on), line) => {
            let printed = on.play(line)?;
            Ok((Some(on), printed))
        }
        (None, Line::Mkfs { blocks, nat }) => make(alloc, blocks, nat),
        (None, _) => Ok((None, Vec::new(alloc))),
    }
}

/// Plays lines one after another: the status with which that ends, and what they print.
fn run_lines(alloc: Global, lines: Vec<Line>) -> (Status, Vec<u8>)
    requires { AreStanding false lines.items }
    ensures { EndsAs lines.items result.0 result.1.items }
{
    let mut text = Vec::new(alloc);
    let mut player = None;
    let mut lines = lines.into_iter();
    while let Some(line) = lines.next() {
        let (next, printed) = match play_next(alloc, player, line) {
            Ok(played) => played,
            Err(status) => return (status, text),
        };
        if text.extend_from_slice(printed.as_slice()).is_err() {
            return (Status::Memory, text);
        }
        player = next;
    }
    (Status::Done, text)
}

/// Runs a script: the status with which that ends, and what its lines print.
pub fn run_script(alloc: Global, script: &[u8]) -> (Status, Vec<u8>)
    ensures { PrintsChosen script.now result.0 result.1.items }
{
    match parse(alloc, script, Grammar::Plain) {
        Ok(lines) => run_lines(alloc, lines.into_vec()),
        Err(ScriptFault::TooLong) => (Status::TooLong, Vec::new(alloc)),
        Err(ScriptFault::Line { line }) => (Status::Script { line }, Vec::new(alloc)),
        Err(ScriptFault::Memory) => (Status::Memory, Vec::new(alloc)),
    }
}
