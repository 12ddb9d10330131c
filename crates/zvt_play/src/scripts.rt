//! The script of a trace.
ghost use Rattle.std.specs.Prelude.{◌≡◌, ◌∷◌, [], ◌++◌, OnOk};
ghost use Rattle.zvt_stream.specs.LineReading.{reading_as};
ghost use Rattle.zvt_play.specs.Naming.{ReadsScript};
ghost use Rattle.zvt_play.specs.Script.{ReadsLines};
ghost use Rattle.zvt_play.specs.declared.scripts.ScriptFault.TheVariants.{Memory};

use crate::line::{BadLine, ScriptLineError, read_line};
use crate::naming::first_fault;
use crate::role::Role;
use crate::step::ScriptStep;
use std::alloc::{AllocError, Global};
use thiserror::Error;
use zvt_trace::next_line;

/// The reason why a trace can't be played.
#[derive(Clone, Copy, Debug, Drop, PartialEq, Eq, Error)]
pub enum ScriptFault {
    /// A line, counted from 1, is the first that can't be played.
    #[error("line {line} of the trace: {why}")]
    Line { line: usize, why: ScriptLineError },
    #[error("out of memory: split the trace after a line '!'")]
    Memory,
}

impl From<AllocError> for ScriptFault {
    ghost from_gives = { λ _ fault. fault ≡ Memory };

    fn from(_refused: AllocError) -> ScriptFault {
        ScriptFault::Memory
    }
}

/// Returns the steps of a trace for a player with this role: one for each line of bytes, each `!` and each mark, in
/// order.
///
/// A line of the player's own side may have any bytes. A line of the other side has messages, and perhaps the
/// beginning of one, or no bytes. A mark with a name must be usable where it appears: each name is bound once, and
/// before it is used.
pub fn script(alloc: Global, role: Role, trace: &[u8]) -> Result<Vec<ScriptStep>, ScriptFault>
    ensures { ReadsScript (reading_as role.form) role.own trace.now result }
{
    let steps = read_lines(alloc, role, trace)?;
    match first_fault(steps.as_slice()) {
        None => Ok(steps),
        Some((at, why)) => Err(ScriptFault::Line {
            line: steps[at].line,
            why: ScriptLineError::Name(why),
        }),
    }
}

/// Reads each line by itself, without checking where its mark appears.
fn read_lines(alloc: Global, role: Role, trace: &[u8]) -> Result<Vec<ScriptStep>, ScriptFault>
    ensures { ReadsLines (reading_as role.form) role.own trace.now result }
{
    let mut steps = Vec::new(alloc);
    let mut rest = trace;
    let mut number = 0;
    'lines: while !rest.is_empty() {
        let (line, after) = next_line(rest);
        number += 1;
        match read_line(alloc, role, line) {
            Ok(None) => {}
            Ok(Some(action)) => add(
                &mut steps,
                ScriptStep {
                    line: number,
                    action,
                },
            )?,
            Err(BadLine::Wrong(why)) => return Err(ScriptFault::Line { line: number, why }),
            Err(BadLine::Memory) => return Err(ScriptFault::Memory),
        }
        rest = after;
    }
    Ok(steps)
}

/// Adds a step.
fn add(steps: &mut Vec<ScriptStep>, step: ScriptStep) -> Result<(), AllocError>
    ensures { OnOk result (steps.new.items ≡ steps.old.items ++ step ∷ []) }
{
    steps.push(step)?;
    Ok(())
}
