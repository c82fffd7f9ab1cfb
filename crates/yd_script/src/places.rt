//! What goes with the words of places that are kept.

ghost use Rattle.std.specs.Prelude.{◌≡◌, IfOk, map};
ghost use Rattle.serde_json.specs.View.{view};
ghost use Rattle.yd_script.specs.Given.{Answers};
ghost use Rattle.yd_script.specs.Line.{IsValidLine, line_of};
ghost use Rattle.yd_script.specs.Reading.{insert_at_in, mark_in};

use crate::fault::LineFault;
use crate::given::{assoc_of, number_of};
use crate::line::{Line, Place};
use crate::targets::target_of;
use serde_json::Value;
use std::alloc::Global;
use yd_any::Text;

/// `NAME, TARGET, INDEX, ASSOC`
pub fn mark_of(alloc: Global, rest: &[Value]) -> Result<Line, LineFault>
    ensures line { Answers line_of (mark_in (map view rest.now)) result }
    ensures valid { IfOk result (λ line. IsValidLine (line_of line)) }
{
    match rest {
        [name, target, index, assoc] => {
            match (name.as_str(), number_of(index), assoc_of(assoc)) {
                (Some(name), Some(index), Some(assoc)) => {
                    let target = target_of(alloc, target)?;
                    let name = Text::copy_of(alloc, name)?;
                    let place = Place {
                        target,
                        index,
                        assoc,
                    };
                    Ok(Line::Mark { name, place })
                }
                _ => Err(LineFault::BadLine),
            }
        }
        _ => Err(LineFault::BadLine),
    }
}

/// `NAME, TEXT`
pub fn insert_at_of(alloc: Global, rest: &[Value]) -> Result<Line, LineFault>
    ensures line { Answers line_of (insert_at_in (map view rest.now)) result }
    ensures valid { IfOk result (λ line. IsValidLine (line_of line)) }
{
    match rest {
        [name, text] => match (name.as_str(), text.as_str()) {
            (Some(name), Some(text)) => {
                let name = Text::copy_of(alloc, name)?;
                let text = Text::copy_of(alloc, text)?;
                Ok(Line::InsertAt { name, text })
            }
            _ => Err(LineFault::BadLine),
        },
        _ => Err(LineFault::BadLine),
    }
}
