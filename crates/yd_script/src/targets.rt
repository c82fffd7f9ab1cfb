//! Targets, read.

ghost use Rattle.std.specs.Prelude.{◌≡◌, map};
ghost use Rattle.serde_json.specs.View.{view};
ghost use Rattle.yd_script.specs.Given.{Answers, path_in, step_in, steps_in, target_in};
ghost use Rattle.yd_script.specs.Line.{target_of as target_seen};

use crate::fault::LineFault;
use crate::given::number_of;
use crate::target::{Target, TargetStep};
use serde_json::Value;
use std::alloc::Global;
use yd_any::Text;

/// `ROOT` or `[ROOT,STEP,..]`
pub fn target_of(alloc: Global, value: &Value) -> Result<Target, LineFault>
    ensures { Answers target_seen (target_in (view value.now)) result }
{
    match value {
        Value::String(root) => {
            let root = Text::copy_of(alloc, root.as_str())?;
            Ok(Target {
                root,
                steps: Vec::new(alloc),
            })
        }
        Value::Array(items) => path_of(alloc, items.as_slice()),
        _ => Err(LineFault::BadLine),
    }
}

/// `[ROOT,STEP,..]`
fn path_of(alloc: Global, items: &[Value]) -> Result<Target, LineFault>
    ensures { Answers target_seen (path_in (map view items.now)) result }
{
    match items {
        [root, steps @ ..] => match root.as_str() {
            Some(root) => {
                let steps = steps_of(alloc, steps)?;
                let root = Text::copy_of(alloc, root)?;
                Ok(Target { root, steps })
            }
            None => Err(LineFault::BadLine),
        },
        _ => Err(LineFault::BadLine),
    }
}

/// Steps one after another.
fn steps_of(alloc: Global, items: &[Value]) -> Result<Vec<TargetStep>, LineFault>
    ensures { Answers (λ steps. steps.items) (steps_in (map view items.now)) result }
{
    let mut steps = Vec::new(alloc);
    for item in items {
        let step = step_of(alloc, item)?;
        steps.push(step)?;
    }
    Ok(steps)
}

/// An index or a key.
fn step_of(alloc: Global, value: &Value) -> Result<TargetStep, LineFault>
    ensures { Answers (λ step. step) (step_in (view value.now)) result }
{
    if let Some(key) = value.as_str() {
        let key = Text::copy_of(alloc, key)?;
        return Ok(TargetStep::Key(key));
    }
    match number_of(value) {
        Some(index) => Ok(TargetStep::Index(index)),
        None => Err(LineFault::BadLine),
    }
}
