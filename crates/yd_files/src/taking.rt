//! Taking what a file stands for, behind what the files before it stand for.

ghost use Rattle.std.specs.Prelude.{◌≡◌, ◌∷◌, ◌++◌, [], IfErr, IfOk, OnOk};
ghost use Rattle.yd_ops.specs.Valid.{IsValidUpdate};
ghost use Rattle.yd_ops.specs.View.{update_value};
ghost use Rattle.yd_v1.specs.Log.{TakesMore};
ghost use Rattle.yd_files.specs.Reading.{HaveTaken, RefusedBy, TakesFile, TakesRead};
ghost use Rattle.yd_files.specs.Verdict.{HasFirstFaultIn};

use crate::inputs::Others;
use crate::kind::Kind;
use std::alloc::Global;
use yd_any::Text;
use yd_ids::Vector;
use yd_ops::Update;
use yd_parts::ReadError;
use yd_script::read_script;
use yd_v1::{UpdateTaker, read_vector, take_log};
use yd_v2::read_v2;

/// Reads the bytes of a file of this kind, and takes what they stand for, or tells the first fault
/// in them (own). Updates are handed on, and what is none stands behind the others. After an error
/// it is left open what was taken.
pub fn take_file<T: UpdateTaker>(
    alloc: Global,
    kind: Kind,
    bytes: &[u8],
    others: &mut Others,
    updates: &mut T,
) -> Result<(), ReadError>
    ensures taken { OnOk result (TakesFile kind bytes.now
        (HaveTaken others.old (T.took updates.old)) (HaveTaken others.new (T.took updates.new))) }
    ensures refused { IfErr result (RefusedBy (HasFirstFaultIn kind bytes.now)) }
{
    others.kinds.push(kind)?;
    match kind {
        Kind::V1 => updates.take_v1(alloc, bytes),
        Kind::V2 => take_one(read_v2(alloc, bytes), updates),
        Kind::Log => take_log(alloc, bytes, updates),
        Kind::Vector => take_vector(read_vector(alloc, bytes), &mut others.vectors),
        Kind::Script => take_script(read_script(alloc, bytes), &mut others.scripts),
    }
}

// Takes the one update.
fn take_one<T: UpdateTaker>(read: Result<Update, ReadError>, taker: &mut T) -> Result<(), ReadError>
    requires { IfOk read (λ update. IsValidUpdate (update_value update)) }
    ensures { TakesRead (λ update.
        TakesMore (T.took taker.old) (T.took taker.new) (update_value update ∷ [])) read result }
{
    let update = read?;
    if taker.take(update).is_err() {
        return Err(ReadError::NoMemory);
    }
    Ok(())
}

// Takes the state vector.
fn take_vector(read: Result<Vector, ReadError>, vectors: &mut Vec<Vector>) -> Result<(), ReadError>
    ensures { TakesRead (λ vector.
        vectors.new.items ≡ vectors.old.items ++ vector ∷ []) read result }
{
    let vector = read?;
    vectors.push(vector)?;
    Ok(())
}

// Takes the script.
fn take_script(read: Result<Text, ReadError>, scripts: &mut Vec<Text>) -> Result<(), ReadError>
    ensures { TakesRead (λ text.
        scripts.new.items ≡ scripts.old.items ++ text ∷ []) read result }
{
    let text = read?;
    scripts.push(text)?;
    Ok(())
}
