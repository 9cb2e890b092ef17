ghost use Rattle.std.specs.Prelude.{◌≡◌, ◌+◌, ◌*◌, ◌^◌, ◌<◌, length};
ghost use Rattle.sheets.specs.Layout.{step_size};
ghost use Rattle.sheets.specs.Inner.{StepsTold};

use crate::fault::StepFault;
use crate::kind::Kind;
use crate::parts::Part;

// Judges the steps of a part, front to back.
pub(crate) fn judge(kind: Kind, part: Part<'_>) -> Result<(), StepFault>
    requires long { length part.bytes.now ≡ part.count * step_size kind }
    requires room { part.place + length part.bytes.now < 2 ^ 64 }
    ensures { StepsTold kind part.entry result }
{
    let size = kind.step_bytes();
    for (i, step) in part.bytes.chunks_exact(size).enumerate() {
        let place = part.place + i * size;
        kind.sound(step)
            .map_err(|cause| StepFault { cause, place })?;
    }
    Ok(())
}
