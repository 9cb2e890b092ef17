ghost use Rattle.std.specs.Prelude.{◌≡◌};

use crate::lane::Lane;
use crate::mask::Mask;
use crate::note::Note;
use crate::step::Step;

// The constants of the three kinds, pinned.
pub fn kinds_pinned()
    ensures lanes { (⟦<Lane as Step>⟧.SOUNDS ≡ 4) × (⟦<Lane as Step>⟧.BYTES ≡ 1) }
    ensures masks { (⟦<Mask as Step>⟧.SOUNDS ≡ 65536) × (⟦<Mask as Step>⟧.BYTES ≡ 2) }
    ensures notes { (⟦<Note as Step>⟧.SOUNDS ≡ 47) × (⟦<Note as Step>⟧.BYTES ≡ 3) }
{}
