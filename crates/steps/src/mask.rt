ghost use Rattle.steps.specs.Sounds.{mask_sounds, mask_sound, mask_bytes};
ghost use Rattle.std.proofs.Common.{rules};

use crate::step::Step;
use terms::limits::WIDEST_STEP;
use terms::refusal::Refusal;

// A step of sixteen pads, one bit each.
#[derive(Clone, Copy, Debug, PartialEq, Eq)]
pub struct Mask(pub u16);

impl Step for Mask {
    const SOUNDS: u32 = 65_536;

    const BYTES: usize = 2;

    ghost SOUNDS = { mask_sounds };

    ghost BYTES = { 2 };

    ghost sound = { mask_sound };

    ghost bytes = { mask_bytes };

    ghost below = { Prim.search rules };

    ghost sized = { Prim.search rules };

    ghost some = { Prim.search rules };

    ghost wide = { Prim.search rules };

    ghost heard = { Prim.search rules };

    fn sound(self) -> u32 {
        self.0.into()
    }

    fn encode(self) -> [u8; WIDEST_STEP] {
        let [low, high] = self.0.to_le_bytes();
        [low, high, 0]
    }

    fn decode(from: &[u8]) -> Result<Mask, Refusal> {
        match from {
            [low, high] => Ok(Mask(u16::from_le_bytes([*low, *high]))),
            _ => Err(Refusal::UnknownStep),
        }
    }
}
