ghost use Rattle.std.specs.Prelude.{◌≡◌, ◌≤◌, pos, negsuc, ◌≤ℤ◌};
ghost use Rattle.steps.specs.Sounds.{note_sounds, note_sound, note_bytes, pad_of, velocity_of, offset_of, NoteTold};
ghost use Rattle.std.proofs.Common.{rules};

use crate::step::Step;
use terms::limits::WIDEST_STEP;
use terms::refusal::Refusal;

// A struck pad. The fields are read by remainders, so that every value of them is a note in range.
#[derive(Clone, Copy, Debug, PartialEq, Eq)]
pub struct Note {
    pad: u8,
    velocity: u8,
    // The offset and 24.
    shift: u8,
}

impl Note {
    pub fn new(pad: u8, velocity: u8, offset: i8) -> Result<Note, Refusal>
        ensures { NoteTold pad velocity offset result }
    {
        if pad > 15 || velocity > 127 || !(-24..=24).contains(&offset) {
            return Err(Refusal::UnknownStep);
        }
        Ok(Note {
            pad,
            velocity,
            shift: (offset + 24) as u8,
        })
    }

    // 0 to 15; pad 15 is the choke.
    pub fn pad(self) -> u8
        ensures { (result ≡ pad_of self) × (result ≤ 15) }
    {
        self.pad % 16
    }

    // 0 to 127; 0 is a rest.
    pub fn velocity(self) -> u8
        ensures { (result ≡ velocity_of self) × (result ≤ 127) }
    {
        self.velocity % 128
    }

    // -24 to 24 ticks.
    pub fn offset(self) -> i8
        ensures { (result ≡ offset_of self) × (negsuc 23 ≤ℤ result) × (result ≤ℤ pos 24) }
    {
        (self.shift % 49) as i8 - 24
    }
}

impl Step for Note {
    const SOUNDS: u32 = 47;

    const BYTES: usize = 3;

    ghost SOUNDS = { note_sounds };

    ghost BYTES = { 3 };

    ghost sound = { note_sound };

    ghost bytes = { note_bytes };

    ghost below = { Prim.search rules };

    ghost sized = { Prim.search rules };

    ghost some = { Prim.search rules };

    ghost wide = { Prim.search rules };

    ghost heard = { Prim.search rules };

    fn sound(self) -> u32 {
        let pad = u32::from(self.pad());
        match (pad, self.velocity()) {
            (15, _) => 1,
            (_, 0) => 0,
            (_, 1..=39) => 2 + 3 * pad,
            (_, 40..=99) => 3 + 3 * pad,
            _ => 4 + 3 * pad,
        }
    }

    fn encode(self) -> [u8; WIDEST_STEP] {
        [self.pad(), self.velocity(), self.offset().cast_unsigned()]
    }

    fn decode(from: &[u8]) -> Result<Note, Refusal> {
        match from {
            [pad, velocity, offset] => Note::new(*pad, *velocity, offset.cast_signed()),
            _ => Err(Refusal::UnknownStep),
        }
    }
}
