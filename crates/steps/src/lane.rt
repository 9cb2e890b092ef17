ghost use Rattle.std.specs.Prelude.{◌≡◌, MatchResult, ◌≢◌};
ghost use Rattle.terms.specs.declared.refusal.Refusal.TheVariants.{UnknownStep};
ghost use Rattle.steps.specs.Sounds.{lane_sounds, lane_sound, lane_bytes, letter};
ghost use Rattle.steps.specs.declared.lane.Lane.{Lane};
ghost use Rattle.std.proofs.Common.{rules};

use crate::step::Step;
use terms::limits::WIDEST_STEP;
use terms::refusal::Refusal;

// A step of one pad, written as a letter; the lanes in the order of their sound numbers.
#[derive(Clone, Copy, Debug, PartialEq, Eq)]
pub enum Lane {
    // `.`
    Rest,
    // `o`
    Soft,
    // `x`
    Hit,
    // `X`
    Accent,
}

// The lane of a letter. Letters are literal cases, here and below.
impl TryFrom<u8> for Lane {
    type Error = Refusal;

    ghost try_from_gives = { λ b r.
        MatchResult r (λ l. letter l ≡ b) (λ e. (e ≡ UnknownStep) × ((l : Lane) → letter l ≢ b)) };

    fn try_from(letter: u8) -> Result<Lane, Refusal> {
        match letter {
            b'.' => Ok(Lane::Rest),
            b'o' => Ok(Lane::Soft),
            b'x' => Ok(Lane::Hit),
            b'X' => Ok(Lane::Accent),
            _ => Err(Refusal::UnknownStep),
        }
    }
}

// The letter of a lane.
impl From<Lane> for u8 {
    ghost from_gives = { λ l b. b ≡ letter l };

    fn from(lane: Lane) -> u8 {
        match lane {
            Lane::Rest => b'.',
            Lane::Soft => b'o',
            Lane::Hit => b'x',
            Lane::Accent => b'X',
        }
    }
}

impl Step for Lane {
    const SOUNDS: u32 = 4;

    const BYTES: usize = 1;

    ghost SOUNDS = { lane_sounds };

    ghost BYTES = { 1 };

    ghost sound = { lane_sound };

    ghost bytes = { lane_bytes };

    ghost below = { Prim.search rules };

    ghost sized = { Prim.search rules };

    ghost some = { Prim.search rules };

    ghost wide = { Prim.search rules };

    ghost heard = { Prim.search rules };

    fn sound(self) -> u32 {
        self as u32
    }

    fn encode(self) -> [u8; WIDEST_STEP] {
        [self.into(), 0, 0]
    }

    fn decode(from: &[u8]) -> Result<Lane, Refusal> {
        match from {
            [b] => Lane::try_from(*b),
            _ => Err(Refusal::UnknownStep),
        }
    }
}
