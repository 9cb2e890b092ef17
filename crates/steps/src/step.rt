ghost use Rattle.std.specs.Prelude.{◌≡◌, ℕ, ◌<◌, ◌≤◌, List, length};
ghost use Rattle.terms.specs.Limits.{widest_step};
ghost use Rattle.steps.specs.Coding.{padded, Decoded};

use terms::limits::WIDEST_STEP;
use terms::refusal::Refusal;

// A kind of step: how many sounds it tells apart, how many bytes it takes in a sheet, and the sound of each step.
// No kind's type has an invariant, so that steps can lie in lists.
pub trait Step: Copy {
    // The count of sounds.
    const SOUNDS: u32;

    // The bytes of a step in a sheet.
    const BYTES: usize;

    // The two constants, for clauses.
    ghost SOUNDS: { ℕ };

    ghost BYTES: { ℕ };

    // A step's sound number.
    ghost sound: { Self → ℕ };

    // A step's bytes in a sheet.
    ghost bytes: { Self → List ℕ };

    fn sound_count() -> u32
        ensures { result ≡ SOUNDS }
    {
        Self::SOUNDS
    }

    fn byte_count() -> usize
        ensures { result ≡ BYTES }
    {
        Self::BYTES
    }

    fn sound(self) -> u32
        ensures { result ≡ sound self };

    // The step's bytes at the front of an array, and 0 behind them: an array's length cannot be a constant of the trait.
    fn encode(self) -> [u8; WIDEST_STEP]
        ensures { result ≡ padded (bytes self) };

    // The step that these bytes are, all of them; refused where they are no step's.
    fn decode(from: &[u8]) -> Result<Self, Refusal>
        ensures { Decoded bytes from.now result };

    ghost below: { (x : Self) → sound x < SOUNDS };

    ghost sized: { (x : Self) → length (bytes x) ≡ BYTES };

    ghost some: { 1 ≤ BYTES };

    ghost wide: { BYTES ≤ widest_step };

    // What a sheet keeps of a step decides its sound.
    ghost heard: { (x y : Self) → bytes x ≡ bytes y → sound x ≡ sound y };
}

// The two constants of a kind.
pub fn constants<S: Step>() -> (u32, usize)
    ensures { (result.0 ≡ S.Step.SOUNDS) × (result.1 ≡ S.Step.BYTES) }
{
    (S::SOUNDS, S::BYTES)
}
