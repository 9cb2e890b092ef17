ghost use Rattle.std.specs.Prelude.{◌≡◌};
ghost use Rattle.sheets.specs.Layout.{StepOf, Written, bytes_of, sound_of};
ghost use Rattle.listing.specs.Listed.{SoundsAt, StepsWritten};

use arrayvec::ArrayVec;
use sheets::kind::Kind;

// The sound of the kind's step that these bytes are.
fn sound_at(kind: Kind, bytes: &[u8]) -> u32
    requires { Written (bytes_of kind) bytes.now }
    ensures { (x : StepOf kind) → bytes_of kind x ≡ bytes.now → result ≡ sound_of kind x }
{
    kind.sound(bytes).unwrap()
}

// The sounds of the kind's steps that have these bytes, at most N.
pub(crate) fn sounds_of<const N: usize>(kind: Kind, bytes: &[u8]) -> ArrayVec<u32, N>
    requires { StepsWritten (bytes_of kind) N bytes.now }
    ensures { SoundsAt (bytes_of kind) (sound_of kind) bytes.now result.items }
{
    // By push: `collect` asks for an allocator, and `extend` answers an error that cannot come here.
    let mut sounds = ArrayVec::new();
    for step in bytes.chunks_exact(kind.step_bytes()) {
        sounds.push(sound_at(kind, step));
    }
    sounds
}
