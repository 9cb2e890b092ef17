ghost use Rattle.std.specs.Prelude.{◌≡◌, ◌≤◌, MatchResult};
ghost use Rattle.terms.specs.declared.refusal.Refusal.TheVariants.{UnknownKind};
ghost use Rattle.terms.specs.Limits.{widest_step};
ghost use Rattle.sheets.specs.Layout.{Lettered, SoundTold, bytes_of, kind_at, letter_of, sound_of, step_size};

use steps::lane::Lane;
use steps::mask::Mask;
use steps::note::Note;
use steps::step::Step;
use terms::refusal::Refusal;

// Which kind of step a sheet has.
#[derive(Clone, Copy, Debug, PartialEq, Eq)]
pub enum Kind {
    Lanes,
    Masks,
    Notes,
}

// The kind that has this letter.
impl TryFrom<u8> for Kind {
    type Error = Refusal;

    ghost try_from_gives = { λ b r.
        MatchResult r (λ k. (letter_of k ≡ b) × (k ≡ kind_at b)) (λ e. (e ≡ UnknownKind) × (Lettered b → ⊥)) };

    // The letters are literal cases, here and in `From`.
    fn try_from(letter: u8) -> Result<Kind, Refusal> {
        match letter {
            b'L' => Ok(Kind::Lanes),
            b'M' => Ok(Kind::Masks),
            b'N' => Ok(Kind::Notes),
            _ => Err(Refusal::UnknownKind),
        }
    }
}

// The letter of a kind.
impl From<Kind> for u8 {
    ghost from_gives = { λ k b. b ≡ letter_of k };

    fn from(kind: Kind) -> u8 {
        match kind {
            Kind::Lanes => b'L',
            Kind::Masks => b'M',
            Kind::Notes => b'N',
        }
    }
}

// The kinds are closed, and told at run time by a letter: only here a kind becomes a type.
impl Kind {
    // The bytes of a step of the kind.
    pub fn step_bytes(self) -> usize
        ensures size { result ≡ step_size self }
        ensures some { 1 ≤ result }
        ensures wide { result ≤ widest_step }
    {
        match self {
            Kind::Lanes => Lane::BYTES,
            Kind::Masks => Mask::BYTES,
            Kind::Notes => Note::BYTES,
        }
    }

    // The sound of the step that these bytes are, all of them; refused where they are no step of the kind.
    pub fn sound(self, bytes: &[u8]) -> Result<u32, Refusal>
        ensures { SoundTold (bytes_of self) (sound_of self) bytes.now result }
    {
        match self {
            Kind::Lanes => sound_of_bytes::<Lane>(bytes),
            Kind::Masks => sound_of_bytes::<Mask>(bytes),
            Kind::Notes => sound_of_bytes::<Note>(bytes),
        }
    }
}

// The same for one type of step, whose bound brings the law that equal bytes have equal sounds.
fn sound_of_bytes<S: Step>(bytes: &[u8]) -> Result<u32, Refusal>
    ensures { SoundTold S.Step.bytes S.Step.sound bytes.now result }
{
    S::decode(bytes).map(S::sound)
}
