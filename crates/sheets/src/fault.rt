ghost use Rattle.std.specs.Prelude.{◌≡◌};

use terms::refusal::Refusal;

// A step that is none, at its first byte in the sheet. A type of its own, so that `?` carries it into the sheet's refusal.
#[derive(Clone, Copy, Debug, PartialEq, Eq)]
pub struct StepFault {
    pub cause: Refusal,
    pub place: usize,
}

// A refusal of a sheet, at one of its bytes.
#[derive(Clone, Copy, Debug, PartialEq, Eq)]
pub struct SheetRefusal {
    pub cause: Refusal,
    pub place: usize,
}

impl SheetRefusal {
    pub(crate) fn new(cause: Refusal, place: usize) -> SheetRefusal
        ensures { result ≡ record { cause = cause; place = place } }
    {
        SheetRefusal { cause, place }
    }
}

impl From<StepFault> for SheetRefusal {
    ghost from_gives = { λ f r. r ≡ record { cause = f.cause; place = f.place } };

    fn from(f: StepFault) -> SheetRefusal {
        SheetRefusal::new(f.cause, f.place)
    }
}
