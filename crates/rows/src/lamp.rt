ghost use Rattle.std.specs.Prelude.{◌≡◌};
ghost use Rattle.rows.specs.Lamps.{no_lamp, lamp_joined, lamp_valid};
ghost use Rattle.rows.specs.LampTrees.{answer_leaf, in_range, lamp_shown};
ghost use Rattle.rows.specs.LampLaws.{lamp_laws};

use crate::summary::Summary;
use terms::limits::{LONGEST_PHRASE, LONGEST_TAKE};

// The least gap of neighbouring answers, with its earliest step. A size of 0 is no answer: the laws of a summary ask for it.
#[derive(Clone, Copy)]
pub(crate) struct Lamp {
    pub size: u32,
    pub gap: u32,
    pub step: u32,
}

impl Lamp {
    // The leaf of one answer, brought into range.
    pub(crate) fn of_answer(gap: u32, step: u32) -> Lamp
        ensures { result ≡ answer_leaf (in_range gap step) }
    {
        Lamp {
            size: 1,
            gap: gap.min(LONGEST_PHRASE as u32),
            step: step.min(LONGEST_TAKE),
        }
    }

    // What the lamp shows of a summary.
    pub(crate) fn shown(self) -> Option<(u32, u32)>
        ensures { result ≡ lamp_shown self }
    {
        (self.size > 0).then_some((self.gap, self.step))
    }
}

impl Summary for Lamp {
    ghost empty = { no_lamp };

    ghost size = { λ l. l.size };

    ghost valid = { lamp_valid };

    ghost joined = { lamp_joined };

    ghost laws = { lamp_laws };

    fn none() -> Lamp {
        Lamp {
            size: 0,
            gap: LONGEST_PHRASE as u32,
            step: LONGEST_TAKE,
        }
    }

    fn join(older: Lamp, newer: Lamp) -> Lamp {
        let best = if (newer.gap, newer.step) < (older.gap, older.step) {
            newer
        } else {
            older
        };
        Lamp {
            size: older.size + newer.size,
            ..best
        }
    }
}
