ghost use Rattle.std.specs.Prelude.{◌≡◌};
ghost use Rattle.terms.specs.Bettered.{best_at, better_of};

// The answer at a step of a take: the least gap of a stretch that ends there, and the first start that has it.
#[derive(Clone, Copy, Debug, Default, PartialEq, Eq)]
pub struct Answer {
    pub step: u32,
    pub gap: u32,
    pub start: u32,
}

// The best stretch of a whole take.
#[derive(Clone, Copy, Debug, PartialEq, Eq)]
pub struct BestStretch {
    pub gap: u32,
    pub start: u32,
    pub end: u32,
}

// The stretch that an answer names.
impl From<Answer> for BestStretch {
    ghost from_gives = { λ a b. b ≡ best_at a };

    fn from(a: Answer) -> BestStretch {
        BestStretch {
            gap: a.gap,
            start: a.start,
            end: a.step,
        }
    }
}

impl BestStretch {
    // The better of the best so far and a later answer: the earlier among equals.
    pub fn better(so_far: Option<BestStretch>, later: Answer) -> BestStretch
        ensures { result ≡ better_of so_far later }
    {
        match so_far {
            Some(best) if best.gap <= later.gap => best,
            _ => later.into(),
        }
    }
}
