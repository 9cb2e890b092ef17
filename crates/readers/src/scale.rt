ghost use Rattle.std.specs.Prelude.{◌≡◌, ℕ, ◌-◌, ◌^◌, ◌<◌, ◌≤◌};
ghost use Rattle.terms.specs.Limits.{longest_figure, most_numbers};

// The numbers of `width` digits in a base: each fits the table. `power` is the weight of the first digit.
#[derive(Clone, Copy)]
pub(crate) struct Scale {
    pub(crate) base: usize,
    pub(crate) width: usize,
    pub(crate) power: usize,
    ghost based: { 0 < base },
    ghost wide: { 0 < width },
    ghost short: { width ≤ longest_figure },
    ghost powered: { power ≡ base ^ (width - 1) },
    ghost small: { base ^ width ≤ most_numbers },
}

impl Scale {
    pub(crate) fn new(base: usize, width: usize) -> Scale
        requires based { 0 < base }
        requires wide { 0 < width }
        requires short { width ≤ longest_figure }
        requires small { base ^ width ≤ most_numbers }
        ensures base { result.base ≡ base }
        ensures width { result.width ≡ width }
    {
        Scale {
            base,
            width,
            power: base.pow(width as u32 - 1),
        }
    }
}
