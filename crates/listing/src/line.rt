ghost use Rattle.std.specs.Prelude.{◌≡◌};
ghost use Rattle.listing.specs.Lines.{line_bytes};
ghost use Rattle.listing.specs.Texts.{text_of};

use crate::text::LineText;
use itoa::Buffer;
use sheets::fault::SheetRefusal;
use terms::answer::{Answer, BestStretch};

// One line of a listing.
#[derive(Clone, Copy, Debug, PartialEq, Eq)]
pub enum Line {
    Step(Answer),
    Best(Option<BestStretch>),
    Refused(SheetRefusal),
}

impl Line {
    // The bytes of the line, with its end.
    pub fn text(self) -> LineText
        ensures { text_of result ≡ line_bytes self }
    {
        match self {
            Line::Step(a) => LineText::of(
                Buffer::new().format(a.step),
                &[a.gap as usize, a.start as usize],
            ),
            Line::Best(None) => LineText::of("best none", &[]),
            Line::Best(Some(b)) => LineText::of(
                "best",
                &[b.gap as usize, b.start as usize, b.end as usize],
            ),
            Line::Refused(e) => LineText::refused(e.cause.number(), e.place),
        }
    }
}
