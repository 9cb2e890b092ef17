ghost use Rattle.sheets.specs.Order.{Decided};
ghost use Rattle.sheets.specs.Shown.{Accepted, Refused};
ghost use Rattle.sheets.specs.Layout.{LongestSheet};
ghost use Rattle.terms.specs.Limits.{longest_sheet};
ghost use Rattle.std.specs.Prelude.{◌≡◌, ◌+◌, MatchResult};

use crate::fault::SheetRefusal;
use crate::head::read_head;
use crate::parts::{Section, Sheet};
use terms::limits::LONGEST_SHEET;

// Judges a sheet front to back, but q right after the phrase count, and hands out its sections.
pub fn read_sheet(sheet: &[u8]) -> Result<Sheet<'_>, SheetRefusal>
    ensures { MatchResult result (Accepted sheet.now) (Refused sheet.now) }
{
    let (head, mut rest) = read_head(sheet)?;
    let phrase = rest.steps(head.kind, head.count)?;
    let count = rest.count()?;
    let played = rest.steps(head.kind, count)?;
    rest.end()?;
    Ok(Sheet {
        kind: head.kind,
        figure: head.figure,
        phrase: Section::Phrase(phrase),
        played: Section::Take(played),
    })
}

// The order of judging leaves no choice of refusal.
pub fn order_decides()
    ensures { Decided }
{}

// How many bytes of an input are to be read: one more than the longest sheet has, which shows that an input is longer.
#[tactic(auto, using(crate::proofs::Longest::longest_sheets))]
pub fn reading_limit() -> usize
    ensures limit { result ≡ longest_sheet + 1 }
    ensures longest { LongestSheet }
{
    LONGEST_SHEET + 1
}
