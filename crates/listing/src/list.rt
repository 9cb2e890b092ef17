ghost use Rattle.std.specs.Prelude.{◌≡◌, [], ◌∷◌};
ghost use Rattle.listing.specs.Listed.{Listed, lines_of};
ghost use Rattle.listing.specs.declared.line.Line.TheVariants.{Refused};

use crate::line::Line;
use crate::made::{Answers, Listing};
use crate::playing::play_sheet;
use sheets::fault::SheetRefusal;
use sheets::read::read_sheet;

// The one line of a refusal.
fn refused(e: SheetRefusal) -> Listing
    ensures { lines_of result ≡ Refused e ∷ [] }
{
    Listing {
        answers: Answers::new(),
        last: Line::Refused(e),
    }
}

// What is listed for an input.
pub fn list(input: &[u8]) -> Listing
    ensures { Listed input.now (lines_of result) }
{
    // Both outcomes end in a listing, so there is no `?`; a match says it as plainly as `map_or_else`.
    match read_sheet(input) {
        Ok(sheet) => play_sheet(sheet),
        Err(e) => refused(e),
    }
}
