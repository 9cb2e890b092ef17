ghost use Rattle.std.specs.Prelude.{◌≡◌, [], length};
ghost use Rattle.listing.specs.Listed.{InLimits, PlayedLines, SheetPlayable, SheetPlayed, lines_of, lines_with};

use crate::line::Line;
use crate::made::{Answers, Listing};
use crate::sounds::sounds_of;
use direct::run::play;
use sheets::parts::Sheet;
use terms::answer::Answer;
use terms::limits::{LONGEST_LISTED, LONGEST_PHRASE};

// Adds the answers at each sound of a take, which no line of the table turns away, against a phrase of sounds, and
// answers the last line.
fn play_sounds(phrase: &[u32], q: usize, take: &[u32], answers: &mut Answers) -> Line
    requires limits { InLimits q (length phrase.now) (length take.now) }
    requires empty { answers.old.items ≡ [] }
    ensures { PlayedLines q phrase.now take.now (lines_with answers.new.items result) }
{
    // As many blank answers as the take has steps, for `play` to write over.
    for _ in take {
        answers.push(Answer::default());
    }
    let best = play(phrase, q, take, answers.as_mut_slice()).unwrap();
    Line::Best(best)
}

// The lines of a sheet's take against its phrase.
pub(crate) fn play_sheet(sheet: Sheet<'_>) -> Listing
    requires { SheetPlayable sheet }
    ensures { SheetPlayed sheet.entry (lines_of result) }
{
    let phrase = sounds_of::<LONGEST_PHRASE>(sheet.kind, sheet.phrase.part().bytes);
    let take = sounds_of::<LONGEST_LISTED>(sheet.kind, sheet.played.part().bytes);
    // Made here and lent: each move by value copies the whole room.
    let mut answers = Answers::new();
    let last = play_sounds(&phrase, sheet.figure, &take, &mut answers);
    Listing { answers, last }
}
