ghost use Rattle.sheets.specs.Inner.{HeadTold};

use crate::fault::SheetRefusal;
use crate::kind::Kind;
use crate::rest::Rest;
use terms::limits::{LONGEST_FIGURE, LONGEST_PHRASE};
use terms::refusal::Refusal;

// What stands before the phrase.
#[derive(Clone, Copy)]
pub(crate) struct Head {
    pub(crate) kind: Kind,
    pub(crate) figure: usize,
    pub(crate) count: u32,
}

// The head of a sheet, and the rest.
pub(crate) fn read_head(sheet: &[u8]) -> Result<(Head, Rest<'_>), SheetRefusal>
    ensures { HeadTold sheet.entry result }
{
    let mut rest = Rest { sheet, place: 0 };
    let [letter] = rest.field::<1>()?;
    let kind = Kind::try_from(letter).map_err(|cause| SheetRefusal::new(cause, 0))?;
    let [figure, low, high] = rest.field::<3>()?;
    let figure = usize::from(figure);
    let count = u32::from(u16::from_le_bytes([low, high]));
    let length = count as usize;
    // Lines 11, 12 and 13 of the table again: through `check_phrase` each would be told apart once more for its place.
    if length == 0 {
        return Err(SheetRefusal::new(Refusal::EmptyPhrase, 2));
    }
    if length > LONGEST_PHRASE {
        return Err(SheetRefusal::new(Refusal::LongPhrase, 2));
    }
    if figure == 0 || figure > length || figure > LONGEST_FIGURE {
        return Err(SheetRefusal::new(Refusal::FigureLength, 1));
    }
    let head = Head {
        kind,
        figure,
        count,
    };
    Ok((head, rest))
}
