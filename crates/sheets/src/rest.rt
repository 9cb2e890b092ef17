ghost use Rattle.std.specs.Prelude.{◌≤◌, length};

use crate::fault::SheetRefusal;
use crate::judge::judge;
use crate::kind::Kind;
use crate::parts::Part;
use terms::limits::LONGEST_LISTED;
use terms::refusal::Refusal;

// What is left of a sheet: its bytes from a place on.
#[derive(Drop)]
pub(crate) struct Rest<'a> {
    pub(crate) sheet: &'a [u8],
    pub(crate) place: usize,
    ghost inside: { place ≤ length sheet.now },
}

impl<'a> Rest<'a> {
    ghost use Rattle.sheets.specs.Inner.{CountTold, EndTold, FieldTold, SectionTold, TakeTold};

    // The next bytes, where the sheet reaches so far.
    fn take(&mut self, size: usize) -> Result<&'a [u8], SheetRefusal>
        ensures { TakeTold self.old size result self.new }
    {
        let bytes = self.sheet[self.place..]
            .get(..size)
            .ok_or(SheetRefusal::new(Refusal::NotWhole, self.sheet.len()))?;
        self.place += size;
        Ok(bytes)
    }

    // The bytes of a field.
    pub(crate) fn field<const N: usize>(&mut self) -> Result<[u8; N], SheetRefusal>
        ensures { FieldTold self.old N result self.new }
    {
        Ok(self.take(N)?.try_into().unwrap())
    }

    // The take count.
    pub(crate) fn count(&mut self) -> Result<u32, SheetRefusal>
        ensures { CountTold self.old result self.new }
    {
        let place = self.place;
        let count = u32::from_le_bytes(self.field()?);
        if count as usize > LONGEST_LISTED {
            return Err(SheetRefusal::new(Refusal::LongTake, place));
        }
        Ok(count)
    }

    // The section of so many steps: there whole, and each of the kind.
    pub(crate) fn steps(&mut self, kind: Kind, count: u32) -> Result<Part<'a>, SheetRefusal>
        ensures { SectionTold kind self.old count result self.new }
    {
        let place = self.place;
        let count = count as usize;
        let bytes = self.take(count * kind.step_bytes())?;
        let part = Part {
            place,
            count,
            bytes,
        };
        judge(kind, part)?;
        Ok(part)
    }

    // The end of the sheet.
    pub(crate) fn end(self) -> Result<(), SheetRefusal>
        ensures { EndTold self.entry result }
    {
        if self.place < self.sheet.len() {
            return Err(SheetRefusal::new(Refusal::BytesAfter, self.place));
        }
        Ok(())
    }
}
