ghost use Rattle.std.specs.Prelude.{◌≡◌, ◌++◌, IfOk, OnOk};
ghost use Rattle.std.specs.List.{flat_map};
ghost use Rattle.listing.specs.Lines.{line_bytes};
ghost use Rattle.listing.specs.Listed.{lines_of};

use crate::line::Line;
use crate::made::Listing;
use std::alloc::{AllocError, Global};

// Adds a line's bytes to the output.
fn add_line(out: &mut Vec<u8>, line: Line) -> Result<(), AllocError>
    ensures { OnOk result (out.new.items ≡ out.old.items ++ line_bytes line) }
{
    out.extend_from_slice(line.text().as_bytes())
}

impl Listing {
    // The bytes of all lines, one after the other; an error only for want of memory.
    pub fn to_bytes(&self, heap: Global) -> Result<Vec<u8>, AllocError>
        ensures { IfOk result (λ v. v.items ≡ flat_map line_bytes (lines_of self.now)) }
    {
        let mut out = Vec::new(heap);
        for answer in self.answers.as_slice() {
            add_line(&mut out, Line::Step(*answer))?;
        }
        add_line(&mut out, self.last)?;
        Ok(out)
    }
}
