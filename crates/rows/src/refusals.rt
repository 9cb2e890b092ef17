ghost use Rattle.std.specs.Prelude.{◌≡◌};
ghost use Rattle.terms.specs.Refusals.{start_refusal, lift_refusal, verdict};

use terms::limits::WIDEST_ROW;
use terms::refusal::Refusal;

// Turns a start with `count` marks away, or lets it pass.
pub(crate) fn start_refused(count: usize) -> Result<(), Refusal>
    ensures { result ≡ verdict (start_refusal count) }
{
    if count == 0 || count > WIDEST_ROW {
        return Err(Refusal::RowWidth);
    }
    Ok(())
}

// Turns a lift at an age away that a row of `len` marks has not, or lets it pass.
pub(crate) fn lift_refused(len: usize, age: usize) -> Result<(), Refusal>
    ensures { result ≡ verdict (lift_refusal len age) }
{
    if age >= len {
        return Err(Refusal::MarkAge);
    }
    Ok(())
}
