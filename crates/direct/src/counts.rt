// How often a figure stands in a row.
ghost use Rattle.std.specs.Prelude.{◌≡◌, length};
ghost use Rattle.terms.specs.Figures.{count, figures};

// Counts the figure at every place of the row, from the last place on. Not by `windows`: a figure may be empty. Nor by
// `filter` and `count`: that loop jumps on each match, and takes up to twice the time where matches come as they like.
pub(crate) fn times(row: &[u32], figure: &[u32]) -> usize
    ensures { result ≡ count figure.now (figures (length figure.now) row.now) }
{
    let mut n = 0;
    for i in (0..row.len()).rev() {
        if row[i..].starts_with(figure) {
            n += 1;
        }
    }
    n
}
