ghost use Rattle.sheets.specs.Shown.{part_of};
ghost use Rattle.std.specs.Prelude.{◌≡◌};

use crate::kind::Kind;

// A part of a sheet: its place, how many steps it has (so that a user need not divide), and their bytes.
#[derive(Clone, Copy, Debug, PartialEq, Eq)]
pub struct Part<'a> {
    pub place: usize,
    pub count: usize,
    pub bytes: &'a [u8],
}

// The steps of a sheet's phrase or of its take; a section says which of the two it is.
#[derive(Clone, Copy, Debug, PartialEq, Eq)]
pub enum Section<'a> {
    Phrase(Part<'a>),
    Take(Part<'a>),
}

impl<'a> Section<'a> {
    pub fn part(self) -> Part<'a>
        ensures { result ≡ part_of self.entry }
    {
        match self {
            Section::Phrase(part) | Section::Take(part) => part,
        }
    }
}

// A sheet that was judged.
#[derive(Clone, Copy, Debug, PartialEq, Eq)]
pub struct Sheet<'a> {
    pub kind: Kind,
    pub figure: usize,
    pub phrase: Section<'a>,
    pub played: Section<'a>,
}
