ghost use Rattle.std.specs.Prelude.{◌≡◌, ◌+◌, ◌*◌, ◌<◌, ◌≤◌, [], ◌∷◌, ◌++◌, length, codes, decimal};
ghost use Rattle.std.specs.List.{flat_map};
ghost use Rattle.listing.specs.Lines.{spaced};
ghost use Rattle.listing.specs.Texts.{text_of};

use arrayvec::ArrayString;
use itoa::Buffer;

// Room for the longest line: a word of seven letters, three numbers of at most 20 digits, and what stands between.
pub const LINE_ROOM: usize = 72;

// The bytes of a line, in fixed memory, so that making one cannot fail.
#[derive(Clone, Copy, Debug, PartialEq, Eq)]
pub struct LineText(ArrayString<LINE_ROOM>);

impl LineText {
    // A word, the numbers with a space in front of each, and the end of the line. Not by `write!`: its contract does
    // not say when it answers `Ok`, and this cannot fail.
    pub(crate) fn of(word: &str, numbers: &[usize]) -> LineText
        requires { length word.now + 21 * length numbers.now < LINE_ROOM }
        ensures { text_of result ≡ word.now ++ flat_map (λ n. 32 ∷ decimal n) numbers.now ++ (10 ∷ []) }
    {
        let mut text = ArrayString::new();
        text.push_str(word);
        for n in numbers {
            text.push(' ');
            text.push_str(Buffer::new().format(*n));
        }
        text.push('\n');
        LineText(text)
    }

    // The line of a refusal by its number, at a place.
    pub fn refused(number: u8, place: usize) -> LineText
        ensures { text_of result ≡ spaced (codes "refused" ∷ decimal number ∷ decimal place ∷ []) }
    {
        LineText::of("refused", &[number.into(), place])
    }

    pub fn as_bytes(&self) -> &[u8]
        ensures text { result.now ≡ text_of self.now }
        ensures fits { length result.now ≤ LINE_ROOM }
    {
        self.0.as_str().as_bytes()
    }
}
