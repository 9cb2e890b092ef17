// What every reader does, proved over the trait alone.
ghost use Rattle.std.specs.Prelude.{◌≡◌};
ghost use Rattle.readers.specs.Listening.{HearsAll, HearsAfresh, Answered};
ghost use Rattle.readers.specs.Memory.{Hears, counted};

use crate::reader::Reader;
use terms::refusal::Refusal;

// Lets a reader hear sounds one after another, and answers its last answer, 0 without a sound.
pub fn hear_all<R: Reader>(reader: &mut R, sounds: &[u32]) -> usize
    ensures { HearsAll (R.Reader.memory reader.old) sounds.now
        (R.Reader.memory reader.new) result }
{
    let mut last = 0;
    for &sound in sounds {
        last = reader.hear(sound);
    }
    last
}

// The same from the start: what was heard before counts for nothing.
pub fn hear_afresh<R: Reader>(reader: &mut R, sounds: &[u32]) -> usize
    ensures { HearsAfresh (R.Reader.memory reader.old) sounds.now
        (R.Reader.memory reader.new) result }
{
    reader.forget();
    hear_all(reader, sounds)
}

// Loads a new reader and lets it hear sounds: the last answer is the code of their newest q.
pub fn listen<R: Reader>(phrase: &[u32], q: usize, c: u32, sounds: &[u32]) -> Result<usize, Refusal>
    ensures { Answered (R.Reader.reaches c) phrase.now q c sounds.now result }
{
    let mut reader = R::new();
    reader.load(phrase, q, c)?;
    Ok(hear_all(&mut reader, sounds))
}

// Both readers hear the sound. Two of whatever make that mean the same answer it alike, and mean the same again.
#[tactic(auto, using(crate::proofs::Listens::hears_once))]
pub fn hear_alike<X: Reader, Y: Reader>(a: &mut X, b: &mut Y, sound: u32) -> (usize, usize)
    ensures first { Hears (X.Reader.memory a.old) sound (X.Reader.memory a.new) result.0 }
    ensures second { Hears (Y.Reader.memory b.old) sound (Y.Reader.memory b.new) result.1 }
    ensures answers { X.Reader.memory a.old ≡ Y.Reader.memory b.old → result.0 ≡ result.1 }
    ensures memories { X.Reader.memory a.old ≡ Y.Reader.memory b.old
        → X.Reader.memory a.new ≡ Y.Reader.memory b.new }
{
    (a.hear(sound), b.hear(sound))
}

// Both readers count the figure of the code. Two that mean the same count alike.
pub fn count_alike<X: Reader, Y: Reader>(a: &X, b: &Y, code: usize) -> (usize, usize)
    ensures first { result.0 ≡ counted (X.Reader.memory a.now) code }
    ensures second { result.1 ≡ counted (Y.Reader.memory b.now) code }
    ensures alike { X.Reader.memory a.now ≡ Y.Reader.memory b.now → result.0 ≡ result.1 }
{
    (a.count(code), b.count(code))
}
