// Both readers on the examples, with a few hand-made takes. What is proved of every input needs no test; these show
// that the compiled code runs, and what its numbers look like.
#![tactic(auto)]

#[cfg(test)]
mod tests {
    use readers::listen::listen;
    use readers::reader::Reader;
    use readers::sliding::SlidingReader;
    use readers::states::StatesReader;
    use std::array;
    use std::process::Abort;
    use std::test::Fail;
    use terms::limits::LONGEST_PHRASE;
    use terms::refusal::Refusal;

    // A new reader's answer to a load.
    fn load<R: Reader>(
        rt: &impl Abort,
        phrase: &[u32],
        q: usize,
        c: u32,
        wanted: Result<(), Refusal>,
    ) {
        let mut reader = R::new();
        assert_eq!(rt; reader.load(phrase, q, c), wanted);
    }

    // Both readers hear each sound of the take and answer as wanted; and again after a forgetting.
    fn play(rt: &impl Abort, phrase: &[u32], q: usize, c: u32, take: &[(u32, usize)]) {
        let mut states = StatesReader::new();
        let mut sliding = SlidingReader::new();
        assert_eq!(rt; states.load(phrase, q, c), Ok(()));
        assert_eq!(rt; sliding.load(phrase, q, c), Ok(()));
        for _again in 0..2 {
            for &(sound, wanted) in take {
                assert_eq!(rt; states.hear(sound), wanted);
                assert_eq!(rt; sliding.hear(sound), wanted);
            }
            states.forget();
            sliding.forget();
        }
        for code in 0..LONGEST_PHRASE + 2 {
            assert_eq!(rt; states.count(code), sliding.count(code));
        }
    }

    // A reader that holds a phrase refuses a load, and goes on as if there had been none.
    fn refuse<R: Reader>(rt: &impl Abort, phrase: &[u32], q: usize, c: u32, wanted: Refusal) {
        let mut reader = R::new();
        assert_eq!(rt; reader.load(&[2, 0, 2, 0], 2, 4), Ok(()));
        assert_eq!(rt; reader.hear(2), 0);
        assert_eq!(rt; reader.load(phrase, q, c), Err(wanted));
        assert_eq!(rt; reader.hear(0), 1);
        assert_eq!(rt; reader.count(1), 2);
    }

    fn refuse_all<R: Reader>(rt: &impl Abort) {
        let long: [u32; LONGEST_PHRASE + 1] = [1; LONGEST_PHRASE + 1];
        let fits = &long[..LONGEST_PHRASE];
        let refused: [(&[u32], usize, u32, Refusal); 7] = [
            (&[], 0, 0, Refusal::EmptyPhrase),
            (&long, 0, 0, Refusal::LongPhrase),
            (&[1, 2], 0, 0, Refusal::FigureLength),
            (&[1, 2], 3, 0, Refusal::FigureLength),
            (fits, 9, 0, Refusal::FigureLength),
            (&[1, 2], 1, 0, Refusal::PastReach),
            (&[1, 4], 1, 4, Refusal::UnknownSound),
        ];
        for (phrase, q, c, wanted) in refused {
            refuse::<R>(rt, phrase, q, c, wanted);
        }
        load::<R>(rt, fits, 6, 4, Ok(()));
        load::<R>(rt, &[1, 2], 2, 4, Ok(()));
    }

    // A reader without a phrase hears nothing.
    fn empty<R: Reader>(rt: &impl Abort) {
        let mut reader = R::new();
        assert_eq!(rt; reader.hear(1), 0);
        assert_eq!(rt; reader.count(1), 0);
        reader.forget();
        assert_eq!(rt; reader.hear(1), 0);
    }

    #[test]
    fn both_refuse_in_order(rt: HostRuntime) {
        empty::<StatesReader>(&rt);
        empty::<SlidingReader>(&rt);
        refuse_all::<StatesReader>(&rt);
        refuse_all::<SlidingReader>(&rt);
    }

    #[test]
    fn both_answer_alike(rt: HostRuntime) {
        // a sound that the phrase has not, one that is not below c, and the largest
        play(
            &rt,
            &[2, 0, 2, 0],
            2,
            4,
            &[
                (0, 0),
                (2, 2),
                (0, 1),
                (2, 2),
                (3, 0),
                (2, 0),
                (0, 1),
                (4, 0),
                (0, 0),
                (2, 2),
                (4_294_967_295, 0),
                (2, 0),
                (0, 1),
            ],
        );
        // lanes at the sliding reader's reach, q the whole phrase
        play(
            &rt,
            &[0, 1, 2, 3, 0, 1],
            6,
            4,
            &[
                (1, 0),
                (0, 0),
                (1, 0),
                (2, 0),
                (3, 0),
                (0, 0),
                (1, 1),
                (2, 0),
            ],
        );
        // notes at its reach
        play(
            &rt,
            &[46, 0, 46, 46],
            2,
            47,
            &[
                (46, 0),
                (46, 3),
                (0, 1),
                (46, 2),
                (0, 1),
                (47, 0),
                (46, 0),
                (0, 1),
            ],
        );
        // single sounds
        play(
            &rt,
            &[3, 1, 3],
            1,
            4096,
            &[(1, 2), (3, 1), (2, 0), (4095, 0), (3, 1)],
        );
    }

    #[test]
    fn sliding_reaches_so_far(rt: HostRuntime) {
        load::<SlidingReader>(&rt, &[0, 1, 2, 3, 0, 1, 2], 6, 4, Ok(()));
        load::<SlidingReader>(&rt, &[0, 1, 2, 3, 0, 1, 2], 7, 4, Err(Refusal::PastReach));
        load::<StatesReader>(&rt, &[0, 1, 2, 3, 0, 1, 2], 7, 4, Ok(()));
        load::<StatesReader>(
            &rt,
            &[0, 1, 2, 3, 0, 1, 2],
            8,
            4,
            Err(Refusal::FigureLength),
        );
        load::<SlidingReader>(&rt, &[0, 46, 2], 2, 47, Ok(()));
        load::<SlidingReader>(&rt, &[0, 46, 2], 3, 47, Err(Refusal::PastReach));
        load::<StatesReader>(&rt, &[0, 46, 2], 3, 47, Ok(()));
        load::<SlidingReader>(&rt, &[65_535], 1, 65_536, Err(Refusal::PastReach));
        load::<StatesReader>(&rt, &[65_535], 1, 65_536, Ok(()));
    }

    fn repeat<R: Reader>(rt: &impl Abort) {
        let phrase: [u32; LONGEST_PHRASE] = [0; LONGEST_PHRASE];
        let mut reader = R::new();
        assert_eq!(rt; reader.load(&phrase, 8, 1), Ok(()));
        for _short in 0..7 {
            assert_eq!(rt; reader.hear(0), 0);
        }
        for _whole in 7..LONGEST_PHRASE {
            assert_eq!(rt; reader.hear(0), 1);
        }
        assert_eq!(rt; reader.count(1), LONGEST_PHRASE - 7);
        assert_eq!(rt; reader.count(2), 0);
    }

    #[test]
    fn one_sound_repeated(rt: HostRuntime) {
        repeat::<StatesReader>(&rt);
        repeat::<SlidingReader>(&rt);
    }

    // A phrase of different masks.
    fn masks() -> [u32; LONGEST_PHRASE] {
        array::from_fn(|i| 65_535 - i as u32)
    }

    // It needs every state.
    #[test]
    fn different_masks(rt: HostRuntime) {
        let phrase = masks();
        let mut reader = StatesReader::new();
        assert_eq!(rt; reader.load(&phrase, 8, 65_536), Ok(()));
        for (i, &mask) in phrase.iter().enumerate() {
            assert_eq!(rt; reader.hear(mask), i.saturating_sub(6));
        }
        assert_eq!(rt; reader.count(LONGEST_PHRASE - 7), 1);
        assert_eq!(rt; reader.count(LONGEST_PHRASE - 6), 0);
        load::<SlidingReader>(&rt, &phrase, 8, 65_536, Err(Refusal::PastReach));
    }

    #[test]
    fn refusals_have_numbers(rt: HostRuntime) {
        let numbered = [
            (Refusal::EmptyPhrase, 11),
            (Refusal::LongPhrase, 12),
            (Refusal::FigureLength, 13),
            (Refusal::PastReach, 14),
            (Refusal::UnknownSound, 15),
        ];
        for (refusal, number) in numbered {
            assert_eq!(rt; refusal.number(), number);
        }
    }

    #[test]
    fn listens(rt: HostRuntime) -> Result<(), Fail> {
        let code = listen::<StatesReader>(&[2, 0, 2, 0], 2, 4, &[0, 2, 0, 2])?;
        assert_eq!(rt; code, 2);
        Ok(())
    }
}
