// The worked examples and each refusal, through the public calls of the direct finder.
#![tactic(auto)]

#[cfg(test)]
mod tests {
    use direct::find::closest;
    use direct::gaps::gap_of;
    use direct::run::play;
    use std::process::Abort;
    use std::test::Fail;
    use terms::answer::{Answer, BestStretch};
    use terms::limits::{LONGEST_FIGURE, LONGEST_PHRASE, LONGEST_TAKE};
    use terms::refusal::Refusal;

    const PAST_PHRASE: usize = LONGEST_PHRASE + 1;

    // The gap and the start of the closest stretch at the end of a take.
    fn ends_at(
        rt: &impl Abort,
        phrase: &[u32],
        q: usize,
        take: &[u32],
        gap: u32,
        start: u32,
    ) -> Result<(), Fail> {
        let answer = closest(phrase, q, take)?;
        assert_eq!(rt; (answer.gap, answer.start), (gap, start));
        Ok(())
    }

    const fn row(step: u32, gap: u32, start: u32) -> Answer {
        Answer { step, gap, start }
    }

    // `closest` at each step of a take.
    fn all_are(
        rt: &impl Abort,
        phrase: &[u32],
        q: usize,
        take: &[u32],
        wanted: &[Answer],
    ) -> Result<(), Fail> {
        assert!(rt; take.len() == wanted.len());
        for (i, want) in wanted.iter().enumerate() {
            assert_eq!(rt; closest(phrase, q, &take[..i + 1])?, *want);
        }
        Ok(())
    }

    #[test]
    fn plays_the_example(rt: HostRuntime) -> Result<(), Fail> {
        let phrase = [2, 0, 2, 0];
        let take = [0, 2, 0, 2, 0, 2];
        let wanted = [
            row(1, 3, 1),
            row(2, 2, 1),
            row(3, 1, 1),
            row(4, 1, 2),
            row(5, 0, 2),
            row(6, 1, 2),
        ];
        let mut answers = [Answer::default(); 6];
        let best = BestStretch {
            gap: 0,
            start: 2,
            end: 5,
        };
        assert_eq!(rt; play(&phrase, 2, &take, &mut answers)?, Some(best));
        assert!(rt; answers == wanted);
        all_are(&rt, &phrase, 2, &take, &wanted)
    }

    #[test]
    fn finds_the_small_examples(rt: HostRuntime) -> Result<(), Fail> {
        ends_at(&rt, &[2], 1, &[0], 1, 2)?;
        ends_at(&rt, &[2, 2, 2], 3, &[2], 1, 1)?;
        ends_at(&rt, &[2, 2], 1, &[2, 2, 2], 0, 2)?;
        ends_at(&rt, &[2], 1, &[2, 0], 1, 1)?;
        ends_at(&rt, &[2, 2], 1, &[], 2, 1)
    }

    #[test]
    fn tells_gaps(rt: HostRuntime) {
        assert_eq!(rt; gap_of(&[0, 1, 0, 0, 0], &[0, 0, 1, 1, 1, 1], 2), 5);
        assert_eq!(rt; gap_of(&[0, 0, 1, 1, 1, 1], &[0, 1, 0, 0, 0], 2), 5);
        assert_eq!(rt; gap_of(&[2, 0, 2], &[2, 0, 2], 2), 0);
        assert_eq!(rt; gap_of(&[], &[2, 0, 2], 4), 0);
        assert_eq!(rt; gap_of(&[1, 2, 3, 4, 5], &[1, 2], 0), 3);
    }

    #[test]
    fn refuses_phrases(rt: HostRuntime) {
        let long = [1; PAST_PHRASE];
        let longest = &long[..LONGEST_PHRASE];
        let mut one = [Answer::default(); 1];
        assert_eq!(rt; closest(&[], 0, &[1]).err(), Some(Refusal::EmptyPhrase));
        assert_eq!(rt; closest(&long, 0, &[1]).err(), Some(Refusal::LongPhrase));
        assert_eq!(rt;
            closest(&[1, 2], 0, &[1]).err(),
            Some(Refusal::FigureLength)
        );
        assert_eq!(rt;
            closest(&[1, 2], 3, &[1]).err(),
            Some(Refusal::FigureLength)
        );
        assert_eq!(rt;
            closest(longest, LONGEST_FIGURE + 1, &[1]).err(),
            Some(Refusal::FigureLength)
        );
        assert_eq!(rt; closest(longest, LONGEST_FIGURE, &[1]).err(), None);
        assert_eq!(rt;
            play(&[], 0, &[], &mut one).err(),
            Some(Refusal::EmptyPhrase)
        );
        assert_eq!(rt;
            play(&long, 0, &[], &mut one).err(),
            Some(Refusal::LongPhrase)
        );
        assert_eq!(rt;
            play(&[1, 2], 3, &[], &mut one).err(),
            Some(Refusal::FigureLength)
        );
        assert_eq!(rt;
            play(&[1, 2], 2, &[], &mut one).err(),
            Some(Refusal::UnevenLists)
        );
        assert!(rt; one == [Answer::default(); 1]);
    }

    #[test]
    fn refusals_have_numbers(rt: HostRuntime) {
        let numbered = [
            (Refusal::EmptyPhrase, 11),
            (Refusal::LongPhrase, 12),
            (Refusal::FigureLength, 13),
            (Refusal::UnevenLists, 21),
            (Refusal::FullTake, 23),
        ];
        for (refusal, number) in numbered {
            assert_eq!(rt; refusal.number(), number);
        }
    }

    #[test]
    fn refuses_long_takes(rt: HostRuntime) -> Result<(), Fail> {
        let steps = LONGEST_TAKE as usize + 1;
        let take = vec![in rt.alloc(); 7u32; steps]?;
        let mut records = vec![in rt.alloc(); Answer::default(); steps]?;
        assert_eq!(rt; closest(&[1, 2], 1, &take).err(), Some(Refusal::FullTake));
        assert_eq!(rt;
            play(&[1, 2], 1, &take, &mut records).err(),
            Some(Refusal::FullTake)
        );
        assert_eq!(rt;
            play(&[1, 2], 1, &take, &mut []).err(),
            Some(Refusal::UnevenLists)
        );
        assert_eq!(rt; play(&[1, 2], 1, &[], &mut [])?, None);
        Ok(())
    }
}
