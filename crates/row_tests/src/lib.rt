// Examples of rows and of the lamp's ring, through the public calls.
#![tactic(auto)]

#[cfg(test)]
mod tests {
    use rows::lamp_ring::LampRing;
    use rows::mark::Mark;
    use rows::plain::PlainRow;
    use rows::row::{Row, same_least};
    use rows::tree_row::TreeRow;
    use std::process::Abort;
    use terms::limits::{LAMP_LENGTH, LONGEST_PHRASE, LONGEST_TAKE, WIDEST_ROW};
    use terms::refusal::Refusal;

    const WIDE: i32 = WIDEST_ROW as i32;

    const SPAN: u32 = WIDEST_ROW as u32;

    const LARGEST_GAP: u32 = LONGEST_PHRASE as u32;

    // A start answers so, and the row so after as many marks of −1.
    fn all_minus<R: Row>(
        rt: &impl Abort,
        width: usize,
        started: Result<(), Refusal>,
        answer: (i32, u32),
    ) {
        let mut row = R::new();
        assert_eq!(rt; row.start(width), started);
        for _ in 0..width {
            row.push(Mark::Minus);
        }
        assert_eq!(rt; row.least(), answer);
    }

    #[test]
    fn widths(rt: HostRuntime) {
        let cases = [
            (0, Err(Refusal::RowWidth), (0, 0)),
            (1, Ok(()), (-1, 1)),
            (2, Ok(()), (-2, 2)),
            (WIDEST_ROW - 1, Ok(()), (1 - WIDE, SPAN - 1)),
            (WIDEST_ROW, Ok(()), (-WIDE, SPAN)),
            (WIDEST_ROW + 1, Err(Refusal::RowWidth), (0, 0)),
        ];
        for (width, started, answer) in cases {
            all_minus::<PlainRow>(&rt, width, started, answer);
            all_minus::<TreeRow>(&rt, width, started, answer);
        }
    }

    // A lift answers so, and the row so after it.
    fn lifted<R: Row>(
        rt: &impl Abort,
        row: &mut R,
        age: usize,
        outcome: Result<(), Refusal>,
        answer: (i32, u32),
    ) {
        assert_eq!(rt; row.lift(age), outcome);
        assert_eq!(rt; row.least(), answer);
    }

    // Lifts past the end, at both ends and between, of three marks of −1.
    fn lifts<R: Row>(rt: &impl Abort) {
        let mut row = R::new();
        lifted(rt, &mut row, 0, Err(Refusal::MarkAge), (0, 0));
        assert_eq!(rt; row.start(3), Ok(()));
        for _ in 0..3 {
            row.push(Mark::Minus);
        }
        let cases = [
            (3, Err(Refusal::MarkAge), (-3, 3)),
            (2, Ok(()), (-2, 2)),
            (0, Ok(()), (0, 2)),
            (99, Err(Refusal::MarkAge), (0, 2)),
            (1, Ok(()), (0, 0)),
        ];
        for (age, outcome, answer) in cases {
            lifted(rt, &mut row, age, outcome, answer);
        }
    }

    // A push leads to this answer.
    fn pushed<R: Row>(rt: &impl Abort, row: &mut R, mark: Mark, answer: (i32, u32)) {
        row.push(mark);
        assert_eq!(rt; row.least(), answer);
    }

    // Marks by turns; and a start that is turned away alters nothing.
    fn by_turns<R: Row>(rt: &impl Abort) {
        let mut row = R::new();
        pushed(rt, &mut row, Mark::Minus, (0, 0));
        assert_eq!(rt; row.start(6), Ok(()));
        let turns = [
            (Mark::Plus, (0, 0)),
            (Mark::Minus, (-1, 1)),
            (Mark::Minus, (-2, 2)),
            (Mark::Plus, (-1, 3)),
            (Mark::Minus, (-2, 4)),
            (Mark::Plus, (-1, 5)),
        ];
        for (mark, answer) in turns {
            pushed(rt, &mut row, mark, answer);
        }
        assert_eq!(rt; row.start(0), Err(Refusal::RowWidth));
        assert_eq!(rt; row.least(), (-1, 5));
    }

    #[test]
    fn calls(rt: HostRuntime) {
        lifts::<PlainRow>(&rt);
        lifts::<TreeRow>(&rt);
        by_turns::<PlainRow>(&rt);
        by_turns::<TreeRow>(&rt);
    }

    #[test]
    fn refusals_have_numbers(rt: HostRuntime) {
        assert_eq!(rt; Refusal::RowWidth.number(), 16);
        assert_eq!(rt; Refusal::MarkAge.number(), 17);
    }

    // One push and one lift into both rows: they answer alike.
    fn alike(rt: &impl Abort, plain: &mut PlainRow, tree: &mut TreeRow, mark: Mark, age: usize) {
        plain.push(mark);
        tree.push(mark);
        assert_eq!(rt; plain.least(), tree.least());
        assert_eq!(rt; plain.lift(age), tree.lift(age));
        assert!(rt; same_least(plain, tree));
    }

    // Twice round the ring.
    fn twice_round(rt: &impl Abort, width: usize) {
        let mut plain = PlainRow::new();
        let mut tree = TreeRow::new();
        assert_eq!(rt; plain.start(width), Ok(()));
        assert_eq!(rt; tree.start(width), Ok(()));
        for turn in 0..2 {
            for n in 0..width {
                let mark = if n % 3 == turn {
                    Mark::Plus
                } else {
                    Mark::Minus
                };
                alike(rt, &mut plain, &mut tree, mark, n / 2);
            }
        }
    }

    #[test]
    fn both_rows(rt: HostRuntime) {
        for width in [1, 2, 3, 8, WIDEST_ROW - 1, WIDEST_ROW] {
            twice_round(&rt, width);
        }
    }

    // One answer more makes the lamp show this.
    fn shown(rt: &impl Abort, ring: &mut LampRing, gap: u32, step: u32, want: (u32, u32)) {
        ring.add(gap, step);
        assert_eq!(rt; ring.lamp(), Some(want));
    }

    #[test]
    fn lamp(rt: HostRuntime) {
        let mut ring = LampRing::new();
        assert_eq!(rt; ring.lamp(), None);
        let answers = [
            (u32::MAX, u32::MAX, (LARGEST_GAP, LONGEST_TAKE)),
            (3, 1, (3, 1)),
            (1, 2, (1, 2)),
            (1, 3, (1, 2)),
            (2, 4, (1, 2)),
            (0, 5, (0, 5)),
        ];
        for (gap, step, want) in answers {
            shown(&rt, &mut ring, gap, step, want);
        }
        for n in 1..LAMP_LENGTH {
            shown(&rt, &mut ring, 4, 5 + n as u32, (0, 5));
        }
        shown(&rt, &mut ring, 9, 50, (4, 6));
    }
}
