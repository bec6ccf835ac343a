//! Cases for theories, drafts and sealing, each a table in one test.

#![tactic(auto)]

#[cfg(test)]
mod tests {
    use bounded::BoundedList;
    use circular_theory::{CircularAction, CircularGuard, CircularTheory, reduced};
    use linear_theory::{LinearAction, LinearForm, LinearGuard, LinearTheory, Relation};
    use qea::{
        Description, Kind, Layer, Mode, Place, Quantifier, RowKind, State, TableFault, Term,
        Transition,
    };
    use row_theory::ActionRow;
    use table::{Draft, SealedTable};
    use theory::Theory;

    // A list and a theory of rows are cloned whole, and memory never runs out for it.
    #[test]
    fn clones(rt: HostRuntime) {
        let mut list = BoundedList::<i64, 4>::empty(0);
        let _ = list.push(7);
        let copied = list.clone().ok().map(|copy| copy.get(0));
        assert_eq!(rt; copied, Some(Some(7)));
        let guards = two_rows().clone().ok().map(|copy| copy.guards().len());
        assert_eq!(rt; guards, Some(1));
    }

    // Bearings at and around zero, and at the ends of 64 bits.
    #[test]
    fn bearings(rt: HostRuntime) {
        let cases = [
            (0, 0),
            (1, 1),
            (-1, 3599),
            (3599, 3599),
            (3600, 0),
            (-3599, 1),
            (-3600, 0),
            (-3601, 3599),
            (i64::MAX, 1807),
            (i64::MIN, 1792),
        ];
        for (value, bearing) in cases {
            assert_eq!(rt; reduced(value), bearing);
        }
    }

    const FORM: LinearForm = LinearForm {
        m: 1,
        a: 0,
        n: -1,
        b: 4,
        c: 5,
    };

    // A linear theory: A - B + 5 at its limits, and what is absent. No 64-bit number in a row wraps.
    #[test]
    fn linear(rt: HostRuntime) {
        let mut theory = LinearTheory::empty();
        let relations = [Relation::Less, Relation::Equal, Relation::Greater];
        for relation in relations {
            let _ = theory.add_guard(LinearGuard::new(FORM, relation));
        }
        let _ = theory.add_action(LinearAction::new(3, FORM));
        let top = 1_000_000_000_000;
        let cases = [
            (0, 4, false, false, true, Some(1)),
            (0, 5, false, true, false, Some(0)),
            (0, 6, true, false, false, Some(-1)),
            (top, 5, false, false, true, Some(top)),
            (top, 4, false, false, true, None),
            (-top, 5, true, false, false, Some(-top)),
            (-top, 6, true, false, false, None),
            (i64::MAX, i64::MIN, false, false, true, None),
        ];
        for (a, b, less, equal, greater, written) in cases {
            let row = [a, 0, 0, 0, b, 0, 0, 0];
            assert_eq!(rt; theory.guard(1, &row), less);
            assert_eq!(rt; theory.guard(2, &row), equal);
            assert_eq!(rt; theory.guard(3, &row), greater);
            assert_eq!(rt; theory.action(1, &row), written);
            assert!(rt; !theory.guard(0, &row) && !theory.guard(4, &row));
            assert_eq!(rt; theory.action(2, &row), None);
        }
        assert_eq!(rt; theory.register(1), 3);
        assert!(rt;
            theory.guard_reads(1, 4) && !theory.guard_reads(1, 5) && !theory.guard_reads(4, 0)
        );
    }

    // A circular theory: an arc with its two ends, and a turn through north.
    #[test]
    fn circular(rt: HostRuntime) {
        let mut theory = CircularTheory::empty();
        let _ = theory.add_guard(CircularGuard::new(0, 100, 200));
        let _ = theory.add_action(CircularAction::new(0, 0, 4, 100));
        let cases = [
            (99, false, 199),
            (100, true, 200),
            (200, true, 300),
            (201, false, 301),
            (-3500, true, 200),
            (3500, false, 0),
            (-1, false, 99),
        ];
        for (value, on_arc, turned) in cases {
            let row = [value, 0, 0, 0, 0, 0, 0, 0];
            assert_eq!(rt; theory.guard(1, &row), on_arc);
            assert_eq!(rt; theory.action(1, &row), Some(turned));
        }
        assert!(rt; CircularGuard::new(8, 0, 0).is_none());
        assert!(rt;
            CircularGuard::new(7, 3600, 0).is_none() && CircularGuard::new(7, 3599, 3599).is_some()
        );
    }

    fn described(number: u8, kind: RowKind, row: usize) -> Description {
        Description {
            number,
            layer: Layer::Table,
            place: Place::Row { kind, row },
        }
    }

    fn told(answer: Result<u8, TableFault>) -> Result<u8, Description> {
        answer.map_err(TableFault::describe)
    }

    const STATE: State = State {
        mode: Mode::Skip,
        accepting: true,
    };

    // Each kind of row takes its limit and no more; a number out of range comes before a row too many.
    #[test]
    fn limits(rt: HostRuntime) {
        let mut draft = Draft::new();
        for row in 0..16 {
            assert_eq!(rt; told(draft.add_state(STATE)), Ok(row));
        }
        let state = draft.add_state(STATE);
        assert_eq!(rt; told(state), Err(described(5, RowKind::State, 16)));
        for row in 0..4 {
            assert_eq!(rt; told(draft.add_start(1_000_000_000_000)), Ok(row));
        }
        let start = draft.add_start(1_000_000_000_000);
        assert_eq!(rt; told(start), Err(described(5, RowKind::Start, 4)));
        let over = draft.add_start(1_000_000_000_001);
        assert_eq!(rt; told(over), Err(described(2, RowKind::Start, 4)));
        let five = [Term::Blank; 5];
        let long = draft.add_pattern(0, &five);
        assert_eq!(rt; told(long), Err(described(5, RowKind::Pattern, 0)));
        let mut bad = five;
        bad[4] = Term::Register(4);
        let stray = draft.add_pattern(0, &bad);
        assert_eq!(rt; told(stray), Err(described(2, RowKind::Pattern, 0)));
        assert_eq!(rt; told(draft.add_pattern(0, &five[0..4])), Ok(0));
    }

    // One guard that reads variable 1 and register 0, and one action that reads variable 0.
    fn two_rows() -> LinearTheory {
        let mut theory = LinearTheory::empty();
        let both = LinearForm {
            m: 1,
            a: 1,
            n: 1,
            b: 4,
            c: 0,
        };
        let _ = theory.add_guard(LinearGuard::new(both, Relation::Less));
        let first = LinearForm {
            m: 1,
            a: 0,
            n: 0,
            b: 1,
            c: 0,
        };
        let _ = theory.add_action(LinearAction::new(0, first));
        theory
    }

    // A draft with two quantifiers, these guards, one state, a pattern of these terms and one transition.
    fn draft_of(guards: [u8; 2], terms: &[Term], transition: Transition) -> Draft {
        let mut draft = Draft::new();
        for guard in guards {
            let kind = Kind::ForAll;
            let _ = draft.add_quantifier(Quantifier { kind, guard });
        }
        let _ = draft.add_state(STATE);
        let _ = draft.add_pattern(1, terms);
        let _ = draft.add_transition(transition);
        draft
    }

    // What a caller holds a sealed table in. The type asks nothing of the theory.
    #[derive(Drop)]
    struct Held<T> {
        rule: SealedTable<T>,
    }

    fn hold(draft: Draft, theory: LinearTheory) -> Result<Held<LinearTheory>, TableFault> {
        draft.can_seal(&theory)?;
        Ok(Held {
            rule: draft.seal(theory),
        })
    }

    #[test]
    fn holding(rt: HostRuntime) {
        let both = [Term::Variable(0), Term::Variable(1)];
        let draft = draft_of([0, 0], &both, Transition::default());
        let quantifiers = hold(draft, two_rows()).map(|held| held.rule.table().quantifiers.len());
        assert_eq!(rt; quantifiers.ok(), Some(2));
    }

    // Sealing: the first faulty row by kind and number, 6 before 7.
    #[test]
    fn sealing(rt: HostRuntime) {
        let theory = two_rows();
        let quantifier = RowKind::Quantifier;
        let transition = RowKind::Transition;
        let both = [Term::Variable(0), Term::Variable(1)];
        let first = [Term::Variable(0), Term::Blank];
        let second = [Term::Variable(1), Term::Blank];
        let stray = [Term::Variable(2), Term::Blank];
        let free = Transition::default();
        let absent = Transition { to: 1, ..free };
        let guarded = Transition { guard: 1, ..free };
        let acting = Transition { action: 1, ..free };
        let cases = [
            ([0, 0], both, free, None),
            ([2, 0], stray, absent, Some(described(6, quantifier, 0))),
            ([1, 0], stray, absent, Some(described(7, quantifier, 0))),
            ([0, 1], stray, absent, Some(described(7, quantifier, 1))),
            (
                [0, 0],
                stray,
                absent,
                Some(described(6, RowKind::Pattern, 0)),
            ),
            ([0, 0], both, absent, Some(described(6, transition, 0))),
            ([0, 0], first, guarded, Some(described(7, transition, 0))),
            ([0, 0], second, guarded, None),
            ([0, 0], second, acting, Some(described(7, transition, 0))),
        ];
        for (guards, terms, transition, due) in cases {
            let refused = draft_of(guards, &terms, transition).can_seal(&theory).err();
            assert_eq!(rt; refused.map(TableFault::describe), due);
        }
        assert!(rt; Draft::new().can_seal(&theory).is_err());
    }
}
