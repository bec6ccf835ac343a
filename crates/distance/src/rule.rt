//! The distance-to-go rule, built by calls.

ghost use Rattle.std.specs.Prelude.{◌≡◌, ◌+◌, ◌<◌, true, [], ◌∷◌, map, is_ok, IfOk};
ghost use Rattle.bounded.specs.Items.{items};
ghost use Rattle.qea.specs.Limits.{max_quantifiers, registers};
ghost use Rattle.row_theory.specs.Rows.{row_meaning};
ghost use Rattle.linear_theory.specs.Rows.{linear_guard, linear_action, guard_numbers, action_numbers};
ghost use Rattle.linear_theory.specs.declared.form.Relation.TheVariants.{Less};
ghost use Rattle.sealing.specs.Model.{automaton_of};
ghost use Rattle.qea.specs.WorkedCases.{distance_rule};
ghost use Rattle.distance.specs.Distance.{shortfall, lengthened};
ghost use Rattle.distance.specs.Figures.{Figures};

use linear_theory::{LinearAction, LinearForm, LinearGuard, LinearTheory, Relation};
use qea::{Kind, MAX_QUANTIFIERS, Mode, Quantifier, State, TableFault, Term, Transition};
use table::{Draft, SealedTable};

// Events.
const LEG: u8 = 1;

const PANEL: u8 = 2;

// Registers: the length of the latest leg, the sum of the legs, and the latest figure on the panel.
const LENGTH: u8 = 0;

pub(crate) const SUM: u8 = 1;

const FIGURE: u8 = 2;

// The numbers of the theory's guard and action.
pub(crate) const SHOWS_TOO_LITTLE: u8 = 1;

pub(crate) const ADDS_LENGTH: u8 = 1;

// Where a register stands in a row of guards and actions, which has the four variables first. A place of a form is a u8; where a
// theory writes, the same sum is an index.
pub(crate) fn place_of(register: u8) -> u8
    requires { register < registers }
    ensures { result ≡ max_quantifiers + register }
{
    // The constant fits a u8.
    MAX_QUANTIFIERS as u8 + register
}

// The theory of the rule. A length is in thousandths of a mile, and a figure in tenths.
pub fn distance_theory() -> Result<LinearTheory, TableFault>
    ensures granted { is_ok result ≡ true }
    ensures guards { IfOk result (λ t. map guard_numbers (items t.guards) ≡ (shortfall, Less) ∷ []) }
    ensures actions { IfOk result (λ t. map action_numbers (items t.actions) ≡ (1, lengthened) ∷ []) }
    ensures figures { IfOk result (λ t. Figures (row_meaning linear_guard linear_action t)) }
{
    let mut theory = LinearTheory::empty();
    let shortfall = LinearForm {
        m: 100,
        a: place_of(FIGURE),
        n: -1,
        b: place_of(SUM),
        c: 50,
    };
    theory.add_guard(LinearGuard::new(shortfall, Relation::Less))?;
    let lengthened = LinearForm {
        m: 1,
        a: place_of(SUM),
        n: 1,
        b: place_of(LENGTH),
        c: 0,
    };
    theory.add_action(LinearAction::new(SUM, lengthened))?;
    Ok(theory)
}

// The rows of the rule: state 0 is good, and state 1, which is not final, has failed.
pub fn distance_draft() -> Result<Draft, TableFault>
    ensures granted { is_ok result ≡ true }
    ensures rows { IfOk result (λ d. automaton_of d ≡ distance_rule) }
{
    let mut draft = Draft::new();
    let route = draft.add_quantifier(Quantifier {
        kind: Kind::ForAll,
        guard: 0,
    })?;
    let good = draft.add_state(State {
        mode: Mode::Skip,
        accepting: true,
    })?;
    let failed = draft.add_state(State {
        mode: Mode::Skip,
        accepting: false,
    })?;
    let leg = draft.add_pattern(LEG, &[Term::Variable(route), Term::Register(LENGTH)])?;
    let panel = draft.add_pattern(PANEL, &[Term::Variable(route), Term::Register(FIGURE)])?;
    draft.add_transition(Transition {
        from: good,
        pattern: leg,
        guard: 0,
        action: ADDS_LENGTH,
        to: good,
    })?;
    draft.add_transition(Transition {
        from: good,
        pattern: panel,
        guard: SHOWS_TOO_LITTLE,
        action: 0,
        to: failed,
    })?;
    Ok(draft)
}

// The rule, sealed with its theory.
pub fn sealed_rule() -> Result<SealedTable<LinearTheory>, TableFault>
    ensures { IfOk result (λ s. automaton_of s.table ≡ distance_rule) }
{
    let draft = distance_draft()?;
    let theory = distance_theory()?;
    draft.can_seal(&theory)?;
    Ok(draft.seal(theory))
}
