//! Patterns and the numbers in their terms.

ghost use Rattle.std.specs.Prelude.{◌≡◌};
ghost use Rattle.std.specs.List.{list_all};
ghost use Rattle.table.specs.RowCalls.{pattern_told};
ghost use Rattle.table.specs.Terms.{term_in_range, pattern_from};

use bounded::BoundedList;
use qea::{MAX_QUANTIFIERS, Pattern, REGISTERS, RowKind, TableFault, Term, is_value};

fn is_in_range(term: Term) -> bool
    ensures { result ≡ term_in_range term }
{
    match term {
        Term::Blank => true,
        Term::Variable(variable) => usize::from(variable) < MAX_QUANTIFIERS,
        Term::Register(register) => usize::from(register) < REGISTERS,
        Term::Constant(value) => is_value(value),
    }
}

fn all_in_range(terms: &[Term]) -> bool
    ensures { result ≡ list_all term_in_range terms.now }
{
    terms.iter().all(|term| is_in_range(*term))
}

// The pattern for this row, or why it cannot be one.
pub(crate) fn pattern_from(row: usize, event: u8, terms: &[Term]) -> Result<Pattern, TableFault>
    ensures { pattern_told result ≡ pattern_from row event terms.now }
{
    let kind = RowKind::Pattern;
    if !all_in_range(terms) {
        return Err(TableFault::OutOfRange { kind, row });
    }
    BoundedList::from_slice(Term::Blank, terms)
        .map(|terms| Pattern { event, terms })
        .ok_or(TableFault::TooMany { kind, row })
}
