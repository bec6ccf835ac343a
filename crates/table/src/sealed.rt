//! A draft is asked first and then sealed, and what a sealed table answers.

ghost use Rattle.std.specs.Prelude.{◌≡◌, is_ok, Ok, Decides};
ghost use Rattle.qea.specs.Faults.{table_fault, told};
ghost use Rattle.qea.specs.Meaning.{holds, acted};
ghost use Rattle.sealing.specs.Model.{automaton_of};
ghost use Rattle.sealing.specs.Sealing.{sealing};
ghost use Rattle.qea.specs.WellFormed.{WellFormed};

use crate::stages::{Draft, SealedTable};
use qea::{PLACES, TableFault};
use sealing::{Table, check_table};
use theory::Theory;

impl Draft {
    // Whether the draft may be sealed with this theory. Nothing moves.
    pub fn can_seal<T: Theory>(&self, theory: &T) -> Result<(), TableFault>
        ensures answer { told table_fault result ≡ sealing (automaton_of self.now) (T.Theory.meaning theory.now) }
        ensures decides { Decides (is_ok result) (WellFormed (automaton_of self.now) (T.Theory.meaning theory.now)) }
    {
        check_table(&self.table, theory)
    }

    // Uses up the draft and the theory. It stands on the yes of `can_seal` for the same two.
    pub fn seal<T: Theory>(self, theory: T) -> SealedTable<T>
        requires { sealing (automaton_of self) (T.Theory.meaning theory) ≡ Ok tt }
        ensures table { result.table ≡ self }
        ensures theory { result.theory ≡ theory }
        ensures well_formed { WellFormed (automaton_of result.table) (T.Theory.meaning result.theory) }
    {
        let Draft { table } = self;
        SealedTable { table, theory }
    }
}

impl<T: Theory> SealedTable<T> {
    pub fn table(&self) -> &Table
        ensures { result.now ≡ self.now.table }
    {
        &self.table
    }

    pub fn theory(&self) -> &T
        ensures { result.now ≡ self.now.theory }
    {
        &self.theory
    }

    // Whether a guard holds on a row of places.
    pub fn guard_holds(&self, guard: u8, row: &[i64; PLACES]) -> bool
        ensures { result ≡ holds (T.Theory.meaning self.now.theory) guard row.now }
    {
        self.theory.guard_holds(guard, row)
    }

    // The row of places after an action has written, or none if that is out of range.
    pub fn act(&self, action: u8, row: &[i64; PLACES]) -> Option<[i64; PLACES]>
        ensures { result ≡ acted (T.Theory.meaning self.now.theory) action row.now }
    {
        self.theory.act(action, row)
    }
}
