//! A trial of the sealed rule on the lines of standard input.

use crate::step::{NoStep, Step};
use distance::{shows_too_little, sum_after};
use linear_theory::LinearTheory;
use std::io;
use table::SealedTable;

// The rule on trial, and the sum of the legs so far. `rt` has the program's own type: a bound in its place would rest on more of
// what the toolchain assumes of the system.
#[derive(Drop)]
pub(crate) struct Trial<'a> {
    rt: &'a HostRuntime,
    rule: SealedTable<LinearTheory>,
    sum: i64,
}

impl<'a> Trial<'a> {
    // No leg yet.
    pub(crate) fn new(rt: &'a HostRuntime, rule: SealedTable<LinearTheory>) -> Trial<'a> {
        Trial { rt, rule, sum: 0 }
    }

    // How many rows of each kind the rule has.
    pub(crate) fn show_rows(&self) -> io::Result<()> {
        let table = self.rule.table();
        let theory = self.rule.theory();
        let rows = [
            ("quantifiers", table.quantifiers.len()),
            ("starts", table.starts.len()),
            ("states", table.states.len()),
            ("guards", theory.guards().len()),
            ("actions", theory.actions().len()),
            ("patterns", table.patterns.len()),
            ("transitions", table.transitions.len()),
        ];
        for (kind, count) in rows {
            println!(self.rt; "{kind} {count}")?;
        }
        println!(self.rt; "sealed")
    }

    // Takes each line's step, and tells what came of it. A match, since each step is another thing to do.
    pub(crate) fn follow(&mut self) -> anyhow::Result<()> {
        for line in self.rt.lines(self.rt.alloc()) {
            let line = line?;
            match line.parse() {
                Ok(Step::Legs { count, length }) => self.add_legs(count, length)?,
                Ok(Step::Panel { figure }) => self.show_panel(figure)?,
                Err(NoStep) => println!(self.rt; "no step: {line}")?,
            }
        }
        Ok(())
    }

    // Legs that bring the sum out of range are refused, and the sum stays. A match, since either case prints a line.
    fn add_legs(&mut self, count: u32, length: i64) -> io::Result<()> {
        match sum_after(&self.rule, self.sum, count, length) {
            Some(sum) => {
                self.sum = sum;
                println!(self.rt; "{count} legs of {length}: sum {sum}")
            }
            None => println!(self.rt; "{count} legs of {length}: out of range"),
        }
    }

    fn show_panel(&self, figure: i64) -> io::Result<()> {
        let holds = if shows_too_little(&self.rule, self.sum, figure) {
            "holds"
        } else {
            "does not hold"
        };
        println!(self.rt; "panel {figure}: the guard to the failing state {holds}")
    }
}
