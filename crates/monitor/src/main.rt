//! Builds the distance-to-go rule by calls, seals it, and tries it on the legs and panels of standard input.

#![tactic(auto)]

use crate::trial::Trial;
use distance::sealed_rule;

mod step;
mod trial;

fn main(rt: HostRuntime) -> anyhow::Result<()> {
    match sealed_rule() {
        Ok(rule) => {
            let mut trial = Trial::new(&rt, rule);
            trial.show_rows()?;
            trial.follow()?;
        }
        // Told on standard output, and no error of the program, so it does not go up by `?`.
        Err(fault) => {
            let number = fault.describe().number;
            println!(rt; "rule refused {number}")?;
        }
    }
    Ok(())
}
