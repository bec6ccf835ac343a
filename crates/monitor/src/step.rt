//! The lines of a trial.

use std::num::ParseIntError;
use std::str::FromStr;

// One line: so many legs of one length, or a figure on the panel.
#[derive(Clone, Copy, PartialEq, Eq, Debug)]
pub enum Step {
    Legs { count: u32, length: i64 },
    Panel { figure: i64 },
}

// The answer to a line that is no step.
#[derive(Clone, Copy, PartialEq, Eq, Debug)]
pub struct NoStep;

impl From<ParseIntError> for NoStep {
    fn from(_error: ParseIntError) -> NoStep {
        NoStep
    }
}

// `legs COUNT LENGTH` or `panel FIGURE`; anything else is no step.
impl FromStr for Step {
    type Err = NoStep;

    fn from_str(line: &str) -> Result<Step, NoStep> {
        let (word, rest) = line.split_once(' ').ok_or(NoStep)?;
        match word {
            "legs" => {
                let (count, length) = rest.split_once(' ').ok_or(NoStep)?;
                Ok(Step::Legs {
                    count: count.parse()?,
                    length: length.parse()?,
                })
            }
            "panel" => Ok(Step::Panel {
                figure: rest.parse()?,
            }),
            _ => Err(NoStep),
        }
    }
}
