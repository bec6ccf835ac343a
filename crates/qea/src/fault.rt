//! Faults in three layers: reading below table below run. Each higher layer holds the lower layer's fault whole.

ghost use Rattle.std.specs.Prelude.{◌≡◌};
ghost use Rattle.qea.specs.declared.fault.TableFault.TheVariants.{Reading};
ghost use Rattle.qea.specs.declared.fault.RunFault.TheVariants.{Table};

// The layer that found a fault.
#[derive(Clone, Copy, PartialEq, Eq, Debug)]
pub enum Layer {
    Reading,
    Table,
    Run,
}

// The kinds of rows, in the order in which a table's text has them.
#[derive(Clone, Copy, PartialEq, Eq, Debug)]
pub enum RowKind {
    Quantifier,
    Start,
    State,
    Guard,
    Action,
    Pattern,
    Transition,
}

// Where a fault lies, in the words of the layer that found it.
#[derive(Clone, Copy, PartialEq, Eq, Debug)]
pub enum Place {
    // A line of the text, counted from 1, and a byte of it, counted from 0.
    Text { line: usize, byte: usize },
    // A row of its kind. Guards and actions count from 1, the others from 0.
    Row { kind: RowKind, row: usize },
    // A position among an event's values, a transition's row, or 0.
    Position(usize),
}

// A fault by its number, layer and place. specs/Faults.antt says which each fault has.
#[derive(Clone, Copy, PartialEq, Eq, Debug)]
pub struct Description {
    pub number: u8,
    pub layer: Layer,
    pub place: Place,
}

// What the text's writer got wrong.
#[derive(Clone, Copy, PartialEq, Eq, Debug)]
pub enum ReadingFault {
    Misspelled { line: usize, byte: usize },
    OutOfRange { line: usize, byte: usize },
    OutOfOrder { line: usize },
    WrongTrailer { line: usize, byte: usize },
}

// What the rule's designer got wrong. Kind and row stand in each variant by name, where a match reads them; no function takes the two alone.
#[derive(Clone, Copy, PartialEq, Eq, Debug)]
pub enum TableFault {
    Reading(ReadingFault),
    OutOfRange { kind: RowKind, row: usize },
    TooMany { kind: RowKind, row: usize },
    Absent { kind: RowKind, row: usize },
    ReadsTooMuch { kind: RowKind, row: usize },
    NoState,
}

// Why an event, a beginning or a report is refused.
#[derive(Clone, Copy, PartialEq, Eq, Debug)]
pub enum RunFault {
    Table(TableFault),
    BadEvent { position: usize },
    DomainFull { position: usize },
    StoreFull,
    ActionOutOfRange { transition: usize },
    TooManyConfigurations,
    ReportTooShort,
}

// By hand, since a derived `From` does not say what it gives.
impl From<ReadingFault> for TableFault {
    ghost from_gives = { λ e r. r ≡ Reading e };

    fn from(e: ReadingFault) -> TableFault {
        TableFault::Reading(e)
    }
}

impl From<TableFault> for RunFault {
    ghost from_gives = { λ e r. r ≡ Table e };

    fn from(e: TableFault) -> RunFault {
        RunFault::Table(e)
    }
}
