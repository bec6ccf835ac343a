//! Faults by their numbers.

ghost use Rattle.std.specs.Prelude.{◌≡◌};
ghost use Rattle.qea.specs.Faults.{in_text, in_row, in_run, reading_fault, table_fault, run_fault};

use crate::fault::{Description, Layer, Place, ReadingFault, RowKind, RunFault, TableFault};

// Three methods of one form: a trait over them would be one name more to import, and `From` would promise a relation where these
// promise an equation.

impl ReadingFault {
    pub fn describe(self) -> Description
        ensures { result ≡ reading_fault self }
    {
        match self {
            ReadingFault::Misspelled { line, byte } => in_text(1, line, byte),
            ReadingFault::OutOfRange { line, byte } => in_text(2, line, byte),
            ReadingFault::OutOfOrder { line } => in_text(3, line, 0),
            ReadingFault::WrongTrailer { line, byte } => in_text(4, line, byte),
        }
    }
}

impl TableFault {
    pub fn describe(self) -> Description
        ensures { result ≡ table_fault self }
    {
        match self {
            TableFault::Reading(fault) => fault.describe(),
            TableFault::OutOfRange { kind, row } => in_row(2, kind, row),
            TableFault::TooMany { kind, row } => in_row(5, kind, row),
            TableFault::Absent { kind, row } => in_row(6, kind, row),
            TableFault::ReadsTooMuch { kind, row } => in_row(7, kind, row),
            TableFault::NoState => in_row(8, RowKind::State, 0),
        }
    }
}

impl RunFault {
    pub fn describe(self) -> Description
        ensures { result ≡ run_fault self }
    {
        match self {
            RunFault::Table(fault) => fault.describe(),
            RunFault::BadEvent { position } => in_run(9, position),
            RunFault::DomainFull { position } => in_run(10, position),
            RunFault::StoreFull => in_run(11, 0),
            RunFault::ActionOutOfRange { transition } => in_run(12, transition),
            RunFault::TooManyConfigurations => in_run(13, 0),
            RunFault::ReportTooShort => in_run(14, 0),
        }
    }
}

fn in_text(number: u8, line: usize, byte: usize) -> Description
    ensures { result ≡ in_text number line byte }
{
    Description {
        number,
        layer: Layer::Reading,
        place: Place::Text { line, byte },
    }
}

fn in_row(number: u8, kind: RowKind, row: usize) -> Description
    ensures { result ≡ in_row number kind row }
{
    Description {
        number,
        layer: Layer::Table,
        place: Place::Row { kind, row },
    }
}

fn in_run(number: u8, position: usize) -> Description
    ensures { result ≡ in_run number position }
{
    Description {
        number,
        layer: Layer::Run,
        place: Place::Position(position),
    }
}
