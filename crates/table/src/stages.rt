//! The stages of a rule: a draft, and a sealed table.

use sealing::Table;
use std::marker::Model;

// A rule in the making. It takes rows, and is then sealed with a theory.
#[derive(Drop)]
pub struct Draft {
    pub(crate) table: Table,
}

// Contracts see a draft as the rows that it has so far.
impl Model for Draft {
    ghost use Rattle.sealing.specs.declared.table.Table.{Table};

    ghost Value = { Table };

    ghost view = { λ d. d.table };
}

// A rule whose rows have been checked against its theory, which it holds. That sealing grants them is promised by `seal` and not said
// here: the bound that a ghost field over the theory's meaning needs would be asked of whoever names the type.
#[derive(Drop)]
pub struct SealedTable<T> {
    pub(crate) table: Table,
    pub(crate) theory: T,
}
