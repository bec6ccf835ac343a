//! Linear forms and relations.

// How a number stands to 0.
#[derive(Clone, Copy, PartialEq, Eq, Debug)]
pub enum Relation {
    Less,
    Equal,
    Greater,
}

// The sum m × A + n × B + c, where A and B are what stands at the places `a` and `b`.
#[derive(Clone, Copy, PartialEq, Eq, Debug, Default)]
pub struct LinearForm {
    pub m: i64,
    pub a: u8,
    pub n: i64,
    pub b: u8,
    pub c: i64,
}
