// What the rules speak of. Rows are numbers of rows of the type table: row 0 is Unit, row 1 is ⊥, and base k has row k + 2.
pub const UNIT_ROW: u16 = 0;

pub const BOTTOM_ROW: u16 = 1;

pub const FIRST_BASE_ROW: u16 = 2;

// What is judged of a term: the row of its type and that of its yield type.
#[derive(Clone, Copy, PartialEq, Eq, Default, Debug)]
pub struct Judged {
    pub row: u16,
    pub yields: u16,
}

// A variable in scope, with the row of its type.
#[derive(Clone, Copy, PartialEq, Eq, Default, Debug)]
pub struct Variable {
    pub name: u16,
    pub row: u16,
}

// What stands at a row of the table.
#[derive(Clone, Copy, PartialEq, Eq, Debug)]
pub enum Shape {
    UnitRow,
    BottomRow,
    BaseRow(u8),
    FunctionRow {
        argument: u16,
        result: u16,
    },
    CoroutineRow {
        argument: u16,
        yields: u16,
        result: u16,
    },
    InstanceRow {
        yields: u16,
        result: u16,
    },
    // The table ends before it, or its word is none of a type.
    // Kept: no Option round the shape; the definitions of the rules take this variant apart, and an Option would only add `Some` to each.
    NoRow,
}
