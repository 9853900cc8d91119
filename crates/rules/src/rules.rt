// The rule of each kind of term.
ghost use Rattle.std.specs.Prelude.{◌≡◌, ℕ, ◌+◌};
ghost use Rattle.rules.specs.Rules.{accepted, refused, may_read, joining, unit_rule, variable_rule, abstraction_rule, coroutine_rule, application_rule, yield_rule, start_rule, all_may_read, is_coroutine, resume_rule, snapshot_rule, fix_rule, atom_rule, operation_rule};

use crate::model::{BOTTOM_ROW, FIRST_BASE_ROW, Judged, Shape, UNIT_ROW};
use crate::table::shape_at;
use faults::Fault;
use faults::numbers::FaultNumber;
use quantities::{QuantitySet, Signature};

// Where a rule applies: the words of the type table, and the place of the term.
#[derive(Clone, Copy)]
pub struct Site<'a> {
    pub rows: &'a [u32],
    pub place: usize,
}

impl Site<'_> {
    // Unit has type Unit.
    pub fn unit(self) -> Result<Judged, Fault>
        ensures { result ≡ unit_rule }
    {
        accept(UNIT_ROW, BOTTOM_ROW)
    }

    // A variable has its binder's argument type; `found` is its row, if it is in scope.
    pub fn variable(self, found: Option<u16>) -> Result<Judged, Fault>
        ensures { result ≡ variable_rule self.entry.place found }
    {
        match found {
            Some(row) => accept(row, BOTTOM_ROW),
            None => self.refuse(FaultNumber::Scope),
        }
    }

    // An abstraction has its row as type; its body has the row's result type and yields nothing.
    pub fn abstraction(self, row: u16, body: Judged) -> Result<Judged, Fault>
        ensures { result ≡ abstraction_rule self.entry.rows.now self.entry.place row body }
    {
        let Shape::FunctionRow { result, .. } = shape_at(self.rows, row) else {
            return self.refuse(FaultNumber::Types);
        };
        if body.row != result {
            return self.refuse(FaultNumber::Types);
        }
        if body.yields != BOTTOM_ROW {
            return self.refuse(FaultNumber::YieldType);
        }
        accept(row, BOTTOM_ROW)
    }

    // A coroutine has its row as type; its body has the row's result type and yield type.
    pub fn coroutine(self, row: u16, body: Judged) -> Result<Judged, Fault>
        ensures { result ≡ coroutine_rule self.entry.rows.now self.entry.place row body }
    {
        let Shape::CoroutineRow { yields, result, .. } = shape_at(self.rows, row) else {
            return self.refuse(FaultNumber::Types);
        };
        if body.row != result {
            return self.refuse(FaultNumber::Types);
        }
        if !reads_as(body.yields, yields) {
            return self.refuse(FaultNumber::YieldType);
        }
        accept(row, BOTTOM_ROW)
    }

    // An application of a function joins the yield types; that of a coroutine has the coroutine's, and so has each part.
    pub fn application(self, applied: Judged, given: Judged) -> Result<Judged, Fault>
        ensures { result ≡ application_rule self.entry.rows.now self.entry.place applied given }
    {
        match shape_at(self.rows, applied.row) {
            Shape::FunctionRow { argument, result } => {
                if given.row == argument {
                    self.join(result, applied.yields, given.yields)
                } else {
                    self.refuse(FaultNumber::Types)
                }
            }
            Shape::CoroutineRow {
                argument,
                yields,
                result,
            } => {
                if given.row != argument {
                    self.refuse(FaultNumber::Types)
                } else if reads_as(applied.yields, yields) && reads_as(given.yields, yields) {
                    accept(result, yields)
                } else {
                    self.refuse(FaultNumber::YieldType)
                }
            }
            _ => self.refuse(FaultNumber::Types),
        }
    }

    // A yield has type Unit; its yield type is the type of what it offers.
    pub fn yielding(self, offered: Judged) -> Result<Judged, Fault>
        ensures { result ≡ yield_rule self.entry.place offered }
    {
        if reads_as(offered.yields, offered.row) {
            accept(UNIT_ROW, offered.row)
        } else {
            self.refuse(FaultNumber::YieldType)
        }
    }

    // A start has its row as type, an instance type with the coroutine's yield type and result; the yield types of the parts join.
    pub fn start(self, row: u16, started: Judged, given: Judged) -> Result<Judged, Fault>
        ensures { result ≡ start_rule self.entry.rows.now self.entry.place row started given }
    {
        let Shape::InstanceRow {
            yields: offers,
            result: ends,
        } = shape_at(self.rows, row)
        else {
            return self.refuse(FaultNumber::Types);
        };
        let Shape::CoroutineRow {
            argument,
            yields,
            result,
        } = shape_at(self.rows, started.row)
        else {
            return self.refuse(FaultNumber::Types);
        };
        if given.row == argument && yields == offers && result == ends {
            self.join(row, started.yields, given.yields)
        } else {
            self.refuse(FaultNumber::Types)
        }
    }

    // A resume of an instance has coroutines for handlers: from its result, from what it yields and from Unit, with one yield type
    // and one result, which are those of the resume. Each part has that yield type.
    pub fn resume(
        self,
        resumed: Judged,
        of_result: Judged,
        of_yield: Judged,
        of_neither: Judged,
    ) -> Result<Judged, Fault>
        ensures { result ≡ resume_rule self.entry.rows.now self.entry.place resumed of_result of_yield of_neither }
    {
        let Shape::InstanceRow {
            yields: offers,
            result: ends,
        } = shape_at(self.rows, resumed.row)
        else {
            return self.refuse(FaultNumber::Types);
        };
        let Shape::CoroutineRow {
            argument,
            yields,
            result,
        } = shape_at(self.rows, of_result.row)
        else {
            return self.refuse(FaultNumber::Types);
        };
        if !(argument == ends
            && self.handles(of_yield, offers, yields, result)
            && self.handles(of_neither, UNIT_ROW, yields, result))
        {
            return self.refuse(FaultNumber::Types);
        }
        if all_read_as(yields, resumed, of_result, of_yield, of_neither) {
            accept(result, yields)
        } else {
            self.refuse(FaultNumber::YieldType)
        }
    }

    // A snapshot has its part's instance type and yield type.
    pub fn snapshot(self, copied: Judged) -> Result<Judged, Fault>
        ensures { result ≡ snapshot_rule self.entry.rows.now self.entry.place copied }
    {
        let Shape::InstanceRow { .. } = shape_at(self.rows, copied.row) else {
            return self.refuse(FaultNumber::Types);
        };
        Ok(copied)
    }

    // A fix of a function from a type to itself has that type; its part yields nothing.
    pub fn fix(self, function: Judged) -> Result<Judged, Fault>
        ensures { result ≡ fix_rule self.entry.rows.now self.entry.place function }
    {
        let Shape::FunctionRow { argument, result } = shape_at(self.rows, function.row) else {
            return self.refuse(FaultNumber::Types);
        };
        if argument != result {
            return self.refuse(FaultNumber::Types);
        }
        if function.yields != BOTTOM_ROW {
            return self.refuse(FaultNumber::YieldType);
        }
        accept(result, BOTTOM_ROW)
    }

    // An atom has its base, if that is a base of the set and holds the payload.
    pub fn atom<Q: QuantitySet>(self, set: &Q, base: u8, payload: u32) -> Result<Judged, Fault>
        ensures { result ≡ atom_rule Q.meaning self.entry.place base payload }
    {
        if base < set.bases() && set.holds(base, payload) {
            accept(base_row(base), BOTTOM_ROW)
        } else {
            self.refuse(FaultNumber::Quantity)
        }
    }

    // An operation goes from its operand bases to its result base; the yield types of the operands join.
    pub fn operation(
        self,
        signature: Option<Signature>,
        first: Judged,
        second: Judged,
    ) -> Result<Judged, Fault>
        ensures { result ≡ operation_rule self.entry.place signature first second }
    {
        let Some(bases) = signature else {
            return self.refuse(FaultNumber::Quantity);
        };
        if first.row == base_row(bases.first) && second.row == base_row(bases.second) {
            self.join(base_row(bases.result), first.yields, second.yields)
        } else {
            self.refuse(FaultNumber::Types)
        }
    }

    // A term is refused.
    #[tactic(auto, unfolding(crate::specs::Rules::refused))]
    pub fn refuse(self, number: FaultNumber) -> Result<Judged, Fault>
        ensures { result ≡ refused number self.entry.place }
    {
        Err(Fault::new(number, self.place))
    }

    // Whether a part has a coroutine type with this argument, yield type and result.
    fn handles(self, part: Judged, argument: u16, yields: u16, res: u16) -> bool
        ensures { result ≡ is_coroutine self.entry.rows.now part argument yields res }
    {
        let sought = Shape::CoroutineRow {
            argument,
            yields,
            result: res,
        };
        shape_at(self.rows, part.row) == sought
    }

    // The type row with the join of two yield rows: they are equal, or one is ⊥ and the other the result.
    fn join(self, row: u16, first: u16, second: u16) -> Result<Judged, Fault>
        ensures { result ≡ joining self.entry.place row first second }
    {
        if reads_as(first, second) {
            accept(row, second)
        } else if reads_as(second, first) {
            accept(row, first)
        } else {
            self.refuse(FaultNumber::YieldType)
        }
    }
}

// The row of a base.
fn base_row(base: u8) -> u16
    ensures { result ≡ base + 2 }
{
    u16::from(base) + FIRST_BASE_ROW
}

// A term is accepted with these rows.
fn accept(row: u16, yields: u16) -> Result<Judged, Fault>
    ensures { result ≡ accepted row yields }
{
    Ok(Judged { row, yields })
}

// Whether a yield row may be read as another: they are the same, or it is ⊥.
fn reads_as(yields: u16, other: u16) -> bool
    ensures { result ≡ may_read yields other }
{
    yields == other || yields == BOTTOM_ROW
}

// Kept: four tests; tried as `iter().all` over an array of the parts: the goal stayed open at the limit of the search.
// Whether each of four parts has the yield row, or ⊥.
fn all_read_as(other: u16, first: Judged, second: Judged, third: Judged, fourth: Judged) -> bool
    ensures { result ≡ all_may_read other first second third fourth }
{
    reads_as(first.yields, other)
        && reads_as(second.yields, other)
        && reads_as(third.yields, other)
        && reads_as(fourth.yields, other)
}
