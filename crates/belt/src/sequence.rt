// The belt sequence, as words over counts.
//
// A belt hands out the positions 0, 10, 20 and 30. The loop takes a snapshot of the halted belt, moves the belt, offers the position and
// asks a sensor. Where the sensor yields, the position is good, and the loop goes on. Where it ends with a count, the belt has slipped by
// that count: the loop offers the position without the slip, the last good one, and goes on from the snapshot. Once the sensor is over,
// every position is good. This sensor reports two good positions and then a slip by 10.
use layout::Word;

// Rows of the table.
// 0: Unit.
pub const UNIT: u16 = 0;
// 2: counts.
pub const COUNT: u16 = 2;
// 3: truth values.
pub const TRUTH: u16 = 3;
// 4: a coroutine from a count, which yields counts and gives a count: a belt, and what handles a belt's values.
const POSITIONS: u16 = 4;
// 5: an instance of a belt.
const MOVING: u16 = 5;
// 6: what goes on after an offer, to the end of the sequence.
const AFTER: u16 = 6;
// 7: what goes on with a belt, to the end of the sequence.
const DRIVING: u16 = 7;
// 8: a function from a loop to a loop, of which the loop is the fix.
const LOOPING: u16 = 8;
// 9: a coroutine from Unit, which yields Unit and gives a count: a sensor.
const REPORTS: u16 = 9;
// 10: an instance of a sensor.
const WATCHING: u16 = 10;
// 11: what goes on with a sensor, to the end of the sequence.
const WATCHED: u16 = 11;
// 12: from the length of a slip to the belt to go on with.
const BACK: u16 = 12;
// 13: from Unit to the belt to go on with.
const ON: u16 = 13;

// Names in the sequence.
// A name that is not used.
const NOTHING: u16 = 0;
// The first position of the belt.
const FIRST: u16 = 1;
// The instance of the sensor.
const SENSOR: u16 = 2;
// The loop itself.
const AGAIN: u16 = 3;
// The instance of the belt that moves next.
const BELT: u16 = 4;
// The snapshot of the belt at its last good position.
const GOOD: u16 = 5;
// The value that the belt has ended with.
const LAST: u16 = 6;
// The position that the belt has moved to.
const POSITION: u16 = 7;
// By how much the belt has slipped.
const SLIP: u16 = 8;

// How many words the sequence has.
pub const WORDS: usize = 92;

// The place of the word that the belt is started with: its first position.
pub const FIRST_POSITION: usize = 79;

// The operations 0 and 1 on counts.
const SUM: Word = Word::Operation { number: 0 };

const DIFFERENCE: Word = Word::Operation { number: 1 };

fn coroutine_type(argument: u16, yields: u16, value: u16) -> Word {
    Word::CoroutineType {
        argument,
        yields,
        result: value,
    }
}

fn instance_type(yields: u16, value: u16) -> Word {
    Word::InstanceType {
        yields,
        result: value,
    }
}

fn function_type(argument: u16, value: u16) -> Word {
    Word::FunctionType {
        argument,
        result: value,
    }
}

fn variable(name: u16) -> Word {
    Word::Variable { name }
}

fn abstraction(row: u16, name: u16) -> Word {
    Word::Abstraction { name, row }
}

fn coroutine(row: u16, name: u16) -> Word {
    Word::Coroutine { name, row }
}

fn start(row: u16) -> Word {
    Word::Start { row }
}

// An atom of base 0.
fn count(payload: u32) -> Word {
    Word::Atom { base: 0, payload }
}

// An atom of base 1.
pub fn truth(payload: u32) -> Word {
    Word::Atom { base: 1, payload }
}

// The words of the sequence: its head, its rows and its term.
pub fn belt_sequence() -> [Word; WORDS] {
    [
        Word::ProgramHead {
            rows: 14,
            term_words: 77,
        },
        Word::UnitType, // row 0
        Word::BottomType, // row 1
        Word::BaseType { base: 0 }, // row 2: counts
        Word::BaseType { base: 1 }, // row 3: truth values
        coroutine_type(COUNT, COUNT, COUNT), // row 4
        instance_type(COUNT, COUNT), // row 5
        coroutine_type(UNIT, COUNT, COUNT), // row 6
        coroutine_type(MOVING, COUNT, COUNT), // row 7
        function_type(DRIVING, DRIVING), // row 8
        coroutine_type(UNIT, UNIT, COUNT), // row 9
        instance_type(UNIT, COUNT), // row 10
        coroutine_type(WATCHING, COUNT, COUNT), // row 11
        coroutine_type(COUNT, COUNT, MOVING), // row 12
        coroutine_type(UNIT, COUNT, MOVING), // row 13
        Word::Application, // with SENSOR, the instance that is started last:
        coroutine(WATCHED, SENSOR),
        Word::Application, // the loop, on the started belt
        Word::Fix, // AGAIN is this loop
        abstraction(LOOPING, AGAIN),
        coroutine(DRIVING, BELT), // it takes a BELT:
        Word::Application, // with GOOD, a snapshot of the belt that is taken before its next move:
        coroutine(DRIVING, GOOD),
        Word::Resume, // the belt moves
        variable(BELT),
        coroutine(POSITIONS, LAST), // if it ends, its last position is the value of all
        variable(LAST),
        coroutine(POSITIONS, POSITION), // if it yields a POSITION:
        Word::Application, // the position is offered, and after that
        coroutine(AFTER, NOTHING),
        Word::Application, // the loop runs again, on the belt that the sensor's report gives:
        variable(AGAIN),
        Word::Resume, // the sensor is asked
        variable(SENSOR),
        coroutine(BACK, SLIP), // if it ends, there was a SLIP:
        Word::Application, // the position before it is offered, and after that
        coroutine(ON, NOTHING), // the belt is the snapshot
        variable(GOOD),
        Word::Yield,
        DIFFERENCE,
        variable(POSITION),
        variable(SLIP),
        coroutine(ON, NOTHING), // if it yields, the position is good: the belt stays
        variable(BELT),
        coroutine(ON, NOTHING), // if it is over, too
        variable(BELT),
        Word::Yield, // (the offer of the position)
        variable(POSITION),
        coroutine(AFTER, NOTHING), // if the belt is over, the value of all is 0
        count(0),
        Word::Snapshot, // (the snapshot)
        variable(BELT),
        start(MOVING), // (the started belt) a belt from its FIRST position on:
        coroutine(POSITIONS, FIRST),
        Word::Application, // after the first offer
        coroutine(AFTER, NOTHING),
        Word::Application, // after the second
        coroutine(AFTER, NOTHING),
        Word::Application, // after the third
        coroutine(AFTER, NOTHING),
        Word::Application, // after the fourth
        coroutine(AFTER, NOTHING),
        SUM, // its last position is the first one and 30
        variable(FIRST),
        count(30),
        Word::Yield, // the fourth offer: the first position and 30
        SUM,
        variable(FIRST),
        count(30),
        Word::Yield, // the third offer: the first position and 20
        SUM,
        variable(FIRST),
        count(20),
        Word::Yield, // the second offer: the first position and 10
        SUM,
        variable(FIRST),
        count(10),
        Word::Yield, // the first offer
        variable(FIRST),
        count(0), // the first position
        start(WATCHING), // (the sensor)
        coroutine(REPORTS, NOTHING),
        Word::Application, // after the first report
        coroutine(REPORTS, NOTHING),
        Word::Application, // after the second
        coroutine(REPORTS, NOTHING),
        count(10), // a slip by 10
        Word::Yield, // the second report: the position is good
        Word::Unit,
        Word::Yield, // the first report: the position is good
        Word::Unit,
        Word::Unit, // what the sensor is started with
    ]
}
