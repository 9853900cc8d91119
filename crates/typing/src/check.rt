// The type check over the words of a term.
ghost use Rattle.std.specs.Prelude.{◌≡◌, ◌≤◌, [], length, drop, replicate};
ghost use Rattle.calculus.specs.Terms.{Term};
ghost use Rattle.stack.specs.Entries.{entries, SameSlots};
ghost use Rattle.encoding.specs.Encoding.{Stands};
ghost use Rattle.encoding.specs.Depths.{depth};
ghost use Rattle.judging.specs.Verdicts.{verdict};
ghost use Rattle.typing.specs.Machine.{nobody, fresh as fresh_frame, rule_of, Settles, settle as settling, run};

use crate::frames::deliver;
use crate::model::{Frame, Scoped};
use crate::scope::{enter, leave, look};
use faults::Fault;
use faults::numbers::FaultNumber;
use quantities::QuantitySet;
use rules::model::Judged;
use rules::rules::Site;
use stack::Stack;
use words::fields::{base, name as name_of, operation, payload, row};
use words::kinds::Kind;

// The rule of a frame whose parts are all judged.
fn rule<Q: QuantitySet>(
    set: &Q,
    rows: &[u32],
    scope: &Stack<'_, Scoped>,
    frame: Frame,
) -> Result<Judged, Fault>
    ensures { result ≡ rule_of Q.meaning rows.now (entries scope.now.slots.now scope.now.len) frame }
{
    let Frame {
        word,
        place,
        first,
        second,
        third,
        fourth,
        ..
    } = frame;
    let site = Site { rows, place };
    match Kind::of_word(word) {
        Some(Kind::Unit) => site.unit(),
        Some(Kind::Variable) => site.variable(look(scope.held(), name_of(word))),
        Some(Kind::Abstraction) => site.abstraction(row(word), first),
        Some(Kind::Coroutine) => site.coroutine(row(word), first),
        Some(Kind::Application) => site.application(first, second),
        Some(Kind::Yield) => site.yielding(first),
        Some(Kind::Start) => site.start(row(word), first, second),
        Some(Kind::Resume) => site.resume(first, second, third, fourth),
        Some(Kind::Snapshot) => site.snapshot(first),
        Some(Kind::Fix) => site.fix(first),
        Some(Kind::Atom) => site.atom(set, base(word), payload(word)),
        Some(Kind::Operation) => site.operation(set.signature(operation(word)), first, second),
        _ => site.refuse(FaultNumber::Types),
    }
}

// As long as the newest frame is full: its rule is applied, and its judgement goes to the frame below. The answer is a fault, or the
// judgement that has no frame below; none where a frame waits for a part.
// Kept: four parameters; as fields of a struct the methods prove, but not that its drop leaves both lists blank.
fn settle<Q: QuantitySet>(
    set: &Q,
    rows: &[u32],
    scope: &mut Stack<'_, Scoped>,
    frames: &mut Stack<'_, Frame>,
) -> Result<Option<Judged>, Fault>
    ensures all { Settles result (settling Q.meaning rows.now (entries scope.old.slots.now scope.old.len) (entries frames.old.slots.now frames.old.len)) (entries frames.new.slots.now frames.new.len) (entries scope.new.slots.now scope.new.len) }
    ensures scope_over { SameSlots scope.old.slots scope.new.slots }
    ensures frames_over { SameSlots frames.old.slots frames.new.slots }
{
    while let Some(frame) = frames.top() {
        if !frame.full() {
            return Ok(None);
        }
        let judged = rule(set, rows, &*scope, frame)?;
        leave(&mut *scope, frame.word);
        if deliver(&mut *frames, judged).is_none() {
            return Ok(Some(judged));
        }
    }
    Ok(None)
}

// The judgement of the term that stands from a place on, or the first fault: 256 entries of each list do for every term that is not
// deeper. Both lists are blank afterwards.
#[tactic(auto, unfolding(rules::specs::Rules::refused))]
pub fn check<Q: QuantitySet>(
    set: &Q,
    rows: &[u32],
    words: &[u32],
    at: usize,
    scopes: &mut [Scoped],
    judgements: &mut [Frame],
) -> Result<Judged, Fault>
    ensures answer { result ≡ run Q.meaning rows.now (length scopes.old) (length judgements.old) at [] [] (drop at words.now) }
    ensures term { (t : Term) → Stands t words.now at → depth t ≤ 256 → 256 ≤ length scopes.old → 256 ≤ length judgements.old → result ≡ verdict Q.meaning rows.now [] at t }
    ensures scopes { scopes.new ≡ replicate (length scopes.old) nobody }
    ensures judgements { judgements.new ≡ replicate (length judgements.old) (fresh_frame 0 0) }
{
    let short = Fault::new(FaultNumber::WorkShort, 0);
    let mut scope = Stack::over(scopes);
    let mut frames = Stack::over(judgements);
    // Kept: places, which entries and faults carry; tried over `enumerate().skip(at)`: the invariant has no place to speak of.
    for place in at..words.len() {
        let word = words[place];
        enter(rows, &mut scope, word).map_err(|_| short)?;
        frames.push(Frame::fresh(word, place)).map_err(|_| short)?;
        if let Some(judged) = settle(set, rows, &mut scope, &mut frames)? {
            return Ok(judged);
        }
    }
    Err(short)
}
