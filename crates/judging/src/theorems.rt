// The theorems on verdicts, each on the contract of a function.
ghost use Rattle.judging.specs.Statements.{VerdictsAreJudgements, VerdictsAreTypings, RefusalsAreLocated};

// The verdict on a program term is the judgement of the calculus.
pub fn verdicts_are_judgements()
    ensures { VerdictsAreJudgements }
{}

// A program is accepted exactly with its type and its least yield type, and refused exactly when it has no type.
pub fn verdicts_are_typings()
    ensures { VerdictsAreTypings }
{}

// A refusal is at the smallest place of a term without a type whose parts all have one, and its number says why.
pub fn refusals_are_located()
    ensures { RefusalsAreLocated }
{}
