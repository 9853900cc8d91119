// The theorems of the calculus, each on the contract of a function.
ghost use Rattle.calculus.specs.StatementsOfPlaces.{PathEntered, WordsWithin, PutInPlace, StepAtPath, EveryResumptionOnPath, Lasting};
ghost use Rattle.calculus.specs.Statements.{Checking, OneType, Agreement, OneSuccessor, Rest, RulesKept, RowsOfTheTable, Replacement, Preservation, OutcomesOfTyped, Progress, ShapeKept, Always, Confinement, InOrder, HandlersFirst, NeverTwice};

// A term has type T and yield type Y exactly when the judgement answers T and a yield type that may be read as Y.
pub fn checking_is_exact()
    ensures { Checking }
{}

// A term has one type at most.
pub fn types_are_unique()
    ensures { OneType }
{}

// The step as a function gives what the step relation allows.
pub fn next_agrees_with_steps()
    ensures { Agreement }
{}

// A configuration has at most one successor.
pub fn successors_are_unique()
    ensures { OneSuccessor }
{}

// A value has no successor, and a suspension at the root has none.
pub fn values_and_suspensions_rest()
    ensures { Rest }
{}

// A step keeps the rules of a configuration, and so does taking an offer; a program term with no binding keeps them.
pub fn steps_keep_the_rules()
    ensures { RulesKept }
{}

// Types and yield types are rows of the table.
pub fn types_are_rows()
    ensures { RowsOfTheTable }
{}

// Replacing a name by a closed value, or by a closed fix term, keeps type and yield type, whatever else is in scope.
pub fn replacement_keeps_types()
    ensures { Replacement }
{}

// A step keeps types and yield types, and so does taking an offer; rows of bindings only grow at the end.
pub fn steps_keep_types()
    ensures { Preservation }
{}

// A well-typed configuration is exactly one of: a value, a suspension that offers, a configuration with one successor, stuck.
pub fn typed_configurations_have_one_outcome()
    ensures { OutcomesOfTyped }
{}

// Where a resumption at the end of the path has an empty binding, a well-typed configuration is exactly one of the first three.
pub fn typed_configurations_go_on()
    ensures { Progress }
{}

// Steps keep the shape, and so does taking an offer.
pub fn steps_keep_the_shape()
    ensures { ShapeKept }
{}

// What `Safe` lists holds in every history of a well-typed program.
pub fn histories_stay_safe()
    ensures { Always }
{}

// A suspension never climbs past a resumption, wherever in the term that stands.
pub fn suspensions_stay_in_resumptions()
    ensures { Confinement }
{}

// Where the parts left of a part are values and the part is none, the step is the part's.
pub fn parts_are_evaluated_in_order()
    ensures { InOrder }
{}

// A line at a resume is a pause, or the instance and all three handlers are values.
pub fn handlers_are_evaluated_first()
    ensures { HandlersFirst }
{}

// While an instance executes, a resume of it has one step, which applies the fourth part to unit.
pub fn instances_never_run_twice()
    ensures { NeverTwice }
{}

// The path enters the first evaluated part that is not a value, unless that is a suspension; it ends at an occurrence.
pub fn the_path_goes_as_defined()
    ensures { PathEntered }
{}

// The words of an occurrence lie among those of the term, and the place of the step is one of them.
pub fn words_of_occurrences_lie_within()
    ensures { WordsWithin }
{}

// A term put in the place of an occurrence stands there, at the same word.
pub fn terms_are_put_in_place()
    ensures { PutInPlace }
{}

// A step happens at the path's last term, by one of the lines, and leaves all else as it is.
pub fn steps_happen_at_the_path()
    ensures { StepAtPath }
{}

// Every resumption is on the path, with a label of its own and an empty binding.
pub fn resumptions_lie_on_the_path()
    ensures { EveryResumptionOnPath }
{}

// Bindings and their rows last through a history, and new ones are started or copied.
pub fn bindings_last()
    ensures { Lasting }
{}
