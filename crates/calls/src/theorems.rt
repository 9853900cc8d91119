// What is proved of the calls, each on the contract of a function.
ghost use Rattle.calls.specs.Statements.{HistoriesSound, EveryOpenIsExact, RunsAreSteps, TakesTheOffers, ShowsTheValues};

// Every accepted open starts histories that are sound, over every quantity set that keeps its law.
pub fn histories_are_sound()
    ensures { HistoriesSound }
{}

// Open accepts exactly the admitted programs whose term has room.
pub fn opens_are_exact()
    ensures { EveryOpenIsExact }
{}

// A run is refused for its reason, or makes the steps of the step relation.
pub fn runs_are_steps()
    ensures { RunsAreSteps }
{}

// A take is refused for its reason, or makes the suspended term the image's term.
pub fn takes_take_the_offer()
    ensures { TakesTheOffers }
{}

// A show is refused for its reason, or hands out the value as the part of the image that holds it.
pub fn shows_are_parts()
    ensures { ShowsTheValues }
{}
