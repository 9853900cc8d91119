// What holds of reading a program's words, each on the contract of a function.
ghost use Rattle.programs.specs.Laws.{Heads, Accepted, OneProgram, Refused};

// Words are parted exactly when they have a head in range and as many words as it states, else refused by 4 at 0.
pub fn heads_are_exact()
    ensures { Heads }
{}

// Words are accepted exactly when they are those of a table and a term that keep the rules; the parts are then their words.
pub fn accepted_words_are_programs()
    ensures { Accepted }
{}

// Words are those of one table and one term at most.
pub fn words_are_of_one_program()
    ensures { OneProgram }
{}

// A refusal is at the first row or term word with which the words are no beginning of a program.
pub fn refusals_have_their_reasons()
    ensures { Refused }
{}
