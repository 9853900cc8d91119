// What holds of the words of terms, each on the contract of a function.
ghost use Rattle.encoding.specs.Laws.{Unique, WordsOfTerms, MadeOfParts, FirstWords, PartsStand, WordDepths};

// No two terms have the same words, and no term's words are the beginning of another's.
#[tactic(auto, using(crate::proofs::Reading::unique))]
pub fn words_are_unique()
    ensures { Unique }
{}

// The scan finds an end exactly where a term stands, and it is the term's.
#[tactic(auto, using(crate::proofs::Places::scan_stands, crate::proofs::Places::stands_scan))]
pub fn scans_find_terms()
    ensures { WordsOfTerms }
{}

// A term is its first word and then the words of its parts, as many as its size says.
#[tactic(auto, using(crate::proofs::Parts::encode_is, crate::proofs::Parts::length_encode))]
pub fn terms_are_made_of_parts()
    ensures { MadeOfParts }
{}

// The first word of a term is known for one, and says how many parts follow.
#[tactic(auto, using(crate::proofs::FirstWord::first_of))]
pub fn first_words_are_known()
    ensures { FirstWords }
{}

// The parts of a term that stands at a place stand behind its first word.
#[tactic(auto, using(crate::proofs::Places::parts_stand))]
pub fn parts_stand()
    ensures { PartsStand }
{}

// Each word of a term has a depth, and the greatest is the term's.
#[tactic(auto, using(crate::proofs::Depths::depths_counted, crate::proofs::Depths::depths_reach))]
pub fn words_have_depths()
    ensures { WordDepths }
{}
