//! How many tuples a quantifier has to find.

ghost use Rattle.std.specs.Prelude.{◌≡◌};
ghost use Rattle.model_evaluator.specs.Asked.{agrees, enough, looks_for, settled};

use clf_tree::Word;

/// Whether a quantifier looks for tuples that pass; `all` looks for those that fail.
pub fn looks_for(word: Word) -> bool
    ensures { result ≡ looks_for word }
{
    match word {
        Word::All => false,
        _ => true,
    }
}

/// How many tuples settle the question.
pub fn enough(word: Word) -> usize
    ensures { result ≡ enough word }
{
    match word {
        Word::One | Word::Lone => 2,
        _ => 1,
    }
}

/// What follows from having found so many tuples, or enough.
pub fn settled(word: Word, found: usize) -> bool
    ensures { result ≡ settled word found }
{
    match word {
        Word::All | Word::No => found == 0,
        Word::Some => found > 0,
        Word::One => found == 1,
        Word::Lone => found <= 1,
        _ => false,
    }
}

/// Whether a body is as wanted.
pub fn agrees(wanted: bool, holds: bool) -> bool
    ensures { result ≡ agrees wanted holds }
{
    if wanted { holds } else { !holds }
}
