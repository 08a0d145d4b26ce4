//! How words and signs are written, stated word by word and sign by sign.
#![tactic(auto)]

ghost use Rattle.std.specs.Prelude.{◌≡◌, ◌↔◌, ℕ, List, Some};
ghost use Rattle.clf_tree.specs.Spelling.{spelled_sign, spelled_word};
ghost use Rattle.token_spellings.specs.Written.{written_sign, written_word};

use clf_tree::{Sign, Word};

/// A law: a text is read as a word exactly where it is how that word is written.
pub fn words_are_read_as_written()
    ensures { (text : List ℕ) (word : Word) → spelled_word text ≡ Some word ↔ text ≡ written_word word }
{}

/// A law: a text is read as a sign exactly where it is how that sign is written.
pub fn signs_are_read_as_written()
    ensures { (text : List ℕ) (sign : Sign) → spelled_sign text ≡ Some sign ↔ text ≡ written_sign sign }
{}

/// How a word is written.
pub fn word_text(word: Word) -> &'static [u8]
    ensures { result.now ≡ written_word word }
{
    match word {
        Word::Abstract => b"abstract",
        Word::All => b"all",
        Word::Assert => b"assert",
        Word::Clafer => b"clafer",
        Word::Disj => b"disj",
        Word::Double => b"double",
        Word::Dref => b"dref",
        Word::Else => b"else",
        Word::Enum => b"enum",
        Word::If => b"if",
        Word::In => b"in",
        Word::Int => b"int",
        Word::Integer => b"integer",
        Word::Lone => b"lone",
        Word::Max => b"max",
        Word::Maximize => b"maximize",
        Word::Min => b"min",
        Word::Minimize => b"minimize",
        Word::Mux => b"mux",
        Word::No => b"no",
        Word::Not => b"not",
        Word::One => b"one",
        Word::Opt => b"opt",
        Word::Or => b"or",
        Word::Parent => b"parent",
        Word::Product => b"product",
        Word::Real => b"real",
        Word::Some => b"some",
        Word::String => b"string",
        Word::Sum => b"sum",
        Word::Then => b"then",
        Word::This => b"this",
        Word::Xor => b"xor",
    }
}

/// How a sign is written.
pub fn sign_text(sign: Sign) -> &'static [u8]
    ensures { result.now ≡ written_sign sign }
{
    match sign {
        Sign::DotDot => b"..",
        Sign::Dot => b".",
        Sign::BagArrow => b"->>",
        Sign::Arrow => b"->",
        Sign::MinusMinus => b"--",
        Sign::Minus => b"-",
        Sign::PlusPlus => b"++",
        Sign::Plus => b"+",
        Sign::StarStar => b"**",
        Sign::Star => b"*",
        Sign::AndAnd => b"&&",
        Sign::OrOr => b"||",
        Sign::Bar => b"|",
        Sign::Implies => b"=>",
        Sign::Iff => b"<=>",
        Sign::LessEqual => b"<=",
        Sign::GoalOpen => b"<<",
        Sign::Less => b"<",
        Sign::GreaterEqual => b">=",
        Sign::GoalClose => b">>",
        Sign::Greater => b">",
        Sign::Equal => b"=",
        Sign::NotEqual => b"!=",
        Sign::Not => b"!",
        Sign::Hash => b"#",
        Sign::Question => b"?",
        Sign::Colon => b":",
        Sign::Semicolon => b";",
        Sign::BraceOpen => b"{",
        Sign::BraceClose => b"}",
        Sign::BracketOpen => b"[",
        Sign::BracketClose => b"]",
        Sign::ParenOpen => b"(",
        Sign::ParenClose => b")",
    }
}
