//! The answer of a text is the only one.

ghost use Rattle.std.specs.Prelude.{◌≡◌, ℕ, List as Seq, Ok, IsUtf8, chars, fold};
ghost use Rattle.clf_base.specs.declared.fault.Span.{Span as Place};
ghost use Rattle.clafer_lexer.specs.Bytes.{after_byte};
ghost use Rattle.clafer_lexer.specs.Places.{after_character};
ghost use Rattle.clf_base.specs.declared.fault.Refusal.{Refusal as Refused};
ghost use Rattle.clf_tree.specs.declared.token.Token.{Token as Item};
ghost use Rattle.clafer_lexer.specs.Cuts.{IsLexed, IsFirstRefusal};
ghost use Rattle.clafer_lexer.specs.Layout.{laid};
ghost use Rattle.clafer_lexer.specs.Order.{IsEnded, IsInOrder};
ghost use Rattle.clafer_lexer.specs.Rows.{IsRow};

/// A law: a text has at most one list of tokens, or at most one first refusal, and not both.
pub fn text_has_one_answer()
    ensures tokens { (text : Seq ℕ) (some others : Seq Item) → IsLexed text some → IsLexed text others → some ≡ others }
    ensures refusal { (text : Seq ℕ) (some other : Refused) → IsFirstRefusal text some → IsFirstRefusal text other → some ≡ other }
    ensures not_both { (text : Seq ℕ) (some : Seq Item) (refusal : Refused) → IsLexed text some → IsFirstRefusal text refusal → ⊥ }
{}

/// A law: the place behind some UTF-8 counts its characters, whatever their numbers of bytes.
pub fn places_count_characters()
    ensures { (at : Place) (bytes : Seq ℕ) → IsUtf8 bytes → fold after_byte at bytes ≡ fold after_character at (chars bytes) }
{}

/// A law: the tokens of a text stand in its order, none over the next, and each is spelled by its own bytes of it.
pub fn tokens_stand_in_order()
    ensures { (text : Seq ℕ) (tokens : Seq Item) → IsLexed text tokens → IsRow text 0 tokens }
{}

/// A law: the laid tokens of a text, marks too, stand in the order of their places, and the last is `End`.
pub fn laid_tokens_stand_in_order()
    ensures order { (text : Seq ℕ) (tokens out : Seq Item) → IsLexed text tokens → laid tokens ≡ Ok out → IsInOrder out }
    ensures ended { (text : Seq ℕ) (tokens out : Seq Item) → IsLexed text tokens → laid tokens ≡ Ok out → IsEnded out }
{}
