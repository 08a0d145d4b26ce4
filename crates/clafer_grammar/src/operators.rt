//! The operators of expressions, with their signs and levels.

ghost use Rattle.std.specs.Prelude.{◌≡◌, ◌≤◌};
ghost use Rattle.clafer_grammar.specs.Operators as grammar;
ghost use Rattle.clafer_grammar.specs.Machine as machine;

use clf_tree::{Sign, TokenKind, Word};

/// An operator between two operands.
#[derive(Clone, Copy)]
pub enum Infix {
    Iff,
    Implies,
    Or,
    Xor,
    And,
    Equal,
    NotEqual,
    Less,
    LessEqual,
    Greater,
    GreaterEqual,
    In,
    NotIn,
    Add,
    Sub,
    Mul,
    Union,
    Minus,
    Meet,
}

/// An operator before its operand.
#[derive(Clone, Copy)]
pub enum Prefix {
    Not,
    Neg,
    Card,
    Sum,
    Some,
    No,
    One,
    Lone,
}

/// The operator that begins with the token, behind an operand.
pub fn infix_from(kind: &TokenKind) -> Option<Infix>
    ensures { result ≡ machine.infix_of kind.now }
{
    match kind {
        TokenKind::Sign(sign) => infix_sign(*sign),
        TokenKind::Word(Word::In) => Some(Infix::In),
        TokenKind::Word(Word::Not) => Some(Infix::NotIn),
        TokenKind::Word(Word::Xor) => Some(Infix::Xor),
        _ => None,
    }
}

fn infix_sign(sign: Sign) -> Option<Infix>
    ensures { result ≡ machine.infix_sign sign }
{
    match sign {
        Sign::Iff => Some(Infix::Iff),
        Sign::Implies => Some(Infix::Implies),
        Sign::OrOr => Some(Infix::Or),
        Sign::AndAnd => Some(Infix::And),
        Sign::Equal => Some(Infix::Equal),
        Sign::NotEqual => Some(Infix::NotEqual),
        Sign::Less => Some(Infix::Less),
        Sign::LessEqual => Some(Infix::LessEqual),
        Sign::Greater => Some(Infix::Greater),
        Sign::GreaterEqual => Some(Infix::GreaterEqual),
        Sign::Plus => Some(Infix::Add),
        Sign::Minus => Some(Infix::Sub),
        Sign::Star => Some(Infix::Mul),
        Sign::PlusPlus => Some(Infix::Union),
        Sign::MinusMinus => Some(Infix::Minus),
        Sign::StarStar => Some(Infix::Meet),
        _ => None,
    }
}

/// The operator that the token is, where an operand comes.
pub fn prefix_from(kind: &TokenKind) -> Option<Prefix>
    ensures { result ≡ machine.prefix_of kind.now }
{
    match kind {
        TokenKind::Sign(Sign::Not) => Some(Prefix::Not),
        TokenKind::Sign(Sign::Minus) => Some(Prefix::Neg),
        TokenKind::Sign(Sign::Hash) => Some(Prefix::Card),
        TokenKind::Word(Word::Sum) => Some(Prefix::Sum),
        TokenKind::Word(Word::Some) => Some(Prefix::Some),
        TokenKind::Word(Word::No) => Some(Prefix::No),
        TokenKind::Word(Word::One) => Some(Prefix::One),
        TokenKind::Word(Word::Lone) => Some(Prefix::Lone),
        _ => None,
    }
}

/// The level of what the operator makes, from 1 for the loosest.
pub fn infix_level(op: Infix) -> u8
    ensures level { result ≡ grammar.infix_level op }
    ensures bound { result ≤ 12 }
{
    match op {
        Infix::Iff => 1,
        Infix::Implies => 2,
        Infix::Or => 3,
        Infix::Xor => 4,
        Infix::And => 5,
        Infix::Equal
        | Infix::NotEqual
        | Infix::Less
        | Infix::LessEqual
        | Infix::Greater
        | Infix::GreaterEqual
        | Infix::In
        | Infix::NotIn => 7,
        Infix::Add | Infix::Sub => 8,
        Infix::Mul => 9,
        Infix::Union | Infix::Minus => 11,
        Infix::Meet => 12,
    }
}

/// The least level of the left operand of an operator of a level.
#[tactic(auto, unfolding(crate::specs::Operators::left_of))]
pub fn left_of(level: u8) -> u8
    requires { level ≤ 12 }
    ensures { result ≡ grammar.left_of level }
{
    if level == 2 || level == 7 {
        level + 1
    } else {
        level
    }
}

/// The least level of the right operand of an operator of a level.
#[tactic(auto, unfolding(crate::specs::Operators::right_of))]
pub fn right_of(level: u8) -> u8
    requires { level ≤ 12 }
    ensures { result ≡ grammar.right_of level }
{
    if level == 2 { level } else { level + 1 }
}

/// The level of what the operator makes.
pub fn prefix_level(op: Prefix) -> u8
    ensures { result ≡ grammar.prefix_level op }
{
    match op {
        Prefix::Not => 6,
        Prefix::Neg | Prefix::Card | Prefix::Sum => 10,
        Prefix::Some | Prefix::No | Prefix::One | Prefix::Lone => 7,
    }
}

/// The least level of the operator's operand.
pub fn operand_level(op: Prefix) -> u8
    ensures { result ≡ grammar.operand_level op }
{
    match op {
        Prefix::Not => 6,
        Prefix::Neg | Prefix::Card | Prefix::Sum => 10,
        Prefix::Some | Prefix::No | Prefix::One | Prefix::Lone => 11,
    }
}

/// The word of an operator that counts nodes, and can bring in variables.
pub fn counting_word(op: Prefix) -> Option<Word>
    ensures { result ≡ machine.counting_word op }
{
    match op {
        Prefix::Some => Some(Word::Some),
        Prefix::No => Some(Word::No),
        Prefix::One => Some(Word::One),
        Prefix::Lone => Some(Word::Lone),
        Prefix::Not | Prefix::Neg | Prefix::Card | Prefix::Sum => None,
    }
}
