//! The next piece of a text.

ghost use Rattle.std.specs.Prelude.{◌≡◌, ℕ, ◌+◌, ◌*◌, ◌<◌, ◌≤◌, true, false, length, take, Some, None, slice_index, MatchOption, IfOk, IfErr, IfSome, IfNone, ◌-◌};
ghost use Rattle.std.specs.List.{list_all};
ghost use Rattle.std.specs.Char.{is_ascii_digit, is_ascii_alphabetic};
ghost use Rattle.clf_tree.specs.Spelling.{spelled_sign};
ghost use Rattle.clafer_lexer.specs.Pieces.{is_name_byte, is_name_like, digits_value, Spells, IsToken, NoToken, IsPiece, IsInLimit, IsTooLarge, Fails};
ghost use Rattle.clafer_lexer.specs.Cuts.{WhenRefused};
ghost use Rattle.clf_base.specs.declared.fault.Fault.TheVariants as fault;

use crate::gap::{gap, is_slash_and};
use clf_base::{Fault, List, NoMemory, Refusal, Span};
use clf_tree::{Sign, TokenKind, sign_of, word_of};
use std::alloc::Global;

/// A piece of a text: a gap, where it has no kind, or a token.
#[derive(Debug, Drop)]
pub struct Piece {
    pub kind: Option<TokenKind>,
    pub len: usize,
}

/// A token, with the number of its bytes.
#[derive(Debug, Drop)]
struct Spelled {
    kind: TokenKind,
    len: usize,
}

fn is_name_byte(byte: u8) -> bool
    ensures { result ≡ is_name_byte byte }
{
    byte.is_ascii_alphanumeric() || byte == b'_' || byte == b'\''
}

/// The number of name bytes at the front.
fn name_len(rest: &[u8]) -> usize
    ensures within { result ≤ length rest.now }
    ensures all { list_all is_name_byte (take result rest.now) ≡ true }
    ensures longest { result < length rest.now → is_name_byte (slice_index rest.now result) ≡ false }
{
    let mut len = 0;
    while len < rest.len() && is_name_byte(rest[len]) {
        len += 1;
    }
    len
}

/// The number of digits at the front.
fn digits_len(rest: &[u8]) -> usize
    ensures within { result ≤ length rest.now }
    ensures all { list_all is_ascii_digit (take result rest.now) ≡ true }
    ensures longest { result < length rest.now → is_ascii_digit (slice_index rest.now result) ≡ false }
{
    let mut len = 0;
    while len < rest.len() && rest[len].is_ascii_digit() {
        len += 1;
    }
    len
}

/// The value with one more digit, as long as it is in the limit of numbers.
fn next_value(value: u64, digit: u8) -> u64
    requires { value < 30000000000 }
    ensures small { value < 2147483648 → result ≡ value * 10 + (digit - 48) }
    ensures large { 2147483648 ≤ value → result ≡ value }
    ensures bound { result < 30000000000 }
{
    if value < 2147483648 {
        value * 10 + u64::from(digit.saturating_sub(b'0'))
    } else {
        value
    }
}

/// The value of digits, if it is in the limit of numbers.
#[tactic(auto, using(crate::proofs::Digits::digits_value_more))]
fn number(digits: &[u8]) -> Option<u32>
    ensures { MatchOption result (2147483648 ≤ digits_value digits.now) (λ value. (value ≡ digits_value digits.now) × (value < 2147483648)) }
{
    let mut value: u64 = 0;
    for digit in digits {
        value = next_value(value, *digit);
    }
    if value <= 2147483647 {
        Some(value as u32)
    } else {
        None
    }
}

/// The sign of a length at the front.
fn sign_of_len(rest: &[u8], len: usize) -> Option<Sign>
    ensures { MatchOption result (len ≤ length rest.now → spelled_sign (take len rest.now) ≡ None) (λ sign. (len ≤ length rest.now) × (spelled_sign (take len rest.now) ≡ Some sign)) }
{
    if len <= rest.len() {
        sign_of(&rest[..len])
    } else {
        None
    }
}

/// The longest sign at the front, with its length.
fn longest_sign(rest: &[u8]) -> Option<(Sign, usize)>
    ensures none { IfNone result ((m : ℕ) → m ≤ length rest.now → spelled_sign (take m rest.now) ≡ None) }
    ensures some { IfSome result (λ found. (0 < found.1) × (found.1 ≤ length rest.now) × (spelled_sign (take found.1 rest.now) ≡ Some found.0)) }
    ensures longest { IfSome result (λ found. (m : ℕ) → found.1 < m → m ≤ length rest.now → spelled_sign (take m rest.now) ≡ None) }
{
    if let Some(sign) = sign_of_len(rest, 3) {
        return Some((sign, 3));
    }
    if let Some(sign) = sign_of_len(rest, 2) {
        return Some((sign, 2));
    }
    if let Some(sign) = sign_of_len(rest, 1) {
        return Some((sign, 1));
    }
    None
}

/// The kind of a name-like text: a word or a name.
fn name_or_word(alloc: Global, bytes: &[u8]) -> Result<TokenKind, NoMemory>
    requires { is_name_like bytes.now ≡ true }
    ensures { IfOk result (λ kind. Spells bytes.now kind × IsInLimit kind) }
{
    match word_of(bytes) {
        Some(word) => Ok(TokenKind::Word(word)),
        None => Ok(TokenKind::Name(List::from_slice(alloc, bytes)?)),
    }
}

/// The name or word that begins here.
fn named_token(alloc: Global, rest: &[u8]) -> Result<Spelled, NoMemory>
    requires { is_ascii_alphabetic (slice_index rest.now 0) ≡ true }
    ensures { IfOk result (λ token. IsToken rest.now token.kind token.len × IsInLimit token.kind) }
{
    let len = name_len(rest);
    let kind = name_or_word(alloc, &rest[..len])?;
    Ok(Spelled { kind, len })
}

/// The number that begins here, if it isn't too large.
fn number_token(rest: &[u8]) -> Option<Spelled>
    requires { is_ascii_digit (slice_index rest.now 0) ≡ true }
    ensures { MatchOption result (IsTooLarge rest.now) (λ token. IsToken rest.now token.kind token.len × IsInLimit token.kind) }
{
    let len = digits_len(rest);
    let value = number(&rest[..len])?;
    Some(Spelled {
        kind: TokenKind::Number(value),
        len,
    })
}

/// The sign that begins here.
fn sign_token(rest: &[u8]) -> Option<Spelled>
    requires letter { is_ascii_alphabetic (slice_index rest.now 0) ≡ false }
    requires digit { is_ascii_digit (slice_index rest.now 0) ≡ false }
    ensures { MatchOption result (NoToken rest.now) (λ token. IsToken rest.now token.kind token.len × IsInLimit token.kind) }
{
    let (sign, len) = longest_sign(rest)?;
    Some(Spelled {
        kind: TokenKind::Sign(sign),
        len,
    })
}

/// The refusal at a place.
fn refused(code: u16, at: Span) -> Fault
    ensures { result ≡ fault.Refused (record { code = code; at = at; value = 0 }) }
{
    Fault::Refused(Refusal { code, at, value: 0 })
}

/// The next piece of a text.
pub fn next_piece(alloc: Global, rest: &[u8], at: Span) -> Result<Piece, Fault>
    requires { 0 < length rest.now }
    ensures is { IfOk result (λ piece. IsPiece rest.now piece.kind piece.len) }
    ensures within { IfOk result (λ piece. piece.len ≤ length rest.now) }
    ensures refused { IfErr result (λ fault. WhenRefused fault (λ refusal. Fails rest.now refusal.code × (refusal.at ≡ at) × (refusal.value ≡ 0))) }
{
    if let Some(len) = gap(rest) {
        return Ok(Piece { kind: None, len });
    }
    if is_slash_and(b'*', rest) {
        return Err(refused(21, at));
    }
    if rest[0].is_ascii_alphabetic() {
        let token = named_token(alloc, rest)?;
        return Ok(Piece {
            kind: Some(token.kind),
            len: token.len,
        });
    }
    if rest[0].is_ascii_digit() {
        return match number_token(rest) {
            Some(token) => Ok(Piece {
                kind: Some(token.kind),
                len: token.len,
            }),
            None => Err(refused(22, at)),
        };
    }
    match sign_token(rest) {
        Some(token) => Ok(Piece {
            kind: Some(token.kind),
            len: token.len,
        }),
        None => Err(refused(20, at)),
    }
}
