ghost use Rattle.std.specs.Prelude.{◌≡◌, ℕ, ◌+◌, ◌*◌, ◌/◌, ◌<◌, ◌==◌, ◌↔◌, ◌||◌, ◌&&◌, not, true, length, IsTrue, IsSome, IsNone, IfSome, MatchOption};
ghost use Rattle.clause_store.specs.Literals.{literals_of, IsAscending};
ghost use Rattle.clause_store.specs.Resolution.{Clashes, resolvent};
ghost use Rattle.proof_checker.specs.Marks.{marked, count_of, HasCodesBelow, IsClear, IsMarkedAs};

use clause_store::Literal;

/// Marks literals, and answers how many of them were not marked before.
pub fn mark(marks: &mut [bool], literals: &[Literal]) -> usize
    requires { HasCodesBelow (length marks.old) literals.now }
    ensures marks { (code : ℕ) → marked marks.new code ≡ (marked marks.old code || literals_of literals.now code) }
    ensures count { count_of marks.new ≡ count_of marks.old + result }
{
    let mut added = 0;
    for literal in literals {
        let code = literal.code as usize;
        if !marks[code] {
            marks[code] = true;
            added += 1;
        }
    }
    added
}

/// Takes the marks of a variable away that is marked with one sign alone, and answers whether that is
/// the positive one. Nothing where both of its literals are marked or none is; the marks are then as
/// before.
fn take_variable(marks: &mut [bool], variable: u32) -> Option<bool>
    requires { 2 * variable + 1 < length marks.old }
    ensures sign { MatchOption result (marked marks.old (2 * variable) ≡ marked marks.old (2 * variable + 1)) (λ positive. IsMarkedAs marks.old variable positive) }
    ensures marks { IsSome result → (code : ℕ) → marked marks.new code ≡ (marked marks.old code && not (code / 2 == variable)) }
    ensures count { IsSome result → count_of marks.new + 1 ≡ count_of marks.old }
    ensures none { IsNone result → marks.new ≡ marks.old }
{
    let positive = 2 * variable as usize;
    let negated = positive + 1;
    let is_positive = marks[positive];
    if marks[negated] == is_positive {
        return None;
    }
    marks[positive] = false;
    marks[negated] = false;
    Some(is_positive)
}

/// Resolves the marked literals, `count` of them, with a clause on a pivot. The answer is how many
/// are marked then, or nothing where the pivot does not clash; the marks are then of no meaning.
pub fn resolve(marks: &mut [bool], count: usize, literals: &[Literal], pivot: u32) -> Option<usize>
    requires codes { HasCodesBelow (length marks.old) literals.now }
    requires pivot { 2 * pivot + 1 < length marks.old }
    requires count { count ≡ count_of marks.old }
    ensures clash { IsSome result ↔ Clashes (marked marks.old) (literals_of literals.now) pivot }
    ensures marks { IsSome result → (code : ℕ) → marked marks.new code ≡ resolvent (marked marks.old) (literals_of literals.now) pivot code }
    ensures count { IfSome result (λ left. left ≡ count_of marks.new) }
{
    let sign = take_variable(marks, pivot)?;
    let added = mark(marks, literals);
    let opposite = take_variable(marks, pivot)?;
    if sign == opposite {
        return None;
    }
    Some(count - 1 + added - 1)
}

/// Takes the marks of literals away. The answer is whether all of them were marked.
pub fn unmark(marks: &mut [bool], literals: &[Literal]) -> bool
    requires codes { HasCodesBelow (length marks.old) literals.now }
    requires ascending { IsAscending literals.now }
    ensures all { IsTrue result ↔ ((code : ℕ) → literals_of literals.now code ≡ true → marked marks.old code ≡ true) }
    ensures marks { IsTrue result → (code : ℕ) → marked marks.new code ≡ (marked marks.old code && not (literals_of literals.now code)) }
    ensures count { IsTrue result → count_of marks.new + length literals.now ≡ count_of marks.old }
{
    for literal in literals {
        let code = literal.code as usize;
        if !marks[code] {
            return false;
        }
        marks[code] = false;
    }
    true
}

/// Whether the marked literals, `count` of them, are exactly those of a clause. If so, no mark is left.
pub fn unmark_exactly(marks: &mut [bool], count: usize, literals: &[Literal]) -> bool
    requires codes { HasCodesBelow (length marks.old) literals.now }
    requires ascending { IsAscending literals.now }
    requires count { count ≡ count_of marks.old }
    ensures exact { IsTrue result ↔ ((code : ℕ) → marked marks.old code ≡ literals_of literals.now code) }
    ensures clear { IsTrue result → IsClear marks.new }
{
    if !unmark(marks, literals) {
        return false;
    }
    literals.len() == count
}
