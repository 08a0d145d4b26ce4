//! The analysis of a conflict: resolution back along the trail to the first unique implication point.
ghost use Rattle.std.specs.Prelude.{ℕ, ◌≡◌, ◌≢◌, ◌+◌, ◌*◌, ◌/◌, ◌<◌, ◌≤◌, ◌^◌, [], ◌∷◌, ◌++◌, length, get_or, IfOk, IsTrue, ◌↔◌};
ghost use Rattle.cdcl_search.specs.Literals.{flip, Has};
ghost use Rattle.cdcl_search.specs.Learnings.{IsAsserting};
ghost use Rattle.cdcl_search.specs.Trails.{IsTrail, FalseBelow};
ghost use Rattle.cdcl_search.specs.Marks.{ones, IsMarked, IsOneMore, Grown, AreClear, IsSwept, AreKept};
ghost use Rattle.cdcl_search.specs.States.{IsState, IsFalse};
ghost use Rattle.cdcl_search.specs.Explanations.{IsExplained, IsBase, AreMarksBelow};

use crate::arena::Arena;
use crate::trail::{Trail, flipped};
use clause_store::Step;
use std::alloc::{AllocError, Global};

/// Marks at the places of the literals of the clause that is at hand, and the steps that led to it.
#[derive(Drop)]
pub struct Analysis {
    pub start: u32,
    pub marks: Vec<u8>,
    pub lower: Vec<u32>,
    pub steps: Vec<Step>,
    pub counter: usize,
}

fn clear(marks: &mut Vec<u8>)
    ensures zero { AreClear marks.new.items }
    ensures len { length marks.new.items ≡ length marks.old.items }
{
    for at in 0..marks.len() {
        marks[at] = 0;
    }
}

/// Takes away the marks at the places of false literals.
fn unmark(marks: &mut Vec<u8>, trail: &Trail, literals: &[u32])
    requires trail { IsTrail trail.now.values.items trail.now.places.items trail.now.literals.items trail.now.count }
    requires are_false { (l : ℕ) → Has literals.now l → get_or trail.now.values.items l 0 ≡ 2 }
    requires size { length marks.old.items ≡ length trail.now.literals.items }
    ensures swept { IsSwept trail.now.places.items marks.old.items marks.new.items literals.now (length literals.now) }
    ensures size { length marks.new.items ≡ length marks.old.items }
{
    for literal in literals {
        let place = trail.places[(*literal / 2) as usize];
        marks[place as usize] = 0;
    }
}

/// Takes all marks away, unless there are none anyway.
fn ready(marks: &mut Vec<u8>, is_clear: bool)
    requires { IsTrue is_clear → AreClear marks.old.items }
    ensures zero { AreClear marks.new.items }
    ensures len { length marks.new.items ≡ length marks.old.items }
{
    if is_clear {
        return;
    }
    clear(marks);
}

impl Analysis {
    /// Marks a false literal.
    pub fn mark(&mut self, trail: &Trail, literal: u32, base: usize) -> Result<(), AllocError>
        requires trail { IsTrail trail.now.values.items trail.now.places.items trail.now.literals.items trail.now.count }
        requires is_false { get_or trail.now.values.items literal 0 ≡ 2 }
        requires marked { IsMarked trail.now.values.items trail.now.places.items base (length trail.now.literals.items) self.old.marks.items self.old.lower.items self.old.counter }
        ensures marked { IfOk result (λ _. IsMarked trail.now.values.items trail.now.places.items base (length trail.now.literals.items) self.new.marks.items self.new.lower.items self.new.counter) }
        ensures one { IfOk result (λ _. IsOneMore self.old.marks.items self.new.marks.items (get_or trail.now.places.items (literal / 2) 0)) }
        ensures start { self.new.start ≡ self.old.start }
        ensures steps { self.new.steps ≡ self.old.steps }
        ensures counter { self.old.counter ≤ self.new.counter }
        ensures size { length self.new.marks.items ≡ length self.old.marks.items }
    {
        let place = trail.places[(literal / 2) as usize] as usize;
        if self.marks[place] != 0 {
            return Ok(());
        }
        if place < base {
            self.lower.push(literal)?;
            self.marks[place] = 1;
            return Ok(());
        }
        self.counter += 1;
        self.marks[place] = 1;
        Ok(())
    }

    /// Marks the literals of a clause other than `skip`, which are false.
    pub fn mark_clause(
        &mut self,
        trail: &Trail,
        clause: &[u32],
        skip: u32,
        base: usize,
    ) -> Result<(), AllocError>
        requires trail { IsTrail trail.now.values.items trail.now.places.items trail.now.literals.items trail.now.count }
        requires are_false { (j : ℕ) → j < length clause.now → get_or clause.now j 0 ≢ skip → get_or trail.now.values.items (get_or clause.now j 0) 0 ≡ 2 }
        requires marked { IsMarked trail.now.values.items trail.now.places.items base (length trail.now.literals.items) self.old.marks.items self.old.lower.items self.old.counter }
        ensures marked { IfOk result (λ _. IsMarked trail.now.values.items trail.now.places.items base (length trail.now.literals.items) self.new.marks.items self.new.lower.items self.new.counter) }
        ensures grown { IfOk result (λ _. Grown trail.now.places.items self.old.marks.items self.new.marks.items clause.now skip) }
        ensures start { self.new.start ≡ self.old.start }
        ensures steps { self.new.steps ≡ self.old.steps }
        ensures counter { self.old.counter ≤ self.new.counter }
        ensures size { length self.new.marks.items ≡ length self.old.marks.items }
    {
        for literal in clause {
            if *literal != skip {
                self.mark(trail, *literal, base)?;
            }
        }
        Ok(())
    }

    /// Resolves the literal at a place with its reason.
    pub fn resolve(
        &mut self,
        trail: &Trail,
        arena: &Arena,
        at: usize,
        base: usize,
    ) -> Result<(), AllocError>
        requires state { IsState arena.now trail.now }
        requires explained { IsExplained arena.now trail.now base self.old }
        requires within { at < trail.now.count }
        requires last { base ≤ at }
        requires here { get_or self.old.marks.items at 0 ≢ 0 }
        requires top { AreMarksBelow self.old.marks.items (at + 1) }
        requires reasoned { get_or trail.now.reasons.items (get_or trail.now.literals.items at 0 / 2) 0 ≢ 4294967295 }
        ensures explained { IfOk result (λ _. IsExplained arena.now trail.now base self.new) }
        ensures top { IfOk result (λ _. AreMarksBelow self.new.marks.items at) }
        ensures counter { IfOk result (λ _. self.old.counter ≤ self.new.counter + 1) }
        ensures start { self.new.start ≡ self.old.start }
        ensures size { length self.new.marks.items ≡ length self.old.marks.items }
    {
        let literal = trail.literals[at];
        let reason = trail.reasons[(literal / 2) as usize];
        self.mark_clause(trail, arena.clause(reason as usize), literal, base)?;
        self.steps.push(Step {
            clause: reason,
            pivot: literal / 2,
        })?;
        self.marks[at] = 0;
        self.counter -= 1;
        Ok(())
    }

    /// Begins the explanation of a clause that is false.
    fn begin(
        &mut self,
        trail: &Trail,
        arena: &Arena,
        conflict: u32,
        base: usize,
        is_clear: bool,
    ) -> Result<(), AllocError>
        requires state { IsState arena.now trail.now }
        requires conflict { conflict < length arena.now }
        requires is_false { IsFalse trail.now (get_or arena.now conflict []) }
        requires size { length self.old.marks.items ≡ length trail.now.literals.items }
        requires clear { IsTrue is_clear → AreClear self.old.marks.items }
        ensures explained { IfOk result (λ _. IsExplained arena.now trail.now base self.new) }
        ensures top { IfOk result (λ _. AreMarksBelow self.new.marks.items trail.now.count) }
        ensures all { IfOk result (λ _. (l : ℕ) → Has (get_or arena.now conflict []) l → get_or self.new.marks.items (get_or trail.now.places.items (l / 2) 0) 0 ≢ 0) }
        ensures start { self.new.start ≡ conflict }
        ensures size { length self.new.marks.items ≡ length self.old.marks.items }
    {
        ready(&mut self.marks, is_clear);
        self.lower.clear();
        self.steps.clear();
        self.counter = 0;
        self.start = conflict;
        self.mark_clause(trail, arena.clause(conflict as usize), u32::MAX, base)?;
        Ok(())
    }

    /// Explains a clause that is false, back to the first unique implication point of the last level, or, with
    /// no level, to the empty clause. Where the marks are clear its time grows with the literals that it meets.
    pub fn explain(
        &mut self,
        trail: &Trail,
        arena: &Arena,
        conflict: u32,
        base: usize,
        floor: usize,
        is_clear: bool,
    ) -> Result<usize, AllocError>
        requires state { IsState arena.now trail.now }
        requires conflict { conflict < length arena.now }
        requires is_false { IsFalse trail.now (get_or arena.now conflict []) }
        requires base { IsBase trail.now base floor }
        requires size { length self.old.marks.items ≡ length trail.now.literals.items }
        requires clear { IsTrue is_clear → AreClear self.old.marks.items }
        ensures explained { IfOk result (λ _. IsExplained arena.now trail.now base self.new) }
        ensures top { IfOk result (λ top. AreMarksBelow self.new.marks.items top) }
        ensures within { IfOk result (λ top. top ≤ trail.now.count) }
        ensures counter { IfOk result (λ _. self.new.counter ≡ floor) }
        ensures start { IfOk result (λ _. self.new.start ≡ conflict) }
        ensures size { length self.new.marks.items ≡ length self.old.marks.items }
    {
        self.begin(trail, arena, conflict, base, is_clear)?;
        let mut top = trail.count;
        while self.counter > floor {
            top -= 1;
            if self.marks[top] != 0 {
                self.resolve(trail, arena, top, base)?;
            }
        }
        Ok(top)
    }

    /// Whether there is a mark at the place of a false literal.
    fn has_mark(&self, trail: &Trail, literal: u32) -> bool
        requires trail { IsTrail trail.now.values.items trail.now.places.items trail.now.literals.items trail.now.count }
        requires is_false { get_or trail.now.values.items literal 0 ≡ 2 }
        requires size { length self.now.marks.items ≡ length trail.now.literals.items }
        ensures { IsTrue result ↔ (get_or self.now.marks.items (get_or trail.now.places.items (literal / 2) 0) 0 ≢ 0) }
    {
        let place = trail.places[(literal / 2) as usize];
        self.marks[place as usize] != 0
    }

    /// Whether each literal of a clause but the one that it forced has a mark.
    fn are_marked(&self, trail: &Trail, clause: &[u32], forced: u32) -> bool
        requires trail { IsTrail trail.now.values.items trail.now.places.items trail.now.literals.items trail.now.count }
        requires are_false { (j : ℕ) → j < length clause.now → get_or clause.now j 0 ≢ forced → get_or trail.now.values.items (get_or clause.now j 0) 0 ≡ 2 }
        requires size { length self.now.marks.items ≡ length trail.now.literals.items }
        ensures { IsTrue result → (l : ℕ) → Has clause.now l → l ≢ forced → get_or self.now.marks.items (get_or trail.now.places.items (l / 2) 0) 0 ≢ 0 }
    {
        for literal in clause {
            if *literal != forced && !self.has_mark(trail, *literal) {
                return false;
            }
        }
        true
    }

    /// Leaves out the literal at a place of the levels before, if it has a reason, whose other literals are marked.
    fn leave_out(
        &mut self,
        trail: &Trail,
        arena: &Arena,
        at: usize,
        base: usize,
    ) -> Result<(), AllocError>
        requires state { IsState arena.now trail.now }
        requires explained { IsExplained arena.now trail.now base self.old }
        requires within { at < trail.now.count }
        requires before { at < base }
        ensures explained { IfOk result (λ _. IsExplained arena.now trail.now base self.new) }
        ensures marks { IfOk result (λ _. (p : ℕ) → get_or self.old.marks.items p 0 ≡ 0 → get_or self.new.marks.items p 0 ≡ 0) }
        ensures counter { IfOk result (λ _. self.new.counter ≡ self.old.counter) }
        ensures start { self.new.start ≡ self.old.start }
        ensures lower { self.new.lower ≡ self.old.lower }
        ensures size { length self.new.marks.items ≡ length self.old.marks.items }
    {
        let forced = trail.literals[at];
        let reason = trail.reasons[(forced / 2) as usize];
        if self.marks[at] == 0 || reason == u32::MAX {
            return Ok(());
        }
        if !self.are_marked(trail, arena.clause(reason as usize), forced) {
            return Ok(());
        }
        self.steps.push(Step {
            clause: reason,
            pivot: forced / 2,
        })?;
        self.marks[at] = 0;
        Ok(())
    }

    /// Leaves out literals of the levels before that the others imply: each is resolved with its reason.
    pub fn shorten(&mut self, trail: &Trail, arena: &Arena, base: usize) -> Result<(), AllocError>
        requires state { IsState arena.now trail.now }
        requires explained { IsExplained arena.now trail.now base self.old }
        ensures explained { IfOk result (λ _. IsExplained arena.now trail.now base self.new) }
        ensures marks { IfOk result (λ _. (p : ℕ) → get_or self.old.marks.items p 0 ≡ 0 → get_or self.new.marks.items p 0 ≡ 0) }
        ensures counter { IfOk result (λ _. self.new.counter ≡ self.old.counter) }
        ensures start { self.new.start ≡ self.old.start }
        ensures size { length self.new.marks.items ≡ length self.old.marks.items }
    {
        for index in 0..self.lower.len() {
            let at = trail.places[(self.lower[index] / 2) as usize] as usize;
            self.leave_out(trail, arena, at, base)?;
        }
        Ok(())
    }

    /// The literals of the levels before that still have a mark.
    pub fn kept(&self, alloc: Global, trail: &Trail) -> Result<Vec<u32>, AllocError>
        requires trail { IsTrail trail.now.values.items trail.now.places.items trail.now.literals.items trail.now.count }
        requires are_false { (l : ℕ) → Has self.now.lower.items l → get_or trail.now.values.items l 0 ≡ 2 }
        requires size { length self.now.marks.items ≡ length trail.now.literals.items }
        ensures { IfOk result (λ kept. AreKept trail.now.places.items self.now.marks.items self.now.lower.items kept.items) }
    {
        let mut kept = Vec::new(alloc);
        for literal in self.lower.as_slice() {
            if self.has_mark(trail, *literal) {
                kept.push(*literal)?;
            }
        }
        Ok(kept)
    }

    /// The place of the one mark that the last level keeps.
    fn last_mark(&self, top: usize, base: usize) -> usize
        requires top { AreMarksBelow self.now.marks.items top }
        requires within { top ≤ length self.now.marks.items }
        requires some { 0 < ones base self.now.marks.items }
        ensures mark { get_or self.now.marks.items result 0 ≢ 0 }
        ensures after { base ≤ result }
        ensures below { result < top }
    {
        let mut at = top - 1;
        while self.marks[at] == 0 {
            at -= 1;
        }
        at
    }

    /// Takes the marks away: the one of the last level, at the place `last`, and those of the levels before.
    pub fn sweep(&mut self, trail: &Trail, base: usize, last: usize)
        requires trail { IsTrail trail.now.values.items trail.now.places.items trail.now.literals.items trail.now.count }
        requires marked { IsMarked trail.now.values.items trail.now.places.items base (length trail.now.literals.items) self.old.marks.items self.old.lower.items 1 }
        requires within { last < trail.now.count }
        requires after { base ≤ last }
        requires mark { get_or self.old.marks.items last 0 ≢ 0 }
        ensures clear { AreClear self.new.marks.items }
        ensures lower { self.new.lower ≡ self.old.lower }
        ensures size { length self.new.marks.items ≡ length self.old.marks.items }
    {
        self.marks[last] = 0;
        unmark(&mut self.marks, trail, &self.lower);
    }

    /// The clause of these literals of the levels before and the one of the last level, whose place comes with it.
    pub fn clause(
        &self,
        alloc: Global,
        trail: &Trail,
        lower: &[u32],
        top: usize,
        base: usize,
    ) -> Result<(usize, Vec<u32>), AllocError>
        requires state { IsTrail trail.now.values.items trail.now.places.items trail.now.literals.items trail.now.count }
        requires few { 2 * length trail.now.literals.items < 2 ^ 32 }
        requires marked { IsMarked trail.now.values.items trail.now.places.items base (length trail.now.literals.items) self.now.marks.items self.now.lower.items 1 }
        requires below { (l : ℕ) → Has lower.now l → FalseBelow trail.now.values.items trail.now.places.items l base }
        requires top { AreMarksBelow self.now.marks.items top }
        requires within { top ≤ trail.now.count }
        ensures asserting { IfOk result (λ r. IsAsserting trail.now base r.0 lower.now) }
        ensures mark { IfOk result (λ r. get_or self.now.marks.items r.0 0 ≢ 0) }
        ensures clause { IfOk result (λ r. r.1.items ≡ lower.now ++ flip (get_or trail.now.literals.items r.0 0) ∷ []) }
    {
        let place = self.last_mark(top, base);
        let mut clause = Vec::new(alloc);
        clause.extend_from_slice(lower)?;
        clause.push(flipped(trail.literals[place]))?;
        Ok((place, clause))
    }
}
