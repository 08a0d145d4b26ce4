//! The order in which variables are tried: those that were met in recent conflicts first.
ghost use Rattle.std.specs.Prelude.{ℕ, ◌≡◌, ◌*◌, ◌/◌, ◌<◌, ◌≤◌, ◌^◌, length, get_or, MatchOption};

use crate::analysis::Analysis;
use crate::trail::{OPEN, Trail};
use std::alloc::{AllocError, Global};

/// Where an activity makes all be scaled down.
const LIMIT: u64 = 1 << 60;
/// The place of a variable that is not in the heap.
const ABSENT: u32 = u32::MAX;

/// A binary heap of variables by their activity. Nothing rests on its order: a variable that it misses is found by a scan.
#[derive(Drop)]
pub struct Order {
    heap: Vec<u32>,
    places: Vec<u32>,
    activities: Vec<u64>,
    /// The sign that each variable had last: 1 where it was negated.
    signs: Vec<u8>,
    step: u64,
}

/// The number at an index, or `other` past the end.
fn number(list: &[u32], at: usize, other: u32) -> u32 {
    if at < list.len() { list[at] } else { other }
}

impl Order {
    pub fn new(alloc: Global, n: u32) -> Result<Order, AllocError> {
        let mut order = Order {
            heap: Vec::new(alloc),
            places: Vec::new(alloc),
            activities: Vec::new(alloc),
            signs: Vec::new(alloc),
            step: 1 << 20,
        };
        for variable in 0..n {
            order.heap.push(variable)?;
            order.places.push(variable)?;
            order.activities.push(0)?;
            order.signs.push(0)?;
        }
        Ok(order)
    }

    fn activity(&self, variable: u32) -> u64 {
        if (variable as usize) < self.activities.len() {
            self.activities[variable as usize]
        } else {
            0
        }
    }

    /// Puts a variable at a place of the heap.
    fn put(&mut self, at: usize, variable: u32) {
        if at < self.heap.len() && (variable as usize) < self.places.len() {
            self.heap[at] = variable;
            self.places[variable as usize] = (at % 4294967295) as u32;
        }
    }

    /// Moves a variable up from a place.
    fn rise(&mut self, from: usize, variable: u32) {
        let mut at = from;
        while at > 0 {
            let above = number(&self.heap, (at - 1) / 2, 0);
            if self.activity(above) >= self.activity(variable) {
                break;
            }
            self.put(at, above);
            at = (at - 1) / 2;
        }
        self.put(at, variable);
    }

    /// The one of the two below a place that comes first.
    fn below(&self, at: usize) -> usize
        requires { at ≤ 2 ^ 32 }
        ensures { at < result }
    {
        let left = 2 * at + 1;
        if left + 1 >= self.heap.len() {
            return left;
        }
        if self.activity(self.heap[left]) >= self.activity(self.heap[left + 1]) {
            left
        } else {
            left + 1
        }
    }

    /// Moves a variable down from the top.
    fn sink(&mut self, variable: u32) {
        let mut at = 0;
        while at < self.heap.len() && at < 4294967295 {
            let next = self.below(at);
            let lower = number(&self.heap, next, ABSENT);
            if next >= self.heap.len() || self.activity(variable) >= self.activity(lower) {
                break;
            }
            self.put(at, lower);
            at = next;
        }
        self.put(at, variable);
    }

    /// Takes the top away.
    fn pop(&mut self) {
        let top = number(&self.heap, 0, ABSENT);
        if (top as usize) < self.places.len() {
            self.places[top as usize] = ABSENT;
        }
        match self.heap.pop() {
            Some(last) => {
                if self.heap.len() > 0 {
                    self.sink(last);
                }
            }
            None => (),
        }
    }

    /// Adds a variable that the heap may miss.
    pub fn add(&mut self, variable: u32) -> Result<(), AllocError> {
        if number(&self.places, variable as usize, 0) == ABSENT {
            let place = self.heap.len();
            self.heap.push(variable)?;
            self.rise(place, variable);
        }
        Ok(())
    }

    fn keep_sign(&mut self, literal: u32) {
        let variable = (literal / 2) as usize;
        if variable < self.signs.len() {
            self.signs[variable] = (literal % 2) as u8;
        }
    }

    /// The literal of a variable with the sign that it had last.
    fn signed(&self, variable: u32) -> u32
        requires { variable < 2 ^ 31 }
    {
        if (variable as usize) < self.signs.len() && self.signs[variable as usize] == 1 {
            2 * variable + 1
        } else {
            2 * variable
        }
    }

    /// Adds the variables whose literals stand from a place on, and keeps their signs.
    pub fn restore(&mut self, trail: &Trail, from: usize) -> Result<(), AllocError> {
        for at in from..trail.count {
            let literal = number(&trail.literals, at, 0);
            self.keep_sign(literal);
            self.add(literal / 2)?;
        }
        Ok(())
    }

    fn bump(&mut self, variable: u32) {
        if (variable as usize) < self.activities.len() {
            self.activities[variable as usize] = self.activities[variable as usize].saturating_add(
                self.step,
            );
        }
        let place = number(&self.places, variable as usize, ABSENT);
        if place != ABSENT {
            self.rise(place as usize, variable);
        }
    }

    fn scale(&mut self) {
        for at in 0..self.activities.len() {
            self.activities[at] = self.activities[at] / 1099511627776;
        }
        self.step = self.step / 1099511627776;
    }

    /// Raises the variables that an analysis met.
    pub fn raise(&mut self, analysis: &Analysis) {
        for step in &analysis.steps {
            self.bump(step.pivot);
        }
        for literal in &analysis.lower {
            self.bump(*literal / 2);
        }
        self.step = self.step.saturating_add(self.step / 32);
        if self.step > LIMIT {
            self.scale();
        }
    }

    /// An open literal of the first open variable in the heap.
    pub fn first(&mut self, trail: &Trail) -> Option<u32>
        ensures is_open { MatchOption result (Unit {0}) (λ l. get_or trail.now.values.items l 0 ≡ 0) }
        ensures within { MatchOption result (Unit {0}) (λ l. l < length trail.now.values.items) }
    {
        for _ in 0..self.heap.len() {
            let variable = number(&self.heap, 0, ABSENT);
            if variable < 2147483648 {
                let literal = self.signed(variable);
                if (literal as usize) < trail.values.len()
                    && trail.values[literal as usize] == OPEN
                {
                    return Some(literal);
                }
            }
            self.pop();
        }
        None
    }
}
