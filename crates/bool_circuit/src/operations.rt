//! The operations, which fold.
//!
//! Where a constant, two equal operands, an operand and its negation, the negation of a negation, or an operand that stands in the other
//! decide the value, the answer is an older wire or a constant. The operands of `and`, `or` and `xor` are put in order, so that a gate is found whichever operand comes first.
//! Each call looks at the gates of its operands and at most once into the index of gates, so it takes amortised constant time.
ghost use Rattle.std.specs.Prelude.{◌≡◌, ◌+◌, ◌≤◌, List, Bool, true, not, ◌&&◌, ◌||◌, ◌↔◌, ◌⊎◌, length, if◌then◌else◌, slice_get, IsTrue, IfOk, IfSome};
ghost use Rattle.bool_circuit.specs.Circuit.{wire_value, bool_xor, Extends, IsWireOf, constant_of, negated_by, IsNegation, IsBelow};

use crate::circuit::{Circuit, MOST_WIRES};
use crate::gate::{Gate, Wire};
use clf_base::NoMemory;

impl Circuit {
    /// A wire with one value at all bits.
    pub fn constant(&mut self, value: bool) -> Result<Wire, NoMemory>
        requires room { length self.old + 1 ≤ MOST_WIRES }
        ensures wire { IfOk result (IsWireOf self.new) }
        ensures value { IfOk result (λ w. (bits : List Bool) → wire_value self.new w bits ≡ value) }
        ensures extends { Extends self.old self.new 1 }
    {
        self.add(Gate::Constant(value))
    }

    /// A wire that is true where `a` is false.
    pub fn not(&mut self, a: Wire) -> Result<Wire, NoMemory>
        requires a_in { IsWireOf self.old a }
        requires room { length self.old + 1 ≤ MOST_WIRES }
        ensures wire { IfOk result (IsWireOf self.new) }
        ensures value { IfOk result (λ w. (bits : List Bool) → wire_value self.new w bits ≡ not (wire_value self.old a bits)) }
        ensures extends { Extends self.old self.new 1 }
    {
        if let Some(value) = self.fixed_value(a) {
            return self.constant(!value);
        }
        if let Some(b) = self.negated(a) {
            return Ok(b);
        }
        self.add(Gate::Not(a))
    }

    /// A wire that is true where both are.
    pub fn and(&mut self, a: Wire, b: Wire) -> Result<Wire, NoMemory>
        requires a_in { IsWireOf self.old a }
        requires b_in { IsWireOf self.old b }
        requires room { length self.old + 1 ≤ MOST_WIRES }
        ensures wire { IfOk result (IsWireOf self.new) }
        ensures value { IfOk result (λ w. (bits : List Bool) → wire_value self.new w bits ≡ (wire_value self.old a bits && wire_value self.old b bits)) }
        ensures extends { Extends self.old self.new 1 }
    {
        match self.fixed_value(a) {
            Some(true) => return Ok(b),
            Some(false) => return Ok(a),
            None => {}
        }
        match self.fixed_value(b) {
            Some(true) => return Ok(a),
            Some(false) => return Ok(b),
            None => {}
        }
        if a.number == b.number {
            return Ok(a);
        }
        if self.are_opposite(a, b) {
            return self.constant(false);
        }
        if self.is_below(a, b) {
            return Ok(a);
        }
        if self.is_below(b, a) {
            return Ok(b);
        }
        if b.number < a.number {
            return self.add(Gate::And(b, a));
        }
        self.add(Gate::And(a, b))
    }

    /// A wire that is true where one of them is.
    pub fn or(&mut self, a: Wire, b: Wire) -> Result<Wire, NoMemory>
        requires a_in { IsWireOf self.old a }
        requires b_in { IsWireOf self.old b }
        requires room { length self.old + 1 ≤ MOST_WIRES }
        ensures wire { IfOk result (IsWireOf self.new) }
        ensures value { IfOk result (λ w. (bits : List Bool) → wire_value self.new w bits ≡ (wire_value self.old a bits || wire_value self.old b bits)) }
        ensures extends { Extends self.old self.new 1 }
    {
        match self.fixed_value(a) {
            Some(true) => return Ok(a),
            Some(false) => return Ok(b),
            None => {}
        }
        match self.fixed_value(b) {
            Some(true) => return Ok(b),
            Some(false) => return Ok(a),
            None => {}
        }
        if a.number == b.number {
            return Ok(a);
        }
        if self.are_opposite(a, b) {
            return self.constant(true);
        }
        if self.is_below(a, b) {
            return Ok(b);
        }
        if self.is_below(b, a) {
            return Ok(a);
        }
        if b.number < a.number {
            return self.add(Gate::Or(b, a));
        }
        self.add(Gate::Or(a, b))
    }

    /// A wire that is true where the two differ.
    pub fn xor(&mut self, a: Wire, b: Wire) -> Result<Wire, NoMemory>
        requires a_in { IsWireOf self.old a }
        requires b_in { IsWireOf self.old b }
        requires room { length self.old + 1 ≤ MOST_WIRES }
        ensures wire { IfOk result (IsWireOf self.new) }
        ensures value { IfOk result (λ w. (bits : List Bool) → wire_value self.new w bits ≡ bool_xor (wire_value self.old a bits) (wire_value self.old b bits)) }
        ensures extends { Extends self.old self.new 1 }
    {
        match self.fixed_value(a) {
            Some(true) => return self.not(b),
            Some(false) => return Ok(b),
            None => {}
        }
        match self.fixed_value(b) {
            Some(true) => return self.not(a),
            Some(false) => return Ok(a),
            None => {}
        }
        if a.number == b.number {
            return self.constant(false); // no wire differs from itself
        }
        if self.are_opposite(a, b) {
            return self.constant(true);
        }
        if b.number < a.number {
            return self.add(Gate::Xor(b, a));
        }
        self.add(Gate::Xor(a, b))
    }

    /// A wire with the value of `yes` where `pick` is true, and that of `no` elsewhere.
    pub fn choose(&mut self, pick: Wire, yes: Wire, no: Wire) -> Result<Wire, NoMemory>
        requires pick_in { IsWireOf self.old pick }
        requires yes_in { IsWireOf self.old yes }
        requires no_in { IsWireOf self.old no }
        requires room { length self.old + 3 ≤ MOST_WIRES }
        ensures wire { IfOk result (IsWireOf self.new) }
        ensures value { IfOk result (λ w. (bits : List Bool) → wire_value self.new w bits ≡ (if wire_value self.old pick bits then wire_value self.old yes bits else wire_value self.old no bits)) }
        ensures extends { Extends self.old self.new 3 }
    {
        match self.fixed_value(pick) {
            Some(true) => return Ok(yes),
            Some(false) => return Ok(no),
            None => {}
        }
        if yes.number == no.number {
            return Ok(yes);
        }
        match self.fixed_value(yes) {
            Some(true) => return self.or(pick, no),
            Some(false) => return self.but_not(no, pick),
            None => {}
        }
        match self.fixed_value(no) {
            Some(true) => return self.implies(pick, yes),
            Some(false) => return self.and(pick, yes),
            None => {}
        }
        self.choose_between(pick, yes, no)
    }

    // A wire that is true where `a` is and `b` isn't.
    fn but_not(&mut self, a: Wire, b: Wire) -> Result<Wire, NoMemory>
        requires a_in { IsWireOf self.old a }
        requires b_in { IsWireOf self.old b }
        requires room { length self.old + 2 ≤ MOST_WIRES }
        ensures wire { IfOk result (IsWireOf self.new) }
        ensures value { IfOk result (λ w. (bits : List Bool) → wire_value self.new w bits ≡ (wire_value self.old a bits && not (wire_value self.old b bits))) }
        ensures extends { Extends self.old self.new 2 }
    {
        let not_b = self.not(b)?;
        self.and(a, not_b)
    }

    // A wire that is false where `a` is true and `b` isn't.
    fn implies(&mut self, a: Wire, b: Wire) -> Result<Wire, NoMemory>
        requires a_in { IsWireOf self.old a }
        requires b_in { IsWireOf self.old b }
        requires room { length self.old + 2 ≤ MOST_WIRES }
        ensures wire { IfOk result (IsWireOf self.new) }
        ensures value { IfOk result (λ w. (bits : List Bool) → wire_value self.new w bits ≡ (not (wire_value self.old a bits) || wire_value self.old b bits)) }
        ensures extends { Extends self.old self.new 2 }
    {
        let not_a = self.not(a)?;
        self.or(not_a, b)
    }

    // As `choose`, where no operand is a constant.
    fn choose_between(&mut self, pick: Wire, yes: Wire, no: Wire) -> Result<Wire, NoMemory>
        requires pick_in { IsWireOf self.old pick }
        requires yes_in { IsWireOf self.old yes }
        requires no_in { IsWireOf self.old no }
        requires room { length self.old + 1 ≤ MOST_WIRES }
        ensures wire { IfOk result (IsWireOf self.new) }
        ensures value { IfOk result (λ w. (bits : List Bool) → wire_value self.new w bits ≡ (if wire_value self.old pick bits then wire_value self.old yes bits else wire_value self.old no bits)) }
        ensures extends { Extends self.old self.new 1 }
    {
        if self.are_opposite(yes, no) {
            return self.xor(pick, no);
        }
        if pick.number == yes.number {
            return self.or(pick, no);
        }
        if pick.number == no.number {
            return self.and(pick, yes);
        }
        if self.are_opposite(pick, yes) {
            return self.and(yes, no);
        }
        if self.are_opposite(pick, no) {
            return self.or(yes, no);
        }
        if let Some(opposite) = self.negated(pick) {
            return self.add(Gate::Choose(opposite, no, yes));
        }
        self.add(Gate::Choose(pick, yes, no))
    }

    // The value of a wire that a constant drives.
    fn fixed_value(&self, wire: Wire) -> Option<bool>
        requires { IsWireOf self.now wire }
        ensures exact { result ≡ constant_of (slice_get self.now wire.number) }
        ensures value { IfSome result (λ v. (bits : List Bool) → wire_value self.now wire bits ≡ v) }
    {
        match self.driver(wire) {
            Gate::Constant(value) => Some(value),
            _ => None,
        }
    }

    // The wire that this one negates.
    fn negated(&self, wire: Wire) -> Option<Wire>
        requires { IsWireOf self.now wire }
        ensures exact { result ≡ negated_by (slice_get self.now wire.number) }
        ensures wire { IfSome result (IsWireOf self.now) }
        ensures value { IfSome result (λ a. (bits : List Bool) → wire_value self.now a bits ≡ not (wire_value self.now wire bits)) }
    {
        match self.driver(wire) {
            Gate::Not(a) => Some(a),
            _ => None,
        }
    }

    // Whether one of them negates the other.
    fn are_opposite(&self, a: Wire, b: Wire) -> bool
        requires a_in { IsWireOf self.now a }
        requires b_in { IsWireOf self.now b }
        ensures exact { IsTrue result ↔ (IsNegation self.now a b ⊎ IsNegation self.now b a) }
        ensures value { IsTrue result → (bits : List Bool) → wire_value self.now a bits ≡ not (wire_value self.now b bits) }
    {
        if self.is_negation(a, b) {
            return true;
        }
        self.is_negation(b, a)
    }

    // Whether the wire `a` negates the wire `b`.
    fn is_negation(&self, a: Wire, b: Wire) -> bool
        requires { IsWireOf self.now a }
        ensures exact { IsTrue result ↔ IsNegation self.now a b }
        ensures value { IsTrue result → (bits : List Bool) → wire_value self.now a bits ≡ not (wire_value self.now b bits) }
    {
        match self.driver(a) {
            Gate::Not(c) => c == b,
            _ => false,
        }
    }

    // Whether the gates show that `a` is true only where `b` is: it is an `and` with `b` in it, or `b` an `or` with `a` in it.
    fn is_below(&self, a: Wire, b: Wire) -> bool
        requires a_in { IsWireOf self.now a }
        requires b_in { IsWireOf self.now b }
        ensures { IsTrue result → IsBelow self.now a b }
    {
        if self.is_and_of(a, b) {
            return true;
        }
        self.is_or_of(b, a)
    }

    // Whether `a` is an `and` with `b` in it.
    fn is_and_of(&self, a: Wire, b: Wire) -> bool
        requires { IsWireOf self.now a }
        ensures { IsTrue result → IsBelow self.now a b }
    {
        match self.driver(a) {
            Gate::And(x, _) if x.number == b.number => true,
            Gate::And(_, y) if y.number == b.number => true,
            _ => false,
        }
    }

    // Whether `a` is an `or` with `b` in it.
    fn is_or_of(&self, a: Wire, b: Wire) -> bool
        requires { IsWireOf self.now a }
        ensures { IsTrue result → IsBelow self.now b a }
    {
        match self.driver(a) {
            Gate::Or(x, _) if x.number == b.number => true,
            Gate::Or(_, y) if y.number == b.number => true,
            _ => false,
        }
    }
}
