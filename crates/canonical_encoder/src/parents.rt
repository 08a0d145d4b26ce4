//! Whether the parent of one slot stands no later than that of another.

ghost use Rattle.std.specs.Prelude.{◌≡◌, ◌+◌, ◌*◌, ◌≤◌, Bool, not, ◌||◌, ◌&&◌, length, IfOk, IfSome, All, List as Items};
ghost use Rattle.bool_circuit.specs.Circuit.{wire_value, IsWireOf, Extends};
ghost use Rattle.bool_circuit.specs.declared.circuit.TheConstants.{MOST_WIRES};
ghost use Rattle.set_bits.specs.Sets.{is_here};
ghost use Rattle.shape_encoder.specs.Reading.{IsBit};
ghost use Rattle.canonical_encoder.specs.Slots.{begins_no_later};
ghost use Rattle.canonical_encoder.specs.Comparing.{AreCompared, IsNext, IsComparedSoFar};

use bool_circuit::{Circuit, MOST_WIRES, Wire};
use clf_base::{List, NoMemory};
use set_bits::Edge;

/// How far the edges of two slots are compared: whether one of the edges so far is taken, for either slot, and whether all is right.
#[derive(Clone, Copy)]
pub(crate) struct Compared {
    pub(crate) earlier: Option<Wire>,
    pub(crate) later: Option<Wire>,
    pub(crate) right: Wire,
}

/// True where `all` is, and `needed` too or `condition` not.
pub(crate) fn and_implied(
    circuit: &mut Circuit,
    all: Wire,
    condition: Wire,
    needed: Wire,
) -> Result<Wire, NoMemory>
    requires all_in { IsWireOf circuit.old all }
    requires condition_in { IsWireOf circuit.old condition }
    requires needed_in { IsWireOf circuit.old needed }
    requires room { length circuit.old + 3 ≤ MOST_WIRES }
    ensures wire { IfOk result (IsWireOf circuit.new) }
    ensures value { IfOk result (λ w. (bits : Items Bool) → wire_value circuit.new w bits
        ≡ (wire_value circuit.old all bits && (not (wire_value circuit.old condition bits) || wire_value circuit.old needed bits))) }
    ensures extends { Extends circuit.old circuit.new 3 }
{
    let free = circuit.not(condition)?;
    let kept = circuit.or(free, needed)?;
    let right = circuit.and(all, kept)?;
    Ok(right)
}

// True where either is.
fn either(circuit: &mut Circuit, before: Option<Wire>, here: Wire) -> Result<Wire, NoMemory>
    requires before_in { IfSome before (IsWireOf circuit.old) }
    requires here_in { IsWireOf circuit.old here }
    requires room { length circuit.old + 1 ≤ MOST_WIRES }
    ensures wire { IfOk result (IsWireOf circuit.new) }
    ensures value { IfOk result (λ w. (bits : Items Bool) → wire_value circuit.new w bits
        ≡ (is_here circuit.old before bits || wire_value circuit.old here bits)) }
    ensures extends { Extends circuit.old circuit.new 1 }
{
    match before {
        None => Ok(here),
        Some(other) => circuit.or(other, here),
    }
}

// Looks at one edge more of either slot.
fn compare_next(
    circuit: &mut Circuit,
    before: Compared,
    earlier: Edge,
    later: Edge,
) -> Result<Compared, NoMemory>
    requires wires { AreCompared circuit.old before }
    requires earlier_in { IsWireOf circuit.old earlier.here }
    requires later_in { IsWireOf circuit.old later.here }
    requires room { length circuit.old + 5 ≤ MOST_WIRES }
    ensures next { IfOk result (IsNext circuit.old before earlier later circuit.new) }
    ensures extends { Extends circuit.old circuit.new 5 }
{
    let begun = either(circuit, before.earlier, earlier.here)?;
    let behind = either(circuit, before.later, later.here)?;
    let right = and_implied(circuit, before.right, behind, begun)?;
    Ok(Compared {
        earlier: Some(begun),
        later: Some(behind),
        right,
    })
}

/// True where `all` is and the first taken edge of the earlier slot stands no later than that of the later one. There are five wires an
/// edge of the earlier slot at most.
pub(crate) fn and_no_later(
    circuit: &mut Circuit,
    earlier: &List<Edge>,
    later: &List<Edge>,
    all: Wire,
) -> Result<Wire, NoMemory>
    requires earlier_bits { All (λ e. IsBit circuit.old e.here) earlier.now }
    requires later_bits { All (λ e. IsBit circuit.old e.here) later.now }
    requires all_in { IsWireOf circuit.old all }
    requires room { length circuit.old + 5 * length earlier.now ≤ MOST_WIRES }
    ensures wire { IfOk result (IsWireOf circuit.new) }
    ensures value { IfOk result (λ w. (bits : Items Bool) → wire_value circuit.new w bits
        ≡ (wire_value circuit.old all bits && begins_no_later earlier.now later.now bits)) }
    ensures extends { Extends circuit.old circuit.new (5 * length earlier.now) }
{
    let mut compared = Compared {
        earlier: None,
        later: None,
        right: all,
    };
    for at in 0..earlier.len().min(later.len()) {
        let first = *earlier.get(at);
        let second = *later.get(at);
        compared = compare_next(circuit, compared, first, second)?;
    }
    Ok(compared.right)
}
