//! Wires, and the gates that drive them.
ghost use Rattle.std.specs.Prelude.{◌≡◌, ◌<◌, length};
ghost use Rattle.bool_circuit.specs.Circuit.{entry, gate_value, IsGateBelow};

/// A wire, by the place of its gate in the circuit.
#[derive(Clone, Copy, PartialEq, Eq, Hash, Debug)]
pub struct Wire {
    /// From 0 on.
    pub number: u32,
}

/// What drives a wire: an input of the circuit, by its number from 0 on, a constant, or an operation on older wires.
#[derive(Clone, Copy, PartialEq, Eq, Hash, Debug)]
pub enum Gate {
    Input(u32),
    Constant(bool),
    Not(Wire),
    And(Wire, Wire),
    Or(Wire, Wire),
    Xor(Wire, Wire),
    /// `Choose(pick, yes, no)` has the value of `yes` where `pick` is true, and that of `no` elsewhere.
    Choose(Wire, Wire, Wire),
}

impl Gate {
    // Its value, from the bits of the inputs and the values of the older wires.
    pub(crate) fn value_at(&self, bits: &[bool], known: &[bool]) -> bool
        requires { IsGateBelow (length bits.now) (length known.now) self.now }
        ensures { result ≡ gate_value bits.now (entry known.now) self.now }
    {
        match *self {
            Gate::Input(k) => bits[k as usize],
            Gate::Constant(value) => value,
            Gate::Not(a) => !known[a.number as usize],
            Gate::And(a, b) => known[a.number as usize] && known[b.number as usize],
            Gate::Or(a, b) => known[a.number as usize] || known[b.number as usize],
            Gate::Xor(a, b) => known[a.number as usize] != known[b.number as usize],
            Gate::Choose(pick, yes, no) => {
                if known[pick.number as usize] {
                    known[yes.number as usize]
                } else {
                    known[no.number as usize]
                }
            }
        }
    }
}
