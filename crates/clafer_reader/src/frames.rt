//! The open constructs as a stack.

ghost use Rattle.std.specs.Prelude.{◌≡◌, [], ◌∷◌, MatchOption, OnOk, OnErr, IfOk, Some};
ghost use Rattle.clafer_grammar.specs.Machine as machine;
ghost use Rattle.clafer_grammar.specs.declared.machine.Mode.TheVariants as m;

use clafer_grammar::machine::{Frame, Mode};
use clafer_grammar::operators::{infix_level, operand_level, right_of};
use clf_base::NoMemory;
use std::alloc::Global;
use std::marker::Model;

/// The open constructs. Contracts see them as a list, the innermost first.
#[derive(Drop)]
pub struct Frames {
    frames: Vec<Frame>,
}

/// The open constructs, and what was read last.
pub type State = (Frames, Mode);

impl Model for Frames {
    ghost use Rattle.std.specs.Prelude.{List, reverse};
    ghost use Rattle.std.specs.Coded.{coded_list};
    ghost use Rattle.clafer_grammar.specs.contracts.machine.Frame as frame;
    ghost use Rattle.clafer_grammar.specs.declared.machine.Frame.{Frame};

    ghost Value = { List Frame };

    ghost coded = { coded_list frame.the_row.coded };

    ghost view = { λ s. reverse s.frames.items };
}

impl Frames {
    /// No open construct.
    pub(crate) fn new(alloc: Global) -> Frames
        ensures { result ≡ [] }
    {
        Frames {
            frames: Vec::new(alloc),
        }
    }

    /// Opens a construct inside the others. Where memory is wanting they are as before.
    pub(crate) fn push(&mut self, frame: Frame) -> Result<(), NoMemory>
        ensures ok { OnOk result (self.new ≡ frame ∷ self.old) }
        ensures err { OnErr result (self.new ≡ self.old) }
    {
        self.frames.push(frame)?;
        Ok(())
    }

    /// Takes the innermost construct; None exactly where none is open.
    pub(crate) fn pop(&mut self) -> Option<Frame>
        ensures { MatchOption result ((self.old ≡ []) × (self.new ≡ [])) (λ frame. self.old ≡ frame ∷ self.new) }
    {
        self.frames.pop()
    }

    /// The least level of the operand that comes next.
    pub(crate) fn least(&self) -> u8
        ensures { result ≡ machine.least self.now }
    {
        match self.frames.last() {
            Some(Frame::Binary(_, op, _)) => right_of(infix_level(*op)),
            Some(Frame::Unary(_, op)) => operand_level(*op),
            Some(Frame::Range(_, _, _, _)) => 11,
            _ => 0,
        }
    }
}

/// The state behind a token that opens a construct, before its first operand.
pub(crate) fn opened(mut frames: Frames, frame: Frame) -> Result<Option<State>, NoMemory>
    ensures { IfOk result (λ next. next ≡ Some (frame ∷ frames, m.Operand)) }
{
    frames.push(frame)?;
    Ok(Some((frames, Mode::Operand)))
}
