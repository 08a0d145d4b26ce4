//! What holds of the grammar and of the states of its reader.

ghost use Rattle.std.specs.Prelude.{◌≡◌, ◌++◌, [], Some, List as Seq};
ghost use Rattle.clf_tree.specs.declared.module.Item.{Item};
ghost use Rattle.clafer_grammar.specs.Machine.{State, run, start};
ghost use Rattle.clafer_grammar.specs.Modules.{SpellsModule, BeginsModule};
ghost use Rattle.clafer_grammar.specs.Symbols.{Symbol};
ghost use Rattle.clafer_grammar.specs.declared.machine.Frame.{Frame};
ghost use Rattle.clafer_grammar.specs.declared.machine.Mode.TheVariants as m;

/// A law: a list of tokens spells at most one module.
pub fn spells_one_module()
    ensures { (tokens : Seq Symbol) (some others : Seq Item) → SpellsModule tokens some → SpellsModule tokens others → some ≡ others }
{}

/// A law: what begins a module begins it at each shorter length too, so that there is a first token with
/// which no module goes on.
pub fn beginnings_begin_early()
    ensures { (front rest : Seq Symbol) → BeginsModule (front ++ rest) → BeginsModule front }
{}

/// A law: the reader has a state behind some tokens exactly where they begin a module, and it is done with
/// some items exactly where the tokens spell the module of these items.
pub fn states_are_exact()
    ensures begun { (tokens : Seq Symbol) (state : State) → run start tokens ≡ Some state → BeginsModule tokens }
    ensures reached { (tokens : Seq Symbol) → BeginsModule tokens → (state : State) × (run start tokens ≡ Some state) }
    ensures spelled { (tokens : Seq Symbol) (frames : Seq Frame) (items : Seq Item) → run start tokens ≡ Some (frames, m.Done items) → SpellsModule tokens items }
    ensures done { (tokens : Seq Symbol) (items : Seq Item) → SpellsModule tokens items → run start tokens ≡ Some ([], m.Done items) }
{}
