//! The stages from a text to what is read of it.

ghost use Rattle.std.specs.Prelude.{◌≡◌, ◌≤◌, ◌<◌, ◌^◌, length, IfOk, IfErr};
ghost use Rattle.model_reader.specs.Texts.{IsPlainText};
ghost use Rattle.model_reader.specs.Models.{IsNamedText, IsTypedText, HasNoModel};
ghost use Rattle.model_reader.specs.Reading.{HasScopes, IsReadOf, IsRefused, WhenRefused};

use crate::LIMIT;
use crate::reader::Read;
use crate::texts::plain_text;
use clf_base::Fault;
use clf_tree::{Given, Named, Scopes, Typed};
use model_resolver::resolve;
use model_weight::weigh;
use scope_table::scopes;
use std::alloc::Global;
use type_checker::check;
use written_modules::{clafers_are_few, modules_are_written, names_are_names};

/// The model of a text, its names looked up.
fn named_text(alloc: Global, text: &[u8]) -> Result<Named, Fault>
    requires { length text.now ≤ LIMIT }
    ensures named { IfOk result (λ model. IsNamedText text.now model) }
    ensures refused { IfErr result (λ fault. WhenRefused fault (HasNoModel text.now)) }
{
    names_are_names();
    modules_are_written();
    clafers_are_few();
    let plain = plain_text(alloc, text)?;
    let named = resolve(alloc, &plain)?;
    Ok(named)
}

/// The model of a text, in which each operand fits its position.
fn typed_text(alloc: Global, text: &[u8]) -> Result<Typed, Fault>
    requires { length text.now ≤ LIMIT }
    ensures typed { IfOk result (λ model. IsTypedText text.now model) }
    ensures few { IfOk result (λ model. length model.clafers < 2 ^ 32) }
    ensures refused { IfErr result (λ fault. WhenRefused fault (HasNoModel text.now)) }
{
    clafers_are_few();
    let named = named_text(alloc, text)?;
    let typed = check(alloc, named)?;
    Ok(typed)
}

/// What is read of a text, where the scopes of some clafers are given.
///
/// The stages go in this order, and the first refusal counts: the text is cut into tokens (11, 20 to 22), laid out (30) and parsed
/// (40 to 42); its module becomes a plain model (50 to 53); names are looked up (60 to 68), and kinds are checked (70 to 75); each
/// clafer gets its scope (80 to 85); the model is weighed (90 to 92).
///
/// # Errors
///
/// `Refused` with the first refusal, exactly where there is one; and `NoMemory`.
pub fn read_model(alloc: Global, text: &[u8], given: &Given) -> Result<Read, Fault>
    requires { length text.now ≤ LIMIT }
    ensures read { IfOk result (λ read. IsReadOf text.now given.now read) }
    ensures refused { IfErr result (λ fault. WhenRefused fault (IsRefused text.now given.now)) }
{
    let model = typed_text(alloc, text)?;
    let scopes = scopes(alloc, &model, given)?;
    let weight = weigh(alloc, &model, &scopes)?;
    Ok(Read {
        model,
        scopes,
        weight,
    })
}
