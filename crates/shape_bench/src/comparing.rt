//! The wire of a shape against the shape of the instance that bits tell, at all bits.

ghost use Rattle.std.specs.Prelude.{◌≡◌, vec_len, length, IfOk, IsTrue};
ghost use Rattle.set_bits.specs.Fitting.{size};
ghost use Rattle.shown_instance.specs.Shaped.{ShowsShaped};
ghost use Rattle.shape_bench.specs.Exact.{IsExact};

use crate::encoding::Encoded;
use crate::telling::told;
use clf_base::NoMemory;
use clf_tree::Instance;
use instance_decoder::{decode, pack};
use instance_shape::{has_shape, is_tree, is_within};
use instance_tables::Tables;
use std::alloc::Global;

/// The most bits of which all lists are tried.
const MOST_BITS: u32 = 16;

/// What is found at a list of bits.
#[derive(Clone, Copy, Debug)]
struct Finding {
    /// The bits show an instance of the right shape.
    is_right: bool,
    /// The wire says otherwise, or the decoded instance is another.
    differs: bool,
}

/// How many lists of bits there are, how many of them show an instance of the right shape, and at how many something differs.
#[derive(Clone, Copy, Debug)]
pub(crate) struct Comparison {
    pub(crate) lists: u32,
    pub(crate) right: u32,
    pub(crate) differences: u32,
}

/// So many bits, which spell a number.
fn bits_of(alloc: Global, number: u32, count: u32) -> Result<Vec<bool>, NoMemory>
    ensures { IfOk result (λ bits. vec_len bits ≡ count) }
{
    let mut bits = Vec::new(alloc);
    let mut rest = number;
    for _ in 0..count {
        bits.push(rest % 2 == 1)?;
        rest /= 2;
    }
    Ok(bits)
}

/// Whether bits show an instance that is a tree of the right shape. Where it says so they do.
fn is_shown(
    alloc: Global,
    encoded: &Encoded<'_>,
    instance: &Instance,
    bits: &[bool],
) -> Result<bool, NoMemory>
    ensures { IfOk result (λ shown. IsTrue shown → ShowsShaped encoded.now.core.clafers encoded.now.read.now.scopes encoded.now.layout bits.now) }
{
    let plan = encoded.read.model.model();
    let scopes = &encoded.read.scopes;
    if !is_within(&plan.clafers, scopes, instance) {
        return Ok(false);
    }
    let tables = Tables::build(alloc, plan, scopes, instance)?;
    if !is_tree(&plan.clafers, &tables) {
        return Ok(false);
    }
    if !has_shape(&plan.clafers, scopes, &tables) {
        return Ok(false);
    }
    let packed = pack(alloc, &encoded.core, scopes, &encoded.layout, instance)?;
    Ok(packed.as_slice() == bits)
}

/// Whether bits that make the wire true are decoded to an instance.
fn is_decoded(
    alloc: Global,
    encoded: &Encoded<'_>,
    instance: &Instance,
    bits: &[bool],
) -> Result<bool, NoMemory>
    requires { ShowsShaped encoded.now.core.clafers encoded.now.read.now.scopes encoded.now.layout bits.now }
{
    let decoded = decode(
        alloc,
        &encoded.core,
        &encoded.read.scopes,
        &encoded.layout,
        bits,
    )?;
    Ok(decoded.entries.as_slice() == instance.entries.as_slice())
}

/// What is found at a list of bits.
fn compare_at(alloc: Global, encoded: &Encoded<'_>, bits: &[bool]) -> Result<Finding, NoMemory>
    requires exact { IsExact encoded.now.core.clafers encoded.now.read.now.scopes encoded.now.layout encoded.now.circuit encoded.now.wire }
    requires all_bits { length bits.now ≡ size encoded.now.layout }
{
    let wire = encoded.circuit.value_of(alloc, encoded.wire, bits)?;
    let instance = told(alloc, &encoded.layout, bits)?;
    let is_right = is_shown(alloc, encoded, &instance, bits)?;
    if !wire {
        return Ok(Finding {
            is_right,
            differs: is_right,
        });
    }
    let decoded = is_decoded(alloc, encoded, &instance, bits)?;
    Ok(Finding {
        is_right,
        differs: !is_right || !decoded,
    })
}

/// Tries all lists of bits, if they are few enough.
pub(crate) fn compare(alloc: Global, encoded: &Encoded<'_>) -> Result<Option<Comparison>, NoMemory>
    requires { IsExact encoded.now.core.clafers encoded.now.read.now.scopes encoded.now.layout encoded.now.circuit encoded.now.wire }
{
    let count = encoded.circuit.inputs();
    if count > MOST_BITS {
        return Ok(None);
    }
    let lists = 1u32 << count;
    let mut right = 0;
    let mut differences = 0;
    for number in 0..lists {
        let bits = bits_of(alloc, number, count)?;
        let found = compare_at(alloc, encoded, bits.as_slice())?;
        right += found.is_right as u32;
        differences += found.differs as u32;
    }
    Ok(Some(Comparison {
        lists,
        right,
        differences,
    }))
}
