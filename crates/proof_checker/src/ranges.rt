ghost use Rattle.std.specs.Prelude.{◌↔◌, ◌<◌, All, IsTrue};
ghost use Rattle.clause_store.specs.Literals.{HasVariablesBelow};
ghost use Rattle.proof_checker.specs.Checking.{IsChainWithin, IsWithin};

use clause_store::{Chain, Clauses, Literal, Step};

fn has_variables_below(variables: u32, literals: &[Literal]) -> bool
    ensures { IsTrue result ↔ HasVariablesBelow variables literals.now }
{
    literals
        .iter()
        .all(|literal| literal.variable() < variables)
}

fn has_pivots_below(variables: u32, steps: &[Step]) -> bool
    ensures { IsTrue result ↔ All (λ step. step.pivot < variables) steps.now }
{
    steps.iter().all(|step| step.pivot < variables)
}

fn is_chain_within(variables: u32, chain: &Chain) -> bool
    ensures { IsTrue result ↔ IsChainWithin variables chain.now }
{
    has_pivots_below(variables, chain.steps.as_slice())
        && has_variables_below(variables, chain.result.literals())
}

fn are_clauses_within(variables: u32, clauses: &Clauses) -> bool
    ensures { IsTrue result ↔ All (HasVariablesBelow variables) clauses.now.clauses }
{
    clauses.variables() <= variables
}

fn are_chains_within(variables: u32, chains: &[Chain]) -> bool
    ensures { IsTrue result ↔ All (IsChainWithin variables) chains.now }
{
    for chain in chains {
        if !is_chain_within(variables, chain) {
            return false;
        }
    }
    true
}

/// Whether each variable of clauses and chains is below a number.
pub fn is_within(variables: u32, clauses: &Clauses, chains: &[Chain]) -> bool
    ensures { IsTrue result ↔ IsWithin variables (clauses.now.clauses) chains.now }
{
    are_clauses_within(variables, clauses) && are_chains_within(variables, chains)
}
