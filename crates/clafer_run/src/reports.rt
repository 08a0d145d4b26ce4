//! The report of a model that was read.

ghost use Rattle.std.specs.Prelude.{◌≡◌, ◌≤◌, [], List as Seq, length, IfOk};
ghost use Rattle.clf_tree.specs.declared.vector.Point.{Point};
ghost use Rattle.front_report.specs.declared.outcome.Outcome.TheVariants as told;
ghost use Rattle.front_report.specs.Summary.{HasSums};
ghost use Rattle.goal_vectors.specs.Points.{ArePoints};
ghost use Rattle.report_json.specs.Json.{HaveNames};
ghost use Rattle.clafer_run.specs.Fronts.{most_points};
ghost use Rattle.clafer_run.specs.Report as spec;

use crate::Request;
use clf_base::{List, NoMemory};
use clf_tree::{Front, FrontEnd};
use front_report::{Outcome, summary, text};
use model_reader::Read;
use pareto_loop::vectors_are_small;
use report_json::json;
use std::alloc::Global;

/// What is reported of a model, as text or as JSON.
pub(crate) fn report(
    alloc: Global,
    request: &Request,
    read: &Read,
    outcome: &Outcome,
) -> Result<List<u8>, NoMemory>
    ensures { IfOk result (λ text. text ≡ spec.report request.now read.now outcome.now) }
{
    let model = read.model.model();
    if request.json {
        return json(alloc, model, &read.scopes, outcome);
    }
    text(alloc, model, &read.scopes, outcome)
}

/// What is reported where there is no instance.
pub(crate) fn no_instance_report(
    alloc: Global,
    request: &Request,
    read: &Read,
) -> Result<List<u8>, NoMemory>
    ensures { IfOk result (λ text. text ≡ spec.no_instance_report request.now read.now) }
{
    match request.generate {
        Some(number) => {
            let text = summary(alloc, number, &nothing_found(alloc))?;
            Ok(text)
        }
        None => {
            let text = report(alloc, request, read, &Outcome::NoInstance)?;
            Ok(text)
        }
    }
}

/// A front of nothing, with its one claim.
fn nothing_found(alloc: Global) -> Front
    ensures is { result ≡ spec.nothing_found }
    ensures sums { HasSums result.points }
{
    Front {
        points: List::new(alloc),
        ended: FrontEnd::Finished,
        claims: 1,
    }
}

/// What is reported of a front.
pub(crate) fn front_report(
    alloc: Global,
    request: &Request,
    read: &Read,
    found: Front,
) -> Result<List<u8>, NoMemory>
    requires points { ArePoints read.now.model read.now.scopes found.points }
    requires few { length found.points ≤ most_points }
    ensures { IfOk result (λ text. text ≡ spec.front_report request.now read.now found) }
{
    sums_fit(read);
    match request.generate {
        Some(number) => {
            let text = summary(alloc, number, &found)?;
            Ok(text)
        }
        None => {
            let text = whole_report(alloc, request, read, found)?;
            Ok(text)
        }
    }
}

/// What is reported of a front with its points.
fn whole_report(
    alloc: Global,
    request: &Request,
    read: &Read,
    found: Front,
) -> Result<List<u8>, NoMemory>
    ensures { IfOk result (λ text. text ≡ spec.report request.now read.now (told.Front found)) }
{
    let outcome = Outcome::Front(found);
    let text = report(alloc, request, read, &outcome)?;
    Ok(text)
}

/// The values of each goal in the points of a front sum up within 128 bits.
fn sums_fit(read: &Read)
    ensures { (points : Seq Point) → ArePoints read.now.model read.now.scopes points → length points ≤ most_points → HasSums points }
{
    vectors_are_small();
    let _ = read.model.model();
}
