//! Outputs with their endings.

ghost use Rattle.std.specs.Prelude.{◌≡◌, ◌≤◌, None, Some, IfOk};
ghost use Rattle.clf_base.specs.Status.{number_of};
ghost use Rattle.clf_base.specs.declared.status.Status.TheVariants as status;
ghost use Rattle.clafer_run.specs.Model.{IsTold};
ghost use Rattle.clafer_run.specs.Report as spec;

use crate::Request;
use crate::ending::Ending;
use crate::reports::no_instance_report;
use clf_base::{List, NoMemory, Refusal, Status};
use front_report::refusal as refusal_line;
use model_reader::Read;
use question_space::Spending;
use std::alloc::Global;

/// An output, and the ending that goes with it.
#[derive(Drop)]
pub(crate) struct Reply {
    pub(crate) ending: Ending,
    pub(crate) output: List<u8>,
}

/// The answer to a refusal.
pub(crate) fn told(alloc: Global, refusal: Refusal) -> Result<Reply, NoMemory>
    ensures told { IfOk result (λ reply. IsTold refusal reply.output reply.ending) }
    ensures in_range { IfOk result (λ reply. number_of reply.ending.status ≤ 4) }
{
    let output = refusal_line(alloc, refusal)?;
    Ok(Reply {
        ending: Ending::bare(Status::Refused),
        output,
    })
}

/// The answer that there is no instance.
pub(crate) fn no_instance(
    alloc: Global,
    request: &Request,
    read: &Read,
    left: Spending,
) -> Result<Reply, NoMemory>
    ensures told { IfOk result (λ reply. reply.output ≡ spec.no_instance_report request.now read.now) }
    ensures ending { IfOk result (λ reply. reply.ending ≡ record { status = status.NoInstance; spent = None; closed = Some left }) }
{
    let output = no_instance_report(alloc, request, read)?;
    Ok(Reply {
        ending: Ending::closed(Status::NoInstance, left),
        output,
    })
}
