//! How a run ended.

ghost use Rattle.std.specs.Prelude.{◌≡◌, None, Some};
ghost use Rattle.clf_base.specs.declared.status.Status.TheVariants.{Unfinished};

use clf_base::Status;
use question_space::Spending;

/// How a run ended, and what it hands back.
#[derive(Drop)]
pub struct Ending {
    pub status: Status,
    /// With a spent budget, what the question leaves.
    pub spent: Option<Spending>,
    /// With no instance and with a whole front, what the question leaves that shows it.
    pub closed: Option<Spending>,
}

impl Ending {
    /// The status alone.
    pub(crate) fn bare(status: Status) -> Ending
        ensures { result ≡ record { status = status; spent = None; closed = None } }
    {
        Ending {
            status,
            spent: None,
            closed: None,
        }
    }

    /// The budget is spent on a question.
    pub(crate) fn spent(left: Spending) -> Ending
        ensures { result ≡ record { status = Unfinished; spent = Some left; closed = None } }
    {
        Ending {
            status: Status::Unfinished,
            spent: Some(left),
            closed: None,
        }
    }

    /// A question is closed.
    pub(crate) fn closed(status: Status, left: Spending) -> Ending
        ensures { result ≡ record { status = status; spent = None; closed = Some left } }
    {
        Ending {
            status,
            spent: None,
            closed: Some(left),
        }
    }
}
