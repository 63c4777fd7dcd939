//! The faults of the layers below, as refusals of the program.
ghost use Rattle.std.specs.Prelude.{◌≡◌};
ghost use Rattle.report_text.specs.Shown.{shown};
ghost use Rattle.job_commands.specs.Refused.{of_session, of_survey, of_begin};

use flash_session::{SessionFault, SurveyFault};
use job_file::BeginFault;
use report_text::Refusal;

/// Why no session was opened.
pub fn session_refusal<'a>(fault: SessionFault) -> Refusal<'a>
    ensures { shown result ≡ of_session fault }
{
    match fault {
        SessionFault::OutOfMemory => Refusal::OutOfMemory,
        SessionFault::Open(fault) => Refusal::from(fault),
        SessionFault::DeviceFault => Refusal::DeviceFault,
    }
}

/// Why no survey was made.
pub fn survey_refusal<'a>(fault: SurveyFault) -> Refusal<'a>
    ensures { shown result ≡ of_survey fault }
{
    match fault {
        SurveyFault::OutOfMemory => Refusal::OutOfMemory,
        SurveyFault::DeviceFault => Refusal::DeviceFault,
        SurveyFault::StoreFault => Refusal::StoreFault,
    }
}

/// Why no job was begun.
pub(crate) fn begin_refusal<'a>(fault: BeginFault) -> Refusal<'a>
    ensures { shown result ≡ of_begin fault }
{
    match fault {
        BeginFault::OutOfMemory => Refusal::OutOfMemory,
        BeginFault::JobOpen => Refusal::JobOpen,
        BeginFault::StoreFault => Refusal::StoreFault,
        BeginFault::DeviceFault => Refusal::DeviceFault,
        BeginFault::CellsDiffer { said, found } => Refusal::CellsDiffer {
            wanted: said,
            found,
        },
        BeginFault::NotAJob { at } => Refusal::NotAJob { at },
        BeginFault::Damaged { kept, found } => Refusal::Damaged { kept, found },
    }
}
