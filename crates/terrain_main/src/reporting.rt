//! The command `trial`.

ghost use Rattle.std.specs.Prelude.{◌≡◌, ◌≤◌, IfOk};
ghost use Rattle.trial.specs.declared.report.Report.{Report as Reported};
ghost use Rattle.trial.specs.Trials.{IsReport};
ghost use Rattle.trial.specs.Texts.{report_text};
ghost use Rattle.terrain_main.specs.Commands.{RunsTrial, sink_side};

use crate::status::Status;
use ground_io::{Sink, write_all};
use std::alloc::{AllocError, Global};
use trial::trial;

// The text of a trial's report.
fn text_of_trial(alloc: Global, seed: u64, count: u32) -> Result<Vec<u8>, AllocError>
    requires { count ≤ 100000 }
    ensures { IfOk result (λ text. (report : Reported) × IsReport seed count report × (text.items ≡ report_text report)) }
{
    let report = trial(alloc, seed, count)?;
    report.text(alloc)
}

/// Runs a trial and writes its report. Nothing is written before the report is whole.
pub(crate) fn run_trial<O: Sink>(alloc: Global, seed: u64, count: u32, output: &mut O) -> Status
    requires { count ≤ 100000 }
    ensures { RunsTrial seed count (sink_side (O.written output.old) (O.write_faults output.old)) (sink_side (O.written output.new) (O.write_faults output.new)) result }
{
    match text_of_trial(alloc, seed, count) {
        Ok(text) => match write_all(output, text.as_slice()) {
            Ok(()) => Status::Ok,
            Err(_) => Status::WriteFault,
        },
        Err(AllocError) => Status::Memory,
    }
}
