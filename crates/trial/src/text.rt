//! The text of a report.

ghost use Rattle.std.specs.Prelude.{◌≡◌, ◌++◌, OnOk, IfOk};
ghost use Rattle.trial.specs.Texts.{counted, measured, course_text, counts_text, volume_text, report_text};

use crate::report::Report;
use itoa::Buffer;
use std::alloc::{AllocError, Global};

// Adds a word and a count after it.
#[tactic(auto, unfolding(crate::specs::Texts::counted))]
fn add_count(text: &mut Vec<u8>, word: &[u8], count: u64) -> Result<(), AllocError>
    ensures { OnOk result (text.new.items ≡ text.old.items ++ counted word.now count) }
{
    let mut buffer = Buffer::new();
    text.extend_from_slice(word)?;
    text.extend_from_slice(buffer.format(count).as_bytes())
}

// Adds a word and a signed number after it.
#[tactic(auto, unfolding(crate::specs::Texts::measured))]
fn add_whole(text: &mut Vec<u8>, word: &[u8], number: i128) -> Result<(), AllocError>
    ensures { OnOk result (text.new.items ≡ text.old.items ++ measured word.now number) }
{
    let mut buffer = Buffer::new();
    text.extend_from_slice(word)?;
    text.extend_from_slice(buffer.format(number).as_bytes())
}

fn add_course(text: &mut Vec<u8>, report: &Report) -> Result<(), AllocError>
    ensures { OnOk result (text.new.items ≡ text.old.items ++ course_text report.now) }
{
    add_count(text, b"trial ", report.seed)?;
    add_count(text, b" ", u64::from(report.count))?;
    add_count(text, b" front ", u64::from(report.front))
}

fn add_counts(text: &mut Vec<u8>, report: &Report) -> Result<(), AllocError>
    ensures { OnOk result (text.new.items ≡ text.old.items ++ counts_text report.now) }
{
    add_count(text, b" points ", u64::from(report.points))?;
    add_count(text, b" lines ", u64::from(report.lines))?;
    add_count(text, b" refused ", u64::from(report.refused))?;
    add_count(text, b" conflicts ", u64::from(report.conflicts))?;
    add_count(text, b" facets ", u64::from(report.facets))
}

fn add_volume(text: &mut Vec<u8>, cut: i128, fill: i128, net: i128) -> Result<(), AllocError>
    ensures { OnOk result (text.new.items ≡ text.old.items ++ volume_text cut fill net) }
{
    add_whole(text, b" cut ", cut)?;
    add_whole(text, b" fill ", fill)?;
    add_whole(text, b" net ", net)
}

impl Report {
    /// The text of the report: one line, with its end.
    #[tactic(auto, unfolding(crate::specs::Texts::report_text))]
    pub fn text(&self, alloc: Global) -> Result<Vec<u8>, AllocError>
        ensures { IfOk result (λ text. text.items ≡ report_text self.now) }
    {
        let mut text = Vec::new(alloc);
        add_course(&mut text, self)?;
        add_counts(&mut text, self)?;
        add_volume(&mut text, self.cut, self.fill, self.net)?;
        text.push(b'\n')?;
        Ok(text)
    }
}
