//! The text about faults.

ghost use Rattle.std.specs.Prelude.{◌≡◌, ◌++◌, IfOk, OnOk, string_bytes};
ghost use Rattle.olr_explain.specs.Explaining.{explained_text, heading_of, line_of, section_text};
ghost use Rattle.olr_explain.specs.Explaining.{explanation_of, text_on};

use crate::table::{Detail, Explanation, Section};
use crate::topic::Topic;
use olr_base::NoMemory;
use olr_text::{ToText, push_texts};
use std::alloc::Global;

/// Adds a fault as it is printed, with words in capital letters for its values.
fn push_heading(fault: &Explanation, out: &mut String) -> Result<(), NoMemory>
    ensures { OnOk result (string_bytes out.new ≡ string_bytes out.old ++ heading_of fault.now) }
{
    out.push_str(fault.name)?;
    match fault.detail {
        Detail::Nothing => {}
        Detail::Word(text) | Detail::Values(text) => {
            out.push_str(" ")?;
            out.push_str(text)?;
        }
    }
    Ok(())
}

/// Adds a line with a label, where there is a text for it.
fn push_line(label: &str, text: &str, out: &mut String) -> Result<(), NoMemory>
    ensures { OnOk result (string_bytes out.new
        ≡ string_bytes out.old ++ line_of label.now text.now) }
{
    if text.is_empty() {
        return Ok(());
    }
    out.push_str(label)?;
    out.push_str(": ")?;
    out.push_str(text)?;
    out.push_str("\n")?;
    Ok(())
}

/// Adds all that is known of a fault.
fn push_explanation(fault: &Explanation, out: &mut String) -> Result<(), NoMemory>
    ensures { OnOk result (string_bytes out.new
        ≡ string_bytes out.old ++ explanation_of fault.now) }
{
    push_heading(fault, out)?;
    out.push_str("\n")?;
    push_line("meaning", fault.meaning, out)?;
    push_line("where", fault.values, out)?;
    push_line("usual cause", fault.cause, out)?;
    push_line("what to do", fault.remedy, out)?;
    Ok(())
}

/// What is printed about a fault: a line where all are asked about, all that is known where it is
/// one of those that are, else nothing.
impl ToText<Topic<'_>> for Explanation {
    ghost text = { text_on };

    fn push(&self, topic: &Topic<'_>, _: usize, out: &mut String) -> Result<(), NoMemory> {
        if matches!(topic, Topic::Every) {
            push_heading(self, out)?;
            out.push_str(": ")?;
            out.push_str(self.meaning)?;
            out.push_str("\n")?;
            return Ok(());
        }
        if topic.names(self) {
            push_explanation(self, out)?;
        }
        Ok(())
    }
}

/// What is printed about the faults of a section.
impl ToText<Topic<'_>> for Section {
    ghost text = { section_text };

    fn push(&self, topic: &Topic<'_>, _: usize, out: &mut String) -> Result<(), NoMemory> {
        push_texts(self.faults, topic, out)
    }
}

/// The text about the faults of a table that are asked about, in the order of the table.
///
/// # Errors
///
/// [`NoMemory`] where the allocator refused memory.
pub fn explained(alloc: Global, table: &[Section], topic: &Topic<'_>) -> Result<String, NoMemory>
    ensures { IfOk result (λ text. string_bytes text ≡ explained_text table.now topic.now) }
{
    let mut text = String::new(alloc);
    push_texts(table, topic, &mut text)?;
    Ok(text)
}
