//! The texts of a signal message's elements (ebMS 3.0 Core, sections 5.2.3 and 6.2).

ghost use Rattle.std.specs.Prelude.{◌≡◌, ◌++◌, OnOk};
ghost use Rattle.message_model.specs.UnitText.{severity_text, error_start, error_text, pull_text, receipt_text, body_text, signal_message, pair_text};

use crate::user_text::push_message_info;
use crate::values::{id_bytes, text_bytes};
use crate::written::{Written, push_all};
use as4_envelope::{
    push_attribute, push_end_tag, push_optional_attribute, push_optional_element, push_tag_end,
    push_tag_start,
};
use as4_values::{ErrorItem, NoMemory, Pair, Severity, Signal, SignalBody, Text, UserHeader};

fn severity_text(severity: Severity) -> &'static [u8]
    ensures { result.now ≡ severity_text severity }
{
    match severity {
        Severity::Failure => b"failure",
        Severity::Warning => b"warning",
    }
}

#[tactic(auto, unfolding(message_model::specs::UnitText::error_start))]
fn push_error_start(out: &mut Vec<u8>, item: &ErrorItem) -> Result<(), NoMemory>
    ensures { OnOk result (out.new.items ≡ out.old.items ++ error_start item.now) }
{
    push_attribute(out, b"errorCode", item.code.bytes())?;
    push_attribute(out, b"severity", severity_text(item.severity))?;
    push_optional_attribute(out, b"origin", text_bytes(&item.origin))?;
    push_optional_attribute(out, b"category", text_bytes(&item.category))?;
    push_optional_attribute(out, b"refToMessageInError", id_bytes(&item.about))?;
    push_optional_attribute(out, b"shortDescription", text_bytes(&item.short))?;
    Ok(())
}

impl Written for ErrorItem {
    ghost text = { error_text };

    #[tactic(auto, unfolding(message_model::specs::UnitText::error_text))]
    fn push_to(&self, out: &mut Vec<u8>) -> Result<(), NoMemory> {
        push_tag_start(out, b"eb:Error")?;
        push_error_start(out, self)?;
        push_tag_end(out)?;
        push_optional_element(out, b"eb:Description", text_bytes(&self.description))?;
        push_optional_element(out, b"eb:ErrorDetail", text_bytes(&self.detail))?;
        push_end_tag(out, b"eb:Error")?;
        Ok(())
    }
}

#[tactic(auto, unfolding(message_model::specs::UnitText::pull_text))]
fn push_pull(out: &mut Vec<u8>, mpc: &Text) -> Result<(), NoMemory>
    ensures { OnOk result (out.new.items ≡ out.old.items ++ pull_text mpc.now) }
{
    push_tag_start(out, b"eb:PullRequest")?;
    push_attribute(out, b"mpc", mpc.bytes())?;
    push_tag_end(out)?;
    push_end_tag(out, b"eb:PullRequest")?;
    Ok(())
}

#[tactic(auto, unfolding(message_model::specs::UnitText::receipt_text))]
fn push_receipt(out: &mut Vec<u8>, copy: &Option<UserHeader>) -> Result<(), NoMemory>
    ensures { OnOk result (out.new.items ≡ out.old.items ++ receipt_text copy.now) }
{
    push_tag_start(out, b"eb:Receipt")?;
    push_tag_end(out)?;
    if let Some(header) = copy {
        header.push_to(out)?;
    }
    push_end_tag(out, b"eb:Receipt")?;
    Ok(())
}

impl Written for SignalBody {
    ghost text = { body_text };

    fn push_to(&self, out: &mut Vec<u8>) -> Result<(), NoMemory> {
        match self {
            SignalBody::Pull { mpc } => push_pull(out, mpc),
            SignalBody::Receipt { copy } => push_receipt(out, copy),
            SignalBody::Errors { items } => push_all(out, items.items()),
        }
    }
}

impl Written for Signal {
    ghost text = { signal_message };

    #[tactic(auto, unfolding(message_model::specs::UnitText::signal_message))]
    fn push_to(&self, out: &mut Vec<u8>) -> Result<(), NoMemory> {
        push_tag_start(out, b"eb:SignalMessage")?;
        push_tag_end(out)?;
        push_message_info(out, &self.stamp, &self.id, &self.ref_to)?;
        self.body.push_to(out)?;
        push_end_tag(out, b"eb:SignalMessage")?;
        Ok(())
    }
}

impl Written for Pair {
    ghost text = { pair_text };

    #[tactic(auto, unfolding(message_model::specs::UnitText::pair_text))]
    fn push_to(&self, out: &mut Vec<u8>) -> Result<(), NoMemory> {
        self.receipt.push_to(out)?;
        self.pull.push_to(out)
    }
}
