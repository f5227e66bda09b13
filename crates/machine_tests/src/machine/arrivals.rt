//! Messages that are made from one of the other endpoint.

use super::rig::Rig;
use super::steps::Said;
use as4_values::{Message, PlainData, Text, UserHeader};

impl Rig {
    /// Receives the last message of the other endpoint, with another action.
    pub fn hears_of_another_action(&mut self, sender: &Rig) -> Option<Said> {
        let action = Text::read(self.alloc, b"order").ok()?;
        match sender.sent.as_ref()?.try_clone(self.alloc) {
            Ok(Message::User { header, payloads }) => {
                let header = with_action(header, action);
                self.hears_message(Message::User { header, payloads })
            }
            other => {
                drop(other);
                drop(action);
                None
            }
        }
    }
}

fn with_action(header: UserHeader, action: Text) -> UserHeader {
    let mut other = header;
    other.action = action;
    other
}
