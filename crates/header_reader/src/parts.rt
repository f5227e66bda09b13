//! The parts of a message unit that hold several of its values (ebMS 3.0 Core, section 5.2).

use as4_values::{Agreement, MessageId, Service, Side, StampText, Text, UserHeader};

/// `eb:MessageInfo`.
#[derive(Drop)]
pub struct MessageInfo {
    pub stamp: StampText,
    pub id: MessageId,
    pub ref_to: Option<MessageId>,
}

/// `eb:PartyInfo`.
#[derive(Drop)]
pub struct PartyInfo {
    pub from: Side,
    pub to: Side,
}

/// `eb:CollaborationInfo`.
#[derive(Drop)]
pub struct CollaborationInfo {
    pub agreement: Option<Agreement>,
    pub service: Service,
    pub action: Text,
    /// `None` if it is empty.
    pub conversation: Option<Text>,
}

/// `eb:PullRequest` (section 5.2.3.1).
#[derive(Drop)]
pub struct PullRequest {
    /// The default channel if none is named.
    pub mpc: Text,
}

/// `eb:Receipt` (section 5.2.3.3).
#[derive(Drop)]
pub struct Receipt {
    /// The header of the acknowledged message, if it is copied.
    pub copy: Option<UserHeader>,
}
