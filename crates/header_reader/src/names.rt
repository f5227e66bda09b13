//! The names of ebMS 3.0 Core (sections 5.2 and 6.2).

ghost use Rattle.std.specs.Prelude.{◌≡◌};
ghost use Rattle.header_reader.specs.Names.{element_name, attribute_name};

/// The elements that are read.
#[derive(Clone, Copy)]
pub enum ElementName {
    UserMessage,
    SignalMessage,
    Messaging,
    MessageInfo,
    Timestamp,
    MessageId,
    RefToMessageId,
    PartyInfo,
    From,
    To,
    PartyId,
    Role,
    CollaborationInfo,
    AgreementRef,
    Service,
    Action,
    ConversationId,
    MessageProperties,
    Property,
    PayloadInfo,
    PartInfo,
    PartProperties,
    PullRequest,
    Receipt,
    Error,
    Description,
    ErrorDetail,
}

/// The attributes that are read; they are in no namespace.
#[derive(Clone, Copy)]
pub enum AttributeName {
    Mpc,
    Type,
    Pmode,
    Name,
    Href,
    ErrorCode,
    Severity,
    Origin,
    Category,
    RefToMessageInError,
    ShortDescription,
}

impl ElementName {
    #[tactic(auto, unfolding(crate::specs::Names::element_name))]
    pub fn text(self) -> &'static [u8]
        ensures { result.now ≡ element_name self }
    {
        match self {
            ElementName::UserMessage => b"UserMessage",
            ElementName::SignalMessage => b"SignalMessage",
            ElementName::Messaging => b"Messaging",
            ElementName::MessageInfo => b"MessageInfo",
            ElementName::Timestamp => b"Timestamp",
            ElementName::MessageId => b"MessageId",
            ElementName::RefToMessageId => b"RefToMessageId",
            ElementName::PartyInfo => b"PartyInfo",
            ElementName::From => b"From",
            ElementName::To => b"To",
            ElementName::PartyId => b"PartyId",
            ElementName::Role => b"Role",
            ElementName::CollaborationInfo => b"CollaborationInfo",
            ElementName::AgreementRef => b"AgreementRef",
            ElementName::Service => b"Service",
            ElementName::Action => b"Action",
            ElementName::ConversationId => b"ConversationId",
            ElementName::MessageProperties => b"MessageProperties",
            ElementName::Property => b"Property",
            ElementName::PayloadInfo => b"PayloadInfo",
            ElementName::PartInfo => b"PartInfo",
            ElementName::PartProperties => b"PartProperties",
            ElementName::PullRequest => b"PullRequest",
            ElementName::Receipt => b"Receipt",
            ElementName::Error => b"Error",
            ElementName::Description => b"Description",
            ElementName::ErrorDetail => b"ErrorDetail",
        }
    }
}

impl AttributeName {
    #[tactic(auto, unfolding(crate::specs::Names::attribute_name))]
    pub fn text(self) -> &'static [u8]
        ensures { result.now ≡ attribute_name self }
    {
        match self {
            AttributeName::Mpc => b"mpc",
            AttributeName::Type => b"type",
            AttributeName::Pmode => b"pmode",
            AttributeName::Name => b"name",
            AttributeName::Href => b"href",
            AttributeName::ErrorCode => b"errorCode",
            AttributeName::Severity => b"severity",
            AttributeName::Origin => b"origin",
            AttributeName::Category => b"category",
            AttributeName::RefToMessageInError => b"refToMessageInError",
            AttributeName::ShortDescription => b"shortDescription",
        }
    }
}
