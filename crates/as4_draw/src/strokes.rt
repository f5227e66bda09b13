//! How strokes look. The colours are those of Okabe and Ito, which colour-blind readers tell apart, and each kind of stroke
//! has a line style of its own.

/// What a stroke stands for.
#[derive(Clone, Copy, Debug, PartialEq, Eq)]
pub(crate) enum Stroke {
    /// A submission by the local application.
    Submit,
    /// Any other call of the local application.
    Local,
    /// A user message.
    User,
    /// A receipt.
    Receipt,
    /// An error signal.
    Fault,
    /// A pull request, alone or with a receipt.
    Pull,
}

impl Stroke {
    /// The class of the stroke in the style sheet.
    pub(crate) fn class(self) -> &'static str {
        match self {
            Stroke::Submit => "submit",
            Stroke::Local => "local",
            Stroke::User => "user",
            Stroke::Receipt => "receipt",
            Stroke::Fault => "fault",
            Stroke::Pull => "pull",
        }
    }
}

/// How a stroke ends.
#[derive(Clone, Copy, Debug, PartialEq, Eq)]
pub(crate) enum Ending {
    /// With a head: the message arrived.
    Head,
    /// With a cross: the message was lost.
    Cross,
    /// With nothing: the message is still on its way where the drawing ends.
    Open,
}

impl Ending {
    /// The second class of the stroke in the style sheet, after a space.
    pub(crate) fn class(self) -> &'static str {
        match self {
            Ending::Head => "",
            Ending::Cross => " cross",
            Ending::Open => " open",
        }
    }
}

/// The style sheet and the ends of the strokes.
pub(crate) const STYLES: &[u8] = b"<style>
.name{font-size:13px;font-weight:bold;text-anchor:middle}
.left{text-anchor:start}
.right{text-anchor:end}
.centre{text-anchor:middle}
.moment{font-size:10px;fill:#555555}
.life{stroke:#999999;stroke-width:1}
.note{fill:#f9f5c0;stroke:#555555;stroke-width:1}
.submit{stroke:#cc79a7;stroke-width:2;marker-end:url(#local-head)}
.local{stroke:#cc79a7;stroke-width:2;stroke-dasharray:3 3;marker-end:url(#local-head)}
.user{stroke:#0072b2;stroke-width:2;marker-end:url(#user-head)}
.receipt{stroke:#009e73;stroke-width:2;stroke-dasharray:8 4;marker-end:url(#receipt-head)}
.fault{stroke:#d55e00;stroke-width:2;stroke-dasharray:10 3 2 3;marker-end:url(#fault-head)}
.pull{stroke:#e69f00;stroke-width:2;stroke-dasharray:2 4;marker-end:url(#pull-head)}
.cross{marker-end:url(#cross)}
.open{marker-end:none}
</style>
<defs>
<marker id=\"local-head\" viewBox=\"0 0 10 10\" refX=\"10\" refY=\"5\" markerWidth=\"10\" markerHeight=\"10\" markerUnits=\"userSpaceOnUse\" orient=\"auto\"><path d=\"M0 1L10 5L0 9z\" fill=\"#cc79a7\"/></marker>
<marker id=\"user-head\" viewBox=\"0 0 10 10\" refX=\"10\" refY=\"5\" markerWidth=\"10\" markerHeight=\"10\" markerUnits=\"userSpaceOnUse\" orient=\"auto\"><path d=\"M0 1L10 5L0 9z\" fill=\"#0072b2\"/></marker>
<marker id=\"receipt-head\" viewBox=\"0 0 10 10\" refX=\"10\" refY=\"5\" markerWidth=\"10\" markerHeight=\"10\" markerUnits=\"userSpaceOnUse\" orient=\"auto\"><path d=\"M0 1L10 5L0 9z\" fill=\"#009e73\"/></marker>
<marker id=\"fault-head\" viewBox=\"0 0 10 10\" refX=\"10\" refY=\"5\" markerWidth=\"10\" markerHeight=\"10\" markerUnits=\"userSpaceOnUse\" orient=\"auto\"><path d=\"M0 1L10 5L0 9z\" fill=\"#d55e00\"/></marker>
<marker id=\"pull-head\" viewBox=\"0 0 10 10\" refX=\"10\" refY=\"5\" markerWidth=\"10\" markerHeight=\"10\" markerUnits=\"userSpaceOnUse\" orient=\"auto\"><path d=\"M0 1L10 5L0 9z\" fill=\"#e69f00\"/></marker>
<marker id=\"cross\" viewBox=\"0 0 10 10\" refX=\"5\" refY=\"5\" markerWidth=\"12\" markerHeight=\"12\" markerUnits=\"userSpaceOnUse\" orient=\"auto\"><path d=\"M0 0L10 10M0 10L10 0\" stroke=\"#000000\" stroke-width=\"2\"/></marker>
</defs>
<rect width=\"100%\" height=\"100%\" fill=\"#ffffff\"/>
";
