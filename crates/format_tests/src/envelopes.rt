//! The canonical texts of envelopes.
ghost use Rattle.std.specs.Prelude.{◌≡◌, ◌<◌, ◌≤◌, IfSome, IsTrue, length, vec_len};
ghost use Rattle.as4_values.specs.SignalParts.{is_receipt, is_pull};

use as4_values::{
    Agreement, Code, ErrorItem, MessageId, Pair, PartInfo, Party, Property, Seq, Service, Severity,
    Side, Signal, SignalBody, StampText, Text, Unit, UserHeader, read_stamp,
};
use header_writer::write_envelope;
use std::alloc::Global;
use std::test::Fail;

const START: &[u8] =
    b"<S:Envelope xmlns:S=\"http://www.w3.org/2003/05/soap-envelope\" xmlns:eb=\"http://docs.oasis-open.org/ebxml-msg/ebms/v3.0/ns/core/200704/\"><S:Header><eb:Messaging S:mustUnderstand=\"true\">";

const END: &[u8] = b"</eb:Messaging></S:Header><S:Body></S:Body></S:Envelope>";

/// Characters that are escaped, and characters of each length in UTF-8.
const CONVERSATION: &str = "c&1 <é> \"ü\"\t\n\r中😀.";

/// All optional parts are there.
const FULL: &str =
    "<eb:UserMessage mpc=\"urn:mpc\"><eb:MessageInfo><eb:Timestamp>2025-01-02T03:04:05.006Z</eb:Timestamp><eb:MessageId>m1@a</eb:MessageId><eb:RefToMessageId>m0@a</eb:RefToMessageId></eb:MessageInfo><eb:PartyInfo><eb:From><eb:PartyId type=\"urn:kind\">acme</eb:PartyId><eb:PartyId>acme</eb:PartyId><eb:Role>seller</eb:Role></eb:From><eb:To><eb:PartyId type=\"urn:kind\">bolt</eb:PartyId><eb:PartyId>bolt</eb:PartyId><eb:Role>buyer</eb:Role></eb:To></eb:PartyInfo><eb:CollaborationInfo><eb:AgreementRef type=\"urn:kind\" pmode=\"urn:mode\">agreed</eb:AgreementRef><eb:Service type=\"urn:kind\">orders</eb:Service><eb:Action>invoice</eb:Action><eb:ConversationId>c&amp;1 &lt;é&gt; &quot;ü&quot;&#9;&#10;&#13;中😀.</eb:ConversationId></eb:CollaborationInfo><eb:MessageProperties><eb:Property name=\"one\" type=\"urn:kind\">value</eb:Property><eb:Property name=\"two\"></eb:Property></eb:MessageProperties><eb:PayloadInfo><eb:PartInfo href=\"cid:p1@a\"><eb:PartProperties><eb:Property name=\"one\" type=\"urn:kind\">value</eb:Property><eb:Property name=\"two\"></eb:Property></eb:PartProperties></eb:PartInfo><eb:PartInfo></eb:PartInfo></eb:PayloadInfo></eb:UserMessage>";

/// No optional part is there.
const BARE: &[u8] =
    b"<eb:UserMessage><eb:MessageInfo><eb:Timestamp>2025-01-02T03:04:05.006Z</eb:Timestamp><eb:MessageId>m1@a</eb:MessageId></eb:MessageInfo><eb:PartyInfo><eb:From><eb:PartyId>acme</eb:PartyId><eb:Role>seller</eb:Role></eb:From><eb:To><eb:PartyId>bolt</eb:PartyId><eb:Role>buyer</eb:Role></eb:To></eb:PartyInfo><eb:CollaborationInfo><eb:Service>orders</eb:Service><eb:Action>invoice</eb:Action><eb:ConversationId></eb:ConversationId></eb:CollaborationInfo></eb:UserMessage>";

const SIGNAL_START: &[u8] =
    b"<eb:SignalMessage><eb:MessageInfo><eb:Timestamp>2025-01-02T03:04:05.006Z</eb:Timestamp><eb:MessageId>m1@a</eb:MessageId>";

const REFERENCE: &[u8] = b"<eb:RefToMessageId>m0@a</eb:RefToMessageId>";

/// Whether the text consists of the pieces, one after another.
fn is_joined(text: &[u8], pieces: &[&[u8]]) -> bool {
    let mut rest = text;
    for piece in pieces {
        match rest.strip_prefix(*piece) {
            Some(behind) => rest = behind,
            None => return false,
        }
    }
    rest.is_empty()
}

/// Whether the text is that of an envelope around the pieces.
fn is_envelope(text: &[u8], pieces: &[&[u8]]) -> bool {
    match text.strip_prefix(START) {
        Some(rest) => match rest.strip_suffix(END) {
            Some(inside) => is_joined(inside, pieces),
            None => false,
        },
        None => false,
    }
}

/// Whether the unit's envelope consists of the pieces, one after another, between an envelope's start and end.
fn is_text_of(alloc: Global, unit: Option<Unit>, pieces: &[&[u8]]) -> Option<bool> {
    let unit = unit?;
    let text = write_envelope(alloc, &unit);
    drop(unit);
    let text = text.ok()?;
    let is_written = is_envelope(text.bytes(), pieces);
    drop(text);
    Some(is_written)
}

fn text(alloc: Global, word: &[u8]) -> Option<Text> {
    Text::read(alloc, word).ok()
}

fn optional(alloc: Global, full: bool, word: &[u8]) -> Option<Option<Text>> {
    if full {
        Some(Some(text(alloc, word)?))
    } else {
        Some(None)
    }
}

fn stamp(alloc: Global) -> Option<StampText> {
    read_stamp(alloc, b"2025-01-02T03:04:05.006Z").ok()
}

fn reference(alloc: Global, full: bool) -> Option<Option<MessageId>> {
    if full {
        Some(Some(MessageId::read(alloc, b"m0@a").ok()?))
    } else {
        Some(None)
    }
}

fn party(alloc: Global, full: bool, id: &[u8]) -> Option<Party> {
    let (id, kind) = text(alloc, id).zip(optional(alloc, full, b"urn:kind"))?;
    Some(Party { id, kind })
}

/// Two parties if it is full, else one.
fn parties(alloc: Global, full: bool, id: &[u8]) -> Option<Vec<Party>>
    ensures { IfSome result (λ parties. (0 < vec_len parties) × (vec_len parties ≤ 2)) }
{
    if !full {
        return vec![in alloc; party(alloc, full, id)?].ok();
    }
    let (one, two) = party(alloc, true, id).zip(party(alloc, false, id))?;
    vec![in alloc; one, two].ok()
}

fn side(alloc: Global, full: bool, id: &[u8], role: &[u8]) -> Option<Side> {
    let parties = parties(alloc, full, id)?;
    let Some(role) = text(alloc, role) else {
        drop(parties);
        return None;
    };
    Some(Side {
        parties: Seq::of(parties),
        role,
    })
}

fn agreement(alloc: Global, full: bool) -> Option<Option<Agreement>> {
    if !full {
        return Some(None);
    }
    let kinds = optional(alloc, true, b"urn:kind").zip(optional(alloc, true, b"urn:mode"));
    let (value, (kind, pmode)) = text(alloc, b"agreed").zip(kinds)?;
    Some(Some(Agreement { value, kind, pmode }))
}

fn service(alloc: Global, full: bool) -> Option<Service> {
    let (value, kind) = text(alloc, b"orders").zip(optional(alloc, full, b"urn:kind"))?;
    Some(Service { value, kind })
}

fn property(alloc: Global, full: bool, name: &[u8]) -> Option<Property> {
    let said = optional(alloc, full, b"urn:kind").zip(optional(alloc, full, b"value"));
    let (name, (kind, value)) = text(alloc, name).zip(said)?;
    Some(Property { name, kind, value })
}

/// A full property and a bare one, or none.
fn properties(alloc: Global, full: bool) -> Option<Seq<Property>>
    ensures { IfSome result (λ properties. length properties ≤ 2) }
{
    if !full {
        return Some(Seq::of(Vec::new(alloc)));
    }
    let (one, two) = property(alloc, true, b"one").zip(property(alloc, false, b"two"))?;
    Some(Seq::of(vec![in alloc; one, two].ok()?))
}

fn part(alloc: Global, full: bool) -> Option<PartInfo> {
    let properties = properties(alloc, full)?;
    let Some(href) = optional(alloc, full, b"cid:p1@a") else {
        drop(properties);
        return None;
    };
    Some(PartInfo { href, properties })
}

/// A full part info and a bare one, or none.
fn parts(alloc: Global, full: bool) -> Option<Seq<PartInfo>>
    ensures { IfSome result (λ parts. length parts ≤ 2) }
{
    if !full {
        return Some(Seq::of(Vec::new(alloc)));
    }
    let (one, two) = part(alloc, true).zip(part(alloc, false))?;
    Some(Seq::of(vec![in alloc; one, two].ok()?))
}

fn sides(alloc: Global, full: bool) -> Option<(Side, Side)> {
    let from = side(alloc, full, b"acme", b"seller");
    from.zip(side(alloc, full, b"bolt", b"buyer"))
}

fn names(alloc: Global, full: bool) -> Option<(StampText, MessageId, Option<MessageId>)> {
    let id = MessageId::read(alloc, b"m1@a").ok();
    let ((stamp, id), ref_to) = stamp(alloc).zip(id).zip(reference(alloc, full))?;
    Some((stamp, id, ref_to))
}

fn collaboration(
    alloc: Global,
    full: bool,
) -> Option<(Option<Agreement>, Service, Text, Option<Text>)> {
    let work = agreement(alloc, full).zip(service(alloc, full));
    let conversation = optional(alloc, full, CONVERSATION.as_bytes());
    let talk = text(alloc, b"invoice").zip(conversation);
    let ((agreement, service), (action, conversation)) = work.zip(talk)?;
    Some((agreement, service, action, conversation))
}

/// The properties and the parts.
fn lists(alloc: Global, full: bool) -> Option<(Seq<Property>, Seq<PartInfo>)>
    ensures { IfSome result (λ lists. (length lists.0 ≤ 2) × (length lists.1 ≤ 2)) }
{
    properties(alloc, full).zip(parts(alloc, full))
}

fn header(alloc: Global, full: bool) -> Option<UserHeader> {
    let start = optional(alloc, full, b"urn:mpc").zip(names(alloc, full));
    let who = start.zip(sides(alloc, full));
    let what = collaboration(alloc, full).zip(lists(alloc, full));
    let (((mpc, (stamp, id, ref_to)), (from, to)), (work, lists)) = who.zip(what)?;
    let (agreement, service, action, conversation) = work;
    let (properties, parts) = lists;
    Some(UserHeader {
        mpc,
        stamp,
        id,
        ref_to,
        from,
        to,
        agreement,
        service,
        action,
        conversation,
        properties,
        parts,
    })
}

/// Whether the header, full or bare, has this text.
fn is_header(alloc: Global, full: bool, wanted: &[u8]) -> Option<bool> {
    is_text_of(alloc, header(alloc, full).map(Unit::User), &[wanted])
}

#[test]
fn each_part_of_a_header_is_written_or_left_out(rt: HostRuntime) -> Result<(), Fail> {
    assert_eq!(rt; is_header(rt.alloc(), true, FULL.as_bytes()), Some(true));
    assert_eq!(rt; is_header(rt.alloc(), false, BARE), Some(true));
    Ok(())
}

fn pull(alloc: Global) -> Option<Signal>
    ensures { IfSome result (λ signal. IsTrue (is_pull signal.body)) }
{
    let ((stamp, id, ref_to), mpc) = names(alloc, false).zip(text(alloc, b"urn:mpc"))?;
    Some(Signal {
        stamp,
        id,
        ref_to,
        body: SignalBody::Pull { mpc },
    })
}

fn is_pull(alloc: Global, wanted: &[u8]) -> Option<bool> {
    is_text_of(
        alloc,
        pull(alloc).map(Unit::Signal),
        &[SIGNAL_START, wanted],
    )
}

#[test]
fn a_pull_request_names_its_channel(rt: HostRuntime) -> Result<(), Fail> {
    let wanted =
        b"</eb:MessageInfo><eb:PullRequest mpc=\"urn:mpc\"></eb:PullRequest></eb:SignalMessage>";
    assert_eq!(rt; is_pull(rt.alloc(), wanted), Some(true));
    Ok(())
}

/// A bare header or none.
fn copy(alloc: Global, has_copy: bool) -> Option<Option<UserHeader>> {
    if has_copy {
        Some(Some(header(alloc, false)?))
    } else {
        Some(None)
    }
}

fn receipt(alloc: Global, has_copy: bool) -> Option<Signal>
    ensures { IfSome result (λ signal. IsTrue (is_receipt signal.body)) }
{
    let id = MessageId::read(alloc, b"m1@a").ok();
    let names = stamp(alloc).zip(id);
    let ref_to = MessageId::read(alloc, b"m0@a").ok();
    let ((stamp, id), (ref_to, copy)) = names.zip(ref_to.zip(copy(alloc, has_copy)))?;
    Some(Signal {
        stamp,
        id,
        ref_to: Some(ref_to),
        body: SignalBody::Receipt { copy },
    })
}

fn is_receipt(alloc: Global, has_copy: bool, wanted: &[u8]) -> Option<bool> {
    let start = b"</eb:MessageInfo><eb:Receipt>";
    let end = b"</eb:Receipt></eb:SignalMessage>";
    let pieces = [SIGNAL_START, REFERENCE, start, wanted, end];
    is_text_of(alloc, receipt(alloc, has_copy).map(Unit::Signal), &pieces)
}

#[test]
fn a_receipt_has_a_copy_or_none(rt: HostRuntime) -> Result<(), Fail> {
    assert_eq!(rt; is_receipt(rt.alloc(), false, b""), Some(true));
    assert_eq!(rt; is_receipt(rt.alloc(), true, BARE), Some(true));
    Ok(())
}

fn pair(alloc: Global) -> Option<Unit> {
    let (receipt, pull) = receipt(alloc, false).zip(pull(alloc))?;
    Some(Unit::Pair(Pair { receipt, pull }))
}

const PAIR: &[u8] =
    b"<eb:SignalMessage><eb:MessageInfo><eb:Timestamp>2025-01-02T03:04:05.006Z</eb:Timestamp><eb:MessageId>m1@a</eb:MessageId><eb:RefToMessageId>m0@a</eb:RefToMessageId></eb:MessageInfo><eb:Receipt></eb:Receipt></eb:SignalMessage><eb:SignalMessage><eb:MessageInfo><eb:Timestamp>2025-01-02T03:04:05.006Z</eb:Timestamp><eb:MessageId>m1@a</eb:MessageId></eb:MessageInfo><eb:PullRequest mpc=\"urn:mpc\"></eb:PullRequest></eb:SignalMessage>";

#[test]
fn a_pair_is_a_receipt_and_then_a_pull_request(rt: HostRuntime) {
    assert_eq!(rt;
        is_text_of(rt.alloc(), pair(rt.alloc()), &[PAIR]),
        Some(true)
    );
}

/// The optional attributes of an error, all or none.
fn attributes(alloc: Global, full: bool) -> Option<(Option<Text>, Option<Text>, Option<Text>)> {
    let origin = optional(alloc, full, b"ebMS");
    let category = optional(alloc, full, b"Content");
    let short = optional(alloc, full, b"Other");
    let ((origin, category), short) = origin.zip(category).zip(short)?;
    Some((origin, category, short))
}

/// The optional elements of an error, all or none.
fn elements(alloc: Global, full: bool) -> Option<(Option<Text>, Option<Text>)> {
    let description = optional(alloc, full, b"described");
    description.zip(optional(alloc, full, b"detailed"))
}

fn severity(full: bool) -> Severity {
    if full {
        Severity::Warning
    } else {
        Severity::Failure
    }
}

fn error(alloc: Global, full: bool) -> Option<ErrorItem> {
    let code = Code::read(alloc, b"EBMS:0004").ok();
    let start = code.zip(reference(alloc, full));
    let rest = attributes(alloc, full).zip(elements(alloc, full));
    let ((code, about), ((origin, category, short), (description, detail))) = start.zip(rest)?;
    Some(ErrorItem {
        code,
        severity: severity(full),
        origin,
        category,
        about,
        short,
        description,
        detail,
    })
}

/// One error, full or bare.
fn items(alloc: Global, full: bool) -> Option<Seq<ErrorItem>>
    ensures { IfSome result (λ items. length items ≡ 1) }
{
    Some(Seq::of(vec![in alloc; error(alloc, full)?].ok()?))
}

fn errors(alloc: Global, full: bool) -> Option<Unit> {
    let ((stamp, id, ref_to), items) = names(alloc, false).zip(items(alloc, full))?;
    Some(Unit::Signal(Signal {
        stamp,
        id,
        ref_to,
        body: SignalBody::Errors { items },
    }))
}

fn is_error(alloc: Global, full: bool, wanted: &[u8]) -> Option<bool> {
    let start = b"</eb:MessageInfo>";
    let end = b"</eb:Error></eb:SignalMessage>";
    let pieces = [SIGNAL_START, start, wanted, end];
    is_text_of(alloc, errors(alloc, full), &pieces)
}

const FULL_ERROR: &[u8] =
    b"<eb:Error errorCode=\"EBMS:0004\" severity=\"warning\" origin=\"ebMS\" category=\"Content\" refToMessageInError=\"m0@a\" shortDescription=\"Other\"><eb:Description>described</eb:Description><eb:ErrorDetail>detailed</eb:ErrorDetail>";

const BARE_ERROR: &[u8] = b"<eb:Error errorCode=\"EBMS:0004\" severity=\"failure\">";

#[test]
fn an_error_has_each_attribute_or_none(rt: HostRuntime) -> Result<(), Fail> {
    assert_eq!(rt; is_error(rt.alloc(), true, FULL_ERROR), Some(true));
    assert_eq!(rt; is_error(rt.alloc(), false, BARE_ERROR), Some(true));
    Ok(())
}
