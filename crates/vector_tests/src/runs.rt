//! Runs of few rows: what they write, and how they end.
use as4_flow::MemorySink;
use as4_vectors::cases;
use conformance::{
    Case, Exchange, Play, SuiteEnd, Vector, VectorEnd, run_exchanges, run_plays, run_suite,
    run_vectors,
};
use std::alloc::{AllocError, Global};
use std::test::Fail;

/// A package of a user message with the identifier m1@a.
const MEDIA: &[u8] =
    b"multipart/related; type=\"application/soap+xml\"; boundary=\"as4-0000000000000000\"; start=\"<root-0000000000000000@as4>\"";

const BODY: &[u8] =
    b"--as4-0000000000000000\r\nContent-ID: <root-0000000000000000@as4>\r\nContent-Type: application/soap+xml; charset=UTF-8\r\nContent-Transfer-Encoding: binary\r\n\r\n<S:Envelope xmlns:S=\"http://www.w3.org/2003/05/soap-envelope\" xmlns:eb=\"http://docs.oasis-open.org/ebxml-msg/ebms/v3.0/ns/core/200704/\"><S:Header><eb:Messaging S:mustUnderstand=\"true\"><eb:UserMessage><eb:MessageInfo><eb:Timestamp>2025-01-02T03:04:05.006Z</eb:Timestamp><eb:MessageId>m1@a</eb:MessageId></eb:MessageInfo><eb:PartyInfo><eb:From><eb:PartyId>acme</eb:PartyId><eb:Role>seller</eb:Role></eb:From><eb:To><eb:PartyId>bolt</eb:PartyId><eb:Role>buyer</eb:Role></eb:To></eb:PartyInfo><eb:CollaborationInfo><eb:Service>orders</eb:Service><eb:Action>invoice</eb:Action><eb:ConversationId>c1</eb:ConversationId></eb:CollaborationInfo><eb:PayloadInfo><eb:PartInfo href=\"cid:p1@a\"></eb:PartInfo></eb:PayloadInfo></eb:UserMessage></eb:Messaging></S:Header><S:Body></S:Body></S:Envelope>\r\n--as4-0000000000000000\r\nContent-ID: <p1@a>\r\nContent-Type: text/plain\r\nContent-Transfer-Encoding: binary\r\n\r\nhello\r\n--as4-0000000000000000--\r\n";

fn sink(alloc: Global, failing: u64) -> Result<MemorySink, AllocError> {
    let failing = vec![in alloc; failing]?;
    Ok(MemorySink::of(alloc, Vec::new(alloc), failing))
}

fn package() -> Case {
    Case {
        name: "one",
        media: MEDIA,
        body: BODY,
    }
}

fn vector(want: &'static [u8]) -> Vector {
    Vector {
        case: package(),
        want,
    }
}

#[test]
fn a_case_is_written_with_its_check_line(rt: HostRuntime) -> Result<(), Fail> {
    let mut sink = sink(rt.alloc(), 0)?;
    let end = run_suite(rt.alloc(), &[package()], &mut sink);
    assert_eq!(rt; end, SuiteEnd::Done);
    assert_eq!(rt; sink.bytes(), b"one user m1@a\n".as_slice());
    Ok(())
}

#[test]
fn a_vector_with_its_check_line_is_ok(rt: HostRuntime) -> Result<(), Fail> {
    let mut sink = sink(rt.alloc(), 0)?;
    let end = run_vectors(rt.alloc(), &[vector(b"user m1@a\n")], &mut sink);
    assert_eq!(rt; end, VectorEnd::Done { differ: 0 });
    assert_eq!(rt; sink.bytes(), b"one ok\n".as_slice());
    Ok(())
}

#[test]
fn a_vector_with_another_line_differs(rt: HostRuntime) -> Result<(), Fail> {
    let mut sink = sink(rt.alloc(), 0)?;
    let rows = [vector(b"x"), vector(b"user m1@a\n"), vector(b"user m1@a")];
    let end = run_vectors(rt.alloc(), &rows, &mut sink);
    assert_eq!(rt; end, VectorEnd::Done { differ: 2 });
    assert_eq!(rt;
        sink.bytes(),
        b"one differs\none ok\none differs\n".as_slice()
    );
    Ok(())
}

#[test]
fn an_empty_stream_is_cut(rt: HostRuntime) -> Result<(), Fail> {
    let mut sink = sink(rt.alloc(), 0)?;
    let row = Exchange {
        name: "e",
        stream: b"",
        want: b"cut\n",
    };
    let end = run_exchanges(rt.alloc(), &[row], &mut sink);
    assert_eq!(rt; end, VectorEnd::Done { differ: 0 });
    assert_eq!(rt; sink.bytes(), b"e ok\n".as_slice());
    Ok(())
}

#[test]
fn an_empty_script_has_the_end_lines(rt: HostRuntime) -> Result<(), Fail> {
    let mut sink = sink(rt.alloc(), 0)?;
    let row = Play {
        name: "p",
        script: b"",
        want: b"a end 0 0 0 0 0\nb end 0 0 0 0 0\n",
    };
    let end = run_plays(rt.alloc(), &[row], &mut sink);
    assert_eq!(rt; end, VectorEnd::Done { differ: 0 });
    assert_eq!(rt; sink.bytes(), b"p ok\n".as_slice());
    Ok(())
}

#[test]
fn a_failing_sink_ends_a_suite(rt: HostRuntime) -> Result<(), Fail> {
    let mut sink = sink(rt.alloc(), 3)?;
    let end = run_suite(rt.alloc(), &cases(), &mut sink);
    assert_eq!(rt; end, SuiteEnd::WriteFault);
    assert_eq!(rt; sink.faults(), 1);
    Ok(())
}

#[test]
fn a_failing_sink_ends_a_run(rt: HostRuntime) -> Result<(), Fail> {
    let mut sink = sink(rt.alloc(), 2)?;
    let rows = [vector(b"user m1@a\n"), vector(b"user m1@a\n")];
    let end = run_vectors(rt.alloc(), &rows, &mut sink);
    assert_eq!(rt; end, VectorEnd::WriteFault);
    assert_eq!(rt; sink.bytes(), b"one ok\n".as_slice());
    Ok(())
}
