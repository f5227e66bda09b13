//! What is written, and that it is read back.
use crate::reading::{requests_of, responses_of};
use as4_flow::MemorySource;
use as4_http::{HttpRefusal, Intake, fixed_response, write_kept, write_request, write_response};
use as4_values::Text;
use std::alloc::{AllocError, Global};
use std::test::Fail;

#[test]
fn a_request_is_written_and_read_back(rt: HostRuntime) -> Result<(), Fail> {
    let alloc = rt.alloc();
    let address = Text::read(alloc, b"http://h:1/p").ok().ok_or("no text")?;
    assert!(rt; as4_values::has_address_form(address.bytes()));
    let text = write_request(alloc, &address, None, b"")
        .ok()
        .ok_or("no memory")?;
    assert_eq!(rt;
        text.bytes(),
        b"POST /p HTTP/1.1\r\nHost: h:1\r\nContent-Length: 0\r\nConnection: close\r\n\r\n".as_slice()
    );
    let mut source = MemorySource::of(text.into_vec(), Vec::new(alloc), Vec::new(alloc));
    assert_eq!(rt;
        requests_of(alloc, &mut source)?.as_slice(),
        b"P/p|-||.;C".as_slice()
    );
    Ok(())
}

#[test]
fn an_entry_of_an_inbox_is_asked_for(rt: HostRuntime) -> Result<(), Fail> {
    let alloc = rt.alloc();
    let address = Text::read(alloc, b"http://h/inbox/0")
        .ok()
        .ok_or("no text")?;
    assert!(rt; as4_values::has_address_form(address.bytes()));
    let text = write_request(alloc, &address, None, b"")
        .ok()
        .ok_or("no memory")?;
    assert_eq!(rt;
        text.bytes(),
        b"GET /inbox/0 HTTP/1.1\r\nHost: h\r\nContent-Length: 0\r\nConnection: close\r\n\r\n".as_slice()
    );
    Ok(())
}

#[test]
fn responses_are_written_and_read_back(rt: HostRuntime) -> Result<(), Fail> {
    let alloc = rt.alloc();
    let mut bytes = write_kept(alloc, 200, Some(b"a/b"), b"hi")
        .ok()
        .ok_or("no memory")?
        .into_vec();
    bytes.extend_from_slice(
        write_response(alloc, 404, None, b"no")
            .ok()
            .ok_or("no memory")?
            .bytes(),
    )?;
    bytes.extend_from_slice(fixed_response(413))?;
    let mut source = MemorySource::of(bytes, Vec::new(alloc), Vec::new(alloc));
    assert_eq!(rt;
        responses_of(alloc, &mut source)?.as_slice(),
        b"200|a/b|hi;404|-|no;413|-|;C".as_slice()
    );
    Ok(())
}

// What `begin` answers of these bytes, where this call fails, and how many bytes of the source are left.
fn begun(
    alloc: Global,
    bytes: &[u8],
    failing: u64,
) -> Result<(Result<bool, HttpRefusal>, usize), AllocError> {
    let bytes = Vec::from_slice(alloc, bytes)?;
    let failing = Vec::from_slice(alloc, &[failing])?;
    let mut source = MemorySource::of(bytes, Vec::from_slice(alloc, &[1])?, failing);
    match Intake::new(alloc).begin(&mut source) {
        Ok((begins, _)) => Ok((Ok(begins), source.rest().len())),
        Err(refusal) => Ok((Err(refusal), source.rest().len())),
    }
}

#[test]
fn a_further_request_begins_where_a_byte_comes(rt: HostRuntime) -> Result<(), Fail> {
    let alloc = rt.alloc();
    assert_eq!(rt; begun(alloc, b"GET", 2)?, (Ok(true), 2));
    assert_eq!(rt; begun(alloc, b"", 2)?, (Ok(false), 0));
    assert_eq!(rt; begun(alloc, b"GET", 1)?, (Err(HttpRefusal::ReadFault), 3));
    Ok(())
}

// What is read where the second call fails, and the first piece ends inside the head.
fn failed(alloc: Global) -> Result<Vec<u8>, AllocError> {
    let bytes = Vec::from_slice(alloc, b"GET / HTTP/1.1\r\n\r\n")?;
    let mut source = MemorySource::of(
        bytes,
        Vec::from_slice(alloc, &[5])?,
        Vec::from_slice(alloc, &[2])?,
    );
    requests_of(alloc, &mut source)
}

#[test]
fn a_fault_inside_a_head_is_a_fault(rt: HostRuntime) -> Result<(), Fail> {
    assert_eq!(rt; failed(rt.alloc())?.as_slice(), b"F".as_slice());
    Ok(())
}
