// Heads and bodies at their limits, and heads that are refused.
use crate::taking::first_of;
use rw_http::Taken;
use std::alloc::{AllocError, Global};
use std::test::Fail;

// A head whose one field makes it so many bytes long.
fn head_of(alloc: Global, size: usize) -> Result<Vec<u8>, AllocError> {
    let mut bytes = Vec::from_slice(alloc, b"GET / HTTP/1.1\r\nA: ")?;
    for _byte in 23..size {
        bytes.extend_from_slice(b"x")?;
    }
    bytes.extend_from_slice(b"\r\n\r\n")?;
    Ok(bytes)
}

#[test]
fn heads_of_8192_and_8193_bytes(rt: HostRuntime) -> Result<(), Fail> {
    let head = head_of(rt.alloc(), 8192)?;
    assert_eq!(rt; head.len(), 8192);
    assert!(rt; matches!(first_of(rt.alloc(), &head)?, Taken::Request(_)));
    let head = head_of(rt.alloc(), 8193)?;
    assert_eq!(rt; head.len(), 8193);
    assert!(rt; matches!(first_of(rt.alloc(), &head)?, Taken::BadHead));
    // The end is missing in both of these, and one has 8192 bytes.
    assert!(rt;
        matches!(
            first_of(rt.alloc(), &head[..head.len().min(8192)])?,
            Taken::BadHead
        )
    );
    assert!(rt;
        matches!(
            first_of(rt.alloc(), &head[..head.len().min(8191)])?,
            Taken::Cut
        )
    );
    Ok(())
}

// A head with so many fields.
fn head_with(alloc: Global, fields: usize) -> Result<Vec<u8>, AllocError> {
    let mut bytes = Vec::from_slice(alloc, b"GET / HTTP/1.1\r\n")?;
    for _field in 0..fields {
        bytes.extend_from_slice(b"A:\r\n")?;
    }
    bytes.extend_from_slice(b"\r\n")?;
    Ok(bytes)
}

#[test]
fn heads_of_64_and_65_headers(rt: HostRuntime) -> Result<(), Fail> {
    let taken = first_of(rt.alloc(), &head_with(rt.alloc(), 64)?)?;
    assert!(rt; matches!(taken, Taken::Request(_)), "{taken:?}");
    let taken = first_of(rt.alloc(), &head_with(rt.alloc(), 65)?)?;
    assert!(rt; matches!(taken, Taken::BadHead), "{taken:?}");
    Ok(())
}

#[test]
fn bodies_of_65536_and_65537_bytes(rt: HostRuntime) -> Result<(), Fail> {
    let mut bytes = Vec::from_slice(
        rt.alloc(),
        b"POST /query HTTP/1.1\r\nContent-Length: 0065536\r\n\r\n",
    )?;
    bytes.resize(49 + 65_536, b'x')?;
    match first_of(rt.alloc(), &bytes)? {
        Taken::Request(request) => assert_eq!(rt; request.body.as_slice().len(), 65_536),
        other => assert!(rt; false, "{other:?}"),
    }
    // It is refused before a byte of its body comes.
    let taken = first_of(
        rt.alloc(),
        b"POST /query HTTP/1.1\r\nContent-Length: 65537\r\n\r\n",
    )?;
    assert!(rt; matches!(taken, Taken::TooLong), "{taken:?}");
    Ok(())
}

#[test]
fn heads_that_are_refused(rt: HostRuntime) -> Result<(), Fail> {
    for fields in [
        "Content-Length: 12x\r\n",
        "Content-Length:\r\n",
        "Content-Length: +1\r\n",
        "Content-Length: 1 1\r\n",
        "Content-Length: 1\r\nCONTENT-LENGTH: 1\r\n",
        "Content-Length: 65537\r\ncontent-length: 1\r\n",
        "Transfer-Encoding: chunked\r\n",
        "Content-Length: 65537\r\nTRANSFER-encoding:\r\n",
        "A : 1\r\n",
        "A\r\n",
        " A: 1\r\n",
    ] {
        let mut bytes = Vec::from_slice(rt.alloc(), b"POST / HTTP/1.1\r\n")?;
        bytes.extend_from_slice(fields.as_bytes())?;
        bytes.extend_from_slice(b"\r\nx")?;
        let taken = first_of(rt.alloc(), &bytes)?;
        assert!(rt; matches!(taken, Taken::BadHead), "{taken:?} of {fields}");
    }
    Ok(())
}
