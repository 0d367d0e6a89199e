use crate::put_printed;
use gd_base::{CallList, MemSink, Page, flush};
use std::test::Fail;

#[test]
fn every_byte_is_printed(rt: HostRuntime) -> Result<(), Fail> {
    let alloc = rt.alloc();
    let mut bytes = Vec::new(alloc);
    let mut expected = String::new(alloc);
    for byte in 0..=255u8 {
        bytes.push(byte)?;
        match byte {
            b'"' => expected.push_str("\\\"")?,
            b'\\' => expected.push_str("\\\\")?,
            0x20..=0x7e => expected.push(char::from(byte))?,
            _ => expected.push_str(format!(in alloc; "\\{byte:03o}")?.as_str())?,
        }
    }
    let mut out = MemSink::new(alloc, CallList::from_slice(alloc, &[])?);
    let mut page = Page::new();
    put_printed(&mut page, &bytes, &mut out).map_err(|_| "a put")?;
    flush(&mut page, &mut out).map_err(|_| "a flush")?;
    assert_eq!(rt; out.bytes(), expected.as_bytes());
    Ok(())
}
