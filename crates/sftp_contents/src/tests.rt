//! Contents of which most was never written. That there is memory for them is what no contract says.
use crate::contents::FileBytes;
use sftp_path::NoMemory;
use sftp_streams::Tally;
use std::alloc::Global;
use std::test::Fail;

/// 1 TiB, for which there is no memory.
const TIB: u64 = 1 << 40;

/// A content of 1 TiB with `abc` in its middle.
fn hollow(alloc: Global) -> Result<FileBytes, NoMemory> {
    let mut content = FileBytes::new(Vec::new(alloc));
    content.resize(TIB)?;
    content.write_at(TIB / 2, b"abc")?;
    Ok(content)
}

/// Whether such a content has these bytes from an offset on.
fn has(content: &Result<FileBytes, NoMemory>, offset: u64, bytes: &[u8]) -> bool {
    match content {
        Ok(content) => content.range(offset, bytes.len() as u64).is(bytes),
        Err(NoMemory) => false,
    }
}

/// Zeros that were never written take no memory: at the start, around what was written, and at the end.
#[test]
fn zeros_take_no_memory(rt: HostRuntime) -> Result<(), Fail> {
    let content = hollow(rt.alloc());
    let start = has(&content, 0, b"\0\0\0");
    let middle = has(&content, TIB / 2 - 1, b"\0abc\0");
    let end = has(&content, TIB - 2, b"\0\0");
    drop(content);
    assert!(rt; start && middle && end);
    Ok(())
}

/// Sevens and a nine, 40,000 bytes.
fn block(alloc: Global) -> Result<Vec<u8>, NoMemory> {
    let mut block = Vec::new(alloc);
    block.resize(39_999, 7)?;
    block.push(9)?;
    Ok(block)
}

/// Writes a block of 40,000 bytes, and no other.
fn put(content: &mut FileBytes, at: u32, block: &[u8]) -> Result<(), NoMemory> {
    if block.len() != 40_000 {
        return Err(NoMemory);
    }
    content.write_at(u64::from(at), block)
}

/// Whether three blocks that are appended are read where a page ends, where a block ends, and where all end.
fn appends(alloc: Global) -> Result<bool, NoMemory> {
    let mut content = FileBytes::new(Vec::new(alloc));
    let block = block(alloc)?;
    put(&mut content, 0, block.as_slice())?;
    put(&mut content, 40_000, block.as_slice())?;
    put(&mut content, 80_000, block.as_slice())?;
    let across = content.range(65_534, 4).is(&[7, 7, 7, 7]);
    let within = content.range(79_999, 2).is(&[9, 7]);
    let last = content.range(119_999, 9).is(&[9]);
    Ok(across && within && last)
}

/// What is appended goes on from page to page.
#[test]
fn appends_from_page_to_page(rt: HostRuntime) -> Result<(), Fail> {
    let appended = appends(rt.alloc())?;
    assert!(rt; appended);
    Ok(())
}

/// Whether a content of 70,000 bytes, two of them written, is sent whole.
fn is_sent(alloc: Global, content: &FileBytes) -> bool {
    let mut sink = Tally::new(Vec::new(alloc));
    let sent = content.send(&mut sink).is_ok();
    let copy = FileBytes::new(sink.into_inner());
    sent && copy.len() == 70_000 && copy.range(68_999, 3).is(b"\0no")
}

/// Whether such a content is sent whole, and what is left of it after it was cut and has grown again.
fn sends(alloc: Global) -> Result<bool, NoMemory> {
    let mut content = FileBytes::new(Vec::new(alloc));
    content.resize(70_000)?;
    content.write_at(69_000, b"no")?;
    let sent = is_sent(alloc, &content);
    content.resize(69_001)?;
    content.resize(70_000)?;
    Ok(sent && content.range(69_000, 2).is(b"n\0"))
}

/// A content is sent with its zeros, and those that were cut are zeros when it grows again.
#[test]
fn sends_zeros(rt: HostRuntime) -> Result<(), Fail> {
    let sent = sends(rt.alloc())?;
    assert!(rt; sent);
    Ok(())
}
