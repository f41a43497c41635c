//! Sources, sinks and files in memory, whose calls fail that are listed.

use std::alloc::Global;
use test_rows::{Line, number, part, put, put_numbered, put_shown, put_text};
use tp_outside::{
    Failed, Files, MemoryFiles, MemorySink, MemorySource, ReadError, Sink, Source, WriteError,
    read_file, read_source, write_all,
};

/// The numbers of a list, `-` where there are none.
pub(crate) fn numbers_of(alloc: Global, text: &str) -> Option<Vec<u64>> {
    let mut numbers = Vec::new(alloc);
    for one in text.split_whitespace() {
        if one != "-" {
            numbers.push(u64::from(number(one).ok()?)).ok()?;
        }
    }
    Some(numbers)
}

/// Writes how many bytes there were, or that the call failed.
pub(crate) fn put_taken(out: &mut Line, taken: Result<usize, Failed>) {
    part(out, " ");
    match taken {
        Ok(count) => put_numbered(out, "", count as u64),
        Err(Failed) => put(out, "failed"),
    }
}

fn put_quoted(out: &mut Line, bytes: &[u8]) {
    part(out, " ");
    put(out, "'");
    put_text(out, bytes);
    put(out, "'");
}

/// Writes what four calls of a source give, which ask for four bytes each.
pub(crate) fn put_source(alloc: Global, out: &mut Line, row: &str) -> Option<()> {
    let (text, failing) = row.split_once(" | ")?;
    let failing = numbers_of(alloc, failing)?;
    let mut source = MemorySource::new(alloc, text.as_bytes(), failing.as_slice()).ok()?;
    let mut buffer = [0; 4];
    for _ in 0..4 {
        put_taken(out, source.read(&mut buffer));
    }
    Some(())
}

/// Writes what a sink takes of texts, and what it holds then: its room, the calls that fail, and the texts.
pub(crate) fn put_sink(alloc: Global, out: &mut Line, row: &str) -> Option<()> {
    let (room, rest) = row.split_once(" | ")?;
    let (failing, texts) = rest.split_once(" | ")?;
    let failing = numbers_of(alloc, failing)?;
    let room = number(room).ok()? as usize;
    let mut sink = MemorySink::new(alloc, room, failing.as_slice()).ok()?;
    for text in texts.split(',') {
        put_taken(out, sink.write(text.as_bytes()));
    }
    put_quoted(out, sink.bytes());
    Some(())
}

fn copy<S: Source, K: Sink>(
    alloc: Global,
    source: &mut S,
    sink: &mut K,
) -> Result<usize, ReadError> {
    let bytes = read_source(alloc, source, 100)?;
    write_all(sink, bytes.as_slice())?;
    Ok(bytes.len())
}

/// Reads all of a file and writes it to another one; how many bytes, none where it is not there.
pub(crate) fn rewrite<F: Files>(
    alloc: Global,
    files: &mut F,
    from: &str,
    to: &str,
) -> Result<usize, ReadError> {
    let Some(bytes) = read_file(alloc, files, from)? else {
        return Ok(0);
    };
    match files.write(to, bytes.as_slice()) {
        Ok(()) => Ok(bytes.len()),
        Err(WriteError::Failed) => Err(ReadError::Failed),
        Err(WriteError::NoMemory) => Err(ReadError::NoMemory),
    }
}

/// Writes how many bytes were copied, or why none were.
pub(crate) fn put_copied(out: &mut Line, copied: Result<usize, ReadError>) {
    part(out, " ");
    match copied {
        Ok(count) => put_numbered(out, "", count as u64),
        Err(error) => put_shown(out, &error),
    }
}

/// Copies a source to a sink twice, and writes what comes of it.
pub(crate) fn put_copies(alloc: Global, out: &mut Line, row: &str) -> Option<()> {
    let mut source = MemorySource::new(alloc, row.as_bytes(), &[]).ok()?;
    let mut sink = MemorySink::new(alloc, row.len(), &[]).ok()?;
    put_copied(out, copy(alloc, &mut source, &mut sink));
    put_quoted(out, sink.bytes());
    put_copied(out, copy(alloc, &mut source, &mut sink));
    Some(())
}

// What a file holds.
fn put_kept(out: &mut Line, files: &MemoryFiles, name: &str) {
    match files.bytes(name) {
        Some(bytes) => put_quoted(out, bytes),
        None => put(out, " none"),
    }
}

/// Rewrites a file to `b.pas` twice, and writes what comes of it: the calls that fail, its name, and what `a.pas` holds.
pub(crate) fn put_files(alloc: Global, out: &mut Line, row: &str) -> Option<()> {
    let (failing, rest) = row.split_once(" | ")?;
    let (from, text) = rest.split_once(" | ")?;
    let failing = numbers_of(alloc, failing)?;
    let mut files = MemoryFiles::new(alloc, failing.as_slice()).ok()?;
    files.put("a.pas", text.as_bytes()).ok()?;
    for _ in 0..2 {
        let copied = rewrite(alloc, &mut files, from, "b.pas");
        put_copied(out, copied);
        put_kept(out, &files, "b.pas");
    }
    Some(())
}
