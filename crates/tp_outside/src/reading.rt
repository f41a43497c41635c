ghost use Rattle.std.specs.Prelude.{◌≡◌, ◌<◌, ◌≤◌, take, Err, IfOk, IfSome, OnErr, vec_len};
ghost use Rattle.std.specs.Option.{option_map};
ghost use Rattle.tp_outside.specs.Faults.{HasRisen};
ghost use Rattle.std.specs.Io.KnownBytes.{prepend_known, IsAtEnd};
ghost use Rattle.tp_outside.specs.Folder.{bytes_of};
ghost use Rattle.tp_outside.specs.Streams.{GaveSome};

use crate::faults::ReadError;
use crate::folders::Files;
use crate::sources::Source;
use std::alloc::Global;

/// How many bytes are asked for at a time.
const CHUNK: usize = 4096;

/// All bytes of a file, or None where there is no such file: what is read from its front until its size is
/// reached or a read gives nothing.
pub fn read_file<F: Files>(
    alloc: Global,
    files: &mut F,
    name: &str,
) -> Result<Option<Vec<u8>>, ReadError>
    ensures told { IfSome (F.folder files.old) (λ held.
        IfOk result (λ found. option_map (λ bytes. bytes.items) found ≡ held name.now)) }
    ensures unchanged { F.folder files.new ≡ F.folder files.old }
    ensures counted { F.faults files.old ≤ F.faults files.new }
    ensures failed { result ≡ Err ReadError.Failed → HasRisen (F.faults files.old) (F.faults files.new) }
{
    match files.size(name)? {
        None => Ok(None),
        Some(size) => Ok(Some(read_prefix(alloc, files, name, size)?)),
    }
}

/// The first `size` bytes of a file, fewer where a read gives nothing before. A file that isn't there has no
/// bytes.
pub fn read_prefix<F: Files>(
    alloc: Global,
    files: &mut F,
    name: &str,
    size: u64,
) -> Result<Vec<u8>, ReadError>
    ensures told { IfSome (F.folder files.old) (λ held.
        IfOk result (λ bytes. bytes.items ≡ take size (bytes_of held name.now))) }
    ensures unchanged { F.folder files.new ≡ F.folder files.old }
    ensures counted { F.faults files.old ≤ F.faults files.new }
    ensures failed { result ≡ Err ReadError.Failed → HasRisen (F.faults files.old) (F.faults files.new) }
{
    let mut bytes = Vec::new(alloc);
    let mut chunk = [0; CHUNK];
    let mut at = 0;
    while at < size {
        let room = (size - at).min(CHUNK as u64) as usize;
        let count = files.read_at(name, at, &mut chunk[..room])?;
        if count == 0 {
            return Ok(bytes);
        }
        bytes.extend_from_slice(&chunk[..count])?;
        at += count as u64;
    }
    Ok(bytes)
}

/// The next bytes of a source: `limit` of them, or fewer where it ends before. After an error some bytes may
/// have been given and are lost.
pub fn read_source<S: Source>(
    alloc: Global,
    source: &mut S,
    limit: usize,
) -> Result<Vec<u8>, ReadError>
    ensures given { IfOk result (λ bytes.
        S.remaining source.old ≡ prepend_known bytes.items (S.remaining source.new)) }
    ensures bound { IfOk result (λ bytes. vec_len bytes ≤ limit) }
    ensures ended { IfOk result (λ bytes. vec_len bytes < limit → IsAtEnd (S.remaining source.new)) }
    ensures lost { OnErr result (GaveSome (S.remaining source.old) (S.remaining source.new)) }
    ensures counted { S.faults source.old ≤ S.faults source.new }
    ensures failed { result ≡ Err ReadError.Failed → HasRisen (S.faults source.old) (S.faults source.new) }
{
    let mut bytes = Vec::new(alloc);
    let mut chunk = [0; CHUNK];
    while bytes.len() < limit {
        let room = (limit - bytes.len()).min(CHUNK);
        let count = source.read(&mut chunk[..room])?;
        if count == 0 {
            return Ok(bytes);
        }
        bytes.extend_from_slice(&chunk[..count])?;
    }
    Ok(bytes)
}
