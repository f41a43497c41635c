//! The real adapters.

ghost use Rattle.std.specs.Prelude.{IfOk, ◌≤◌};

use crate::outside::{put_copied, put_taken, rewrite};
use std::fmt::Debug;
use std::{fs, io};
use test_rows::{Line, part, put, put_shown, put_text};
use tp_outside::{Failed, Files, RealFiles, RealSink, RealSource, Sink, Source, write_all};

/// A reader and writer that fails in every second call.
#[derive(Drop)]
struct Flaky {
    calls: u8,
}

impl Flaky {
    fn answer(&mut self, most: usize) -> io::Result<usize>
        ensures { IfOk result (λ count. count ≤ most) }
    {
        self.calls = self.calls.wrapping_add(1);
        if self.calls % 2 == 0 {
            return Err(io::Error::from(io::ErrorKind::Other));
        }
        Ok(most.min(1))
    }
}

impl io::Read for Flaky {
    fn read(&mut self, buf: &mut [u8]) -> io::Result<usize> {
        self.answer(buf.len())
    }
}

impl io::Write for Flaky {
    fn write(&mut self, buf: &[u8]) -> io::Result<usize> {
        self.answer(buf.len())
    }

    fn flush(&mut self) -> io::Result<()> {
        Ok(())
    }
}

fn put_all_written(out: &mut Line, written: Result<(), Failed>) {
    part(out, " ");
    match written {
        Ok(()) => put(out, "all"),
        Err(Failed) => put(out, "failed"),
    }
}

/// Writes what real streams give over a reader and a writer that fail in every second call, and over a writer that is full.
pub(crate) fn put_streams(out: &mut Line) -> Option<()> {
    let mut source = RealSource::new(Flaky { calls: 0 });
    let mut sink = RealSink::new(Flaky { calls: 1 });
    let mut buffer = [0; 4];
    put_taken(out, source.read(&mut buffer));
    put_taken(out, source.read(&mut buffer));
    put_taken(out, sink.write(b"ab"));
    put_all_written(out, write_all(&mut sink, b"a"));
    let mut full = RealSink::new(io::Cursor::new([0; 2]));
    put_taken(out, full.write(b"abc"));
    put_taken(out, full.write(b"c"));
    Some(())
}

fn put_size<E: Debug>(out: &mut Line, size: &Result<Option<u64>, E>) {
    part(out, " ");
    match size {
        Ok(size) => put_shown(out, size),
        Err(error) => put_shown(out, error),
    }
}

/// Writes what real files give: a file that is rewritten, its size, its last bytes, what lies behind them, and the same once it is gone.
pub(crate) fn put_files(rt: &HostRuntime, out: &mut Line) -> io::Result<()> {
    let mut files = RealFiles::new(rt.clone()?);
    let first = "tp_outside_1.tmp";
    let second = "tp_outside_2.tmp";
    if files.write(first, b"12345").is_err() {
        put(out, "not written");
    }
    put_copied(out, rewrite(rt.alloc(), &mut files, first, second));
    put_size(out, &files.size(second));
    let mut buffer = [0; 2];
    put_taken(out, files.read_at(second, 3, &mut buffer));
    part(out, " ");
    put_text(out, &buffer);
    put_taken(out, files.read_at(second, 5, &mut buffer));
    fs::remove_file(rt, first)?;
    fs::remove_file(rt, second)?;
    put_size(out, &files.size(second));
    put_taken(out, files.read_at(second, 0, &mut buffer));
    Ok(())
}
