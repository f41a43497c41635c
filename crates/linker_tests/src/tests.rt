//! What linked programs show, and which aren't linked.

use crate::object_rows::{
    REFERENCES, SIZES, Verdict, link_verdict, reference_verdict, sizes_verdict,
};
use crate::overlay_rows::OVERLAY_PROGRAMS;
use crate::part_rows::{FILLS_MEMORY, PART_PROGRAMS, UNUSED};
use crate::plain_rows::PLAIN_PROGRAMS;
use crate::rows::ProgramRow;
use crate::running::{Left, folder, left_by, link_units, opened, program, run, written};
use dos_runner::overlay_runner::{OpenError, RunEnd};
use mz_file::Exe;
use std::alloc::{AllocError, Global};
use std::test::Fail;

/// What the program of a row leaves.
fn left(alloc: Global, row: &ProgramRow) -> Result<Left, Fail> {
    let linked = program(alloc, row)?;
    Ok(left_by(alloc, &linked)?.ok_or("it isn't opened")?)
}

/// Whether a run left what its row says.
fn shows(left: &Left, row: &ProgramRow) -> bool {
    let shown = &row.shown;
    left.output.as_slice() == shown.out
        && left.errors.as_slice() == shown.errors
        && left.end == RunEnd::Ended { code: shown.code }
        && left.counts.loads == shown.loads
        && left.counts.traps == shown.traps
        && left.counts.patched == shown.patched
}

#[test]
fn plain_programs_show_what_their_rows_say(rt: HostRuntime) -> Result<(), Fail> {
    for (name, row) in &PLAIN_PROGRAMS {
        let left = left(rt.alloc(), row)?;
        assert!(rt; shows(&left, row), "{name} {left:?}");
    }
    Ok(())
}

#[test]
fn overlays_come_and_go_as_their_rows_say(rt: HostRuntime) -> Result<(), Fail> {
    for (name, row) in &OVERLAY_PROGRAMS {
        let left = left(rt.alloc(), row)?;
        assert!(rt; shows(&left, row), "{name} {left:?}");
    }
    Ok(())
}

#[test]
fn parts_are_reached_as_their_rows_say(rt: HostRuntime) -> Result<(), Fail> {
    for (name, row) in &PART_PROGRAMS {
        let left = left(rt.alloc(), row)?;
        assert!(rt; shows(&left, row), "{name} {left:?}");
    }
    Ok(())
}

#[test]
fn an_overlay_of_which_nothing_is_reached_is_a_return(rt: HostRuntime) -> Result<(), Fail> {
    let linked = program(rt.alloc(), &UNUSED)?;
    let unused = linked.overlays.as_slice().get(1).ok_or("two overlays")?;
    assert_eq!(rt; unused.code.as_slice(), b"\xCB".as_slice());
    assert!(rt; unused.fixups.is_empty());
    Ok(())
}

/// How many paragraphs are left for a buffer.
fn paragraphs_left(exe: &Exe) -> u16 {
    let image = exe.image.len().saturating_add(15) / 16;
    let taken = (0x70 + image).saturating_add(usize::from(exe.extra));
    0xA000_usize.saturating_sub(taken).min(0xA000) as u16
}

/// How much memory a program wants that isn't opened for lack of it.
fn want(error: OpenError) -> u32 {
    match error {
        OpenError::MemoryTooSmall { need } => need,
        _ => 0,
    }
}

/// What the program whose parts are as large as they can be leaves in the largest buffer, and how much memory it wants for
/// a buffer of a paragraph more.
fn filled(alloc: Global) -> Result<(Left, Option<u32>), Fail> {
    let linked = program(alloc, &FILLS_MEMORY)?;
    let files = written(alloc, &linked)?;
    let mut folder = folder(alloc, &files)?;
    let room = paragraphs_left(&linked.exe);
    let more = opened(alloc, &files, &mut folder, Some(room.saturating_add(1)));
    let Ok(mut runner) = opened(alloc, &files, &mut folder, Some(room)) else {
        return Err(Fail::from("it isn't opened"));
    };
    Ok((run(alloc, &mut runner, &mut folder)?, more.err().map(want)))
}

#[test]
fn a_program_fills_memory(rt: HostRuntime) -> Result<(), Fail> {
    let (left, more) = filled(rt.alloc())?;
    assert!(rt; shows(&left, &FILLS_MEMORY), "{left:?}");
    assert_eq!(rt; more, Some(0xA001));
    Ok(())
}

#[test]
fn limits_are_refused_with_their_numbers(rt: HostRuntime) -> Result<(), Fail> {
    for (name, row, verdict) in &SIZES {
        assert_eq!(rt; sizes_verdict(rt.alloc(), row)?, *verdict, "{name}");
    }
    Ok(())
}

#[test]
fn references_that_do_not_fit_are_refused(rt: HostRuntime) -> Result<(), Fail> {
    for (number, (row, verdict)) in REFERENCES.iter().enumerate() {
        assert_eq!(rt; reference_verdict(rt.alloc(), row)?, *verdict, "{number}");
    }
    Ok(())
}

/// How the link ends of a program with two overlaid units, the first of which is not as it has to be for that.
fn overlaid_verdict(alloc: Global, overlayable: bool, marked: bool) -> Result<Verdict, AllocError> {
    let mut units = link_units(alloc, UNUSED.units)?;
    if let Some(unit) = units.as_mut_slice().first_mut() {
        unit.overlayable = overlayable;
        unit.marked = marked;
    }
    Ok(link_verdict(alloc, units.as_slice()))
}

#[test]
fn overlays_are_overlayable_and_marked(rt: HostRuntime) -> Result<(), Fail> {
    let alloc = rt.alloc();
    assert_eq!(rt; overlaid_verdict(alloc, true, true)?, Verdict::Linked);
    assert_eq!(rt;
        overlaid_verdict(alloc, false, true)?,
        Verdict::NotOverlayable
    );
    assert_eq!(rt; overlaid_verdict(alloc, true, false)?, Verdict::OldFrames);
    assert_eq!(rt;
        overlaid_verdict(alloc, false, false)?,
        Verdict::NotOverlayable
    );
    Ok(())
}
