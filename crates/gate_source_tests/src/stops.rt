//! Who stops the sources.
ghost use Rattle.std.specs.Prelude.{◌≡◌, IfOk, Some};
ghost use Rattle.gate_source.specs.Stops.{IsNoteOf};

use gate_record::Memory;
use gate_source::{StopCause, StopCell, StopNote};
use std::process::Abort;
use std::test::Fail;
use std::thread;
use std::thread::Threads;

// Sees which cause stands once this one was asked for.
fn request(
    rt: &impl Abort,
    cell: &StopCell,
    note: &mut StopNote,
    cause: StopCause,
    wanted: StopCause,
)
    requires { IsNoteOf cell.now note.old }
    ensures { IsNoteOf cell.now note.new }
{
    assert!(rt; cell.request(note, cause) == Ok(wanted));
}

fn see(rt: &impl Abort, cell: &StopCell, note: &mut StopNote, wanted: Option<StopCause>)
    requires { IsNoteOf cell.now note.old }
    ensures { IsNoteOf cell.now note.new }
{
    assert!(rt; cell.seen(note) == wanted);
}

#[test]
fn the_first_cause_stays(rt: HostRuntime) {
    let cell = StopCell::new(rt.alloc());
    let mut note = cell.note();
    let mut other = cell.note();
    see(&rt, &cell, &mut note, None);
    see(&rt, &cell, &mut other, None);
    request(&rt, &cell, &mut note, StopCause::Caller, StopCause::Caller);
    request(&rt, &cell, &mut note, StopCause::Port, StopCause::Caller);
    see(&rt, &cell, &mut note, Some(StopCause::Caller));
    request(&rt, &cell, &mut other, StopCause::Port, StopCause::Caller);
    has_caller(&rt, &cell, note);
}

// Sees that a fresh note finds the cause that this one knows.
fn has_caller(rt: &impl Abort, cell: &StopCell, mut note: StopNote)
    requires { IsNoteOf cell.now note }
{
    let mut fresh = cell.note();
    assert!(rt; cell.seen(&mut fresh) == Some(StopCause::Caller));
    assert!(rt; cell.seen(&mut note) == Some(StopCause::Caller));
    note.agree(&mut fresh);
}

#[test]
fn the_port_may_be_first(rt: HostRuntime) {
    let cell = StopCell::new(rt.alloc());
    let mut note = cell.note();
    request(&rt, &cell, &mut note, StopCause::Port, StopCause::Port);
    let mut other = cell.note();
    request(&rt, &cell, &mut other, StopCause::Caller, StopCause::Port);
    see(&rt, &cell, &mut note, Some(StopCause::Port));
}

// Asks with a note of its own.
fn ask(cell: &StopCell, cause: StopCause) -> Result<(StopCause, StopNote), Memory>
    ensures { IfOk result (λ asked. IsNoteOf cell.now asked.1 × (asked.1.cause ≡ Some asked.0)) }
{
    let mut note = cell.note();
    let held = cell.request(&mut note, cause)?;
    Ok((held, note))
}

// Two threads that ask at once get the same answer.
fn race<R: Threads + Sync>(rt: &R, cell: &StopCell) -> Result<(StopCause, StopCause), Memory>
    ensures { IfOk result (λ held. held.0 ≡ held.1) }
{
    let (port, caller) = thread::join(
        rt,
        move || -> Result<(StopCause, StopNote), Memory>
            ensures { IfOk result (λ asked. IsNoteOf cell.entry.now asked.1 × (asked.1.cause ≡ Some asked.0)) }
        { ask(cell, StopCause::Port) },
        move || -> Result<(StopCause, StopNote), Memory>
            ensures { IfOk result (λ asked. IsNoteOf cell.entry.now asked.1 × (asked.1.cause ≡ Some asked.0)) }
        { ask(cell, StopCause::Caller) },
    );
    let (port, mut note) = port?;
    let (caller, mut other) = caller?;
    note.agree(&mut other);
    Ok((port, caller))
}

#[test]
fn threads_get_one_cause(rt: HostRuntime) -> Result<(), Fail> {
    for _round in 0..100u32 {
        one_cause(&rt, &StopCell::new(rt.alloc()))?;
    }
    Ok(())
}

fn one_cause<R: Threads + Abort + Sync>(rt: &R, cell: &StopCell) -> Result<(), Fail> {
    let (port, caller) = race(rt, cell)?;
    let mut note = cell.note();
    assert!(rt; port == caller && cell.seen(&mut note) == Some(port));
    Ok(())
}
