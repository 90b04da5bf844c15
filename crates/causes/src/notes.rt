// Notes: what one byte changes goes in, the line of a reason comes out.
ghost use Rattle.std.specs.Prelude.{◌≡◌, not, [], ◌∷◌, if◌then◌else◌};
ghost use Rattle.flashrules.specs.Choice.{and};
ghost use Rattle.gaugerules.specs.Register.{register_of};
ghost use Rattle.gaugerules.specs.State.{is_sealed, none_loaded};
ghost use Rattle.causerules.specs.History.{step};
ghost use Rattle.causerules.specs.Cause.{sets_at};
ghost use Rattle.causerules.specs.Notes.{blank, next_line, recall, note};

use blocktransfer::is_protected;
use causerules::notes::Notes;
use causerules::reason::Reason;
use gauge::register::decode;
use gaugerules::register::Register;
use gaugerules::state::{Gauge, SEALED};
use gaugestate::state::loaded;

// Before the first line of a script.
pub fn blank() -> Notes
    ensures { result ≡ blank }
{
    Notes {
        line: 0,
        sealed: 0,
        unloaded: 0,
        protected: 0,
        class: 0,
        window: 0,
    }
}

// Of the next line.
#[tactic(auto, unfolding(causerules::specs::Notes::next_line))]
pub fn next_line(notes: Notes) -> Notes
    ensures { result ≡ next_line notes }
{
    Notes {
        line: notes.line.wrapping_add(1),
        ..notes
    }
}

// The line that is noted for a reason.
pub fn recall(notes: Notes, reason: Reason) -> u32
    ensures { result ≡ recall notes reason }
{
    match reason {
        Reason::Itself => notes.line,
        Reason::Sealed => notes.sealed,
        Reason::NothingLoaded => notes.unloaded,
        Reason::Protected => notes.protected,
        Reason::Class => notes.class,
        Reason::Window => notes.window,
    }
}

// Whether something holds after a byte that did not hold before it.
fn begins(before: bool, after: bool) -> bool
    ensures { result ≡ and (after ∷ not before ∷ []) }
{
    after && !before
}

fn is_sealed(gauge: Gauge) -> bool
    ensures { result ≡ is_sealed gauge }
{
    gauge.mode == SEALED
}

fn none_loaded(gauge: Gauge) -> bool
    ensures { result ≡ none_loaded gauge }
{
    loaded(gauge).is_none()
}

// Whether a byte that is accepted at a register writes or loads the window.
fn sets_window(register: usize) -> bool
    ensures { result ≡ sets_at (register_of register) }
{
    matches!(
        decode(register),
        Register::DataFlashBlock | Register::BlockData(_)
    )
}

// The line that is run where a byte gives a reason, and else the one that was noted.
// Stays: a flag, as the rule `noted` goes by a test.
fn noted(gives: bool, line: u32, before: u32) -> u32
    ensures { result ≡ (if gives then line else before) }
{
    if gives { line } else { before }
}

// A byte more, accepted at a register: the gauge before and after it.
#[tactic(auto, unfolding(causerules::specs::Notes::note))]
pub fn note(notes: Notes, register: usize, before: Gauge, after: Gauge) -> Notes
    ensures { result ≡ note notes (step notes.line register before after) }
{
    let line = notes.line;
    let sealed = begins(is_sealed(before), is_sealed(after));
    let unloaded = begins(none_loaded(before), none_loaded(after));
    let protected = begins(is_protected(before), is_protected(after));
    Notes {
        line,
        sealed: noted(sealed, line, notes.sealed),
        unloaded: noted(unloaded, line, notes.unloaded),
        protected: noted(protected, line, notes.protected),
        class: noted(before.class != after.class, line, notes.class),
        window: noted(sets_window(register), line, notes.window),
    }
}
