// The second pass over the script: its frames are run, and what they put out is printed.
// specs/Held.antt says in which sense its turns are events of a host.
// Stays: layout, image and session are parameters of their own, as `flashrules::layout` says.
ghost use Rattle.std.specs.Prelude.{◌≡◌, ◌+◌, ◌-◌, ◌≤◌, true, length, take};
ghost use Rattle.flashrules.specs.Layout.{fits};
ghost use Rattle.scriptrules.specs.Parser.{parser};
ghost use Rattle.scriptrules.specs.Session.{report_number, runner, fresh_runner};
ghost use Rattle.scripthost.specs.Checked.{ScriptChecked};
ghost use Rattle.scripthost.specs.Held.{held, Longer, Turned, Passed};

use crate::script_file::Parsed;
use flashrules::layout::Layout;
use framerunner::session::begin;
use gaugerules::state::BOOT_SEALED;
use gaugestate::state::power_on;
use hostio::input::{CHUNK, read_some};
use hostio::output::print;
use scriptrules::session::{Report, Session};
use scriptrunner::run::run;
use std::io::Read;

// The session, which bytes of the buffer are text that has come and was not run, and how many
// characters were read in all, modulo 2^64.
// Stays: two ends and no slice. The text moves in the buffer, which is lent from turn to turn.
#[derive(Clone, Copy)]
struct Pending {
    session: Session,
    from: usize,
    to: usize,
    read: u64,
}

// The text that is held goes to the front of the buffer; how long it is.
fn keep(buffer: &mut [u8], from: usize, to: usize) -> usize
    requires { (from ≤ to) × (to ≤ length buffer.old) }
    ensures { (result ≡ to - from) × (take result buffer.new ≡ held buffer.old from to) }
{
    buffer.copy_within(from..to, 0);
    to - from
}

// More text is read behind the buffer's first bytes, which stay: how much, 0 where a read fails.
fn read_behind<R: Eprint + AllocGlobal, F: Read>(
    rt: &R,
    file: &mut F,
    buffer: &mut [u8],
    kept: usize,
) -> usize
    requires { kept ≤ length buffer.old }
    ensures count_in_bounds { kept + result ≤ length buffer.old }
    ensures buffer_unchanged { take kept buffer.new ≡ take kept buffer.old }
{
    read_some(rt, file, b"script.hex", &mut buffer[kept..]).unwrap_or(0)
}

// More text is read behind what is held, which goes to the front of the buffer; whether any came.
#[tactic(auto, using(crate::proofs::HeldLaws::refills))]
fn refill<R: Eprint + AllocGlobal, F: Read>(
    rt: &R,
    file: &mut F,
    pending: &mut Pending,
    buffer: &mut [u8],
) -> bool
    requires { (pending.old.from ≤ pending.old.to) × (pending.old.to ≤ length buffer.old) }
    ensures from_start { pending.new.from ≡ 0 }
    ensures to_in_bounds { pending.new.to ≤ length buffer.old }
    ensures session_kept { pending.new.session ≡ pending.old.session }
    ensures longer { Longer (held buffer.old pending.old.from pending.old.to) (held buffer.new 0 pending.new.to) }
{
    let kept = keep(buffer, pending.from, pending.to);
    let count = read_behind(rt, file, buffer, kept);
    pending.from = 0;
    pending.to = kept + count;
    pending.read = pending.read.wrapping_add(count as u64);
    0 < count
}

// What is held is run, and what that puts out is printed; where no line of it could be run, more
// text is read. Whether to go on.
fn turn<R: Print + Eprint + AllocGlobal, F: Read>(
    rt: &R,
    file: &mut F,
    layout: Layout,
    report: Report,
    image: &mut [u8],
    pending: &mut Pending,
    buffer: &mut [u8],
    out: &mut [u8],
) -> bool
    requires { (pending.old.from ≤ pending.old.to) × (pending.old.to ≤ length buffer.old) }
    ensures from_le_to { (pending.new.from ≤ pending.new.to) × (pending.new.to ≤ length buffer.old) }
    ensures turned { Turned layout (report_number report) out.old (runner pending.old.session image.old) (held buffer.old pending.old.from pending.old.to) (runner pending.new.session image.new) (held buffer.new pending.new.from pending.new.to) }
{
    let text = &buffer[pending.from..pending.to];
    let ran = run(layout, report, image, pending.session, text, out);
    pending.session = ran.session;
    if ran.next == 0 {
        return refill(rt, file, pending, buffer);
    }
    pending.from += ran.next;
    print(rt, &out[..ran.length]).is_ok()
}

// Turn after turn, from power-on. Nothing says that a file ends, so the loop has a number of turns
// that no run uses up.
#[tactic(auto, using(crate::proofs::EventLaws::all_turns))]
fn turns<R: Print + Eprint + AllocGlobal, F: Read>(
    rt: &R,
    file: &mut F,
    layout: Layout,
    report: Report,
    image: &mut [u8],
    buffer: &mut [u8],
    out: &mut [u8],
) -> Pending
    ensures { Passed layout (report_number report) (fresh_runner image.old) image.new (result.to - result.from) }
{
    let mut pending = Pending {
        session: begin(power_on(BOOT_SEALED)),
        from: 0,
        to: 0,
        read: 0,
    };
    for _ in 0..u64::MAX {
        if !turn(rt, file, layout, report, image, &mut pending, buffer, out) {
            break;
        }
    }
    pending
}

// A script that was parsed is run, over an image of the layout. All of it is read again and nothing
// of it is held at the end, unless the file changed meanwhile.
pub(crate) fn run_script<R: Print + Eprint + AllocGlobal, F: Read>(
    rt: &R,
    file: &mut F,
    layout: Layout,
    report: Report,
    image: &mut [u8],
    parsed: Parsed,
)
    requires image_value { fits layout (length image.old) ≡ true }
    requires checked { ScriptChecked (report_number report) true (parser parsed.state) parsed.count parsed.lines }
{
    let mut buffer = [0u8; CHUNK];
    let mut out = [0u8; CHUNK];
    let end = turns(rt, file, layout, report, image, &mut buffer, &mut out);
    if end.from < end.to {
        hostio::output::report(rt, b"script.hex: not run to its end");
    } else if end.read != parsed.count {
        hostio::output::report(rt, b"script.hex: not run as it was parsed");
    }
}
