//! A session over a link, at a desk.

ghost use Rattle.std.specs.Prelude.{◌≡◌, ◌≢◌, ℕ, List};
ghost use Rattle.ground_io.specs.Causes.{Rose};
ghost use Rattle.ground_io.specs.Wires.{wire_view};
ghost use Rattle.turn_lock.specs.Journal.{IsPrefix};
ghost use Rattle.session.specs.declared.conversation.Ended.TheVariants.{ReadFault, WriteFault};
ghost use Rattle.serve.specs.AtDesk.{Goes};
ghost use Rattle.serve.specs.Served.{Served};

use crate::at_desk::AtDesk;
use crate::gate::Gate;
use desk::{Desk, Pass};
use ground_io::Link;
use session::{Ended, converse};
use std::alloc::Global;
use std::sync::Wait;

/// Answers the lines of a link, in order and before the next read, with a pass to a desk. It holds the
/// newest version first. A request that takes no turn never touches the desk. It hands each reply to
/// the link as `session::put_answer` does, tells the gate right before, and never reads more than
/// `budget` bytes. Its line buffer, of 131,072 bytes, and its first version are taken before the first
/// read. An edit whose reply could not be written stays made. The pass comes back at every end.
pub fn serve_session<R: Wait, L: Link, G: Gate>(
    rt: &R,
    alloc: Global,
    desk: &Desk,
    pass: Pass,
    link: &mut L,
    gate: &G,
    budget: u64,
) -> (Pass, Ended)
    requires { pass.table ≡ desk.now.table }
    ensures session { Served pass result.0 budget (wire_view L.left L.written L.write_order L.read_faults L.write_faults link.old, wire_view L.left L.written L.write_order L.read_faults L.write_faults link.new) result.1 }
    ensures pass { (fronts : List ℕ) × Goes pass result.0 fronts }
    ensures goes_on { IsPrefix pass.seen result.0.seen }
    ensures names { L.names link.new ≡ L.names link.old }
    ensures read_fault { result.1 ≡ ReadFault → Rose (L.read_faults link.old) (L.read_faults link.new) }
    ensures reads_passed { result.1 ≢ ReadFault → L.read_faults link.new ≡ L.read_faults link.old }
    ensures write_fault { result.1 ≡ WriteFault → Rose (L.write_faults link.old) (L.write_faults link.new) }
    ensures writes_passed { result.1 ≢ WriteFault → L.write_faults link.new ≡ L.write_faults link.old }
{
    let mut turns = AtDesk::new(rt, desk, gate, pass);
    let ended = converse(alloc, &mut turns, link, budget);
    (turns.into_pass(), ended)
}
