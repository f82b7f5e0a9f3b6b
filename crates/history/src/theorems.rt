// Each function's contract is a theorem; it has no other use.
ghost use Rattle.history.specs.Bounds.{Bounds};
ghost use Rattle.history.specs.History.{History};
ghost use Rattle.history.specs.Malformed.{Malformed};
ghost use Rattle.history.specs.Named.{Named};

use commands::sets::CommandSets;
use panel::Panel;

// Every display shows what the rules say of its settings, bytes and ticks, and nothing else: over panels of any two
// makes, in any pieces, from the recall on, and inside the current window.
pub fn history_holds<P: Panel, Q: Panel, S: CommandSets>()
    ensures { History P.make Q.make S.reads }
{}

// A malformed command is dropped, the host's or the macro's, and a refused one changes nothing.
pub fn malformed_holds<S: CommandSets>()
    ensures { Malformed S.reads }
{}

// A recording, a macro, the windows and the cursor stay within their bounds in every life.
pub fn bounds_hold<P: Panel, S: CommandSets>()
    ensures { Bounds P.make S.reads }
{}

// Every fault of a refused command names it by the two bytes that the command set gives for the cause.
pub fn faults_are_named<P: Panel, S: CommandSets>()
    ensures { Named P.make S.reads }
{}
