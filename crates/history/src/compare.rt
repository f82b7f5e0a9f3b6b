// Displays and faults compared.
ghost use Rattle.std.specs.Prelude.{◌≡◌, ℕ, true, Decides};
ghost use Rattle.display.specs.declared.words.Question.TheVariants.{Cell};
ghost use Rattle.history.specs.History.{History, Tells};
ghost use Rattle.history.specs.Compared.{AgreeOn, AgreeOnGlass, AgreeOnWindows, AgreeOnUsers, AgreeOnMacro, AgreeOnTables, AgreeOnRest, AgreeInParts, Agree};

use commands::sets::CommandSets;
use display::engine::Display;
use display::words::Question;
use panel::Panel;
use terms::fault::Fault;

fn same_at<P: Panel, Q: Panel, S: CommandSets>(
    a: &Display<P, S>,
    b: &Display<Q, S>,
    question: Question,
) -> bool
    ensures { Decides result (AgreeOn P.make Q.make a.now b.now question) }
{
    // By `==` of the two results, which are copied for it, a long life takes a fifth longer.
    match (a.ask(question), b.ask(question)) {
        (Ok(a), Ok(b)) => a == b,
        (Err(a), Err(b)) => a == b,
        _ => false,
    }
}

// (Here and below a loop and no `all`, whose proof would need the closure's contract by hand.)
fn same_row<P: Panel, Q: Panel, S: CommandSets>(
    a: &Display<P, S>,
    b: &Display<Q, S>,
    row: u8,
) -> bool
    ensures { Decides result ((x : ℕ) → AgreeOn P.make Q.make a.now b.now (Cell x row)) }
{
    for column in 1..=20 {
        if !same_at(a, b, Question::Cell { column, row }) {
            return false;
        }
    }
    true
}

// Off the two rows, and beside the twenty columns, both refuse.
fn same_glass<P: Panel, Q: Panel, S: CommandSets>(a: &Display<P, S>, b: &Display<Q, S>) -> bool
    ensures { Decides result (AgreeOnGlass P.make Q.make a.now b.now) }
{
    same_row(a, b, 1) && same_row(a, b, 2)
}

// Above window 4 there is none.
fn same_windows<P: Panel, Q: Panel, S: CommandSets>(a: &Display<P, S>, b: &Display<Q, S>) -> bool
    ensures { Decides result (AgreeOnWindows P.make Q.make a.now b.now) }
{
    for number in 0..=4 {
        if !same_at(a, b, Question::Window { number }) {
            return false;
        }
    }
    true
}

fn same_users<P: Panel, Q: Panel, S: CommandSets>(a: &Display<P, S>, b: &Display<Q, S>) -> bool
    ensures { Decides result (AgreeOnUsers P.make Q.make a.now b.now) }
{
    for code in 0..=255 {
        if !same_at(a, b, Question::User { code }) {
            return false;
        }
    }
    true
}

// A macro has eighty bytes at most.
fn same_macro<P: Panel, Q: Panel, S: CommandSets>(a: &Display<P, S>, b: &Display<Q, S>) -> bool
    ensures { Decides result (AgreeOnMacro P.make Q.make a.now b.now) }
{
    for index in 0..=80 {
        if !same_at(a, b, Question::Macro { index }) {
            return false;
        }
    }
    true
}

fn same_rest<P: Panel, Q: Panel, S: CommandSets>(a: &Display<P, S>, b: &Display<Q, S>) -> bool
    ensures { Decides result (AgreeOnRest P.make Q.make a.now b.now) }
{
    same_at(a, b, Question::Cursor)
        && same_at(a, b, Question::Lamp)
        && same_at(a, b, Question::Modes)
}

fn same_tables<P: Panel, Q: Panel, S: CommandSets>(a: &Display<P, S>, b: &Display<Q, S>) -> bool
    ensures { Decides result (AgreeOnTables P.make Q.make a.now b.now) }
{
    same_windows(a, b) && same_users(a, b) && same_macro(a, b)
}

fn same_parts<P: Panel, Q: Panel, S: CommandSets>(a: &Display<P, S>, b: &Display<Q, S>) -> bool
    ensures { Decides result (AgreeInParts P.make Q.make a.now b.now) }
{
    same_glass(a, b) && same_tables(a, b) && same_rest(a, b)
}

// Whether two displays, over panels of any make, answer every question alike, and so show the same glass.
pub fn same<P: Panel, Q: Panel, S: CommandSets>(a: &Display<P, S>, b: &Display<Q, S>) -> bool
    ensures answers { Decides result (Agree P.make Q.make a.now b.now) }
    ensures glass { result ≡ true → P.make.cells a.now.panel ≡ Q.make.cells b.now.panel }
    ensures history { History P.make Q.make S.reads }
{
    same_parts(a, b)
}

// Whether the same faults came, in the same order.
#[tactic(auto, using(crate::proofs::Said::faults_decide))]
pub fn same_faults(a: &[Fault], b: &[Fault]) -> bool
    ensures { Decides result (a.now ≡ b.now) }
{
    a == b
}

// Whether two displays, over panels of any make, show the same, and their faults are the same: as they always are where
// both lived the same events with the same settings.
pub fn same_lives<P: Panel, Q: Panel, S: CommandSets>(
    a: &Display<P, S>,
    gave: &[Fault],
    b: &Display<Q, S>,
    given: &[Fault],
) -> bool
    ensures answers { Decides result (Agree P.make Q.make a.now b.now × (gave.now ≡ given.now)) }
    ensures twins { Tells P.make Q.make S.reads a.now gave.now b.now given.now result }
    ensures history { History P.make Q.make S.reads }
{
    same(a, b) && same_faults(gave, given)
}
