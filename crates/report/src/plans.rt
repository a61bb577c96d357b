// The plans of a catalogue: at most eight, from the first of the listing on.
ghost use Rattle.report.specs.Telling.{Unfinished, Advances, FirstKnown, AllShown, Showable, Listable, PrintedIn};

use crate::members::{self, Shown};
use crate::put::Output;
use catalogue::{Lent, Settings};

// Root 0, cargo, cycles forbidden.
const SETTINGS: Settings = Settings {
    root: 0,
    mode: plan::packages::CARGO,
    cycles: 0,
};

// The plan after the one shown last, if there is one.
fn next(lent: &Lent, here: Shown, table: &mut [u8], output: &mut Output) -> Option<Shown>
    requires { Unfinished lent.now table.old here output.old }
    ensures { Advances lent.now table.old here output.old result table.new output.new }
{
    match lister::next(lent, here.set, table) {
        Ok(listed) => {
            let plan = Shown {
                set: listed.set,
                number: here.number + 1,
            };
            members::all(lent.text, plan, output);
            Some(plan)
        }
        Err(_) => None,
    }
}

// The header and the plans, of which the first is known.
fn from_first(lent: &Lent, set: u64, table: &mut [u8], output: &mut Output)
    requires { FirstKnown lent.now set table.old output.old }
    ensures { AllShown lent.now.text.now output.old output.new }
{
    output.put(b"plan,package,version\r\n");
    let mut here = Shown { set, number: 1 };
    members::all(lent.text, here, output);
    while here.number < 8 {
        let Some(further) = next(lent, here, table, output) else {
            return;
        };
        here = further;
    }
}

// The output for a catalogue, with a plan buffer of one byte per slot.
fn answered(lent: &Lent, table: &mut [u8], output: &mut Output)
    requires { Showable lent.now table.old output.old }
    ensures { PrintedIn lent.now.text.now output.old output.new }
{
    match lister::first(lent, table) {
        Err(refusal) => output.refusal(refusal),
        Ok(listed) => from_first(lent, listed.set, table, output),
    }
}

// The output for a catalogue.
pub fn listed(text: &[u8], entries: &[u16], slots: &[u16], output: &mut Output)
    requires { Listable text.now entries.now slots.now output.old }
    ensures { PrintedIn text.now output.old output.new }
{
    let mut buffer = [0u8; 256];
    let wanted = slots.len() / 4;
    let table = &mut buffer[..wanted];
    let lent = Lent {
        entries,
        slots,
        text,
        settings: SETTINGS,
        objectives: &[0, 1, 2],
    };
    answered(&lent, table, output);
}
