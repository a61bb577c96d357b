// The refusals of what is set for a call: 5, the root; 6, the mode, the cycles and the objectives; 7, the plan buffer's size.
ghost use Rattle.basis.specs.Tests.{Decides};
ghost use Rattle.catalogue.specs.Refusals.{RootMissing, ModeUnknown, CyclesUnknown, ObjectivesMisnumbered, ObjectiveUnknown, ObjectiveTwice, BufferMisfits};
ghost use Rattle.catalogue.specs.Parts.{entries_with, settings_alone, objectives_alone, slots_alone};

use crate::Settings;
use crate::twice::stands_twice;

// 5: the root is no entry.
pub fn root_missing(entries: &[u16], settings: Settings) -> bool
    ensures { Decides result (RootMissing (entries_with entries.now settings)) }
{
    usize::from(settings.root) >= entries.len() / 5
}

// 6: a mode above 2.
pub fn mode_unknown(settings: Settings) -> bool
    ensures { Decides result (ModeUnknown (settings_alone settings)) }
{
    settings.mode > 2
}

// 6: cycles above 1.
pub fn cycles_unknown(settings: Settings) -> bool
    ensures { Decides result (CyclesUnknown (settings_alone settings)) }
{
    settings.cycles > 1
}

// 6: no objective, or over three.
pub fn objectives_misnumbered(objectives: &[u8]) -> bool
    ensures { Decides result (ObjectivesMisnumbered (objectives_alone objectives.now)) }
{
    objectives.is_empty() || objectives.len() > 3
}

// 6: a code above 2.
pub fn objective_unknown(objectives: &[u8]) -> bool
    ensures { Decides result (ObjectiveUnknown (objectives_alone objectives.now)) }
{
    objectives.iter().any(|code| *code > 2)
}

// 6: a code twice.
pub fn objective_twice(objectives: &[u8]) -> bool
    ensures { Decides result (ObjectiveTwice (objectives_alone objectives.now)) }
{
    stands_twice(objectives)
}

// 7: a plan buffer of another size than one byte per slot.
pub fn buffer_misfits(slots: &[u16], room: usize) -> bool
    ensures { Decides result (BufferMisfits (slots_alone slots.now) room) }
{
    room != slots.len() / 4
}
