//! Laws of the chains of ready slots, one of each kind, of every run of a barred target of a proper text.

ghost use Rattle.std.specs.Prelude.{◌≡◌};
ghost use Rattle.caller_parts.specs.Settings.{Fits};
ghost use Rattle.caller_parts.specs.declared.setting.Reclamation.TheVariants.{Optimistic};
ghost use Rattle.chain_runs.specs.Slots.{SlotsAreChained};
ghost use Rattle.chain_runs.specs.Tops.{TopsHaveStood};

use barrier_check::Barred;
use caller_steps::Setting;

/// For a proper text, under optimistic access, in each state of each run: a slot is ready exactly if it stands in the chain of its kind,
/// or a caller has taken it from there and hasn't stored that it is used, or a caller pushes it; and that is one caller alone. A claim's
/// exchange that finds the head of its kind as it expects it takes the slot from the kind's chain, and a push's puts its slot on the chain
/// of the slot's kind.
pub fn slots_are_chained(barred: &Barred, setting: &Setting)
    requires fits { Fits barred.now.target setting.now }
    requires optimistic { setting.now.reclamation ≡ Optimistic }
    ensures { SlotsAreChained barred.now.target barred.now.source setting.now }
{
    barred.kept();
    setting.kept();
}

/// For a proper text, under optimistic access: an exchange on a kind's head word expects what its caller's last load of it found. If the
/// head word is again what a caller's last load found, and a slot is on top, that slot has stood in the kind's chain at each moment since,
/// and its link is unchanged. And a slot that was taken from under a head with a phase is pushed again only under a greater one.
pub fn tops_have_stood(barred: &Barred, setting: &Setting)
    requires fits { Fits barred.now.target setting.now }
    requires optimistic { setting.now.reclamation ≡ Optimistic }
    ensures { TopsHaveStood barred.now.target barred.now.source setting.now }
{
    barred.kept();
    setting.kept();
}
