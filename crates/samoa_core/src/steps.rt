//! Who begins the next handler step.
ghost use Rattle.std.specs.Prelude.{◌≡◌, ℕ, ◌<◌, ◌≤◌, ◌+◌, IfSome, IfNone};
ghost use Rattle.samoa_model.specs.declared.record.Step.{Step};
ghost use Rattle.samoa_invariant.specs.Runs.{IsDue};
ghost use Rattle.samoa_core.specs.Indexed.{IsIndexedBy};

use crate::index::{Index, comp_at};
use samoa_control::Control;
use samoa_micro::Micro;
use samoa_versions::Steps;
use std::sync::ledger::{Blank, Ledger};

/// The least computation whose next handler step is due, by a counter that is opened for it.
pub(crate) fn pick_by<B: Micro, L: Ledger>(
    control: &Control<B>,
    index: &Index,
    blank: Blank,
) -> Option<u32>
    requires indexed { IsIndexedBy control.now index.now }
    requires name { blank.name ≡ L.name }
    requires parts { blank.parts ≡ L.parts }
    requires some { 0 < blank.parts }
    ensures due { IfSome result (λ comp. (micro : ℕ) × IsDue control.now (Step.Enter comp micro)) }
    ensures least { IfSome result (λ comp. (earlier micro : ℕ) → earlier < comp → IsDue control.now (Step.Enter earlier micro) → ⊥) }
    ensures none { IfNone result ((comp micro : ℕ) → IsDue control.now (Step.Enter comp micro) → ⊥) }
{
    let mut steps = Steps::<L>::new(blank);
    pick_counted(control, index, &mut steps)
}

/// The least computation whose next handler step is due, by at most three probes.
pub(crate) fn pick_counted<B: Micro, L: Ledger>(
    control: &Control<B>,
    index: &Index,
    steps: &mut Steps<L>,
) -> Option<u32>
    requires indexed { IsIndexedBy control.now index.now }
    ensures due { IfSome result (λ comp. (micro : ℕ) × IsDue control.now (Step.Enter comp micro)) }
    ensures least { IfSome result (λ comp. (earlier micro : ℕ) → earlier < comp → IsDue control.now (Step.Enter earlier micro) → ⊥) }
    ensures none { IfNone result ((comp micro : ℕ) → IsDue control.now (Step.Enter comp micro) → ⊥) }
    ensures cost { steps.new ≤ steps.old + 3 }
{
    control.recall();
    if control.stopped() {
        return None;
    }
    match index.least_ready(steps) {
        Some(at) => Some(comp_at(at, control.cleared())),
        None => None,
    }
}
