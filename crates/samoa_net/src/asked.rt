//! The changes of the next tick.
ghost use Rattle.std.specs.Prelude.{◌≡◌, ◌≤◌, [], ◌∷◌, ◌++◌, OnOk, OnErr, filter, length, take};
ghost use Rattle.samoa_serial.specs.Batch.{is_up as up};
ghost use Rattle.samoa_net.specs.Gathered.{most_kept};

use crate::status::is_up;
use samoa_model::{Ext, NoMemory, Script};

/// How many messages, and how many changes, of a tick are kept.
pub const MOST_KEPT: usize = 100_001;

/// Keeps a change, where its node is up then and fewer than the limit are kept.
pub fn keep_change(asked: &mut Vec<Ext>, script: &Script, change: Ext) -> Result<(), NoMemory>
    requires { length asked.old.items ≤ most_kept }
    ensures few { length asked.new.items ≤ most_kept }
    ensures kept { OnOk result (asked.new.items ≡ take most_kept (asked.old.items ++ filter (up script.now change.tick) (change ∷ []))) }
    ensures err { OnErr result (asked.new.items ≡ asked.old.items) }
{
    if asked.len() < MOST_KEPT && is_up(script, &change, change.tick) {
        asked.push(change)?;
    }
    Ok(())
}
