//! A stock that has enough for every script.
ghost use Rattle.std.specs.Prelude.{◌≡◌, true, map, All, IfOk, OnOk, ◌++◌, ◌∷◌, []};
ghost use Rattle.samoa_micro.specs.Stocks.{HasEnough, all_kinds};

use crate::AnyKind;
use samoa_micro::{Micro, Stock};
use samoa_model::{Kind, NoMemory};
use std::alloc::Global;

/// How many microprotocols of each kind there are: the most that a script can take.
const MOST: u32 = 32;

const KINDS: [Kind; 9] = [
    Kind::Prog,
    Kind::Link,
    Kind::Fd,
    Kind::Rbcast,
    Kind::Cons,
    Kind::Abcast,
    Kind::Seqcast,
    Kind::Repl,
    Kind::Views,
];

/// A stock of as many microprotocols of each kind as any script can take, or want of memory.
pub fn full_stock(alloc: Global) -> Result<Stock<AnyKind>, NoMemory>
    ensures { IfOk result (λ stock. HasEnough stock) }
{
    Ok(Stock::new(full_boxes(alloc)?))
}

/// As many microprotocols of each kind as any script can take, each still to be set up, or want of memory.
pub fn full_boxes(alloc: Global) -> Result<Vec<AnyKind>, NoMemory>
    ensures fresh { IfOk result (λ boxes. All (λ b. (⟦<AnyKind as Micro>⟧.seen b).fresh ≡ true) boxes.items) }
    ensures enough { IfOk result (λ boxes. HasEnough (map (λ b. (⟦<AnyKind as Micro>⟧.seen b).kind) boxes.items)) }
{
    let mut boxes = Vec::new(alloc);
    for _round in 0..MOST {
        add_each(alloc, &mut boxes)?;
    }
    Ok(boxes)
}

/// Adds one of each kind.
fn add_each(alloc: Global, boxes: &mut Vec<AnyKind>) -> Result<(), NoMemory>
    requires fresh { All (λ b. (⟦<AnyKind as Micro>⟧.seen b).fresh ≡ true) boxes.old.items }
    ensures fresh { OnOk result (All (λ b. (⟦<AnyKind as Micro>⟧.seen b).fresh ≡ true) boxes.new.items) }
    ensures kinds { OnOk result (map (λ b. (⟦<AnyKind as Micro>⟧.seen b).kind) boxes.new.items ≡ map (λ b. (⟦<AnyKind as Micro>⟧.seen b).kind) boxes.old.items ++ all_kinds) }
{
    for kind in KINDS {
        boxes.push(AnyKind::new(alloc, kind))?;
    }
    Ok(())
}
