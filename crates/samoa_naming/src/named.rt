//! Lists of parts that have names.
ghost use Rattle.std.specs.Prelude.{◌≡◌, map, bytes_eq};
ghost use Rattle.std.specs.List.{list_any};
ghost use Rattle.samoa_grammar.specs.Passes.{twice as first_twice};
ghost use Rattle.samoa_naming.specs.Finds.{Finds};

use crate::faults::twice;
use samoa_form::Stop;
use samoa_grammar::{BoundDraft, ChangeDraft, DeclDraft, EventDraft, MicroDraft, TableDraft};
use samoa_model::{CodeDef, Name};

/// What has a name.
pub trait Named {
    ghost use Rattle.std.specs.Prelude.{ℕ, List};

    /// The bytes of the name.
    ghost called: { Self → List ℕ };

    fn name(&self) -> &Name
        ensures { result.now ≡ called self.now };
}

impl Named for Name {
    ghost called = { λ n. n };

    fn name(&self) -> &Name {
        self
    }
}

impl Named for MicroDraft {
    ghost called = { λ m. m.name };

    fn name(&self) -> &Name {
        &self.name
    }
}

impl Named for CodeDef {
    ghost called = { λ h. h.name };

    fn name(&self) -> &Name {
        &self.name
    }
}

impl Named for DeclDraft {
    ghost called = { λ d. d.name };

    fn name(&self) -> &Name {
        &self.name
    }
}

impl Named for EventDraft {
    ghost called = { λ e. e.name };

    fn name(&self) -> &Name {
        &self.name
    }
}

impl Named for ChangeDraft {
    ghost called = { λ c. c.name };

    fn name(&self) -> &Name {
        &self.name
    }
}

/// A bound by the microprotocol that it names.
impl Named for BoundDraft {
    ghost called = { λ b. b.micro };

    fn name(&self) -> &Name {
        &self.micro
    }
}

/// New handlers by the event that they are for.
impl Named for TableDraft {
    ghost called = { λ t. t.event };

    fn name(&self) -> &Name {
        &self.event
    }
}

/// Whether two texts have the same bytes.
pub fn is_same(a: &str, b: &str) -> bool
    ensures { result ≡ bytes_eq a.now b.now }
{
    a == b
}

fn is_called<T: Named>(name: &str, item: &T) -> bool
    ensures { result ≡ bytes_eq name.now (T.Named.called item.now) }
{
    is_same(name, item.name().as_str())
}

fn is_among<T: Named>(items: &[T], name: &str) -> bool
    ensures { result ≡ list_any (λ item. bytes_eq name.now (T.Named.called item)) items.now }
{
    items.iter().any(|item| is_called(name, item))
}

/// That no name of a list stands a second time.
pub fn no_twice<T: Named>(items: &[T]) -> Result<(), Stop>
    ensures { Finds result (first_twice (map T.Named.called items.now)) }
{
    for (i, item) in items.iter().enumerate() {
        if is_among(&items[..i], item.name().as_str()) {
            return Err(twice(item.name()));
        }
    }
    Ok(())
}
