//! Handlers by their names.
ghost use Rattle.std.specs.Prelude.{◌≡◌, ◌<◌, ◌≤◌, length, map, bytes_eq, get_or, option_map, IfSome};
ghost use Rattle.std.specs.List.{position as place_of, All};
ghost use Rattle.samoa_grammar.specs.Names.{micro_part, handler_part};
ghost use Rattle.samoa_model.specs.Handlers.{handlers_of_kind};
ghost use Rattle.samoa_grammar.specs.Meaning.{no_micro_draft, handler_in as named_in, handler_of};
ghost use Rattle.samoa_grammar.specs.Passes.{handler_unknown};
ghost use Rattle.samoa_grammar.specs.Walks.{first_along};
ghost use Rattle.samoa_form.specs.Limits.{HasMicroLimits};
ghost use Rattle.samoa_naming.specs.Finds.{Finds};
ghost use Rattle.samoa_naming.specs.Groups.{own_names, handler_place};

use crate::directory::Directory;
use crate::faults::unknown;
use crate::named::is_same;
use samoa_form::Stop;
use samoa_grammar::MicroDraft;
use samoa_model::{HandlerId, Kind, MicroId, Name};
use samoa_names::NameIndex;

/// What stands before the first dot and after it.
fn parts(text: &str) -> (&str, &str)
    ensures micro { result.0.now ≡ micro_part text.now }
    ensures handler { result.1.now ≡ handler_part text.now }
{
    match text.split_once('.') {
        Some(parts) => parts,
        None => (text, ""),
    }
}

fn text_place(texts: &[&str], text: &str) -> Option<usize>
    ensures value { result ≡ place_of (λ t. bytes_eq text.now t.now) texts.now }
    ensures below { IfSome result (λ i. i < length texts.now) }
{
    texts.iter().position(|other| is_same(text, *other))
}

/// The place of a text in a list.
#[tactic(auto, using(samoa_names::proofs::Positions::seen_lists))]
fn place(texts: &[&str], text: &str) -> Option<usize>
    ensures value { result ≡ place_of (bytes_eq text.now) (map (λ t. t.now) texts.now) }
    ensures below { IfSome result (λ i. i < length texts.now) }
{
    text_place(texts, text)
}

/// The place of a handler among those of a kind that isn't scripted.
fn place_in_kind(kind: Kind, name: &str) -> Option<usize>
    ensures value { result ≡ place_of (bytes_eq name.now) (handlers_of_kind kind) }
    ensures below { IfSome result (λ i. i < 5) }
{
    place(kind.handlers(), name)
}

/// The number of a handler of a microprotocol, by the names of its own handlers.
#[tactic(auto, using(samoa_names::proofs::Positions::joined_lists), unfolding(crate::specs::Groups::handler_place))]
fn index(own: &NameIndex, micro: &MicroDraft, name: &str) -> Option<usize>
    requires limits { HasMicroLimits micro.now }
    requires own { own.now ≡ own_names micro.now }
    ensures value { result ≡ handler_place micro.now name.now }
    ensures below { IfSome result (λ i. i < 32) }
{
    match own.find(name) {
        Some(scripted) => Some(scripted),
        None => {
            let place = place_in_kind(micro.kind, name)?;
            Some(micro.handlers.len() + place)
        }
    }
}

fn handler_at(draft: &Directory, micro: usize, name: &str) -> Option<HandlerId>
    requires few { length draft.now.micros ≤ 24 }
    requires each { All HasMicroLimits draft.now.micros }
    requires there { micro < length draft.now.micros }
    ensures { result ≡ option_map (λ h. record { micro = record { 0 = micro }; index = h }) (handler_place (get_or draft.now.micros micro no_micro_draft) name.now) }
{
    let own = &draft.handlers()[micro];
    let handler = index(own, &draft.draft().micros.as_slice()[micro], name)?;
    Some(HandlerId {
        micro: MicroId(micro as u32),
        index: handler as u32,
    })
}

/// The handler that a name names, if there is one.
#[tactic(auto, using(crate::proofs::Groups::handlers_by_parts))]
pub fn handler_in(draft: &Directory, name: &Name) -> Option<HandlerId>
    requires few { length draft.now.micros ≤ 24 }
    requires each { All HasMicroLimits draft.now.micros }
    ensures { result ≡ named_in draft.now.micros name.now }
{
    let (micro_name, handler_name) = parts(name.as_str());
    let micro = draft.micros().find(micro_name)?;
    handler_at(draft, micro, handler_name)
}

/// The handler that a name names.
pub fn handler(draft: &Directory, name: &Name) -> HandlerId
    requires few { length draft.now.micros ≤ 24 }
    requires each { All HasMicroLimits draft.now.micros }
    ensures { result ≡ handler_of draft.now.micros name.now }
{
    match handler_in(draft, name) {
        Some(handler) => handler,
        None => HandlerId {
            micro: MicroId(0),
            index: 0,
        },
    }
}

/// That a name names a handler.
pub fn handler_known(draft: &Directory, name: &Name) -> Result<(), Stop>
    requires few { length draft.now.micros ≤ 24 }
    requires each { All HasMicroLimits draft.now.micros }
    ensures { Finds result (handler_unknown draft.now.micros name.now) }
{
    match handler_in(draft, name) {
        Some(_) => Ok(()),
        None => Err(unknown(name)),
    }
}

/// That each name names a handler.
#[tactic(auto, using(crate::proofs::Along::along_items))]
pub fn handlers_known(draft: &Directory, names: &[Name]) -> Result<(), Stop>
    requires few { length draft.now.micros ≤ 24 }
    requires each { All HasMicroLimits draft.now.micros }
    ensures { Finds result (first_along (handler_unknown draft.now.micros) names.now) }
{
    for name in names {
        handler_known(draft, name)?;
    }
    Ok(())
}
