//! The names of handlers, by their numbers.
ghost use Rattle.std.specs.Prelude.{◌≡◌, ◌≤◌, [], length, map, get_or};
ghost use Rattle.samoa_model.specs.Handlers.{handlers_of_kind, names_of_handlers, own_name};

use crate::{HandlerId, Kind, MicroDef, Script};

const LINK: [&str; 2] = ["send", "recv"];

const FD: [&str; 2] = ["beat", "heard"];

const RBCAST: [&str; 2] = ["cast", "recv"];

const CONS: [&str; 5] = ["propose", "recv", "decide", "advance", "suspect"];

const ABCAST: [&str; 3] = ["cast", "heard", "decided"];

const SEQCAST: [&str; 2] = ["cast", "recv"];

const REPL: [&str; 3] = ["cast", "deliver", "switched"];

const VIEWS: [&str; 2] = ["ask", "install"];

impl Kind {
    /// The names of the handlers of a kind, in the order of their numbers. Scripted handlers have their names from the
    /// script, so that kind has none here.
    pub fn handlers(self) -> &'static [&'static str]
        ensures names { map (λ n. n.now) result.now ≡ handlers_of_kind self }
        ensures few { length result.now ≤ 5 }
    {
        match self {
            Kind::Prog => &[],
            Kind::Link => &LINK,
            Kind::Fd => &FD,
            Kind::Rbcast => &RBCAST,
            Kind::Cons => &CONS,
            Kind::Abcast => &ABCAST,
            Kind::Seqcast => &SEQCAST,
            Kind::Repl => &REPL,
            Kind::Views => &VIEWS,
        }
    }
}

#[tactic(auto, using(crate::proofs::Handlers::picked, crate::proofs::Handlers::none_picked))]
fn name_at(names: &[&'static str], index: usize) -> &'static str
    ensures { result.now ≡ get_or (map (λ n. n.now) names.now) index [] }
{
    match names.get(index) {
        Some(name) => *name,
        None => "",
    }
}

impl MicroDef {
    /// The name of a handler by its number: one of the script, or one of the kind. It is empty past the last.
    #[tactic(auto, using(crate::proofs::Handlers::name_of_script, crate::proofs::Handlers::name_of_kind))]
    pub fn handler_name(&self, index: u32) -> &str
        ensures { result.now ≡ get_or (names_of_handlers self.now) index [] }
    {
        let own = self.handlers.as_slice();
        let index = index as usize;
        if index < own.len() {
            own[index].name.as_str()
        } else {
            name_at(self.kind.handlers(), index - own.len())
        }
    }
}

impl Script {
    /// The name of a handler, without that of its microprotocol. It is empty where there is no such handler.
    pub fn handler_name(&self, handler: HandlerId) -> &str
        ensures { result.now ≡ own_name self.now handler }
    {
        match self.micros.as_slice().get(handler.micro.0 as usize) {
            Some(micro) => micro.handler_name(handler.index),
            None => "",
        }
    }
}
