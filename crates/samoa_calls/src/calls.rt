//! The calls of a computation, as an explicit list of the active ones.
ghost use Rattle.std.specs.Prelude.{◌≡◌, ◌+◌, ◌^◌, ◌<◌, ◌≤◌, ◌↔◌, List, [], ◌∷◌, ◌++◌, length, map, None, false, IfOk, IsSome, IsTrue, slice_get, vec_capacity};
ghost use Rattle.samoa_model.specs.Entries.{calls_made};
ghost use Rattle.samoa_model.specs.Scripts.{Table, resolve};
ghost use Rattle.samoa_serial.specs.declared.call.Active.{Active};
ghost use Rattle.samoa_serial.specs.declared.call.Call.{Call};
ghost use Rattle.samoa_serial.specs.World.{attempts_of, noted, over_budget, waits};
ghost use Rattle.samoa_serial.specs.Calls.{cut, goes_on, outcome_effect, start, take_outcome, woken};
ghost use Rattle.samoa_bind.specs.Bound.{epochs_of, table_at};
ghost use Rattle.samoa_calls.specs.Handed.{AreCounted, AreNamed, CallsNamed, IsCounted, ended_at, ending_of, fresh, handed, next_moment, spent};
ghost use Rattle.samoa_calls.specs.Held.{handlers_of};

use crate::attempt::attempt;
use crate::stack::{go_on, hand, wait};
use samoa_bind::Tables;
use samoa_declare::Visits;
use samoa_model::{
    Decl, Ending, Entry, EventId, HandlerId, MicroId, Moment, NoMemory, NodeId, Outcome, Refusal,
    Reply, Words,
};
use samoa_serial::{Active, Call, Due, Waiting};
use samoa_transcript::Transcript;
use std::alloc::Global;
use std::marker::Model;

/// The innermost active call stands last. Of `waiting` the first `taken` were taken out, and of their handlers `passed`.
#[derive(Drop)]
pub(crate) struct Calls {
    active: Vec<Active>,
    waiting: Vec<Waiting>,
    taken: usize,
    handlers: Vec<HandlerId>,
    passed: usize,
    visits: Visits,
    units: u32,
    made: u32,
    entries: Transcript,
    answer: Option<Ending>,
}

impl Model for Calls {
    ghost use Rattle.samoa_calls.specs.Held.{Calling};

    ghost Value = { Calling };

    ghost use Rattle.samoa_calls.specs.Kept.{calling_of, IsKept};

    ghost view = { calling_of };

    ghost invariant = { IsKept };
}

/// Lists the handlers of a call that waits.
fn list(listed: &mut Vec<HandlerId>, handlers: &[HandlerId])
    requires { length listed.old.items + length handlers.now ≤ vec_capacity listed.old }
    ensures listed { listed.new.items ≡ listed.old.items ++ handlers.now }
    ensures capacity { vec_capacity listed.new ≡ vec_capacity listed.old }
{
    for handler in handlers {
        listed.push_reserved(*handler);
    }
}

impl Calls {
    /// Nothing is active and nothing waits. All room is made that the budget can come to.
    pub(crate) fn new(alloc: Global, budget: u32) -> Result<Calls, NoMemory>
        requires { budget ≤ 256 }
        ensures { IfOk result (λ calls. calls ≡ record { comp = fresh budget; waiting_handlers = [] }) }
    {
        let most = budget as usize;
        let active = Vec::with_capacity(alloc, 4 * most + 4)?;
        let waiting = Vec::with_capacity(alloc, most)?;
        let handlers = Vec::with_capacity(alloc, 4 * most)?;
        let entries = Transcript::new(alloc, 9 * most + 8)?;
        Ok(Calls {
            active,
            waiting,
            taken: 0,
            handlers,
            passed: 0,
            visits: Visits::new(),
            units: budget,
            made: 0,
            entries,
            answer: None,
        })
    }

    /// The same in the memory of these calls, where it is enough.
    pub(crate) fn renewed(self, budget: u32) -> Result<Calls, NoMemory>
        requires { budget ≤ 256 }
        ensures { IfOk result (λ calls. calls ≡ record { comp = fresh budget; waiting_handlers = [] }) }
    {
        let most = budget as usize;
        let mut active = self.active;
        active.clear();
        active.reserve(4 * most + 4)?;
        let mut waiting = self.waiting;
        waiting.clear();
        waiting.reserve(most)?;
        let mut handlers = self.handlers;
        handlers.clear();
        handlers.reserve(4 * most)?;
        let entries = self.entries.renewed(9 * most + 8)?;
        Ok(Calls {
            active,
            waiting,
            taken: 0,
            handlers,
            passed: 0,
            visits: Visits::new(),
            units: budget,
            made: 0,
            entries,
            answer: None,
        })
    }

    /// The root call is attempted.
    pub(crate) fn start(&mut self, decl: &Decl, handlers: &[HandlerId], event: EventId, arg: Words)
        requires few { length handlers.now ≤ 4 }
        requires counted { AreCounted handlers.now }
        requires fresh { self.old.comp ≡ fresh self.old.units }
        ensures none_waits { self.new.waiting ≡ [] }
        ensures started { (table : Table) → resolve table event ≡ handlers.now
            → self.new.comp ≡ start (attempts_of decl.now table) self.old.units event arg }
        ensures waiting_handlers { self.new.waiting_handlers ≡ self.old.waiting_handlers }
    {
        let refused = attempt(
            &mut self.active,
            &mut self.entries,
            &mut self.visits,
            self.made,
            decl,
            handlers,
            None,
            event,
            arg,
        );
        match refused {
            None => self.made += handlers.len() as u32,
            Some(refusal) => self.answer = Some(Ending::Replied(Reply::Refused(refusal))),
        }
    }

    /// The next handler step, None exactly where nothing is active.
    pub(crate) fn next(&self) -> Option<(MicroId, Moment)>
        ensures next { result ≡ next_moment self.now.comp }
        ensures active { IsSome result → (a : Active) × (rest : List Active) × (self.now.active ≡ a ∷ rest) }
    {
        if self.is_idle() {
            return None;
        }
        let innermost = &self.active[self.active.len() - 1];
        match &innermost.due {
            Due::Next(moment) => Some((innermost.call.handler.micro, *moment)),
            Due::Frame(_) => None,
        }
    }

    /// The innermost call gave this outcome. Answers its microprotocol where it has ended.
    pub(crate) fn take_outcome(
        &mut self,
        decl: &Decl,
        tables: &Tables,
        node: NodeId,
        epoch: u32,
        outcome: Outcome,
    ) -> Option<MicroId>
        requires active { (a : Active) × (rest : List Active) × (self.old.active ≡ a ∷ rest) }
        requires epoch { epoch < length (epochs_of tables.now node) }
        requires counted { IsCounted (table_at tables.now node epoch) }
        requires listed { self.old.waiting_handlers ≡ handlers_of (table_at tables.now node epoch) self.old.waiting }
        requires waiting_named { AreNamed (table_at tables.now node epoch) self.old.waiting }
        requires named { CallsNamed (table_at tables.now node epoch) outcome }
        ensures taken { self.new.comp
            ≡ take_outcome (attempts_of decl.now (table_at tables.now node epoch)) self.old.comp outcome }
        ensures listed { self.new.waiting_handlers ≡ handlers_of (table_at tables.now node epoch) self.new.waiting }
        ensures ended { (a : Active) (rest : List Active) → self.old.active ≡ a ∷ rest
            → result ≡ ended_at a.call outcome }
    {
        let micro = self.innermost().handler.micro;
        match outcome {
            Outcome::Done { reply } => {
                self.finish(reply);
                if self.is_idle() {
                    self.wake(decl, tables, node, epoch);
                }
                Some(micro)
            }
            _ => {
                if self.units == 0 {
                    self.cut();
                } else {
                    self.spend(decl, tables, node, epoch, outcome);
                }
                None
            }
        }
    }

    /// An outcome other than Done takes effect, for a unit.
    fn spend(&mut self, decl: &Decl, tables: &Tables, node: NodeId, epoch: u32, outcome: Outcome)
        requires unit { 0 < self.old.units }
        requires active { (a : Active) × (rest : List Active) × (self.old.active ≡ a ∷ rest) }
        requires epoch { epoch < length (epochs_of tables.now node) }
        requires counted { IsCounted (table_at tables.now node epoch) }
        requires listed { self.old.waiting_handlers ≡ handlers_of (table_at tables.now node epoch) self.old.waiting }
        requires named { CallsNamed (table_at tables.now node epoch) outcome }
        requires not_done { (c : Call) → ended_at c outcome ≡ None }
        ensures effect { (a : Active) (rest : List Active) → self.old.active ≡ a ∷ rest
            → self.new.comp ≡ outcome_effect (attempts_of decl.now (table_at tables.now node epoch))
            (spent self.old.books) self.old.answer rest a.call outcome }
        ensures listed { self.new.waiting_handlers ≡ handlers_of (table_at tables.now node epoch) self.new.waiting }
    {
        let call = self.innermost();
        match outcome {
            Outcome::Done { reply: _ } => unreachable!(),
            Outcome::Call { event, arg, frame } => {
                let handlers = tables.resolve(node, epoch, event);
                self.call(decl, handlers, event, arg, frame);
            }
            Outcome::Later { event, arg, frame } => {
                let handlers = tables.resolve(node, epoch, event);
                self.ask(handlers, event, arg, frame);
            }
            Outcome::Send {
                to,
                event,
                arg,
                frame,
            } => {
                let entry = Entry::Sent {
                    call: call.number,
                    to,
                    event,
                    arg,
                };
                self.note(entry, frame);
            }
            Outcome::Deliver { arg, frame } => {
                let entry = Entry::Delivered {
                    call: call.number,
                    micro: call.handler.micro,
                    arg,
                };
                self.note(entry, frame);
            }
            Outcome::Change { change, arg, frame } => {
                let entry = Entry::Asked {
                    call: call.number,
                    change,
                    arg,
                };
                self.note(entry, frame);
            }
        }
    }

    fn innermost(&self) -> Call
        requires active { (a : Active) × (rest : List Active) × (self.now.active ≡ a ∷ rest) }
        ensures { (a : Active) (rest : List Active) → self.now.active ≡ a ∷ rest → result ≡ a.call }
    {
        self.active[self.active.len() - 1].call
    }

    fn is_idle(&self) -> bool
        ensures idle { IsTrue result → self.now.active ≡ [] }
        ensures active { result ≡ false
            → (a : Active) × (rest : List Active) × (self.now.active ≡ a ∷ rest) }
    {
        self.active.is_empty()
    }

    /// The innermost call goes on with its frame and the empty list; its outcome was noted, for a unit.
    fn note(&mut self, entry: Entry, frame: Words)
        requires unit { 0 < self.old.units }
        requires no_call { calls_made (entry ∷ []) ≡ 0 }
        requires active { (a : Active) × (rest : List Active) × (self.old.active ≡ a ∷ rest) }
        ensures noted { (a : Active) (rest : List Active) → self.old.active ≡ a ∷ rest
            → self.new.comp ≡ goes_on (noted (spent self.old.books) entry) self.old.answer rest a.call frame }
        ensures waiting_handlers { self.new.waiting_handlers ≡ self.old.waiting_handlers }
    {
        self.units -= 1;
        self.entries.push(entry);
        go_on(&mut self.active, frame, Reply::Words(Words::new()));
    }

    /// The waiting calls are attempted until one is accepted or none waits.
    fn wake(&mut self, decl: &Decl, tables: &Tables, node: NodeId, epoch: u32)
        requires idle { self.old.active ≡ [] }
        requires epoch { epoch < length (epochs_of tables.now node) }
        requires counted { IsCounted (table_at tables.now node epoch) }
        requires listed { self.old.waiting_handlers ≡ handlers_of (table_at tables.now node epoch) self.old.waiting }
        requires names { AreNamed (table_at tables.now node epoch) self.old.waiting }
        ensures woken { self.new.comp ≡ woken (attempts_of decl.now (table_at tables.now node epoch))
            self.old.waiting self.old.books self.old.answer }
        ensures listed { self.new.waiting_handlers ≡ handlers_of (table_at tables.now node epoch) self.new.waiting }
    {
        while self.taken < self.waiting.len() {
            let first = self.waiting[self.taken];
            self.taken += 1;
            let handlers = tables.resolve(node, epoch, first.event);
            self.passed += handlers.len();
            let refused = attempt(
                &mut self.active,
                &mut self.entries,
                &mut self.visits,
                self.made,
                decl,
                handlers,
                Some(first.asker),
                first.event,
                first.arg,
            );
            match refused {
                Some(_) => {}
                None => {
                    self.made += handlers.len() as u32;
                    return;
                }
            }
        }
    }

    /// The innermost call has ended, and its reply is handed on.
    fn finish(&mut self, reply: Words)
        requires active { (a : Active) × (rest : List Active) × (self.old.active ≡ a ∷ rest) }
        ensures handed { (a : Active) (rest : List Active) → self.old.active ≡ a ∷ rest
            → self.new.comp ≡ handed (noted self.old.books (Entry.Finished a.call.number reply))
            self.old.answer rest (Reply.Words reply) }
        ensures waiting { self.new.waiting ≡ self.old.waiting }
        ensures waiting_handlers { self.new.waiting_handlers ≡ self.old.waiting_handlers }
    {
        let number = self.innermost().number;
        self.entries.push(Entry::Finished {
            call: number,
            reply,
        });
        self.active.pop();
        if !self.active.is_empty() {
            hand(&mut self.active, Reply::Words(reply));
        } else if self.answer.is_none() {
            self.answer = Some(Ending::Replied(Reply::Words(reply)));
        }
    }

    /// No unit is left: all calls are dropped.
    fn cut(&mut self)
        requires active { (a : Active) × (rest : List Active) × (self.old.active ≡ a ∷ rest) }
        ensures cut { (a : Active) (rest : List Active) → self.old.active ≡ a ∷ rest
            → self.new.comp ≡ cut (over_budget self.old.books a.call) }
        ensures waiting_handlers { self.new.waiting_handlers ≡ [] }
    {
        let call = self.innermost();
        self.entries.push(Entry::Refused {
            caller: call.number,
            event: None,
            refusal: Refusal::OverBudget,
        });
        self.active.clear();
        self.taken = self.waiting.len();
        self.passed = self.handlers.len();
        self.answer = Some(Ending::Cut);
    }

    /// The innermost call asked for a call of an event with these handlers that waits, for a unit, and goes on.
    fn ask(&mut self, handlers: &[HandlerId], event: EventId, arg: Words, frame: Words)
        requires few { length handlers.now ≤ 4 }
        requires unit { 0 < self.old.units }
        requires active { (a : Active) × (rest : List Active) × (self.old.active ≡ a ∷ rest) }
        ensures asked { (a : Active) (rest : List Active) → self.old.active ≡ a ∷ rest
            → self.new.comp ≡ goes_on (waits (spent self.old.books) a.call event arg)
            self.old.answer rest a.call frame }
        ensures waiting_handlers { self.new.waiting_handlers ≡ self.old.waiting_handlers ++ handlers.now }
    {
        let call = self.innermost();
        self.units -= 1;
        self.waiting.push_reserved(Waiting {
            asker: call,
            event,
            arg,
        });
        list(&mut self.handlers, handlers);
        self.entries.push(Entry::Waiting {
            call: call.number,
            event,
            arg,
        });
        go_on(&mut self.active, frame, Reply::Words(Words::new()));
    }

    /// The handler of an active call, the innermost first, None exactly past the last of them.
    pub(crate) fn active(&self, at: usize) -> Option<HandlerId>
        ensures listed { result ≡ slice_get (map (λ a. a.call.handler) self.now.active) at }
        ensures few { length self.now.active < 2 ^ 32 }
    {
        if at < self.active.len() {
            Some(self.active[self.active.len() - 1 - at].call.handler)
        } else {
            None
        }
    }

    /// A handler of a waiting call, None exactly past the last of them.
    pub(crate) fn waiting(&self, at: usize) -> Option<HandlerId>
        ensures listed { result ≡ slice_get self.now.waiting_handlers at }
        ensures few { length self.now.waiting_handlers < 2 ^ 32 }
    {
        if at < self.handlers.len() - self.passed {
            Some(self.handlers[self.passed + at])
        } else {
            None
        }
    }

    /// The innermost call called an event that has these handlers, for a unit.
    fn call(
        &mut self,
        decl: &Decl,
        handlers: &[HandlerId],
        event: EventId,
        arg: Words,
        frame: Words,
    )
        requires few { length handlers.now ≤ 4 }
        requires counted { AreCounted handlers.now }
        requires unit { 0 < self.old.units }
        requires active { (a : Active) × (rest : List Active) × (self.old.active ≡ a ∷ rest) }
        ensures called { (a : Active) (rest : List Active) (table : Table)
            → self.old.active ≡ a ∷ rest → resolve table event ≡ handlers.now
            → self.new.comp ≡ outcome_effect (attempts_of decl.now table) (spent self.old.books)
            self.old.answer rest a.call (Outcome.Call event arg frame) }
        ensures waiting { self.new.waiting ≡ self.old.waiting }
        ensures waiting_handlers { self.new.waiting_handlers ≡ self.old.waiting_handlers }
    {
        let call = self.innermost();
        self.units -= 1;
        wait(&mut self.active, frame);
        let refused = attempt(
            &mut self.active,
            &mut self.entries,
            &mut self.visits,
            self.made,
            decl,
            handlers,
            Some(call),
            event,
            arg,
        );
        match refused {
            None => self.made += handlers.len() as u32,
            Some(refusal) => go_on(&mut self.active, frame, Reply::Refused(refusal)),
        }
    }

    /// Whether nothing is active and nothing waits.
    pub(crate) fn is_over(&self) -> bool
        ensures { IsTrue result ↔ ((self.now.active ≡ []) × (self.now.waiting ≡ [])) }
    {
        self.active.is_empty() && self.taken == self.waiting.len()
    }

    /// The answer, None where something is active or waits.
    pub(crate) fn ending(&self) -> Option<Ending>
        ensures { result ≡ ending_of self.now.comp }
    {
        if self.is_over() { self.answer } else { None }
    }

    /// An entry, None exactly past the last of them.
    pub(crate) fn entry(&self, at: usize) -> Option<Entry>
        ensures { result ≡ slice_get self.now.entries at }
    {
        self.entries.at(at)
    }
}
