//! Replacement: what was cast here, what was delivered and what came early, and a method for each row of its table.
ghost use Rattle.std.specs.Prelude.{◌≡◌, ◌+◌, ◌<◌, ◌≤◌, ◌^◌, ◌∷◌, OnOk, OnErr, IfOk, Some, None, not, ◌==◌, ◌||◌, nat_lt, [], find, filter, length};
ghost use Rattle.samoa_serial.specs.ReplTable.{pair_of, first_of, without_first, is_change, repl_hand_on, repl_drain, repl_mark, repl_recast, repl_go_on, repl_cast, repl_deliver, repl_switched, repl_marked, repl_deliver_on};
ghost use Rattle.samoa_serial.specs.Rows.{has_pair};

use crate::early::Early;
use samoa_micro::rows::{call, change_at, done, me, nothing, read_message};
use samoa_micro::{StateMachine, Stateful};
use samoa_model::{Kind, Moment, NoMemory, Outcome, Setup, Words};
use samoa_serial::{Message, Own};
use std::alloc::Global;
use std::marker::Model;

/// A stream of deliveries that goes on while the atomic broadcast below is replaced by another: a change of bindings is
/// itself a message of the stream, so that all nodes change at the same place.
pub type Repl = Stateful<Stream>;

/// What was cast here, what was delivered and what came early.
#[derive(Drop)]
pub struct Stream {
    hold: u64,
    count: u64,
    mine: Vec<Own>,
    early: Early,
}

impl Model for Stream {
    ghost use Rattle.samoa_serial.specs.State.{ReplState};

    ghost Value = { ReplState };

    ghost view = { λ s. record { epoch = s.early.epoch; hold = s.hold; count = s.count; mine = s.mine.items; delivered = s.early.delivered; early = s.early.early } };
}

impl Stream {
    /// Nothing yet. It takes no memory.
    fn none(alloc: Global) -> Stream
        ensures { result ≡ record { epoch = 0; hold = 0; count = 0; mine = []; delivered = []; early = [] } }
    {
        Stream {
            hold: 0,
            count: 0,
            mine: Vec::new(alloc),
            early: Early::new(alloc),
        }
    }

    /// The first message of the epoch is handed on, without those that are over.
    fn drain(&mut self, setup: &Setup) -> Outcome
        ensures outcome { result ≡ (repl_drain setup.now self.old).1 }
        ensures state { self.new ≡ (repl_drain setup.now self.old).0 }
    {
        self.early.sweep();
        hand_on(setup, self.early.epoch(), self.early.first())
    }

    /// The first message of the epoch was handed on.
    fn mark(&mut self, setup: &Setup, message: Message) -> Result<(), NoMemory>
        ensures ok { OnOk result (self.new ≡ repl_mark setup.now self.old message) }
        ensures err { OnErr result (self.new ≡ self.old) }
    {
        self.early.mark(message)?;
        if message.origin == me(setup) {
            take_own(&mut self.mine, message.number);
        }
        Ok(())
    }

    /// What is cast again after one number.
    fn go_on(&self, setup: &Setup, after: u64) -> Outcome
        ensures outcome { result ≡ (repl_go_on setup.now self.now after).1 }
        ensures state { self.now ≡ (repl_go_on setup.now self.now after).0 }
    {
        match next_own(&self.mine, after) {
            None => nothing(),
            Some(own) => recast(setup, self.early.epoch(), own),
        }
    }

    /// `cast`: a message of this node's own, which waits where a change is under way.
    fn cast(&mut self, setup: &Setup, kind: u64, value: u64) -> Result<Outcome, NoMemory>
        ensures outcome { IfOk result (λ outcome. outcome ≡ (repl_cast setup.now self.old kind value).1) }
        ensures ok { OnOk result (self.new ≡ (repl_cast setup.now self.old kind value).0) }
        ensures err { OnErr result (self.new ≡ self.old) }
    {
        if kind > 2 || (kind == 1 && !names_change(setup, kind, value)) {
            return Ok(nothing());
        }
        let own = Own {
            number: self.count.saturating_add(1),
            kind,
            value,
        };
        self.mine.push(own)?;
        self.count = own.number;
        if self.hold == 0 {
            Ok(recast(setup, self.early.epoch(), own))
        } else {
            Ok(done(&[own.number]))
        }
    }

    /// `deliver`: a message came from a broadcast, of this epoch or of a later one.
    fn deliver(&mut self, setup: &Setup, message: Message) -> Result<Outcome, NoMemory>
        ensures outcome { IfOk result (λ outcome. outcome ≡ (repl_deliver setup.now self.old message).1) }
        ensures ok { OnOk result (self.new ≡ (repl_deliver setup.now self.old message).0) }
        ensures err { OnErr result (self.new ≡ self.old) }
    {
        if self.early.comes(message) {
            self.early.push(message)?;
        }
        Ok(self.drain(setup))
    }

    /// `switched`: the bindings of an epoch stand, and what is not delivered is cast again.
    fn switched(&mut self, setup: &Setup, epoch: u64) -> Outcome
        ensures outcome { result ≡ (repl_switched setup.now self.old epoch).1 }
        ensures state { self.new ≡ (repl_switched setup.now self.old epoch).0 }
    {
        if epoch != self.early.epoch() {
            return nothing();
        }
        self.hold = 0;
        self.go_on(setup, 0)
    }

    /// `deliver` goes on, once the first message of the epoch was handed on.
    fn marked(&mut self, setup: &Setup, at: u64) -> Result<Outcome, NoMemory>
        ensures outcome { IfOk result (λ outcome. outcome ≡ (repl_marked setup.now self.old at (first_of self.old.epoch self.old.early)).1) }
        ensures ok { OnOk result (self.new ≡ (repl_marked setup.now self.old at (first_of self.old.epoch self.old.early)).0) }
        ensures err { OnErr result (self.new ≡ self.old) }
    {
        let Some(message) = self.early.first() else {
            return Ok(nothing());
        };
        self.mark(setup, message)?;
        if at == 0 {
            return Ok(self.drain(setup));
        }
        if at == 1 {
            self.early.begin_next();
            self.hold = 1;
            return Ok(self.drain(setup));
        }
        let arg = Words::cut(&[message.value]);
        Ok(call(setup, 1, arg, Words::cut(&[3])))
    }

    /// `deliver` goes on, by where it stands.
    fn deliver_on(&mut self, setup: &Setup, at: u64) -> Result<Outcome, NoMemory>
        ensures outcome { IfOk result (λ outcome. outcome ≡ (repl_deliver_on setup.now self.old at).1) }
        ensures ok { OnOk result (self.new ≡ (repl_deliver_on setup.now self.old at).0) }
        ensures err { OnErr result (self.new ≡ self.old) }
    {
        if at < 3 {
            return self.marked(setup, at);
        }
        if at == 3 {
            return Ok(self.drain(setup));
        }
        Ok(nothing())
    }
}

/// Takes the own casts of a number out.
fn take_own(mine: &mut Vec<Own>, number: u64)
    ensures { mine.new.items ≡ filter (λ own. not (own.number == number)) mine.old.items }
{
    mine.retain(|own| own.number != number);
}

/// The first own cast after a number.
fn next_own(mine: &Vec<Own>, after: u64) -> Option<Own>
    ensures { result ≡ find (λ own. nat_lt after own.number) mine.now.items }
{
    mine.iter().copied().find(|own| after < own.number)
}

/// Whether this kind and this value name a change of the setup.
fn names_change(setup: &Setup, kind: u64, value: u64) -> bool
    ensures { result ≡ is_change setup.now kind value }
{
    kind == 1 && value < setup.changes.as_slice().len() as u64
}

/// What is done with the first message of an epoch.
fn hand_on(setup: &Setup, epoch: u64, message: Option<Message>) -> Outcome
    ensures { result ≡ repl_hand_on setup.now epoch message }
{
    let Some(m) = message else {
        return nothing();
    };
    if names_change(setup, m.kind, m.value) {
        return Outcome::Change {
            change: change_at(setup, m.value as usize),
            arg: Words::cut(&[epoch.saturating_add(1)]),
            frame: Words::cut(&[1]),
        };
    }
    let frame = if m.kind == 2 { 2 } else { 0 };
    Outcome::Deliver {
        arg: Words::cut(&[m.origin, m.number, m.kind, m.value]),
        frame: Words::cut(&[frame]),
    }
}

/// An own cast goes to the broadcast.
fn recast(setup: &Setup, epoch: u64, own: Own) -> Outcome
    ensures { result ≡ repl_recast setup.now epoch (Some own) }
{
    let arg = Words::cut(&[epoch, me(setup), own.number, own.kind, own.value]);
    call(setup, 0, arg, Words::cut(&[own.number]))
}

impl StateMachine for Stream {
    ghost use Rattle.samoa_model.specs.declared.setup.Kind.TheVariants as kinds;
    ghost use Rattle.samoa_serial.specs.State.{OfRepl};

    ghost kind_of = { kinds.Repl };

    ghost state = { λ s. OfRepl s };

    fn kind() -> Kind {
        Kind::Repl
    }

    fn new(alloc: Global) -> Stream {
        Stream::none(alloc)
    }

    fn open(&mut self, alloc: Global, _setup: &Setup) -> Result<(), NoMemory> {
        *self = Stream::none(alloc);
        Ok(())
    }

    fn step(
        &mut self,
        _alloc: Global,
        setup: &Setup,
        moment: &Moment,
    ) -> Result<Outcome, NoMemory> {
        match moment {
            Moment::Begin { handler, arg } => {
                let first = arg.word_or_zero(0);
                match *handler {
                    0 => self.cast(setup, first, arg.word_or_zero(1)),
                    1 => self.deliver(setup, read_message(arg, 0)),
                    2 => Ok(self.switched(setup, first)),
                    _ => Ok(nothing()),
                }
            }
            Moment::Resume {
                handler,
                frame,
                reply: _,
            } => {
                let at = frame.word_or_zero(0);
                match *handler {
                    0 => Ok(done(&[at])),
                    1 => self.deliver_on(setup, at),
                    2 => Ok(self.go_on(setup, at)),
                    _ => Ok(nothing()),
                }
            }
        }
    }

    fn show(&self) -> Words {
        let delivered = self.early.delivered() as u64;
        Words::cut(&[self.early.epoch(), self.count, delivered, self.hold])
    }
}
