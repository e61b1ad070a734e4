//! Consensus: the state of a node, a method for each row of the table, and the microprotocol.
ghost use Rattle.std.specs.Prelude.{◌≡◌, ◌≤◌, OnOk, OnErr, IfOk, Some, [], length};
ghost use Rattle.samoa_serial.specs.ConsTable.{round_of, cons_propose, cons_proposed, cons_estimated, cons_acknowledged, cons_recv, cons_decide, cons_next_round, cons_advance, cons_suspect};

use crate::instances::Instances;
use crate::letter::{coordinates, coordinator, read_letter, tell};
use crate::round::Kept;
use samoa_micro::rows::{call, nothing, read_message, words_of};
use samoa_micro::{StateMachine, Stateful};
use samoa_model::{Kind, Moment, NoMemory, Outcome, Setup, Words};
use samoa_serial::{Ballot, Estimate, Instance, Letter, Message};
use std::alloc::Global;
use std::collections::BTreeMap;
use std::marker::Model;

/// Consensus after the rotating coordinator of Chandra and Toueg (Unreliable Failure Detectors for Reliable Distributed
/// Systems, JACM 1996): a majority of the nodes stands behind each decision, so that no two nodes decide otherwise.
/// That a decision ever comes isn't claimed.
pub type Cons = Stateful<Agreement>;

/// The instances that a node is in, and the rounds that it coordinates.
#[derive(Drop)]
pub struct Agreement {
    instances: Instances,
    rounds: BTreeMap<Ballot, Kept>,
}

impl Model for Agreement {
    ghost use Rattle.samoa_serial.specs.State.{ConsState};

    ghost Value = { ConsState };

    ghost view = { λ s. record { instances = s.instances.instances; decisions = s.instances.decisions; rounds = s.rounds.entries } };
}

impl Agreement {
    /// No instance and no round. It takes no memory.
    fn none(alloc: Global) -> Agreement
        ensures { result ≡ record { instances = []; decisions = []; rounds = [] } }
    {
        Agreement {
            instances: Instances::new(alloc),
            rounds: BTreeMap::new(alloc),
        }
    }

    /// `propose`: this node enters an instance with its estimate.
    fn propose(&mut self, setup: &Setup, at: u64, message: Message) -> Result<Outcome, NoMemory>
        ensures outcome { IfOk result (λ outcome. outcome ≡ (cons_propose setup.now self.old at message).1) }
        ensures ok { OnOk result (self.new ≡ (cons_propose setup.now self.old at message).0) }
        ensures err { OnErr result (self.new ≡ self.old) }
    {
        if self.instances.get(at).is_some() {
            return Ok(nothing());
        }
        let instance = Instance {
            round: 1,
            estimate: message,
            adopted: 0,
        };
        self.instances.put(at, instance)?;
        let ballot = Ballot {
            instance: at,
            round: 1,
        };
        let to = coordinator(setup, 1);
        Ok(tell(setup, to, 1, ballot, 0, message, Words::new()))
    }

    /// `recv` with tag 1: an estimate comes to the coordinator of its round.
    fn estimated(
        &mut self,
        alloc: Global,
        setup: &Setup,
        ballot: Ballot,
        estimate: Estimate,
    ) -> Result<Outcome, NoMemory>
        ensures outcome { IfOk result (λ outcome. outcome ≡ (cons_estimated setup.now self.old ballot estimate).1) }
        ensures ok { OnOk result (self.new ≡ (cons_estimated setup.now self.old ballot estimate).0) }
        ensures err { OnErr result (self.new ≡ self.old) }
    {
        if !coordinates(setup, ballot) {
            return Ok(nothing());
        }
        if let Some(round) = self.rounds.get_mut(&ballot) {
            return round.estimated(setup, ballot, estimate);
        }
        let mut round = Kept::new(alloc);
        let outcome = round.estimated(setup, ballot, estimate)?;
        self.rounds.insert(ballot, round)?;
        Ok(outcome)
    }

    /// `recv` with tag 2: the coordinator's proposal is adopted and acknowledged.
    fn proposed(
        &mut self,
        setup: &Setup,
        ballot: Ballot,
        message: Message,
    ) -> Result<Outcome, NoMemory>
        ensures outcome { IfOk result (λ outcome. outcome ≡ (cons_proposed setup.now self.old ballot message).1) }
        ensures ok { OnOk result (self.new ≡ (cons_proposed setup.now self.old ballot message).0) }
        ensures err { OnErr result (self.new ≡ self.old) }
    {
        let round = round_in(self.instances.get(ballot.instance));
        if ballot.round == 0 || ballot.round < round {
            return Ok(nothing());
        }
        let instance = Instance {
            round: ballot.round,
            estimate: message,
            adopted: ballot.round,
        };
        self.instances.put(ballot.instance, instance)?;
        let to = coordinator(setup, ballot.round);
        Ok(tell(setup, to, 3, ballot, 0, message, Words::new()))
    }

    /// `recv` with tag 3: an acknowledgement comes to the coordinator.
    fn acknowledged(
        &mut self,
        setup: &Setup,
        ballot: Ballot,
        sender: u64,
    ) -> Result<Outcome, NoMemory>
        ensures outcome { IfOk result (λ outcome. outcome ≡ (cons_acknowledged setup.now self.old ballot sender).1) }
        ensures ok { OnOk result (self.new ≡ (cons_acknowledged setup.now self.old ballot sender).0) }
        ensures err { OnErr result (self.new ≡ self.old) }
    {
        if !coordinates(setup, ballot) {
            return Ok(nothing());
        }
        if let Some(round) = self.rounds.get_mut(&ballot) {
            return round.acknowledged(setup, ballot, sender);
        }
        Ok(nothing())
    }

    /// `recv`, by its tag.
    fn recv(&mut self, alloc: Global, setup: &Setup, letter: Letter) -> Result<Outcome, NoMemory>
        ensures outcome { IfOk result (λ outcome. outcome ≡ (cons_recv setup.now self.old letter).1) }
        ensures ok { OnOk result (self.new ≡ (cons_recv setup.now self.old letter).0) }
        ensures err { OnErr result (self.new ≡ self.old) }
    {
        let Letter {
            sender,
            tag,
            ballot,
            adopted,
            message,
        } = letter;
        match tag {
            1 => {
                let estimate = Estimate {
                    sender,
                    adopted,
                    message,
                };
                self.estimated(alloc, setup, ballot, estimate)
            }
            2 => self.proposed(setup, ballot, message),
            3 => self.acknowledged(setup, ballot, sender),
            _ => Ok(nothing()),
        }
    }

    /// `decide`: an announcement came by reliable broadcast.
    fn decide(&mut self, setup: &Setup, at: u64, message: Message) -> Result<Outcome, NoMemory>
        ensures outcome { IfOk result (λ outcome. outcome ≡ (cons_decide setup.now self.old at message).1) }
        ensures ok { OnOk result (self.new ≡ (cons_decide setup.now self.old at message).0) }
        ensures err { OnErr result (self.new ≡ self.old) }
    {
        if self.instances.decision(at).is_some() {
            return Ok(nothing());
        }
        self.instances.decide(at, message)?;
        let arg = Words::joined(&[at], &words_of(message));
        Ok(call(setup, 2, arg, Words::new()))
    }

    /// An instance goes to its next round.
    fn next_round(
        &mut self,
        setup: &Setup,
        at: u64,
        frame: Words,
        instance: Instance,
    ) -> Result<Outcome, NoMemory>
        requires { length frame ≤ 12 }
        ensures outcome { IfOk result (λ outcome. outcome ≡ (cons_next_round setup.now self.old at frame (Some instance)).1) }
        ensures ok { OnOk result (self.new ≡ (cons_next_round setup.now self.old at frame (Some instance)).0) }
        ensures err { OnErr result (self.new ≡ self.old) }
    {
        let Instance {
            round,
            estimate,
            adopted,
        } = instance;
        let round = round.saturating_add(1);
        let later = Instance {
            round,
            estimate,
            adopted,
        };
        self.instances.put(at, later)?;
        let ballot = Ballot {
            instance: at,
            round,
        };
        let to = coordinator(setup, round);
        Ok(tell(setup, to, 1, ballot, adopted, estimate, frame))
    }

    /// `advance`: an undecided instance goes to its next round.
    fn advance(&mut self, setup: &Setup, at: u64) -> Result<Outcome, NoMemory>
        ensures outcome { IfOk result (λ outcome. outcome ≡ (cons_advance setup.now self.old at).1) }
        ensures ok { OnOk result (self.new ≡ (cons_advance setup.now self.old at).0) }
        ensures err { OnErr result (self.new ≡ self.old) }
    {
        if self.instances.decision(at).is_some() {
            return Ok(nothing());
        }
        match self.instances.get(at) {
            None => Ok(nothing()),
            Some(instance) => self.next_round(setup, at, Words::new(), instance),
        }
    }

    /// `suspect`: the first undecided instance whose coordinator is the node goes on, from below all or after one.
    fn suspect(&mut self, setup: &Setup, node: u64, after: Option<u64>) -> Result<Outcome, NoMemory>
        ensures outcome { IfOk result (λ outcome. outcome ≡ (cons_suspect setup.now self.old node after).1) }
        ensures ok { OnOk result (self.new ≡ (cons_suspect setup.now self.old node after).0) }
        ensures err { OnErr result (self.new ≡ self.old) }
    {
        match self.instances.first_waiting(setup, node, after) {
            None => Ok(nothing()),
            Some((at, instance)) => {
                let frame = Words::cut(&[1, node, at]);
                self.next_round(setup, at, frame, instance)
            }
        }
    }
}

/// The round of an instance, 0 where there is none.
fn round_in(instance: Option<Instance>) -> u64
    ensures { result ≡ round_of instance }
{
    match instance {
        None => 0,
        Some(instance) => instance.round,
    }
}

impl StateMachine for Agreement {
    ghost use Rattle.samoa_model.specs.declared.setup.Kind.TheVariants as kinds;
    ghost use Rattle.samoa_serial.specs.State.{OfCons};

    ghost kind_of = { kinds.Cons };

    ghost state = { λ s. OfCons s };

    fn kind() -> Kind {
        Kind::Cons
    }

    fn new(alloc: Global) -> Agreement {
        Agreement::none(alloc)
    }

    fn open(&mut self, alloc: Global, _setup: &Setup) -> Result<(), NoMemory> {
        *self = Agreement::none(alloc);
        Ok(())
    }

    fn step(&mut self, alloc: Global, setup: &Setup, moment: &Moment) -> Result<Outcome, NoMemory> {
        match moment {
            Moment::Begin { handler, arg } => {
                let first = arg.word_or_zero(0);
                match *handler {
                    0 => self.propose(setup, first, read_message(arg, 1)),
                    1 => self.recv(alloc, setup, read_letter(arg)),
                    2 => {
                        if arg.word_or_zero(2) != 1 {
                            return Ok(nothing());
                        }
                        let at = arg.word_or_zero(3);
                        self.decide(setup, at, read_message(arg, 4))
                    }
                    3 => self.advance(setup, first),
                    4 => self.suspect(setup, first, None),
                    _ => Ok(nothing()),
                }
            }
            Moment::Resume {
                handler,
                frame,
                reply: _,
            } => {
                if *handler == 4 && frame.word_or_zero(0) == 1 {
                    let after = Some(frame.word_or_zero(2));
                    return self.suspect(setup, frame.word_or_zero(1), after);
                }
                Ok(nothing())
            }
        }
    }

    fn show(&self) -> Words {
        let decided = self.instances.decided() as u64;
        Words::cut(&[decided, self.instances.greatest_round()])
    }
}
