//! What the coordinator of a round keeps of it.
ghost use Rattle.std.specs.Prelude.{◌≡◌, ◌==◌, OnOk, OnErr, IfOk, []};
ghost use Rattle.samoa_serial.specs.ConsTable.{empty_round, beats, best_of, is_kept, with_estimate, with_sender, is_to_propose, is_to_announce, round_proposes, round_estimated, round_announces, round_acknowledged};

use crate::letter::{majority, tell};
use samoa_micro::rows::{call, nodes, nothing, words_of};
use samoa_model::{NoMemory, Outcome, Setup, Words};
use samoa_serial::{Ballot, Estimate, Message};
use smallvec::SmallVec;
use std::alloc::Global;
use std::marker::Model;

/// What the coordinator of a round keeps of it. In a group of up to four nodes the estimates and the senders lie in the
/// value itself, and a round takes no memory of its own.
#[derive(Drop)]
pub struct Kept {
    estimates: SmallVec<Estimate, 4>,
    proposal: Option<Message>,
    acknowledged: SmallVec<u64, 4>,
    announced: bool,
}

impl Model for Kept {
    ghost use Rattle.samoa_serial.specs.State.{Round};

    ghost Value = { Round };

    ghost view = { λ k. record { estimates = k.estimates.items; proposal = k.proposal; acknowledged = k.acknowledged.items; announced = k.announced } };
}

impl Kept {
    /// A round of which nothing is kept. It takes no memory.
    pub fn new(alloc: Global) -> Kept
        ensures { result ≡ empty_round }
    {
        Kept {
            estimates: SmallVec::new(alloc),
            proposal: None,
            acknowledged: SmallVec::new(alloc),
            announced: false,
        }
    }

    /// Tag 1: an estimate, which is kept where its sender has none yet. Where they make the first majority, the best is proposed.
    pub fn estimated(
        &mut self,
        setup: &Setup,
        ballot: Ballot,
        estimate: Estimate,
    ) -> Result<Outcome, NoMemory>
        ensures outcome { IfOk result (λ outcome. outcome ≡ (round_estimated setup.now ballot estimate self.old).1) }
        ensures ok { OnOk result (self.new ≡ (round_estimated setup.now ballot estimate self.old).0) }
        ensures err { OnErr result (self.new ≡ self.old) }
    {
        if keeps(self.estimates.as_slice(), estimate.sender) {
            return Ok(nothing());
        }
        self.estimates.push(estimate)?;
        Ok(self.propose(setup, ballot, estimate))
    }

    /// Proposes the best estimate, where it is time.
    fn propose(&mut self, setup: &Setup, ballot: Ballot, estimate: Estimate) -> Outcome
        ensures outcome { result ≡ (round_proposes setup.now ballot estimate self.old).1 }
        ensures state { self.new ≡ (round_proposes setup.now ballot estimate self.old).0 }
    {
        let is_many = majority(setup) <= self.estimates.len() as u64;
        if !(is_many && self.proposal.is_none()) {
            return nothing();
        }
        let best = best_in(estimate, self.estimates.as_slice());
        self.proposal = Some(best.message);
        tell(
            setup,
            nodes(setup),
            2,
            ballot,
            0,
            best.message,
            Words::new(),
        )
    }

    /// Tag 3: an acknowledgement, which counts where there is a proposal. The first majority announces it.
    pub fn acknowledged(
        &mut self,
        setup: &Setup,
        ballot: Ballot,
        sender: u64,
    ) -> Result<Outcome, NoMemory>
        ensures outcome { IfOk result (λ outcome. outcome ≡ (round_acknowledged setup.now ballot sender self.old self.old.proposal).1) }
        ensures ok { OnOk result (self.new ≡ (round_acknowledged setup.now ballot sender self.old self.old.proposal).0) }
        ensures err { OnErr result (self.new ≡ self.old) }
    {
        let Some(proposal) = self.proposal else {
            return Ok(nothing());
        };
        self.add(sender)?;
        Ok(self.announce(setup, ballot, proposal))
    }

    /// Adds a sender of acknowledgements.
    fn add(&mut self, sender: u64) -> Result<(), NoMemory>
        ensures ok { OnOk result (self.new ≡ record self.old { acknowledged = with_sender self.old.acknowledged sender }) }
        ensures err { OnErr result (self.new ≡ self.old) }
    {
        if !self.acknowledged.as_slice().contains(&sender) {
            self.acknowledged.push(sender)?;
        }
        Ok(())
    }

    /// Announces the proposal, where it is time.
    fn announce(&mut self, setup: &Setup, ballot: Ballot, proposal: Message) -> Outcome
        ensures outcome { result ≡ (round_announces setup.now ballot proposal self.old).1 }
        ensures state { self.new ≡ (round_announces setup.now ballot proposal self.old).0 }
    {
        let is_many = majority(setup) <= self.acknowledged.len() as u64;
        if !(is_many && !self.announced) {
            return nothing();
        }
        self.announced = true;
        let arg = Words::joined(&[1, ballot.instance], &words_of(proposal));
        call(setup, 1, arg, Words::new())
    }
}

/// Whether the estimate of a sender is kept.
fn keeps(estimates: &[Estimate], sender: u64) -> bool
    ensures { result ≡ is_kept estimates.now sender }
{
    estimates.iter().any(|e| e.sender == sender)
}

/// Whether one estimate comes before another.
fn is_better(a: Estimate, b: Estimate) -> bool
    ensures { result ≡ beats a b }
{
    b.adopted < a.adopted || (a.adopted == b.adopted && a.sender < b.sender)
}

/// The best of one estimate and of others.
fn best_in(estimate: Estimate, estimates: &[Estimate]) -> Estimate
    ensures { result ≡ best_of estimate estimates.now }
{
    let mut best = estimate;
    for e in estimates {
        if is_better(*e, best) {
            best = *e;
        }
    }
    best
}
