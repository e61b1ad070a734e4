//! Group views: the number of the view and its members, and a method for each row of the table.
ghost use Rattle.std.specs.Prelude.{◌≡◌, ◌-◌, ◌^◌, min};
ghost use Rattle.samoa_serial.specs.ViewsTable.{views_ask, views_install, views_opening};

use samoa_micro::rows::{call, nothing};
use samoa_micro::{StateMachine, Stateful};
use samoa_model::{Kind, Moment, NoMemory, Outcome, Setup, Words};
use std::alloc::Global;
use std::marker::Model;

/// The view of the group. It is told and changes no quorum.
pub type Views = Stateful<View>;

/// How many views were installed, and the members of the last one, as bits.
#[derive(Drop)]
pub struct View {
    number: u64,
    mask: u64,
}

impl Model for View {
    ghost use Rattle.samoa_serial.specs.State.{ViewsState};

    ghost Value = { ViewsState };

    ghost view = { λ v. record { number = v.number; mask = v.mask } };
}

impl View {
    /// The view of all nodes.
    fn opening(setup: &Setup) -> View
        ensures { result ≡ views_opening setup.now }
    {
        View {
            number: 0,
            mask: all_of(setup.nodes),
        }
    }

    /// `ask`: a view with these members is cast, to be installed by all.
    fn ask(&self, setup: &Setup, mask: u64) -> Outcome
        ensures outcome { result ≡ (views_ask setup.now self.now mask).1 }
        ensures state { self.now ≡ (views_ask setup.now self.now mask).0 }
    {
        call(setup, 0, Words::cut(&[2, mask]), Words::new())
    }

    /// `install`: the next view has these members.
    fn install(&mut self, mask: u64) -> Outcome
        ensures outcome { result ≡ (views_install self.old mask).1 }
        ensures state { self.new ≡ (views_install self.old mask).0 }
    {
        self.number = self.number.saturating_add(1);
        self.mask = mask;
        nothing()
    }
}

/// A mask of the first nodes, at most 64.
fn all_of(nodes: u32) -> u64
    ensures { result ≡ 2 ^ min nodes 64 - 1 }
{
    if nodes < 64 {
        (1u64 << nodes) - 1
    } else {
        u64::MAX
    }
}

impl StateMachine for View {
    ghost use Rattle.samoa_model.specs.declared.setup.Kind.TheVariants as kinds;
    ghost use Rattle.samoa_serial.specs.State.{OfViews};

    ghost kind_of = { kinds.Views };

    ghost state = { λ v. OfViews v };

    fn kind() -> Kind {
        Kind::Views
    }

    fn new(_alloc: Global) -> View {
        View { number: 0, mask: 0 }
    }

    fn open(&mut self, _alloc: Global, setup: &Setup) -> Result<(), NoMemory> {
        *self = View::opening(setup);
        Ok(())
    }

    fn step(
        &mut self,
        _alloc: Global,
        setup: &Setup,
        moment: &Moment,
    ) -> Result<Outcome, NoMemory> {
        let Moment::Begin { handler, arg } = moment else {
            return Ok(nothing());
        };
        let mask = arg.word_or_zero(0);
        Ok(match *handler {
            0 => self.ask(setup, mask),
            1 => self.install(mask),
            _ => nothing(),
        })
    }

    fn show(&self) -> Words {
        Words::cut(&[self.number, self.mask])
    }
}
