//! Laws of the group stack: no two nodes disagree. The stack has a link, a failure detector, reliable broadcast, consensus, the
//! two atomic broadcasts, the replacement layer that puts one of them in place of the other while the stack runs, and views.
//!
//! The laws hold of every group history: a list of admissions to a script of this stack in which each message that arrives was
//! sent before, to that node or to all, and each change of bindings was asked for. Messages may be lost, repeated and come in
//! another order, nodes may stop for good, and computations may be cut by their budget. What any script of the stack admits is
//! such a history (`histories`). Nothing is said of progress (that a message is delivered at all, or a decision made), of
//! views, or of whom the detector suspects rightly.
//!
//! Each function is a law: its body is empty, and its contract says what is proved. `stack` has the theorem, `written` what
//! follows for the text of a report; the other modules have the steps on the way, from the trace of a run upwards.
#![tactic(auto)]

pub mod broadcasts;
pub mod consensus;
pub mod histories;
pub mod replacement;
pub mod stack;
pub mod streams;
pub mod traces;
pub mod transport;
pub mod written;
