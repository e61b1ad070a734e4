//! The stack of the active calls: the innermost stands last.
ghost use Rattle.std.specs.Prelude.{◌≡◌, ◌+◌, ◌^◌, ◌<◌, ◌≤◌, List, ◌∷◌, ◌++◌, length, reverse, vec_capacity};
ghost use Rattle.samoa_serial.specs.declared.call.Active.{Active};
ghost use Rattle.samoa_serial.specs.World.{calls_from, resume};
ghost use Rattle.samoa_serial.specs.Calls.{at_frame, at_moment, given, to_begin};

use samoa_model::{HandlerId, Moment, Reply, Words};
use samoa_serial::{Active, Call, Due};

/// Makes one call per handler active, with the numbers after `made`, the first of them innermost.
pub(crate) fn activate(active: &mut Vec<Active>, made: u32, arg: &Words, handlers: &[HandlerId])
    requires room { length active.old.items + length handlers.now ≤ vec_capacity active.old }
    requires numbers { made + length handlers.now < 2 ^ 32 }
    ensures active { reverse active.new.items
        ≡ to_begin arg.now (calls_from made handlers.now) ++ reverse active.old.items }
    ensures capacity { vec_capacity active.new ≡ vec_capacity active.old }
{
    let mut left = handlers.len();
    while left > 0 {
        left -= 1;
        let handler = handlers[left];
        active.push_reserved(Active {
            call: Call {
                number: made + left as u32 + 1,
                handler,
            },
            due: Due::Next(Moment::Begin {
                handler: handler.index,
                arg: *arg,
            }),
        });
    }
}

/// The innermost call waits for a reply, with this frame.
pub(crate) fn wait(active: &mut Vec<Active>, frame: Words)
    requires { 0 < length active.old.items }
    ensures waits { (a : Active) (rest : List Active) → reverse active.old.items ≡ a ∷ rest
        → reverse active.new.items ≡ at_frame a.call frame ∷ rest }
    ensures len { length active.new.items ≡ length active.old.items }
    ensures capacity { vec_capacity active.new ≡ vec_capacity active.old }
{
    let last = active.len() - 1;
    active[last].due = Due::Frame(frame);
}

/// The innermost call goes on with this frame and this reply.
pub(crate) fn go_on(active: &mut Vec<Active>, frame: Words, reply: Reply)
    requires { 0 < length active.old.items }
    ensures goes_on { (a : Active) (rest : List Active) → reverse active.old.items ≡ a ∷ rest
        → reverse active.new.items ≡ at_moment a.call (resume a.call frame reply) ∷ rest }
    ensures len { length active.new.items ≡ length active.old.items }
    ensures capacity { vec_capacity active.new ≡ vec_capacity active.old }
{
    let last = active.len() - 1;
    let handler = active[last].call.handler.index;
    active[last].due = Due::Next(Moment::Resume {
        handler,
        frame,
        reply,
    });
}

/// The innermost call is given a reply, where it waits for one.
pub(crate) fn hand(active: &mut Vec<Active>, reply: Reply)
    requires { 0 < length active.old.items }
    ensures given { (a : Active) (rest : List Active) → reverse active.old.items ≡ a ∷ rest
        → reverse active.new.items ≡ given a.call a.due reply ∷ rest }
    ensures len { length active.new.items ≡ length active.old.items }
    ensures capacity { vec_capacity active.new ≡ vec_capacity active.old }
{
    let last = active.len() - 1;
    if let Due::Frame(frame) = active[last].due {
        go_on(active, frame, reply);
    }
}
