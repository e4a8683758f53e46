// What is done with a block. One table says where each act leads, and not a function for each act: so it is read whole beside its definition.
ghost use Rattle.surveys.specs.States.{moved};
ghost use Rattle.std.specs.Prelude.{◌≡◌};

use crate::state::State;

/// The calls that move a block from one state to another.
#[derive(Clone, Copy, PartialEq, Eq, Debug)]
pub(crate) enum Act {
    Issue,
    GiveBack,
    Work,
    Settle,
    Recall,
}

/// The state that an act leads to; none where it is refused.
pub(crate) fn state_after(state: State, act: Act) -> Option<State>
    ensures is_the_state_of_the_table { result ≡ moved state act }
{
    match (state, act) {
        (State::Waiting, Act::Issue) => Some(State::Out),
        (State::Out, Act::GiveBack) => Some(State::Waiting),
        (State::Out, Act::Work | Act::Settle) => Some(State::Settled),
        (State::Settled, Act::Recall) => Some(State::Waiting),
        (State::Waiting, Act::GiveBack | Act::Work | Act::Settle | Act::Recall) => None,
        (State::Out, Act::Issue | Act::Recall) => None,
        (State::Settled, Act::Issue | Act::GiveBack | Act::Work | Act::Settle) => None,
    }
}
