//! Whoever answers the calls of a mirror.
use afp_calls_grammar::Call;
use replay_cache::Answer;

/// Why a call got no answer.
#[derive(Clone, Copy, Debug, PartialEq, Eq)]
pub enum PortFault {
    /// The port's count of faults rose.
    Failed,
    /// There was no memory.
    Memory,
}

/// Answers calls, one after the other.
pub trait Port {
    ghost use Rattle.std.specs.Prelude.{◌≡◌, false};
    ghost use Rattle.afp_mirror_walk.specs.Ports.{AsksPort, IsNoLogout, PortState};
    ghost use Rattle.client_script_lines.specs.calls.Asked.{IsAskable};

    /// Its count of faults, whether it is over, its exchanges and its world, where it tells them.
    ghost port_state: { Self → PortState };

    /// Asks a call.
    fn ask(&mut self, call: &Call) -> Result<Answer, PortFault>
        requires goes_on { (port_state self.old).is_over ≡ false }
        requires askable { IsAskable call.now }
        requires stays { IsNoLogout call.now }
        ensures { AsksPort call.now (port_state self.old) result (port_state self.new) };
}
