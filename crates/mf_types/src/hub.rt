//! A link that begins its own connections.

ghost use Rattle.std.specs.Prelude.{◌≡◌, ◌<◌, true, false, IsTrue, IfOk, OnOk, OnErr, IsOk, IsErr};
ghost use Rattle.plain_types.specs.Schedule.{MustFail, MustWork};
ghost use Rattle.mf_types.specs.LinkCalls.{Unused, Starter, Listener, is_listening, with_role, IsNotStarted, Connects, KeepsLink, FailsAtLink};

use crate::link::Link;
use plain_types::fault::Failed;

/// A hub is itself the link of its newest connection. Its sends, its list to come and its counts go on over its
/// connections. It is ready from the first `dial`, `accept`, `post` or `post_listen` that answers `Ok`. Where it is
/// known beforehand which of these calls fail, no other does.
pub trait Hub: Link {
    /// Starts a board and gives its port. `Failed` comes only where the count of start faults rose.
    fn start_board(&mut self) -> Result<u16, Failed>
        requires { (Self.state self.old).hub.role ≡ Unused }
        ensures ok { IfOk result (λ port. (Self.state self.new).hub ≡ with_role (Self.state self.old).hub (Starter port)) }
        ensures failed { OnErr result (IsNotStarted (Self.state self.old).hub (Self.state self.new).hub) }
        ensures link { KeepsLink (Self.state self.old) (Self.state self.new) }
        ensures fails { MustFail (Self.state self.old).hub.schedule 0 → IsErr result }
        ensures works { MustWork (Self.state self.old).hub.schedule 0 → IsOk result };

    /// Starts a board that talks in datagrams and gives its port. `Failed` comes only where the count of start faults
    /// rose.
    fn start_post_board(&mut self) -> Result<u16, Failed>
        requires { (Self.state self.old).hub.role ≡ Unused }
        ensures ok { IfOk result (λ port. (Self.state self.new).hub ≡ with_role (Self.state self.old).hub (Starter port)) }
        ensures failed { OnErr result (IsNotStarted (Self.state self.old).hub (Self.state self.new).hub) }
        ensures link { KeepsLink (Self.state self.old) (Self.state self.new) }
        ensures fails { MustFail (Self.state self.old).hub.schedule 0 → IsErr result }
        ensures works { MustWork (Self.state self.old).hub.schedule 0 → IsOk result };

    /// Begins a connection of bytes to the board that was started. `Failed` comes only where the count of faults rose.
    fn dial(&mut self, port: u16) -> Result<(), Failed>
        requires { (Self.state self.old).hub.role ≡ Starter port }
        ensures ok { OnOk result (Connects false (Self.state self.old) (Self.state self.new)) }
        ensures failed { OnErr result (FailsAtLink (Self.state self.old) (Self.state self.new)) }
        ensures hub { (Self.state self.new).hub ≡ with_role (Self.state self.old).hub (Self.state self.old).hub.role }
        ensures fails { MustFail (Self.state self.old).hub.schedule 0 → IsErr result }
        ensures works { MustWork (Self.state self.old).hub.schedule 0 → IsOk result };

    /// Begins a connection of datagrams to the board that was started. `Failed` comes only where the count of faults
    /// rose.
    fn post(&mut self, port: u16) -> Result<(), Failed>
        requires { (Self.state self.old).hub.role ≡ Starter port }
        ensures ok { OnOk result (Connects true (Self.state self.old) (Self.state self.new)) }
        ensures failed { OnErr result (FailsAtLink (Self.state self.old) (Self.state self.new)) }
        ensures hub { (Self.state self.new).hub ≡ with_role (Self.state self.old).hub (Self.state self.old).hub.role }
        ensures fails { MustFail (Self.state self.old).hub.schedule 0 → IsErr result }
        ensures works { MustWork (Self.state self.old).hub.schedule 0 → IsOk result };

    /// Listens at a port, or at one that it chooses where 0 is asked for, and gives the port. `Failed` comes only where
    /// the count of faults rose.
    fn listen(&mut self, port: u16) -> Result<u16, Failed>
        requires { (Self.state self.old).hub.role ≡ Unused }
        ensures ok { IfOk result (λ given. (Self.state self.new).hub ≡ with_role (Self.state self.old).hub (Listener port given)) }
        ensures given { IfOk result (λ given. 0 < given) }
        ensures role { OnErr result ((Self.state self.new).hub ≡ with_role (Self.state self.old).hub (Listener port 0)) }
        ensures listening { OnOk result (KeepsLink (Self.state self.old) (Self.state self.new)) }
        ensures failed { OnErr result (FailsAtLink (Self.state self.old) (Self.state self.new)) }
        ensures fails { MustFail (Self.state self.old).hub.schedule 0 → IsErr result }
        ensures works { MustWork (Self.state self.old).hub.schedule 0 → IsOk result };

    /// Listens at a port as `listen` does, begins a connection of datagrams there, and gives the port. `Failed` comes
    /// only where the count of faults rose.
    fn post_listen(&mut self, port: u16) -> Result<u16, Failed>
        requires { (Self.state self.old).hub.role ≡ Unused }
        ensures ok { IfOk result (λ given. (Self.state self.new).hub ≡ with_role (Self.state self.old).hub (Listener port given)) }
        ensures given { IfOk result (λ given. 0 < given) }
        ensures role { OnErr result ((Self.state self.new).hub ≡ with_role (Self.state self.old).hub (Listener port 0)) }
        ensures listening { OnOk result (Connects true (Self.state self.old) (Self.state self.new)) }
        ensures failed { OnErr result (FailsAtLink (Self.state self.old) (Self.state self.new)) }
        ensures fails { MustFail (Self.state self.old).hub.schedule 0 → IsErr result }
        ensures works { MustWork (Self.state self.old).hub.schedule 0 → IsOk result };

    /// Accepts the next connection, one of bytes. `Failed` comes only where the count of faults rose.
    fn accept(&mut self) -> Result<(), Failed>
        requires { IsTrue (is_listening (Self.state self.old).hub.role) }
        ensures ok { OnOk result (Connects false (Self.state self.old) (Self.state self.new)) }
        ensures failed { OnErr result (FailsAtLink (Self.state self.old) (Self.state self.new)) }
        ensures hub { (Self.state self.new).hub ≡ with_role (Self.state self.old).hub (Self.state self.old).hub.role }
        ensures fails { MustFail (Self.state self.old).hub.schedule 0 → IsErr result }
        ensures works { MustWork (Self.state self.old).hub.schedule 0 → IsOk result };
}
