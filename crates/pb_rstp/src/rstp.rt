//! The spanning tree of one bridge.

ghost use Rattle.std.specs.Prelude.{◌≡◌, ◌↔◌, map, IfOk, IsSome, IsTrue, Some, true, false};
ghost use Rattle.pb_rstp.specs.Laws.{IsInLine};
ghost use Rattle.pb_rstp.specs.Machine.{moving};
ghost use Rattle.pb_rstp.specs.Ports.{start, fresh, port_of};
ghost use Rattle.pb_rstp.specs.Readings.{AreAbove, numbers_of, roles_of, states_of, root_of, vector_at, stored_at};
ghost use Rattle.pb_rstp.specs.Rising.{AreRising};
ghost use Rattle.pb_rstp.specs.Roles.{IsRootVector};
ghost use Rattle.pb_rstp.specs.Settling.{nows};
ghost use Rattle.pb_rstp.specs.Vectors.{bridge_id};

use crate::config::{Config, RstpPort, bridge_id};
use crate::moving::Moving;
use crate::port::{Port, are_same, port_of};
use crate::role::Role;
use crate::roles::root_vector;
use crate::told::{tell_roles, tell_states};
use crate::vector::Vector;
use pb_frame::Memory;
use pb_lan::PortState;
use std::alloc::{AllocError, Global};
use std::marker::Model;

/// The rapid spanning tree protocol at one bridge (IEEE 802.1D-2004 clause 17, in a profile).
///
/// Contracts see the bridge's identifier, whether it is prompt, the variables of each port, and `hello_when`. Each port
/// always has the role that follows from the root vector, and only Root and Designated ports do more than discard.
#[derive(Drop)]
pub struct Rstp {
    pub(crate) alloc: Global,
    /// The bridge's identifier.
    pub(crate) id: u64,
    /// A port that stays Designated sends as soon as what it offers changes.
    pub(crate) prompt: bool,
    /// The ports, by rising number. Calls change them in place.
    pub(crate) ports: Vec<Moving>,
    /// Ticks until the next periodic BPDUs: helloWhen (IEEE 802.1D-2004 clause 17.17.3), one for all ports.
    pub(crate) hello_when: u8,
    /// The role of each port.
    pub(crate) roles: Vec<(u8, Role)>,
    /// The state of each port.
    pub(crate) states: Vec<(u8, PortState)>,
}

impl Model for Rstp {
    ghost use Rattle.pb_rstp.specs.Ports.{Machine};
    ghost use Rattle.pb_rstp.specs.Readings.{IsTold};
    ghost use Rattle.pb_rstp.specs.Settling.{nows};

    ghost Value = { Machine };

    ghost view = { λ r. record {
      id = r.id;
      prompt = r.prompt;
      ports = nows r.ports.items;
      hello_when = r.hello_when;
    } };

    ghost invariant = { λ r. IsTold (record {
      id = r.id;
      prompt = r.prompt;
      ports = nows r.ports.items;
      hello_when = r.hello_when;
    }) r.roles.items r.states.items };
}

/// Returns a port with its values at start.
fn fresh(p: &RstpPort) -> Moving
    ensures { result ≡ moving (λ q. q) (fresh p.now) }
{
    let port = Port::fresh(p);
    Moving {
        was: port,
        now: port,
    }
}

/// Returns the ports with their values at start.
fn fresh_ports(alloc: Global, ports: &[RstpPort]) -> Result<Vec<Moving>, Memory>
    ensures { IfOk result (λ found. found.items ≡ map (λ p. moving (λ q. q) (fresh p)) ports.now) }
{
    Ok(ports.iter().map(|p| fresh(p)).collect(alloc)?)
}

/// Returns the role of each port.
fn roles_of(alloc: Global, ports: &[Moving]) -> Result<Vec<(u8, Role)>, Memory>
    ensures { IfOk result (λ found. found.items ≡ roles_of (nows ports.now)) }
{
    let mut roles = vec![in alloc; (0, Role::Disabled); ports.len()]?;
    tell_roles(ports, &mut roles);
    Ok(roles)
}

/// Returns the state of each port.
fn states_of(alloc: Global, ports: &[Moving]) -> Result<Vec<(u8, PortState)>, Memory>
    ensures { IfOk result (λ found. found.items ≡ states_of (nows ports.now)) }
{
    let mut states = vec![in alloc; (0, PortState::Discarding); ports.len()]?;
    tell_states(ports, &mut states);
    Ok(states)
}

impl Rstp {
    /// Returns a bridge with its values at start: all ports are enabled, Designated and Discarding, and store nothing.
    /// A port that stays Designated sends what has changed with the next periodic BPDUs.
    ///
    /// # Errors
    ///
    /// `Memory` if an allocation failed.
    ///
    /// # Examples
    ///
    /// ```
    /// use pb_frame::{Mac, Seq};
    /// use pb_rstp::{Config, Role, Rstp, RstpPort};
    ///
    /// let port = RstpPort {
    ///     port: 1,
    ///     cost: 20_000,
    ///     priority: 128,
    /// };
    /// let config = Config {
    ///     address: Mac([2, 0, 0, 0, 0, 1]),
    ///     priority: 32_768,
    ///     ports: Seq::from_vec(Vec::from_slice(rt.alloc(), &[port])?),
    /// };
    /// let bridge = Rstp::new(rt.alloc(), config)?;
    /// assert_eq!(rt; bridge.root().root, 0x8000_0200_0000_0001);
    /// assert_eq!(rt; bridge.roles(), [(1, Role::Designated)].as_slice());
    /// ```
    pub fn new(alloc: Global, config: Config) -> Result<Rstp, Memory>
        requires { AreAbove 0 config.ports }
        ensures { IfOk result (λ rstp. rstp ≡ start false (bridge_id config.priority config.address.0) config.ports) }
    {
        Rstp::start(alloc, false, config)
    }

    /// Returns a bridge as [`Rstp::new`] does, but prompt: a port that stays Designated sends in the call in which its
    /// vector or the times of its BPDUs change, if its hold count permits (IEEE 802.1D-2004 clauses 17.21.25,
    /// updtRolesTree, and 17.27).
    ///
    /// # Errors
    ///
    /// `Memory` if an allocation failed.
    pub fn prompt(alloc: Global, config: Config) -> Result<Rstp, Memory>
        requires { AreAbove 0 config.ports }
        ensures { IfOk result (λ rstp. rstp ≡ start true (bridge_id config.priority config.address.0) config.ports) }
    {
        Rstp::start(alloc, true, config)
    }

    /// Returns a bridge with its values at start, prompt or not.
    fn start(alloc: Global, prompt: bool, config: Config) -> Result<Rstp, Memory>
        requires { AreAbove 0 config.ports }
        ensures { IfOk result (λ rstp. rstp ≡ start prompt (bridge_id config.priority config.address.0) config.ports) }
    {
        let id = bridge_id(config.priority, config.address);
        let ports = fresh_ports(alloc, config.ports.as_slice())?;
        let roles = roles_of(alloc, &ports)?;
        let states = states_of(alloc, &ports)?;
        Ok(Rstp {
            alloc,
            id,
            prompt,
            ports,
            hello_when: 2,
            roles,
            states,
        })
    }

    /// Returns the role of each port, by number (IEEE 802.1D-2004 clause 17.7). Allocates nothing.
    pub fn roles(&self) -> &[(u8, Role)]
        ensures roles { result.now ≡ roles_of self.now.ports }
        ensures by_number { AreRising 0 (numbers_of self.now) }
        ensures in_line { IsInLine self.now }
    {
        self.roles.as_slice()
    }

    /// Returns the state of each port, by number. Ports that are neither Root nor Designated are Discarding. Allocates
    /// nothing.
    pub fn states(&self) -> &[(u8, PortState)]
        ensures states { result.now ≡ states_of self.now.ports }
        ensures by_number { AreRising 0 (numbers_of self.now) }
        ensures in_line { IsInLine self.now }
    {
        self.states.as_slice()
    }

    /// Returns the root vector: the least of the bridge's own vector and the paths through its ports (IEEE 802.1D-2004
    /// clause 17.6). Allocates nothing.
    pub fn root(&self) -> Vector
        ensures value { result ≡ root_of self.now }
        ensures least { IsRootVector self.now.id self.now.ports result }
    {
        root_vector(self.id, &self.ports)
    }

    /// Returns the vector that a port offers on its link (IEEE 802.1D-2004 clause 17.6). Allocates nothing.
    pub fn vector(&self, port: u8) -> Vector
        requires { IsSome (port_of self.now.ports port) }
        ensures { vector_at self.now port ≡ Some result }
    {
        let root = root_vector(self.id, &self.ports);
        let port = port_of(&self.ports, port).unwrap();
        port.designated_vector(self.id, &root)
    }

    /// Returns whether another bridge has the same identifier, the same hello timer, and ports with the same variables
    /// and timers: whether no later call could tell the two apart. Allocates nothing.
    pub fn is_same(&self, other: &Rstp) -> bool
        ensures { IsTrue result ↔ (self.now ≡ other.now) }
    {
        self.id == other.id
            && self.prompt == other.prompt
            && self.hello_when == other.hello_when
            && are_same(&self.ports, &other.ports)
    }

    /// Returns the vector that a port stores (IEEE 802.1D-2004 clause 17.19.21, portPriority), or None if it stores
    /// none or the bridge lacks the port. Allocates nothing.
    pub fn stored(&self, port: u8) -> Option<Vector>
        ensures { result ≡ stored_at self.now port }
    {
        let port = port_of(&self.ports, port)?;
        let info = port.info?;
        Some(port.stored_vector(&info))
    }
}

/// Returns copies of the roles and of the states of ports.
fn copied_told(
    roles: &Vec<(u8, Role)>,
    states: &Vec<(u8, PortState)>,
) -> Result<(Vec<(u8, Role)>, Vec<(u8, PortState)>), AllocError>
    ensures roles { IfOk result (λ copies. copies.0.items ≡ roles.now.items) }
    ensures states { IfOk result (λ copies. copies.1.items ≡ states.now.items) }
{
    let copy = roles.clone()?;
    Ok((copy, states.clone()?))
}

/// The copy is equal.
impl Clone for Rstp {
    ghost is_clone = { λ rstp copy. copy ≡ rstp };

    fn clone(&self) -> Result<Rstp, AllocError> {
        let (roles, states) = copied_told(&self.roles, &self.states)?;
        Ok(Rstp {
            alloc: self.alloc,
            id: self.id,
            prompt: self.prompt,
            ports: self.ports.clone()?,
            hello_when: self.hello_when,
            roles,
            states,
        })
    }
}
