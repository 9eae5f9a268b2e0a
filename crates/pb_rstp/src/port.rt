//! The variables that a bridge keeps for each port.

ghost use Rattle.std.specs.Prelude.{◌≡◌, ◌↔◌, IsTrue};
ghost use Rattle.pb_rstp.specs.Ports.{id_of, stored_vector, root_path, designated_vector, port_of, root_info};
ghost use Rattle.pb_rstp.specs.Ports.{fwd_delay_of, fresh, is_discarding};
ghost use Rattle.pb_rstp.specs.Settling.{nows};
ghost use Rattle.pb_lan.specs.Shapes.{is_forwarding};

use crate::config::RstpPort;
use crate::moving::Moving;
use crate::role::Role;
use crate::vector::Vector;
use pb_lan::PortState;

/// The information that a port stores from a BPDU: portPriority and portTimes (IEEE 802.1D-2004 clauses 17.19.21 and
/// 17.19.22), and the timer of both. The times of portTimes are in units of 1/256 s.
#[derive(Clone, Copy, PartialEq, Eq, Debug)]
pub(crate) struct Info {
    pub(crate) root: u64,
    pub(crate) cost: u32,
    pub(crate) bridge: u64,
    pub(crate) port: u16,
    pub(crate) message_age: u16,
    pub(crate) max_age: u16,
    pub(crate) hello_time: u16,
    pub(crate) forward_delay: u16,
    /// Ticks until the stored information expires (rcvdInfoWhile, clause 17.17.6).
    pub(crate) rcvd_info_while: u16,
}

/// A port with its timers and state machine variables (IEEE 802.1D-2004 clauses 17.17 and 17.19). Timers are in ticks.
#[derive(Clone, Copy, PartialEq, Eq, Debug)]
pub(crate) struct Port {
    pub(crate) number: u8,
    pub(crate) cost: u32,
    pub(crate) priority: u8,
    /// The port is enabled (portEnabled, clause 17.19.18).
    pub(crate) port_enabled: bool,
    /// The information that it stores, if any (infoIs is Received, clause 17.19.10).
    pub(crate) info: Option<Info>,
    pub(crate) role: Role,
    pub(crate) state: PortState,
    /// Ticks until a Designated port enters its next state (fdWhile, clause 17.17.2).
    pub(crate) fd_while: u16,
    /// The neighbour has agreed (agreed, clause 17.19.3).
    pub(crate) agreed: bool,
    /// This port agrees (agree, clause 17.19.2).
    pub(crate) agree: bool,
    /// Ticks for which its BPDUs report a topology change (tcWhile, clause 17.17.8).
    pub(crate) tc_while: u8,
    /// BPDUs sent, decremented at each tick (txCount, clause 17.19.44).
    pub(crate) tx_count: u8,
    /// A BPDU is to be sent (newInfo, clause 17.19.16).
    pub(crate) new_info: bool,
}

impl Port {
    /// Returns the port with its values at start: enabled, Designated and Discarding.
    pub(crate) fn fresh(p: &RstpPort) -> Port
        ensures { result ≡ fresh p.now }
    {
        Port {
            number: p.port,
            cost: p.cost,
            priority: p.priority,
            port_enabled: true,
            info: None,
            role: Role::Designated,
            state: PortState::Discarding,
            fd_while: 15,
            agreed: false,
            agree: false,
            tc_while: 0,
            tx_count: 0,
            new_info: true,
        }
    }

    /// Returns the port's identifier.
    pub(crate) fn id(&self) -> u16
        ensures { result ≡ id_of self.now }
    {
        self.priority as u16 * 256 + self.number as u16
    }

    /// Returns the vector of the stored information.
    pub(crate) fn stored_vector(&self, info: &Info) -> Vector
        ensures { result ≡ stored_vector self.now info.now }
    {
        Vector {
            root: info.root,
            cost: info.cost,
            bridge: info.bridge,
            port: info.port,
            receiving: self.id(),
        }
    }

    /// Returns the path to the root through this port (IEEE 802.1D-2004 clause 17.6).
    pub(crate) fn root_path(&self, info: &Info) -> Vector
        ensures { result ≡ root_path self.now info.now }
    {
        Vector {
            root: info.root,
            cost: info.cost.saturating_add(self.cost),
            bridge: info.bridge,
            port: info.port,
            receiving: self.id(),
        }
    }

    /// Returns the vector that the port offers on its link (IEEE 802.1D-2004 clause 17.6).
    pub(crate) fn designated_vector(&self, id: u64, root: &Vector) -> Vector
        ensures { result ≡ designated_vector id root.now self.now }
    {
        Vector {
            root: root.root,
            cost: root.cost,
            bridge: id,
            port: self.id(),
            receiving: self.id(),
        }
    }
}

/// Returns whether the state is Discarding.
pub(crate) fn is_discarding(state: PortState) -> bool
    ensures { result ≡ is_discarding state }
{
    matches!(state, PortState::Discarding)
}

/// Returns whether the state is Forwarding.
pub(crate) fn is_forwarding(state: PortState) -> bool
    ensures { result ≡ is_forwarding state }
{
    matches!(state, PortState::Forwarding)
}

/// Returns the port of this number.
pub(crate) fn port_of(ports: &[Moving], number: u8) -> Option<Port>
    ensures { result ≡ port_of (nows ports.now) number }
{
    for p in ports {
        if p.now.number == number {
            return Some(p.now);
        }
    }
    None
}

/// Returns whether both store the same information, or none.
fn is_same_info(a: Option<Info>, b: Option<Info>) -> bool
    ensures { IsTrue result ↔ (a ≡ b) }
{
    a == b
}

/// Returns whether both ports have the same number, cost and priority, and both or none are enabled.
fn is_same_setting(a: &Port, b: &Port) -> bool
    ensures { IsTrue result ↔ ((a.now.number ≡ b.now.number) × (a.now.cost ≡ b.now.cost)
        × (a.now.priority ≡ b.now.priority) × (a.now.port_enabled ≡ b.now.port_enabled)) }
{
    a.number == b.number
        && a.cost == b.cost
        && a.priority == b.priority
        && a.port_enabled == b.port_enabled
}

/// Returns whether the timers of both ports have the same values.
fn is_same_timing(a: &Port, b: &Port) -> bool
    ensures { IsTrue result ↔ ((a.now.fd_while ≡ b.now.fd_while) × (a.now.tc_while ≡ b.now.tc_while)
        × (a.now.tx_count ≡ b.now.tx_count)) }
{
    a.fd_while == b.fd_while && a.tc_while == b.tc_while && a.tx_count == b.tx_count
}

/// Returns whether both ports have the same role and the same state, and agree and are due alike.
fn is_same_stand(a: &Port, b: &Port) -> bool
    ensures { IsTrue result ↔ ((a.now.role ≡ b.now.role) × (a.now.state ≡ b.now.state)
        × (a.now.agreed ≡ b.now.agreed) × (a.now.agree ≡ b.now.agree) × (a.now.new_info ≡ b.now.new_info)) }
{
    a.role == b.role
        && a.state == b.state
        && a.agreed == b.agreed
        && a.agree == b.agree
        && a.new_info == b.new_info
}

/// Returns whether both ports have the same variables.
fn is_same(a: &Port, b: &Port) -> bool
    ensures { IsTrue result ↔ (a.now ≡ b.now) }
{
    is_same_setting(a, b)
        && is_same_timing(a, b)
        && is_same_stand(a, b)
        && is_same_info(a.info, b.info)
}

/// Returns whether the ports are as many, and each has the same variables as the other of its place.
pub(crate) fn are_same(a: &[Moving], b: &[Moving]) -> bool
    ensures { IsTrue result ↔ (nows a.now ≡ nows b.now) }
{
    if a.len() != b.len() {
        return false;
    }
    for i in 0..a.len() {
        if !is_same(&a[i].now, &b[i].now) {
            return false;
        }
    }
    true
}

/// Returns the information that the Root port stores, if the bridge has a Root port.
pub(crate) fn root_info(ports: &[Moving]) -> Option<Info>
    ensures { result ≡ root_info (nows ports.now) }
{
    for p in ports {
        if p.now.role.is_root() {
            return p.now.info;
        }
    }
    None
}

/// Returns the ticks for which a port stays Discarding and then Learning: FwdDelay (IEEE 802.1D-2004 clause 17.20.6).
/// It is 15 at the root bridge. Otherwise it is the stored Forward Delay of the Root port, at least 1.
pub(crate) fn fwd_delay_of(ports: &[Moving]) -> u16
    ensures { result ≡ fwd_delay_of (nows ports.now) }
{
    match root_info(ports) {
        None => 15,
        Some(info) => (info.forward_delay / 256).max(1),
    }
}
