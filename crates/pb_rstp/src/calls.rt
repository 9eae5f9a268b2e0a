//! The three calls: a BPDU is received, a second passes, a port is enabled or disabled. Each works in place over the
//! bridge's ports, and allocates no more than the lists that it returns.

ghost use Rattle.std.specs.Prelude.{◌≡◌, ◌-◌, IfOk, OnOk, OnErr, nat_lt, not, if◌then◌else◌};
ghost use Rattle.pb_rstp.specs.Changes.{IsSameBridge, HoldsOldRoots, NamesChanges};
ghost use Rattle.pb_rstp.specs.Laws.{IsInLine};
ghost use Rattle.pb_rstp.specs.Machine.{settle, after_hear, after_tick, after_admin, is_same_setting, moved_by};
ghost use Rattle.pb_rstp.specs.Machine.{own_change};
ghost use Rattle.pb_rstp.specs.Settling.{nows, settled, with_sent, change_of, offer_by};

use crate::change::Change;
use crate::hearing::heard_at;
use crate::message::{Offer, offer_by};
use crate::moving::{Heard, Moving};
use crate::own_change::{OwnChange, undo};
use crate::port::{fwd_delay_of, port_of};
use crate::rstp::Rstp;
use crate::sending::{change_of, send, settle};
use crate::told::{tell_roles, tell_states};
use pb_bpdu::Bpdu;
use pb_frame::Memory;
use std::alloc::Global;

/// Changes the ports of a bridge as a call does, from its own change to the BPDUs that are sent, and returns the
/// changes. Takes what the bridge offered before the call. If an allocation failed, each port is as before the call.
fn run(
    alloc: Global,
    prompt: bool,
    id: u64,
    heard: Option<Heard>,
    before: &Offer,
    own: &OwnChange,
    ports: &mut [Moving],
) -> Result<Change, Memory>
    requires { before.now ≡ offer_by id (nows ports.old) }
    ensures ports { OnOk result (ports.new
        ≡ with_sent (settled prompt id heard (moved_by (own_change own.now) (nows ports.old)))) }
    ensures change { IfOk result (λ change. change
        ≡ change_of id heard (settled prompt id heard (moved_by (own_change own.now) (nows ports.old)))) }
    ensures err { OnErr result (nows ports.new ≡ nows ports.old) }
{
    own.begin(ports);
    settle(prompt, id, heard, before, ports);
    match change_of(alloc, id, heard, ports) {
        Ok(change) => {
            send(ports);
            Ok(change)
        }
        Err(fault) => {
            undo(ports);
            Err(fault)
        }
    }
}

/// Returns whether `hello_when` expires at this tick.
fn is_hello_tick(hello_when: u8) -> bool
    ensures { result ≡ not (nat_lt 1 hello_when) }
{
    hello_when <= 1
}

/// Returns `hello_when` one tick later.
fn hello_when_after(hello_when: u8) -> u8
    ensures { result ≡ (if not (nat_lt 1 hello_when) then 2 else hello_when - 1) }
{
    if hello_when > 1 { hello_when - 1 } else { 2 }
}

/// Returns whether `port_enabled` already has the wanted value.
fn is_same_setting(port_enabled: bool, up: bool) -> bool
    ensures { result ≡ is_same_setting port_enabled up }
{
    port_enabled == up
}

impl Rstp {
    /// Runs a call with its own change, and stores the new `hello_when`. Takes what the bridge offers before.
    fn conclude(
        &mut self,
        hello_when: u8,
        heard: Option<Heard>,
        before: &Offer,
        own: &OwnChange,
    ) -> Result<Change, Memory>
        requires { before.now ≡ offer_by self.old.id self.old.ports }
        ensures ok { OnOk result (self.new ≡ (settle self.old.prompt self.old.id hello_when heard
            (moved_by (own_change own.now) self.old.ports)).machine) }
        ensures change { IfOk result (λ change. change ≡ (settle self.old.prompt self.old.id hello_when heard
            (moved_by (own_change own.now) self.old.ports)).change) }
        ensures same { OnOk result (IsSameBridge self.old self.new) }
        ensures old_roots { OnOk result (HoldsOldRoots self.old self.new) }
        ensures named { IfOk result (λ change. NamesChanges self.old self.new change) }
        ensures in_line { IsInLine self.new }
        ensures err { OnErr result (self.new ≡ self.old) }
    {
        let change = run(
            self.alloc,
            self.prompt,
            self.id,
            heard,
            before,
            own,
            &mut self.ports,
        )?;
        tell_roles(&self.ports, &mut self.roles);
        tell_states(&self.ports, &mut self.states);
        self.hello_when = hello_when;
        Ok(change)
    }

    /// Handles a BPDU that a port receives, and returns the changes (IEEE 802.1D-2004 clause 17.23, the Port Receive
    /// machine). A BPDU for a disabled port, or for a port that the bridge lacks, changes nothing. Allocates only the
    /// lists that it returns, and nothing if they are empty.
    ///
    /// # Errors
    ///
    /// `Memory` if an allocation failed. The bridge is unchanged then.
    ///
    /// # Examples
    ///
    /// ```
    /// use pb_bpdu::read;
    /// use pb_frame::{Mac, Seq};
    /// use pb_lan::PortState;
    /// use pb_rstp::{Config, Role, Rstp, RstpPort};
    ///
    /// let port = RstpPort {
    ///     port: 1,
    ///     cost: 20_000,
    ///     priority: 128,
    /// };
    /// let config = Config {
    ///     address: Mac([2, 0, 0, 0, 0, 2]),
    ///     priority: 32_768,
    ///     ports: Seq::from_vec(Vec::from_slice(rt.alloc(), &[port])?),
    /// };
    /// // Bridge 8000.02-00-00-00-00-01 proposes itself as the root.
    /// let proposal = read(
    ///     b"\x01\x80\xc2\0\0\x08\x02\0\0\0\0\x01\0\x27\x42\x42\x03\0\0\x02\x02\x0e\
    ///     \x80\0\x02\0\0\0\0\x01\0\0\0\0\x80\0\x02\0\0\0\0\x01\x80\x01\0\0\x14\0\x02\0\x0f\0\0",
    /// )?;
    /// let mut bridge = Rstp::new(rt.alloc(), config)?;
    /// let change = bridge.hear(1, &proposal)?;
    /// assert_eq!(rt; bridge.roles(), [(1, Role::Root)].as_slice());
    /// assert_eq!(rt; bridge.states(), [(1, PortState::Forwarding)].as_slice());
    /// assert_eq!(rt; change.send.len(), 1);
    /// ```
    pub fn hear(&mut self, port: u8, m: &Bpdu) -> Result<Change, Memory>
        ensures ok { OnOk result (self.new ≡ (after_hear self.old port m.now).machine) }
        ensures change { IfOk result (λ change. change ≡ (after_hear self.old port m.now).change) }

        // A call changes no bridge, and no port's number, cost or priority.
        ensures same { OnOk result (IsSameBridge self.old self.new) }
        // A port that was the Root port and is not any more is Discarding.
        ensures old_roots { OnOk result (HoldsOldRoots self.old self.new) }
        // Each change of state is reported once, and each list goes by rising port number.
        ensures named { IfOk result (λ change. NamesChanges self.old self.new change) }
        // Each port has its role, and only Root and Designated ports do more than discard.
        ensures in_line { IsInLine self.new }

        ensures err { OnErr result (self.new ≡ self.old) }
    {
        let Some(p) = port_of(&self.ports, port) else {
            return Ok(Change::nothing(self.alloc));
        };
        if !p.port_enabled {
            return Ok(Change::nothing(self.alloc));
        }
        let before = offer_by(self.id, &self.ports);
        let own = OwnChange::Hearing {
            root: before.root,
            port: p.number,
            bpdu: *m,
        };
        let heard = heard_at(m, &p);
        let hello_when = self.hello_when;
        let change = self.conclude(hello_when, Some(heard), &before, &own)?;
        Ok(change)
    }

    /// Advances the timers by one second, and returns the changes (IEEE 802.1D-2004 clause 17.22, the Port Timers
    /// machine). Allocates only the lists that it returns, and nothing if they are empty.
    ///
    /// # Errors
    ///
    /// `Memory` if an allocation failed. The bridge is unchanged then.
    ///
    /// # Examples
    ///
    /// ```
    /// use pb_frame::{Mac, Seq};
    /// use pb_lan::PortState;
    /// use pb_rstp::{Config, Rstp, RstpPort};
    ///
    /// let port = RstpPort {
    ///     port: 1,
    ///     cost: 20_000,
    ///     priority: 128,
    /// };
    /// let config = Config {
    ///     address: Mac([2, 0, 0, 0, 0, 1]),
    ///     priority: 32_768,
    ///     ports: Seq::from_vec(Vec::from_slice(rt.alloc(), &[port])?),
    /// };
    /// let mut bridge = Rstp::new(rt.alloc(), config)?;
    /// // Forward Delay is 15 seconds.
    /// for _ in 0..15u8 {
    ///     let _ = bridge.tick()?;
    /// }
    /// assert_eq!(rt; bridge.states(), [(1, PortState::Learning)].as_slice());
    /// ```
    pub fn tick(&mut self) -> Result<Change, Memory>
        ensures ok { OnOk result (self.new ≡ (after_tick self.old).machine) }
        ensures change { IfOk result (λ change. change ≡ (after_tick self.old).change) }

        // A call changes no bridge, and no port's number, cost or priority.
        ensures same { OnOk result (IsSameBridge self.old self.new) }
        // A port that was the Root port and is not any more is Discarding.
        ensures old_roots { OnOk result (HoldsOldRoots self.old self.new) }
        // Each change of state is reported once, and each list goes by rising port number.
        ensures named { IfOk result (λ change. NamesChanges self.old self.new change) }
        // Each port has its role, and only Root and Designated ports do more than discard.
        ensures in_line { IsInLine self.new }

        ensures err { OnErr result (self.new ≡ self.old) }
    {
        let before = offer_by(self.id, &self.ports);
        let own = OwnChange::Ticking {
            fwd_delay: fwd_delay_of(&self.ports),
            hello: is_hello_tick(self.hello_when),
        };
        let hello_when = hello_when_after(self.hello_when);
        let change = self.conclude(hello_when, None, &before, &own)?;
        Ok(change)
    }

    /// Enables or disables a port, and returns the changes (IEEE 802.1D-2004 clause 17.19.18, portEnabled). A call with
    /// the value that the port has already, or for a port that the bridge lacks, changes nothing. Allocates only the
    /// lists that it returns, and nothing if they are empty.
    ///
    /// # Errors
    ///
    /// `Memory` if an allocation failed. The bridge is unchanged then.
    pub fn admin(&mut self, port: u8, up: bool) -> Result<Change, Memory>
        ensures ok { OnOk result (self.new ≡ (after_admin self.old port up).machine) }
        ensures change { IfOk result (λ change. change ≡ (after_admin self.old port up).change) }

        // A call changes no bridge, and no port's number, cost or priority.
        ensures same { OnOk result (IsSameBridge self.old self.new) }
        // A port that was the Root port and is not any more is Discarding.
        ensures old_roots { OnOk result (HoldsOldRoots self.old self.new) }
        // Each change of state is reported once, and each list goes by rising port number.
        ensures named { IfOk result (λ change. NamesChanges self.old self.new change) }
        // Each port has its role, and only Root and Designated ports do more than discard.
        ensures in_line { IsInLine self.new }

        ensures err { OnErr result (self.new ≡ self.old) }
    {
        let Some(p) = port_of(&self.ports, port) else {
            return Ok(Change::nothing(self.alloc));
        };
        if is_same_setting(p.port_enabled, up) {
            return Ok(Change::nothing(self.alloc));
        }
        let before = offer_by(self.id, &self.ports);
        let own = OwnChange::Setting { port, up };
        let hello_when = self.hello_when;
        let change = self.conclude(hello_when, None, &before, &own)?;
        Ok(change)
    }
}
