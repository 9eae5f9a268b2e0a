//! The BPDUs that a bridge sends, and the information that it stores from received ones.

ghost use Rattle.std.specs.Prelude.{◌≡◌};
ghost use Rattle.pb_rstp.specs.Messages.{times_by, message, is_from_designated, is_agreement, told, known};
ghost use Rattle.pb_rstp.specs.Messages.{is_superior, is_young, info_of, is_same_times};
ghost use Rattle.pb_rstp.specs.Settling.{nows, offer_by, is_same_offer};
ghost use Rattle.pb_rstp.specs.Vectors.{is_before};

use crate::moving::Moving;
use crate::port::{Info, Port, is_discarding, is_forwarding, root_info};
use crate::roles::root_vector;
use crate::vector::Vector;
use pb_bpdu::Bpdu;

/// The times in a BPDU, in units of 1/256 s: designatedTimes (IEEE 802.1D-2004 clause 17.19.5).
#[derive(Clone, Copy, PartialEq, Eq, Debug)]
pub(crate) struct Times {
    pub(crate) message_age: u16,
    pub(crate) max_age: u16,
    pub(crate) hello_time: u16,
    pub(crate) forward_delay: u16,
}

impl Times {
    /// Returns whether no time differs.
    fn is_same(&self, other: &Times) -> bool
        ensures { result ≡ is_same_times self.now other.now }
    {
        self.message_age == other.message_age
            && self.max_age == other.max_age
            && self.hello_time == other.hello_time
            && self.forward_delay == other.forward_delay
    }
}

/// What the Designated ports of a bridge offer: the root vector and the times of their BPDUs.
#[derive(Clone, Copy, PartialEq, Eq, Debug)]
pub(crate) struct Offer {
    pub(crate) root: Vector,
    pub(crate) times: Times,
}

/// Returns what the Designated ports of a bridge with these ports offer.
pub(crate) fn offer_by(id: u64, ports: &[Moving]) -> Offer
    ensures { result ≡ offer_by id (nows ports.now) }
{
    Offer {
        root: root_vector(id, ports),
        times: times_by(root_info(ports)),
    }
}

/// Returns whether a port offers the same vector and the same times before and after a call.
pub(crate) fn is_same_offer(id: u64, before: &Offer, was: &Port, after: &Offer, now: &Port) -> bool
    ensures { result ≡ is_same_offer id before.now was.now after.now now.now }
{
    let old = was.designated_vector(id, &before.root);
    let new = now.designated_vector(id, &after.root);
    old.is_same(&new) && before.times.is_same(&after.times)
}

/// Returns the root's own times, or the stored times with a Message Age one second higher (IEEE 802.1D-2004 clause
/// 17.21.25).
fn times_by(info: Option<Info>) -> Times
    ensures { result ≡ times_by info }
{
    match info {
        None => Times {
            message_age: 0,
            max_age: 20 * 256,
            hello_time: 2 * 256,
            forward_delay: 15 * 256,
        },
        Some(info) => Times {
            message_age: info.message_age.saturating_add(256),
            max_age: info.max_age,
            hello_time: info.hello_time,
            forward_delay: info.forward_delay,
        },
    }
}

/// Returns the BPDU of a port, from the bridge's identifier, root vector and times (IEEE 802.1D-2004 clause 17.21.20,
/// txRstp).
pub(crate) fn message(id: u64, offer: &Offer, p: &Port) -> Bpdu
    ensures { result ≡ message id offer.now.root offer.now.times p.now }
{
    Bpdu {
        change: p.tc_while > 0,
        proposal: p.role.is_designated() && !is_forwarding(p.state),
        role: p.role.code(),
        learning: !is_discarding(p.state),
        forwarding: is_forwarding(p.state),
        agreement: p.agree,
        root: offer.root.root,
        cost: offer.root.cost,
        bridge: id,
        port: p.id(),
        age: offer.times.message_age,
        max_age: offer.times.max_age,
        hello: offer.times.hello_time,
        delay: offer.times.forward_delay,
    }
}

/// Returns whether a Designated port sent the BPDU.
pub(crate) fn is_from_designated(m: &Bpdu) -> bool
    ensures { result ≡ is_from_designated m.now }
{
    m.role == 3
}

/// Returns whether a Root, Alternate or Backup port that agrees sent the BPDU.
pub(crate) fn is_agreement(m: &Bpdu) -> bool
    ensures { result ≡ is_agreement m.now }
{
    (m.role == 1 || m.role == 2) && m.agreement
}

/// Returns whether the BPDU's vector is better than the stored one.
fn is_better(m: &Bpdu, info: &Info) -> bool
    ensures { result ≡ is_before (told m.now) (known info.now) }
{
    if m.root != info.root {
        return m.root < info.root;
    }
    if m.cost != info.cost {
        return m.cost < info.cost;
    }
    if m.bridge != info.bridge {
        return m.bridge < info.bridge;
    }
    m.port < info.port
}

/// Returns whether the BPDU is better than the stored information, or has the same designated bridge and port (IEEE
/// 802.1D-2004 clause 17.21.8).
pub(crate) fn is_superior(m: &Bpdu, info: Option<Info>) -> bool
    ensures { result ≡ is_superior m.now info }
{
    match info {
        None => true,
        Some(info) => is_better(m, &info) || (m.bridge == info.bridge && m.port == info.port),
    }
}

/// Returns whether the BPDU is not too old to be stored: its age plus one second is at most its max age.
pub(crate) fn is_young(m: &Bpdu) -> bool
    ensures { result ≡ is_young m.now }
{
    m.age as u32 + 256 <= m.max_age as u32
}

/// Returns the information that a port stores from the BPDU, for three times its Hello Time (IEEE 802.1D-2004 clause
/// 17.21.23).
pub(crate) fn info_of(m: &Bpdu) -> Info
    ensures { result ≡ info_of m.now }
{
    Info {
        root: m.root,
        cost: m.cost,
        bridge: m.bridge,
        port: m.port,
        message_age: m.age,
        max_age: m.max_age,
        hello_time: m.hello,
        forward_delay: m.delay,
        rcvd_info_while: 3 * (m.hello / 256).max(1),
    }
}
