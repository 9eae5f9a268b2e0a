//! A BPDU is received.

ghost use Rattle.std.specs.Prelude.{◌≡◌, Some, None, if◌then◌else◌};
ghost use Rattle.pb_rstp.specs.Machine.{takes_place, is_stored, with_news, has_agreed, with_answer, hearing};
ghost use Rattle.pb_rstp.specs.Machine.{heard_at};
ghost use Rattle.pb_rstp.specs.Messages.{is_young, info_of};

use crate::message::{info_of, is_agreement, is_from_designated, is_superior, is_young};
use crate::moving::Heard;
use crate::port::{Info, Port};
use crate::vector::Vector;
use pb_bpdu::Bpdu;

/// Returns whether the BPDU replaces the stored information.
fn takes_place(m: &Bpdu, p: &Port) -> bool
    ensures { result ≡ takes_place m.now p.now }
{
    is_from_designated(m) && is_superior(m, p.info)
}

/// Returns whether the port stores the BPDU.
fn is_stored(m: &Bpdu, p: &Port) -> bool
    ensures { result ≡ is_stored m.now p.now }
{
    takes_place(m, p) && is_young(m)
}

/// Returns the information of the BPDU, or None if it is too old to be stored.
fn news_of(m: &Bpdu) -> Option<Info>
    ensures { result ≡ (if is_young m.now then Some (info_of m.now) else None) }
{
    if is_young(m) { Some(info_of(m)) } else { None }
}

/// Stores the BPDU at the port, if it replaces the stored information.
fn store_news(m: &Bpdu, p: &mut Port)
    ensures { p.new ≡ with_news m.now p.old }
{
    if takes_place(m, p) {
        p.info = news_of(m);
    }
}

/// Returns whether the neighbour agrees to the bridge's root (IEEE 802.1D-2004 clause 17.21.9, recordAgreement).
fn has_agreed(root: &Vector, m: &Bpdu, p: &Port) -> bool
    ensures { result ≡ has_agreed root.now m.now p.now }
{
    is_agreement(m) && p.role.is_designated() && m.root == root.root
}

/// Sets `agreed`, if the neighbour agrees.
fn record_answer(root: &Vector, m: &Bpdu, p: &mut Port)
    ensures { p.new ≡ with_answer root.now m.now p.old }
{
    if has_agreed(root, m, p) {
        p.agreed = true;
    }
}

/// Changes the port, if it has this number: it receives the BPDU.
pub(crate) fn receive(root: &Vector, port: u8, m: &Bpdu, p: &mut Port)
    ensures { p.new ≡ hearing root.now port m.now p.old }
{
    if p.number == port {
        store_news(m, p);
        record_answer(root, m, p);
    }
}

/// Returns the BPDU, its port and whether it is stored, for the steps that follow.
pub(crate) fn heard_at(m: &Bpdu, p: &Port) -> Heard
    ensures { result ≡ heard_at m.now p.now }
{
    Heard {
        port: p.number,
        bpdu: *m,
        stored: is_stored(m, p),
    }
}
