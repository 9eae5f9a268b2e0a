//! The users of files: the customer ports of a plan, and its taps after them.

ghost use Rattle.std.specs.Prelude.{◌≡◌, ◌++◌, map, string_bytes, OnOk};
ghost use Rattle.pb_cmd_run.specs.Telling.{link_of, user_at};

use pb_frame::Memory;
use pb_lan::CustomerPlan;

/// The users of files. Each has a place: customer ports those of the plan, from 0, and taps the places after them.
#[derive(Clone, Copy)]
pub(crate) struct Users<'a> {
    /// The customer ports.
    pub customers: &'a [CustomerPlan],
    /// The names of the links of the taps.
    pub taps: &'a [&'a str],
}

/// Returns the name of the link of a tap, or the empty text if there is no such tap.
#[tactic(auto, using(crate::proofs::TellingLemmas::linked, crate::proofs::TellingLemmas::unlinked))]
fn link_of<'a>(taps: &[&'a str], index: usize) -> &'a str
    ensures { result.now ≡ link_of (map (λ n. n.now) taps.now) index }
{
    if index < taps.len() { taps[index] } else { "" }
}

/// Appends the user at a place.
#[tactic(auto, using(crate::proofs::TellingLemmas::user_port, crate::proofs::TellingLemmas::user_tap))]
pub(crate) fn put_user(out: &mut String, users: Users<'_>, place: usize) -> Result<(), Memory>
    ensures { OnOk result (string_bytes out.new ≡ string_bytes out.old
        ++ user_at users.entry.customers.now (map (λ n. n.now) users.entry.taps.now) place) }
{
    if place < users.customers.len() {
        let name = users.customers[place].name.as_str();
        write!(out, "port {name}")?;
    } else {
        let link = link_of(users.taps, place - users.customers.len());
        write!(out, "tap of link {link}")?;
    }
    Ok(())
}
