//! The reply to `tree`.

ghost use Rattle.std.specs.Prelude.{◌≡◌, ◌++◌, List, ℕ, None, flat_map, unwrap_or, string_bytes, OnOk};
ghost use Rattle.std.specs.declared.option.Option.{Option};
ghost use Rattle.pb_control_socket.specs.Texts.{role_words, view_line, line_among, view_lines};
ghost use Rattle.pb_lan.specs.Numbering.{numbered};
ghost use Rattle.pb_threads.specs.declared.view.PortView.{PortView};

use crate::board::Board;
use crate::reply_lines::ReplyLines;
use pb_frame::{Memory, index_of};
use pb_names::{role_word, state_word};
use pb_rstp::Role;
use pb_threads::PortView;

/// The numbers of a bridge's local ports.
pub(crate) const PORTS: &[u8] = &[1, 2, 3, 4, 5, 6, 7, 8, 9, 10, 11, 12, 13, 14, 15, 16];

/// Appends the name of a role and a space, if there is a role.
///
/// # Errors
///
/// `Memory` if an allocation failed.
fn put_role(out: &mut String, role: Option<Role>) -> Result<(), Memory>
    ensures { OnOk result (string_bytes out.new ≡ string_bytes out.old ++ role_words role) }
{
    if let Some(role) = role {
        let word = role_word(role);
        write!(out, "{word} ")?;
    }
    Ok(())
}

/// Appends the line of a bridge's port, if it has a view.
///
/// # Errors
///
/// `Memory` if an allocation failed.
fn put_view(out: &mut String, name: &str, port: u8, view: Option<PortView>) -> Result<(), Memory>
    ensures { OnOk result (string_bytes out.new ≡ string_bytes out.old ++ view_line name.now port view) }
{
    let Some(view) = view else {
        return Ok(());
    };
    write!(out, "port {name} {port} ")?;
    put_role(out, view.role)?;
    let state = state_word(view.state);
    writeln!(out, "{state}")?;
    Ok(())
}

/// Returns the view of the port of this number, from 1.
fn view_at(views: &[Option<PortView>], port: u8) -> Option<PortView>
    ensures { result ≡ unwrap_or (numbered views.now port) None }
{
    if port == 0 {
        return None;
    }
    match views.get(index_of(port)) {
        Some(view) => *view,
        None => None,
    }
}

/// Appends the lines of these ports of a bridge.
///
/// # Errors
///
/// `Memory` if an allocation failed.
fn put_views(
    out: &mut String,
    name: &str,
    views: &[Option<PortView>],
    ports: &[u8],
) -> Result<(), Memory>
    ensures { OnOk result (string_bytes out.new ≡ string_bytes out.old
        ++ flat_map (line_among name.now views.now) ports.now) }
{
    for port in ports {
        put_view(out, name, *port, view_at(views, *port))?;
    }
    Ok(())
}

/// Appends the lines of all ports of a bridge.
///
/// # Errors
///
/// `Memory` if an allocation failed.
fn put_bridge(out: &mut String, name: &str, views: &[Option<PortView>]) -> Result<(), Memory>
    ensures { OnOk result (string_bytes out.new ≡ string_bytes out.old ++ view_lines name.now views.now) }
{
    put_views(out, name, views, PORTS)
}

/// The lines of the ports between bridges.
#[derive(Drop)]
pub(crate) struct Tree<'a, B> {
    /// The part of a run that is read.
    pub(crate) board: &'a B,
}

impl<B: Board> ReplyLines for Tree<'_, B> {
    ghost Fact = { List (Option PortView) };

    ghost told = { λ those. B.told_views those.board.now };

    ghost lines = { λ _ name fact. view_lines name fact };

    fn put(&self, out: &mut String, name: &str, number: u8) -> Result<(), Memory> {
        put_bridge(out, name, &self.board.views(number))
    }
}
