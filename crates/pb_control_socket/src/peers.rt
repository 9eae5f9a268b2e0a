//! The lines of customer ports whose peers come and go.

ghost use Rattle.std.specs.Prelude.{◌≡◌, ◌++◌, Bool, string_bytes, OnOk};
ghost use Rattle.std.specs.declared.option.Option.{Option};
ghost use Rattle.pb_control_socket.specs.Texts.{peer_line};

use crate::board::Board;
use crate::reply_lines::ReplyLines;
use pb_frame::Memory;

/// Appends the line of a customer port, if its peers come and go.
///
/// # Errors
///
/// `Memory` if an allocation failed.
fn put_peer(out: &mut String, name: &str, is_connected: Option<bool>) -> Result<(), Memory>
    ensures { OnOk result (string_bytes out.new ≡ string_bytes out.old ++ peer_line name.now is_connected) }
{
    match is_connected {
        None => {}
        Some(true) => writeln!(out, "peer {name} connected")?,
        Some(false) => writeln!(out, "peer {name} none")?,
    }
    Ok(())
}

/// The lines of the customer ports whose peers come and go.
#[derive(Drop)]
pub(crate) struct Peers<'a, B> {
    /// The part of a run that is read.
    pub(crate) board: &'a B,
}

impl<B: Board> ReplyLines for Peers<'_, B> {
    ghost Fact = { Option Bool };

    ghost told = { λ those. B.told_peer those.board.now };

    ghost lines = { λ _ name fact. peer_line name fact };

    fn put(&self, out: &mut String, name: &str, number: u8) -> Result<(), Memory> {
        put_peer(out, name, self.board.peer(number))
    }
}
