//! Performs lines and makes their replies.

ghost use Rattle.std.specs.List.{All};
ghost use Rattle.std.specs.Prelude.{◌≡◌, ◌++◌, List, ℕ, true, string_bytes, OnOk};
ghost use Rattle.pb_control_socket.specs.Sizes.{IsFew};
ghost use Rattle.pb_control_socket.specs.Answers.{IsDone, IsReply, HasAnswered};
ghost use Rattle.pb_control_socket.specs.Requests.{Asks, is_there, changes};
ghost use Rattle.pb_control_socket.specs.declared.request.Request.{Request};

use crate::board::Board;
use crate::counts::put_counts;
use crate::drops::Drops;
use crate::endings::{put_bad, put_ok};
use crate::help::put_help;
use crate::parts::set_part;
use crate::reading::read_request;
use crate::reply_lines::put_of_bridges;
use crate::request::{Refused, Request};
use crate::stations::put_stations;
use crate::tree::Tree;
use pb_frame::Memory;
use pb_lan::Plan;
use pb_step_script::put_no_such;
use std::alloc::Global;

/// Appends the whole reply to a request.
///
/// # Errors
///
/// `Memory` if an allocation failed.
fn put_reply<B: Board>(
    alloc: Global,
    plan: &Plan,
    board: &B,
    request: Request,
    out: &mut String,
) -> Result<(), Memory>
    requires { IsFew plan.now }
    ensures { OnOk result ((text : List ℕ) × (string_bytes out.new ≡ string_bytes out.old ++ text)
        × IsReply plan.now (B.told_port board.now) (B.told_bridge board.now) (B.told_peer board.now)
        (B.told_views board.now) (B.told_drops board.now) (B.told_stations board.now) request text) }
{
    match request {
        Request::Stop | Request::Set { .. } | Request::SetPart { .. } => put_ok(out),
        Request::Counts => {
            put_counts(alloc, plan, board, out)?;
            put_ok(out)
        }
        Request::Tree => {
            put_of_bridges(alloc, plan, &Tree { board }, out)?;
            put_ok(out)
        }
        Request::Drops => {
            put_of_bridges(alloc, plan, &Drops { board }, out)?;
            put_ok(out)
        }
        Request::Stations { bridge } => put_stations(alloc, plan, board, bridge, out),
        Request::Help => {
            put_help(out)?;
            put_ok(out)
        }
    }
}

/// Makes the changes of a request at the board. A request that changes nothing makes none.
fn perform<B: Board>(plan: &Plan, board: &B, request: Request)
    requires { All (B.allows board.now) (changes plan.now request) }
    ensures { IsDone plan.now (B.was_asked board.now) request }
{
    match request {
        Request::Stop => board.stop(),
        Request::Counts | Request::Tree | Request::Drops | Request::Help => {}
        Request::Stations { .. } => {}
        Request::Set { bridge, port, up } => board.set(bridge, port, up),
        Request::SetPart { part, up } => set_part(plan, board, part, up),
    }
}

/// Performs one line, without its LF, at the board, and appends the reply. A line of more than 256 octets may be cut.
///
/// A reply is lines, the last of which is `ok`, `no such` or `bad`, as [`read_request`] decides. Before `ok`, the reply
/// to `counts` has a line `port NAME entered N left N` for each customer port, a line `bridge NAME refused N ticks N`
/// for each bridge, and a line `peer NAME connected` or `peer NAME none` for each customer port that the board says to
/// have peers that come and go, each kind by the octets of the names. The reply to `tree` has a line `port BRIDGE N
/// ROLE STATE` for each port to another bridge, by the octets of the bridges' names and by number, without the role if
/// the plan gives the states. The reply to `drops` has a line `bridge NAME port N WORD COUNT` for each count of a local
/// port that is not 0, by the octets of the bridges' names, by port, and by number: WORD is that of
/// [`drop_word`](pb_messages::drop_word). The reply to `stations` has a line `station BRIDGE VID ADDRESS port N age N`
/// for each station that the board gives, in its order, or is the line `no answer` if it gives none. The reply to
/// `help` has a line for each request. Nothing is done except what the line requests.
///
/// # Errors
///
/// `Memory` if an allocation for the reply failed. The request was not performed then, and a part of the reply may be
/// at the end of the text.
pub fn answer<B: Board>(
    alloc: Global,
    plan: &Plan,
    board: &B,
    line: &[u8],
    out: &mut String,
) -> Result<(), Memory>
    requires few { IsFew plan.now }
    requires allowed { (request : Request) → Asks plan.now line.now request → is_there plan.now request ≡ true
        → All (B.allows board.now) (changes plan.now request) }
    ensures { OnOk result (HasAnswered plan.now (B.was_asked board.now) (B.told_port board.now)
        (B.told_bridge board.now) (B.told_peer board.now) (B.told_views board.now) (B.told_drops board.now)
        (B.told_stations board.now) line.now (string_bytes out.old) (string_bytes out.new)) }
{
    match read_request(plan, line) {
        Ok(request) => {
            put_reply(alloc, plan, board, request, out)?;
            perform(plan, board, request);
            Ok(())
        }
        Err(Refused::NoSuch) => put_no_such(out),
        Err(Refused::Bad) => put_bad(out),
    }
}
