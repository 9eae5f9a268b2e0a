//! The part of a run that its control socket reads and sets.

ghost use Rattle.std.specs.Option.{option_map};
ghost use Rattle.std.specs.Prelude.{ℕ, Bool, List};
ghost use Rattle.std.specs.declared.option.Option.{Option};
ghost use Rattle.pb_control_socket.specs.declared.request.Request.{Request};
ghost use Rattle.pb_control_socket.specs.declared.request.Request.TheVariants.{Stop as stops, Set as sets};
ghost use Rattle.pb_threads.specs.declared.view.PortView.{PortView};
ghost use Rattle.pb_threads.specs.declared.view.StationView.{StationView};

use pb_threads::{PortView, StationView};

/// The part of a run that its control socket reads and sets while the run goes on. Workers and the socket share it, and
/// no call waits.
///
/// The ghost members let contracts say which calls are made (an allowed one, and no other) and which values were
/// returned. A board without such statements leaves them out.
pub trait Board {
    /// The socket may make this request of the board.
    ghost allows: { Self → Request → Type 0 } = { λ _ _. Unit {0} };

    /// The socket made this request of the board.
    ghost was_asked: { Self → Request → Type 0 } = { λ _ _. Unit {0} };

    /// These two counts were returned for the customer port of this number.
    ghost told_port: { Self → ℕ → ℕ × ℕ → Type 0 } = { λ _ _ _. Unit {0} };

    /// These two counts were returned for the bridge of this number.
    ghost told_bridge: { Self → ℕ → ℕ × ℕ → Type 0 } = { λ _ _ _. Unit {0} };

    /// These views were returned for the ports of the bridge of this number.
    ghost told_views: { Self → ℕ → List (Option PortView) → Type 0 } = { λ _ _ _. Unit {0} };

    /// These counts of dropped frames were returned for the bridge of this number.
    ghost told_drops: { Self → ℕ → List ℕ → Type 0 } = { λ _ _ _. Unit {0} };

    /// This was returned for the customer port of this number: whether its peer is there, if peers come and go.
    ghost told_peer: { Self → ℕ → Option Bool → Type 0 } = { λ _ _ _. Unit {0} };

    /// These stations were returned for the bridge of this number, or that it gave none.
    ghost told_stations: { Self → ℕ → Option (List StationView) → Type 0 } = { λ _ _ _. Unit {0} };

    /// Ends the run.
    fn stop(&self)
        requires { allows self.now stops }
        ensures { was_asked self.now stops };

    /// Enables or disables the bridge's port before the bridge's next turn.
    fn set(&self, bridge: u8, port: u8, up: bool)
        requires { allows self.now (sets bridge port up) }
        ensures { was_asked self.now (sets bridge port up) };

    /// Returns how many frames have entered at the customer port (from 1), and how many have left there.
    fn traffic(&self, port: u8) -> (u64, u64)
        ensures { told_port self.now port result };

    /// Returns how many copies and frames the bridge (from 1) had to refuse, and how often its clock ticked.
    fn bridge(&self, bridge: u8) -> (u64, u64)
        ensures { told_bridge self.now bridge result };

    /// Returns the views of the local ports 1 to 16 of the bridge (from 1). `None` for a port that leads to no other
    /// bridge, and for all ports before the bridge has begun.
    fn views(&self, bridge: u8) -> [Option<PortView>; 16]
        ensures { told_views self.now bridge result };

    /// Returns how many frames the bridge (from 1) dropped: ten counts of local port 1, then those of port 2, and so on
    /// to port 16. [`drop_word`](pb_messages::drop_word) has the word for each count of a port by its number, 0 to 9.
    fn drops(&self, bridge: u8) -> [u64; 160]
        ensures { told_drops self.now bridge result };

    /// Returns whether the customer port (from 1) has a peer. `None` for a port that is over no socket, or that does
    /// not stay when its peer leaves.
    fn peer(&self, port: u8) -> Option<bool>
        ensures { told_peer self.now port result };

    /// Asks the bridge (from 1) for its stations.
    fn ask_stations(&self, bridge: u8);

    /// Checks whether there is a result for [`stations`](Board::stations): the bridge (from 1) has given its stations
    /// after the newest question, or has had time enough.
    fn has_stations(&self, bridge: u8) -> bool;

    /// Returns the stations that the bridge (from 1) has learnt and not forgotten, by VID and address. `None` if it has
    /// not given them, or an allocation failed.
    fn stations(&self, bridge: u8) -> Option<Vec<StationView>>
        ensures { told_stations self.now bridge (option_map (λ list. list.items) result) };
}
