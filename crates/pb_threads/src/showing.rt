//! What a worker shows its gate of its place.

use crate::gate::Gate;
use crate::turns::Work;
use pb_lan::Place;

/// The number of local ports of a place.
const PORTS: u8 = 16;

/// Shows the gate the view of each local port of a place.
pub(crate) fn show_ports<T: Work, G: Gate>(owned: &T, gate: &G, place: Place) {
    for index in 0..PORTS {
        let port = index + 1;
        if let Some(view) = owned.shown(port) {
            gate.shows(place, port, view);
        }
    }
}

/// Shows the gate the stations of a place, if it asks for them.
pub(crate) fn show_stations<T: Work, G: Gate>(owned: &T, gate: &G, place: Place) {
    if gate.asks_stations(place) {
        gate.shows_stations(place, owned.stations());
    }
}
