//! Least lengths and routes between two places of a road map.
//!
//! A walk goes from one place to another over lines that follow one another, each let through by a
//! class limit. [`lengths_from`] finds the least lengths of walks from a place, in decimetres; the
//! [`Reach`] that it returns answers the least length to any place of the map. [`lengths_to`] goes
//! towards some places and answers for these. [`route`] answers the one walk of least length that
//! is chosen, piece by piece. Data passes through these modules in order:
//!
//! - [`endpoints`]: tests on the two places that a route joins.
//! - [`turn`]: whether a line may follow another one.
//! - [`search`]: what is asked of a search, and its limits; [`arrival`]: an arrival at the end of a
//!   line; [`line_end`]: the length there, and whether the search may go on.
//! - [`node_lengths`]: lengths by node; [`starts`]: the lengths to the starts of lines.
//! - [`queue`]: the arrivals to come, the nearest one first.
//! - [`state`]: how far a search has come; [`arrive`]: arrivals at the ends of lines.
//! - [`dijkstra`]: the least lengths from a place, by Dijkstra's search; [`bellman_ford`]: the
//!   same, by Bellman and Ford's.
//! - [`reach`]: those lengths, and with them the length to each place that was asked for.
//! - [`sharing`]: departures that share a search.
//! - [`groups`]: lines by the node at which they start and the least length to their start.
//! - [`tight_turns`]: the turns on a shortest path, from the end of a line to a line of those
//!   groups.
//! - [`shortest`]: the lines on a shortest path to a line.
//! - [`routes`]: the route, in [`piece`]s of lines.
//!
//! Beside them, [`laws`] states what holds of all walks.
#![tactic(auto)]

mod arrival;
mod arrive;
mod bellman_ford;
mod dijkstra;
mod endpoints;
mod groups;
mod laws;
mod line_end;
mod node_lengths;
mod piece;
mod queue;
mod reach;
mod routes;
mod search;
mod sharing;
mod shortest;
mod starts;
mod state;
mod tight_turns;
mod turn;

pub use bellman_ford::lengths_by_rounds;
pub use dijkstra::{lengths_from, lengths_to};
pub use endpoints::{is_before_end, is_on_map};
pub use laws::{no_beginning_of_another, one_least_length, one_route, pieces_of_route};
pub use piece::Piece;
pub use reach::Reach;
pub use routes::route;
pub use search::Limits;
pub use sharing::shares_search;
