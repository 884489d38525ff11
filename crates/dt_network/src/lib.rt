//! Networks of endpoints, as their callers see them, and the laws that are said of them. Each law is the
//! contract of a public function with an empty body.
#![tactic(auto)]

mod worked;

ghost use Rattle.std.specs.Prelude.{ℕ, ◌≡◌, ◌==◌, false, List, None, Some};
ghost use Rattle.dt_items.specs.declared.item.Item.{Item};
ghost use Rattle.dt_units.specs.declared.endpoints.Flow.{Flow};
ghost use Rattle.dt_units.specs.Limits.{IsWithinLimits};
ghost use Rattle.dt_units.specs.declared.parameters.Params.{Params};
ghost use Rattle.dt_world_model.specs.declared.links.InLink.{InLink};
ghost use Rattle.dt_world_model.specs.declared.links.OutLink.{OutLink};
ghost use Rattle.dt_world_model.specs.declared.links.Route.{Route};
ghost use Rattle.dt_flow_model.specs.declared.rows.Fate.TheVariants.{Acked};
ghost use Rattle.dt_flow_model.specs.Ledger.{row_at};
ghost use Rattle.dt_world_model.specs.Tables.{look};
ghost use Rattle.dt_world_model.specs.World.{Placed, World};
ghost use Rattle.dt_world_model.specs.WorldFacts.{SafeWorld, WorldFacts};
ghost use Rattle.dt_endpoint.specs.Endpoints.{opened};
ghost use Rattle.dt_network.specs.Away.{WasAway, open_at_once, opened_at_once};
ghost use Rattle.dt_network.specs.Beside.{GoesBeside};
ghost use Rattle.dt_network.specs.Books.{AllFound, Book, IsSafeBook, WasAccepted, book_of, new_book};
ghost use Rattle.dt_network.specs.Duties.{KeepsDuties};
ghost use Rattle.dt_network.specs.Network.{Network, Setup, new_network};
ghost use Rattle.dt_network.specs.Octets.{AreTaken, IsReadOf, all_read};
ghost use Rattle.dt_network.specs.Stations.{first_world};
ghost use Rattle.dt_network.specs.Steps.{AreSteps, Step, network_by};

pub use worked::exchange_keeps_the_duties;

/// A NETWORK IS A WORLD. Whatever calls a program makes of the endpoints of a network: where it keeps its
/// duties, a world of the definitions goes beside the network, from the first world of the same setup.
/// Before the calls and after each of them every endpoint is its station, every frame that left is a
/// copy of it, and the world is safe; from call to call it goes on by its steps, and no fate changes
/// that isn't open. A link is a node's own: what left any node may come to any node, on any link there,
/// whose charge alone counts. Links and routes are no duty: a call may add a route, and a node may open
/// again with others than it had. Then its station of the world has those too.
pub fn network_is_a_world()
    ensures { (setup : Setup) (steps : List Step) → IsWithinLimits setup.params → AreSteps setup steps (new_network setup) → KeepsDuties setup steps (new_network setup) → GoesBeside setup steps (new_network setup) (first_world setup) }
{}

/// WHAT IS READ IS WHAT WAS SENT. Where a program keeps its duties, the octets that the reads of a flow
/// answered are octets that its sends took: each at most once, in the order of their sending, with the
/// marks of their messages. Some may be left out; the next that is read has a run mark then. Only of a
/// send that found no memory it isn't known whether its octets count among those that were taken.
///
/// This holds over all openings of the flow's nodes, whatever was lost, came again or came late within
/// its charge.
pub fn what_is_read_is_what_was_sent()
    ensures { (setup : Setup) (steps : List Step) (f : Flow) → IsWithinLimits setup.params → AreSteps setup steps (new_network setup) → KeepsDuties setup steps (new_network setup) → (taken : List Item) × AreTaken f steps taken × IsReadOf false (all_read f steps) taken }
{}

/// A NODE THAT WAS AWAY OPENS WITHOUT SILENCE. Where a station sent nothing on any flow and accepted
/// nothing for the quiet time, `3 mpl + r + a`, it may start again with the host of a first start: all
/// facts of its world stand, and each flow is safe. So a node that is known to have been away for so long
/// may open without `again`; of one of which that isn't known, `again` is a duty.
pub fn node_that_was_away_opens_at_once()
    ensures facts { (w : World) (n : ℕ) (at : Placed) → look ◌==◌ n w.stations ≡ Some at → IsWithinLimits w.params → WorldFacts w → WasAway w n → WorldFacts (open_at_once w n at) }
    ensures safe { (w : World) (n : ℕ) (at : Placed) → look ◌==◌ n w.stations ≡ Some at → IsWithinLimits w.params → WorldFacts w → WasAway w n → SafeWorld (open_at_once w n at) }
    // It is what an endpoint of the node is that opens so.
    ensures host { (p : Params) (n now : ℕ) (at : Placed) (outs : List OutLink) (ins : List InLink) (routes : List Route) → at.station.host.me ≡ n → (opened p n None outs ins routes).state.host ≡ (opened_at_once p now at).station.host }
{}

/// THE LEDGER THAT IS TOLD IS SAFE. Where a program keeps its duties and every call finds memory, the
/// reports `Took`, `Settled` and `Uncertain` tell a row for each octet that the sends of a flow took, with
/// its fate, and the reports `Accepted` one for each octet that its reader accepted, with the life of the
/// reader in which it did. No report tells at which place of the sends an accepted octet stands. But there
/// is a place for each of them, in order, at which the same octet was sent, such that what was settled was
/// accepted, and what was passed over is uncertain or of an earlier opening of its sender. The last of the
/// accepted are what is unread at the reader; those before were read, as the reads answered, but for some
/// that were accepted before the reader's last opening.
pub fn reports_tell_a_safe_ledger()
    ensures { (setup : Setup) (steps : List Step) (f : Flow) → IsWithinLimits setup.params → AreSteps setup steps (new_network setup) → KeepsDuties setup steps (new_network setup) → AllFound steps → IsSafeBook f (network_by steps (new_network setup)) (book_of f steps (new_network setup) new_book) (all_read f steps) }
{}

/// WHAT WAS SETTLED WAS ACCEPTED. In such a book each octet that the sender's reports settled is among
/// those that the reader's reports `Accepted` tell, with its marks, however often either node opened again.
pub fn what_was_settled_was_accepted()
    ensures { (f : Flow) (net : Network) (book : Book) (read : List Item) (place : ℕ) → IsSafeBook f net book read → (row_at book.rows place).fate ≡ Acked → WasAccepted book.given (row_at book.rows place) }
{}
