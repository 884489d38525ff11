//! The laws' premises, met by a worked network.
ghost use Rattle.std.specs.Prelude.{◌≡◌, true, [], ◌∷◌, map};
ghost use Rattle.dt_items.specs.Unread.{marked};
ghost use Rattle.dt_flow_model.specs.declared.rows.Fate.TheVariants.{Acked};
ghost use Rattle.dt_world_model.specs.Worked.{main_flow};
ghost use Rattle.dt_network.specs.Books.{AllFound, book_of, new_book};
ghost use Rattle.dt_network.specs.Duties.{KeepsDuties};
ghost use Rattle.dt_network.specs.Network.{new_network};
ghost use Rattle.dt_network.specs.Octets.{all_read};
ghost use Rattle.dt_network.specs.Steps.{AreSteps};
ghost use Rattle.dt_network.specs.Worked.{exchange, message, over_a_relay};

/// Two nodes and a relay between them keep the duties in twelve steps. Their clocks differ, and so do the
/// numbers of their links: the relay reaches both by one link. A message is sent, comes over the relay, is
/// read and is acknowledged, a route is added, and the reader starts again with another link. So the
/// premises of the laws can be met; what is read is the message, and its octets are reported as
/// acknowledged.
pub fn exchange_keeps_the_duties()
    ensures steps { AreSteps over_a_relay exchange (new_network over_a_relay) }
    ensures duties { KeepsDuties over_a_relay exchange (new_network over_a_relay) }
    ensures memory { AllFound exchange }
    ensures read { all_read main_flow exchange ≡ marked message true true true }
    ensures told { map (λ row. row.fate) (book_of main_flow exchange (new_network over_a_relay) new_book).rows ≡ Acked ∷ Acked ∷ Acked ∷ Acked ∷ [] }
{}
