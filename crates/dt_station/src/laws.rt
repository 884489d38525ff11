//! What a station's event means, beside the definition that says it whole.
ghost use Rattle.std.specs.Prelude.{◌≡◌, ℕ, Err, Some};
ghost use Rattle.dt_units.specs.declared.parameters.Params.{Params};
ghost use Rattle.dt_layout.specs.Carried.{to_of};
ghost use Rattle.dt_layout.specs.Reading.{gram_in, packet_read};
ghost use Rattle.dt_layout.specs.declared.faults.LayoutFault.{LayoutFault};
ghost use Rattle.dt_reports.specs.declared.reports.Report.TheVariants as report;
ghost use Rattle.dt_world_model.specs.Relay.{Parcel, admit};
ghost use Rattle.dt_world_model.specs.Script.{Done, Tell};
ghost use Rattle.dt_world_model.specs.Station.{Arrive, Station, happen};

/// A packet for the station's node that `read_packet` refuses is reported as bad, and nothing else comes of
/// it: the whole event is to settle, to report that, and to settle again.
pub fn octets_that_do_not_read_change_nothing<T>()
    ensures { (p : Params) (now link : ℕ) (parcel admitted : Parcel T) (fault : LayoutFault) (station : Station T) →
        admit link parcel station.relay ≡ Some admitted → to_of admitted.octets ≡ station.host.me → packet_read (gram_in admitted.octets) ≡ Err fault →
        happen p now (Arrive link parcel) station ≡ Tell (report.Bad fault) (Done station) }
{}
