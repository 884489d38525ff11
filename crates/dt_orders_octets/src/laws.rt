//! What is written is read again as it was.
ghost use Rattle.std.specs.Prelude.{◌≡◌, Option, Some};
ghost use Rattle.dt_orders_model.specs.declared.knowledge.Opening.{Opening};
ghost use Rattle.dt_orders_model.specs.declared.lanes.Answer.{Answer};
ghost use Rattle.dt_orders_model.specs.declared.lanes.Client.{Client};
ghost use Rattle.dt_orders_model.specs.declared.registers.Meta.{Meta};
ghost use Rattle.dt_orders_model.specs.declared.registers.Row.{Row};
ghost use Rattle.dt_orders_octets.specs.declared.requests.NumberedLane.{NumberedLane};
ghost use Rattle.dt_orders_octets.specs.declared.requests.Request.{Request};
ghost use Rattle.dt_orders_octets.specs.Ranges.{FitsAnswer, FitsClient, FitsLane, FitsMeta, FitsOpening, FitsRequest, FitsRow};
ghost use Rattle.dt_orders_octets.specs.Reading.{answer_in, client_in, is_answer, is_client, is_lane, is_meta, is_request, is_row, lane_in, meta_in, opening_at, read_if, request_in, row_in};
ghost use Rattle.dt_orders_octets.specs.Spelling.{answer_octets, client_octets, lane_octets, meta_octets, opening_octets, request_octets, row_octets};

/// What is written of numbers that fit their places is read again as it was.
pub fn written_is_read()
    ensures meta { (m : Meta) → FitsMeta m
        → read_if (is_meta (meta_octets m)) (meta_in (meta_octets m)) ≡ Some m }
    ensures opening { (o : Option Opening) → FitsOpening o
        → opening_at 0 (opening_octets o) ≡ o }
    ensures row { (r : Option Row) → FitsRow r
        → read_if (is_row (row_octets r)) (row_in (row_octets r)) ≡ Some r }
    ensures request { (q : Request) → FitsRequest q
        → read_if (is_request (request_octets q)) (request_in (request_octets q)) ≡ Some q }
    ensures answer { (a : Answer) → FitsAnswer a
        → read_if (is_answer (answer_octets a)) (answer_in (answer_octets a)) ≡ Some a }
    ensures client { (c : Client) → FitsClient c
        → read_if (is_client (client_octets c)) (client_in (client_octets c)) ≡ Some c }
    ensures lane { (l : NumberedLane) → FitsLane l
        → read_if (is_lane (lane_octets l)) (lane_in (lane_octets l)) ≡ Some l }
{}
