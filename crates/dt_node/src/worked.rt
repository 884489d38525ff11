//! Worked runs: what the definitions compute on a few inputs.
#![tactic(auto, unfolding(crate::specs::Runs::node_run, crate::specs::Runs::run_from, dt_layout::specs::Spelling::gram_spelling, dt_layout::specs::Spelling::packet_spelling, dt_layout::specs::Reading::gram_in, dt_layout::specs::Reading::packet_in, dt_layout::specs::Reading::packet_fault, dt_layout::specs::Reading::gram_fault, dt_layout::specs::Carried::life_of, dt_layout::specs::Carried::to_of, dt_layout::specs::Carried::lowered))]

ghost use Rattle.std.specs.Prelude.{◌≡◌, [], ◌∷◌, None, Some, false, true};
ghost use Rattle.dt_layout.specs.declared.faults.LayoutFault.TheVariants as layout;
ghost use Rattle.dt_reports.specs.declared.faults.Refusal.TheVariants as refusal;
ghost use Rattle.dt_reports.specs.declared.reports.Report.TheVariants as report;
ghost use Rattle.dt_world_model.specs.Worked.{main_flow};
ghost use Rattle.dt_node.specs.Acts.{entry};
ghost use Rattle.dt_node.specs.Runs.{LeftOver, Stopped, Unfinished, node_run};
ghost use Rattle.dt_node.specs.Worked.{acknowledgement, exchange, exchanged, shelved, short};

/// A node sends five octets, is acknowledged at 40, and stops at 100. Where it begins again it is
/// silent. Fifteen octets give their line and no event. With one take fewer the run isn't finished, and
/// a reading that no turn used is left over.
pub fn exchange_is_logged()
    ensures lines { exchanged false (Some acknowledgement)
        ≡ entry 1 0 (report.Took main_flow 5)
        ∷ entry 1 0 (report.Sent main_flow 0 5 true true true)
        ∷ entry 1 0 (report.Put 1 999)
        ∷ entry 1 40 (report.Settled main_flow 5 4091)
        ∷ entry 1 100 report.End ∷ [] }
    ensures stopped { (node_run (exchange false) (1000 ∷ 1040 ∷ 1100 ∷ []) (Some acknowledgement ∷ None ∷ [])).ending ≡ Stopped }
    ensures again { exchanged true (Some acknowledgement)
        ≡ entry 1 0 (report.Refused main_flow (refusal.Quiet 6200))
        ∷ entry 1 40 (report.Quiet 6200)
        ∷ entry 1 100 report.End ∷ [] }
    ensures bad { exchanged false (Some short)
        ≡ entry 1 0 (report.Took main_flow 5)
        ∷ entry 1 0 (report.Sent main_flow 0 5 true true true)
        ∷ entry 1 0 (report.Put 1 999)
        ∷ entry 1 40 (report.Bad (layout.Short 15))
        ∷ entry 1 100 report.End ∷ [] }
    ensures unfinished { (node_run (exchange false) (1000 ∷ 1040 ∷ 1060 ∷ []) (None ∷ None ∷ [])).ending ≡ Unfinished }
    ensures left_over { (node_run (exchange false) (1000 ∷ 1100 ∷ 1200 ∷ []) (None ∷ None ∷ [])).ending ≡ LeftOver }
{}

/// The end of a message comes before its beginning. It is held, and handed in again when the beginning
/// was accepted. Where the life of both is 51, the end has less left after 11 ms than its link charges.
pub fn early_data_are_handed_in_again()
    ensures lines { shelved 999
        ≡ entry 2 10 (report.Dropped main_flow 4)
        ∷ entry 2 10 (report.Shelved main_flow 4)
        ∷ entry 2 20 (report.Accepted main_flow 0 4 true)
        ∷ entry 2 20 (report.Again main_flow 4)
        ∷ entry 2 20 (report.Accepted main_flow 4 4 false)
        ∷ entry 2 20 (report.Acked main_flow 8 4088)
        ∷ entry 2 20 (report.Put 1 999)
        ∷ entry 2 100 report.End ∷ [] }
    ensures short { shelved 51
        ≡ entry 2 10 (report.Dropped main_flow 4)
        ∷ entry 2 10 (report.Shelved main_flow 4)
        ∷ entry 2 20 (report.Accepted main_flow 0 4 true)
        ∷ entry 2 20 (report.Again main_flow 4)
        ∷ entry 2 20 (report.ExpiredIn 1)
        ∷ entry 2 100 report.End ∷ [] }
{}
