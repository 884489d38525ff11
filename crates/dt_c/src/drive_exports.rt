//! The exports that drive a node, and what it says of itself.
ghost use Rattle.std.specs.Borrow.{sem};
ghost use Rattle.std.specs.Ptr.{points_to};
ghost use Rattle.dt_c.specs.Calls.{Arriving, Counting, Following, KeptOut, NextFrame, NextReport, Ticking, Totalling, Waking};
ghost use Rattle.dt_c.specs.contracts.slots.Slot.{the_row};
ghost use Rattle.dt_c.specs.declared.slots.Slot.{Slot};

use crate::c_structs::{
    BlockedCounts, CFlow, CReport, Datagram, FlowCounts, NodeCounts, ReceiveResult,
};
use crate::slots::{Handle, Slot};

/// What is due at `now` is done.
#[unsafe(no_mangle)]
pub unsafe extern "C" fn dt_node_tick(node: *mut Handle, now: u64) -> u8
    ghost g: { Slot }
    requires* { sem 𝓛 (points_to the_row node g) }
    ensures* { ∃ₛ (λ h. sem 𝓛 (points_to the_row node h) ∗ ⌜ Ticking result now g h ⌝) }
{
    Slot::tick(unsafe { &mut *(node as *mut Slot) }, now)
}

/// A datagram came on a link, and waited so many milliseconds until this call.
#[unsafe(no_mangle)]
pub unsafe extern "C" fn dt_node_receive(
    node: *mut Handle,
    now: u64,
    link: u16,
    datagram: &[u8],
    waited: u32,
) -> ReceiveResult
    ghost g: { Slot }
    requires* { sem 𝓛 (points_to the_row node g) }
    ensures* { ∃ₛ (λ h. sem 𝓛 (points_to the_row node h) ∗ ⌜ Arriving result now link datagram.now waited g h ⌝) }
{
    Slot::receive(
        unsafe { &mut *(node as *mut Slot) },
        now,
        link,
        datagram,
        waited,
    )
}

/// The first frame that waits, where the buffer has room for it.
#[unsafe(no_mangle)]
pub unsafe extern "C" fn dt_node_next_datagram(
    node: *mut Handle,
    buf: &mut [u8],
    out: &mut Datagram,
) -> u8
    ghost g: { Slot }
    requires* { sem 𝓛 (points_to the_row node g) }
    ensures* { ∃ₛ (λ h. sem 𝓛 (points_to the_row node h) ∗ ⌜ NextFrame result buf.old buf.new out.old out.new g h ⌝) }
{
    Slot::next_datagram(unsafe { &mut *(node as *mut Slot) }, buf, out)
}

/// The moment of the next tick that does something, or none.
#[unsafe(no_mangle)]
pub unsafe extern "C" fn dt_node_wake(node: *mut Handle) -> u64
    ghost g: { Slot }
    requires* { sem 𝓛 (points_to the_row node g) }
    ensures* { ∃ₛ (λ h. sem 𝓛 (points_to the_row node h) ∗ ⌜ Waking result g h ⌝) }
{
    Slot::wake(unsafe { &mut *(node as *mut Slot) })
}

/// The first report that waits.
#[unsafe(no_mangle)]
pub unsafe extern "C" fn dt_node_next_report(node: *mut Handle, out: &mut CReport) -> u8
    ghost g: { Slot }
    requires* { sem 𝓛 (points_to the_row node g) }
    ensures* { ∃ₛ (λ h. sem 𝓛 (points_to the_row node h) ∗ ⌜ NextReport result out.old out.new g h ⌝) }
{
    Slot::next_report(unsafe { &mut *(node as *mut Slot) }, out)
}

/// From now on it is counted what is reported of the octets of a flow.
#[unsafe(no_mangle)]
pub unsafe extern "C" fn dt_node_count_flow(node: *mut Handle, flow: &CFlow) -> u8
    ghost g: { Slot }
    requires* { sem 𝓛 (points_to the_row node g) }
    ensures* { ∃ₛ (λ h. sem 𝓛 (points_to the_row node h) ∗ ⌜ Following result flow.now g h ⌝) }
{
    Slot::count_flow(unsafe { &mut *(node as *mut Slot) }, flow)
}

/// What was reported of the octets of a flow since it is followed.
#[unsafe(no_mangle)]
pub unsafe extern "C" fn dt_node_get_flow_counts(
    node: *mut Handle,
    flow: &CFlow,
    out: &mut FlowCounts,
) -> u8
    ghost g: { Slot }
    requires* { sem 𝓛 (points_to the_row node g) }
    ensures* { ∃ₛ (λ h. sem 𝓛 (points_to the_row node h) ∗ ⌜ Totalling result flow.now out.old out.new g h ⌝) }
{
    Slot::get_flow_counts(unsafe { &mut *(node as *mut Slot) }, flow, out)
}

/// What the node counted since it was opened.
#[unsafe(no_mangle)]
pub unsafe extern "C" fn dt_node_get_counts(node: *mut Handle, out: &mut NodeCounts) -> u8
    ghost g: { Slot }
    requires* { sem 𝓛 (points_to the_row node g) }
    ensures* { ∃ₛ (λ h. sem 𝓛 (points_to the_row node h) ∗ ⌜ Counting result out.old out.new g h ⌝) }
{
    Slot::get_counts(unsafe { &mut *(node as *mut Slot) }, out)
}

/// How many datagrams the guard kept out.
#[unsafe(no_mangle)]
pub unsafe extern "C" fn dt_node_get_blocked_counts(node: *mut Handle) -> BlockedCounts
    ghost g: { Slot }
    requires* { sem 𝓛 (points_to the_row node g) }
    ensures* { ∃ₛ (λ h. sem 𝓛 (points_to the_row node h) ∗ ⌜ KeptOut result g h ⌝) }
{
    Slot::get_blocked_counts(unsafe { &mut *(node as *mut Slot) })
}
