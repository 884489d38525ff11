//! The exports for octets and messages of flows.
ghost use Rattle.std.specs.Prelude.{length};
ghost use Rattle.std.specs.Borrow.{sem};
ghost use Rattle.std.specs.Ptr.{points_to};
ghost use Rattle.dt_c.specs.Calls.{Hearing, Reading, Sending, Taking};
ghost use Rattle.dt_c.specs.contracts.slots.Slot.{the_row};
ghost use Rattle.dt_c.specs.declared.slots.Slot.{Slot};

use crate::c_structs::{CFlow, Message, ReadResult, SendResult};
use crate::slots::{Handle, Slot};
use std::alloc::Global;

/// Octets are sent on a flow from this node.
#[unsafe(no_mangle)]
pub unsafe extern "C" fn dt_node_send(
    node: *mut Handle,
    now: u64,
    flow: &CFlow,
    octets: &[u8],
    begin: bool,
    end: bool,
) -> SendResult
    ghost g: { Slot }
    requires* { sem 𝓛 (points_to the_row node g) }
    ensures* { ∃ₛ (λ h. sem 𝓛 (points_to the_row node h) ∗ ⌜ Sending result now flow.now octets.now begin end g h ⌝) }
{
    Slot::send(
        unsafe { &mut *(node as *mut Slot) },
        now,
        flow,
        octets,
        begin,
        end,
    )
}

/// Unread octets of a flow to this node are read, at most as many as the buffer holds.
#[unsafe(no_mangle)]
pub unsafe extern "C" fn dt_node_read(
    node: *mut Handle,
    now: u64,
    flow: &CFlow,
    buf: &mut [u8],
) -> ReadResult
    ghost g: { Slot }
    requires* { sem 𝓛 (points_to the_row node g) }
    ensures* { ∃ₛ (λ h. sem 𝓛 (points_to the_row node h) ∗ ⌜ Reading result now flow.now (length buf.old) buf.new g h ⌝) }
{
    Slot::read(unsafe { &mut *(node as *mut Slot) }, now, flow, buf)
}

/// Octets of a flow to this node may be unread.
#[unsafe(no_mangle)]
pub unsafe extern "C" fn dt_node_mark_readable(node: *mut Handle, flow: &CFlow) -> u8
    ghost g: { Slot }
    requires* { sem 𝓛 (points_to the_row node g) }
    ensures* { ∃ₛ (λ h. sem 𝓛 (points_to the_row node h) ∗ ⌜ Hearing result flow.now g h ⌝) }
{
    Slot::mark_readable(unsafe { &mut *(node as *mut Slot) }, flow)
}

/// A whole message of the first flow that was heard of and has one, where the buffer has room for it.
#[unsafe(no_mangle)]
pub unsafe extern "C" fn dt_node_next_message(
    node: *mut Handle,
    alloc: Global,
    now: u64,
    buf: &mut [u8],
    out: &mut Message,
) -> u8
    ghost g: { Slot }
    requires* { sem 𝓛 (points_to the_row node g) }
    ensures* { ∃ₛ (λ h. sem 𝓛 (points_to the_row node h) ∗ ⌜ Taking result now buf.old buf.new out.old out.new g h ⌝) }
{
    Slot::next_message(unsafe { &mut *(node as *mut Slot) }, alloc, now, buf, out)
}
