//! The exports of a watch of a peer.
ghost use Rattle.std.specs.Prelude.{◌≡◌};
ghost use Rattle.std.specs.Borrow.{sem};
ghost use Rattle.std.specs.Ptr.{points_to, uninit_at};
ghost use Rattle.dt_c.specs.Watching.{AgeIs, AroundIs, Beginning, Growing, Hearing, Judging, MayEnterIs, OpeningWatch, Shrinking, SureIs, WindowIs, aim_or_none, cut_or_none, empty_watch, waited_or_most};
ghost use Rattle.dt_c.specs.contracts.watch_slots.WatchSlot.{the_row};
ghost use Rattle.dt_c.specs.declared.watch_slots.WatchSlot.{WatchSlot};

use crate::watch_calls::{aim_of, cut_of, empty_watch_slot, waited_of};
use crate::watch_slots::{WatchHandle, WatchSlot};
use crate::watch_structs::{CArrival, CPassage, WatchOptions};

/// How many octets a handle of a watch takes.
#[unsafe(no_mangle)]
pub extern "C" fn dt_watch_size() -> usize {
    std::mem::size_of::<WatchSlot>()
}

/// To how many octets a handle of a watch is aligned.
#[unsafe(no_mangle)]
pub extern "C" fn dt_watch_align() -> usize {
    std::mem::align_of::<WatchSlot>()
}

/// Makes a handle of a watch, which isn't open, of fresh memory.
#[unsafe(no_mangle)]
pub unsafe extern "C" fn dt_watch_init(watch: *mut WatchHandle)
    requires* { sem 𝓛 (uninit_at the_row watch) }
    ensures* { sem 𝓛 (points_to the_row watch empty_watch) }
{
    unsafe { (watch as *mut WatchSlot).write(empty_watch_slot()) }
}

/// A watch of a peer begins, in place of the one that the handle holds.
#[unsafe(no_mangle)]
pub unsafe extern "C" fn dt_watch_open(watch: *mut WatchHandle, options: &WatchOptions) -> u8
    ghost g: { WatchSlot }
    requires* { sem 𝓛 (points_to the_row watch g) }
    ensures* { ∃ₛ (λ h. sem 𝓛 (points_to the_row watch h) ∗ ⌜ OpeningWatch result options.now g h ⌝) }
{
    WatchSlot::open(unsafe { &mut *(watch as *mut WatchSlot) }, options)
}

/// The first datagram of an opening comes, whose clocks are the second ones, or the first.
#[unsafe(no_mangle)]
pub unsafe extern "C" fn dt_watch_begin(watch: *mut WatchHandle, second: bool, came: u64) -> u8
    ghost g: { WatchSlot }
    requires* { sem 𝓛 (points_to the_row watch g) }
    ensures* { ∃ₛ (λ h. sem 𝓛 (points_to the_row watch h) ∗ ⌜ Beginning result second came g h ⌝) }
{
    WatchSlot::begin(unsafe { &mut *(watch as *mut WatchSlot) }, second, came)
}

/// A datagram came, whose opening has these clocks.
#[unsafe(no_mangle)]
pub unsafe extern "C" fn dt_watch_hear(
    watch: *mut WatchHandle,
    second: bool,
    passage: &CPassage,
) -> u8
    ghost g: { WatchSlot }
    requires* { sem 𝓛 (points_to the_row watch g) }
    ensures* { ∃ₛ (λ h. sem 𝓛 (points_to the_row watch h) ∗ ⌜ Hearing result second passage.now g h ⌝) }
{
    WatchSlot::hear(unsafe { &mut *(watch as *mut WatchSlot) }, second, passage)
}

/// Judges a datagram by its opening.
#[unsafe(no_mangle)]
pub unsafe extern "C" fn dt_watch_judge(watch: *mut WatchHandle, arrival: &CArrival) -> u8
    ghost g: { WatchSlot }
    requires* { sem 𝓛 (points_to the_row watch g) }
    ensures* { ∃ₛ (λ h. sem 𝓛 (points_to the_row watch h) ∗ ⌜ Judging result arrival.now g h ⌝) }
{
    WatchSlot::judge(unsafe { &mut *(watch as *mut WatchSlot) }, arrival)
}

/// What the peer's clock had surely passed where this one read `made`: 0 where nothing is known.
#[unsafe(no_mangle)]
pub unsafe extern "C" fn dt_watch_sure(watch: *mut WatchHandle, second: bool, made: u64) -> u64
    ghost g: { WatchSlot }
    requires* { sem 𝓛 (points_to the_row watch g) }
    ensures* { ∃ₛ (λ h. sem 𝓛 (points_to the_row watch h) ∗ ⌜ SureIs result second made g h ⌝) }
{
    WatchSlot::sure(unsafe { &mut *(watch as *mut WatchSlot) }, second, made)
}

/// What this clock had surely passed where the peer's read `at`: 0 where nothing is known.
#[unsafe(no_mangle)]
pub unsafe extern "C" fn dt_watch_around(watch: *mut WatchHandle, second: bool, at: u64) -> u64
    ghost g: { WatchSlot }
    requires* { sem 𝓛 (points_to the_row watch g) }
    ensures* { ∃ₛ (λ h. sem 𝓛 (points_to the_row watch h) ∗ ⌜ AroundIs result second at g h ⌝) }
{
    WatchSlot::around(unsafe { &mut *(watch as *mut WatchSlot) }, second, at)
}

/// How old a datagram is at most, in microseconds, with what is counted for stops; or never.
#[unsafe(no_mangle)]
pub unsafe extern "C" fn dt_watch_age(
    watch: *mut WatchHandle,
    second: bool,
    came: u64,
    sure: u64,
) -> u64
    ghost g: { WatchSlot }
    requires* { sem 𝓛 (points_to the_row watch g) }
    ensures* { ∃ₛ (λ h. sem 𝓛 (points_to the_row watch h) ∗ ⌜ AgeIs result second came sure g h ⌝) }
{
    WatchSlot::age(
        unsafe { &mut *(watch as *mut WatchSlot) },
        second,
        came,
        sure,
    )
}

/// How many octets may be under way to the peer.
#[unsafe(no_mangle)]
pub unsafe extern "C" fn dt_watch_window(watch: *mut WatchHandle) -> u64
    ghost g: { WatchSlot }
    requires* { sem 𝓛 (points_to the_row watch g) }
    ensures* { ∃ₛ (λ h. sem 𝓛 (points_to the_row watch h) ∗ ⌜ WindowIs result g h ⌝) }
{
    WatchSlot::window(unsafe { &mut *(watch as *mut WatchSlot) })
}

/// 1 where a message may be handed in while so many octets are under way, and 0 where it may not.
#[unsafe(no_mangle)]
pub unsafe extern "C" fn dt_watch_admits(watch: *mut WatchHandle, under_way: u64, octets: u64) -> u8
    ghost g: { WatchSlot }
    requires* { sem 𝓛 (points_to the_row watch g) }
    ensures* { ∃ₛ (λ h. sem 𝓛 (points_to the_row watch h) ∗ ⌜ MayEnterIs result under_way octets g h ⌝) }
{
    WatchSlot::admits(
        unsafe { &mut *(watch as *mut WatchSlot) },
        under_way,
        octets,
    )
}

/// The window is larger.
#[unsafe(no_mangle)]
pub unsafe extern "C" fn dt_watch_grow(watch: *mut WatchHandle, fast: bool) -> u8
    ghost g: { WatchSlot }
    requires* { sem 𝓛 (points_to the_row watch g) }
    ensures* { ∃ₛ (λ h. sem 𝓛 (points_to the_row watch h) ∗ ⌜ Growing result fast g h ⌝) }
{
    WatchSlot::grow(unsafe { &mut *(watch as *mut WatchSlot) }, fast)
}

/// The window is smaller by so many thousandths of it.
#[unsafe(no_mangle)]
pub unsafe extern "C" fn dt_watch_shrink(watch: *mut WatchHandle, thousandths: u32) -> u8
    ghost g: { WatchSlot }
    requires* { sem 𝓛 (points_to the_row watch g) }
    ensures* { ∃ₛ (λ h. sem 𝓛 (points_to the_row watch h) ∗ ⌜ Shrinking result thousandths g h ⌝) }
{
    WatchSlot::shrink(unsafe { &mut *(watch as *mut WatchSlot) }, thousandths)
}

/// What the node is told of an age, in milliseconds, beside the charge of its link.
#[unsafe(no_mangle)]
pub extern "C" fn dt_watch_waited_ms(age: u64, charge: u32) -> u32
    ensures { result ≡ waited_or_most age charge }
{
    waited_of(age, charge)
}

/// The delay in queues that a governor aims at, in microseconds.
#[unsafe(no_mangle)]
pub extern "C" fn dt_watch_aim(base: u64, budget: u64, resend: u64) -> u64
    ensures { result ≡ aim_or_none base budget resend }
{
    aim_of(base, budget, resend)
}

/// By how many thousandths a window shrinks after a round with this delay in queues.
#[unsafe(no_mangle)]
pub extern "C" fn dt_watch_cut(queue: u64, base: u64, aim: u64) -> u32
    ensures { result ≡ cut_or_none queue base aim }
{
    cut_of(queue, base, aim)
}
