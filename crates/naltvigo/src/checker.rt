//! The strict check of an item whose bytes come in parts.

ghost use Rattle.std.specs.Prelude.{◌≡◌, ◌≢◌, ◌⊎◌, ◌↔◌, ◌<◌, ◌≤◌, length, take, None, [], IsTrue};
ghost use Rattle.cbor_checker.specs.Checker.{IsHeld};
ghost use Rattle.cbor_checker.specs.Pointer.{IsNull};
ghost use Rattle.naltvigo.specs.Checker.{HasMade, HasRestarted, HasChecked};
ghost use Rattle.naltvigo.specs.Checker.{IsReportedPart, IsReportedAtEnd};
ghost use Rattle.cbor_machine.specs.Machine.{IsMore};

use crate::settings::{limits_of, order_numbered};
use crate::status::{
    BAD_LIMITS, BAD_ORDER, MORE, NO_MEMORY, NaltvigoRefusal, OK, REFUSED, report, reported,
};
use cbor_checker::{Checker, Out, StrictMachine};
use cbor_head::{Reason, Refusal};
use cbor_memory::Memory;
use std::alloc::Global;
use std::mem::replace;

/// Makes a machine that checks an item in parts, before the item's first byte. What `checker` held
/// before is lost, and is not freed.
#[unsafe(no_mangle)]
pub extern "C" fn naltvigo_checker_new_raw(
    alloc: Global,
    order: u32,
    keys: u32,
    depth: u32,
    bytes: u64,
    checker: &mut Checker,
) -> u32
    ensures made { HasMade order keys depth bytes checker.old checker.new result }
{
    make_checker(
        &mut Memory::new(),
        alloc,
        order,
        keys,
        depth,
        bytes,
        checker,
    )
}

// Makes a machine as the export does, and records in `memory` whether a request for memory was refused. If none was, it
// does not return `NO_MEMORY`.
fn make_checker(
    memory: &mut Memory,
    alloc: Global,
    order: u32,
    keys: u32,
    depth: u32,
    bytes: u64,
    checker: &mut Checker,
) -> u32
    ensures made { HasMade order keys depth bytes checker.old checker.new result }
    ensures request { result ≡ NO_MEMORY → IsTrue memory.new }
{
    let Some(order) = order_numbered(order) else {
        return BAD_ORDER;
    };
    let Some(limits) = limits_of(keys, depth, bytes) else {
        return BAD_LIMITS;
    };
    match memory.boxed(alloc, StrictMachine::new(alloc, limits, order)) {
        Ok(machine) => {
            *checker = Checker::of(machine);
            OK
        }
        Err(_) => NO_MEMORY,
    }
}

/// Goes on with another item, within the same limits, whatever became of the one before.
#[unsafe(no_mangle)]
pub extern "C" fn naltvigo_checker_restart_raw(
    alloc: Global,
    order: u32,
    checker: &mut Checker,
) -> u32
    requires held { IsHeld checker.old.held }
    ensures restarted { result ≡ OK → HasRestarted checker.old.held checker.new.held order }
    ensures not_null { result ≡ OK → ¬ IsNull checker.new }
    ensures bad_order { (result ≡ BAD_ORDER) ↔ (1 < order) }
    // OK, BAD_ORDER
    ensures statuses { (result ≡ 0) ⊎ (result ≡ 4) }
    ensures kept { result ≢ OK → checker.new ≡ checker.old }
{
    let Some(order) = order_numbered(order) else {
        return BAD_ORDER;
    };
    let mut machine = replace(checker, Checker::none(alloc)).into_machine();
    machine.restart(order);
    *checker = Checker::of(machine);
    OK
}

/// Checks bytes from the start of `input`, until the item is complete, or refused, or no byte is left:
/// `used` becomes how many. Once refused it uses nothing and returns the same.
#[unsafe(no_mangle)]
pub extern "C" fn naltvigo_checker_feed_raw(
    alloc: Global,
    checker: &mut Checker,
    input: &[u8],
    used: &mut usize,
    refusal: &mut NaltvigoRefusal,
) -> u32
    requires held { IsHeld checker.old.held }
    ensures used { used.new ≤ length input.now }
    ensures checked { HasChecked checker.old.held checker.new.held (take used.new input.now)
        (λ out now. IsReportedPart out result refusal.new × (IsMore out → used.new ≡ length input.now)) }
    ensures not_null { ¬ IsNull checker.new }
    // OK, REFUSED, NO_MEMORY, MORE
    ensures statuses { (result ≡ 0) ⊎ (result ≡ 1) ⊎ (result ≡ 3) ⊎ (result ≡ 8) }
    ensures unreported { result ≢ REFUSED → result ≢ NO_MEMORY → refusal.new ≡ refusal.old }
{
    let mut machine = replace(checker, Checker::none(alloc)).into_machine();
    let step = machine.check(input);
    *checker = Checker::of(machine);
    *used = step.used;
    match step.out {
        Out::Done => OK,
        Out::Refused(why) => report(why, refusal),
        _ => MORE,
    }
}

/// The bytes ended: whether they are the item's canonical bytes. An item that is not complete is
/// refused as `Truncated` at the number of bytes taken.
#[unsafe(no_mangle)]
pub extern "C" fn naltvigo_checker_end_raw(
    alloc: Global,
    checker: &mut Checker,
    refusal: &mut NaltvigoRefusal,
) -> u32
    requires held { IsHeld checker.old.held }
    ensures checked { HasChecked checker.old.held checker.new.held []
        (λ out now. IsReportedAtEnd now.machine.taken out result refusal.new) }
    ensures not_null { ¬ IsNull checker.new }
    // OK, REFUSED, NO_MEMORY
    ensures statuses { (result ≡ 0) ⊎ (result ≡ 1) ⊎ (result ≡ 3) }
    ensures unreported { result ≡ OK → refusal.new ≡ refusal.old }
{
    let mut machine = replace(checker, Checker::none(alloc)).into_machine();
    let out = machine.check(&[]).out;
    let taken = machine.taken();
    *checker = Checker::of(machine);
    match out {
        Out::Done => OK,
        Out::Refused(reason) => report(reason, refusal),
        _ => {
            *refusal = reported(Refusal::at(Reason::Truncated, taken));
            REFUSED
        }
    }
}

/// Frees the machine. The handle holds none then, and its pointer is null.
#[unsafe(no_mangle)]
pub extern "C" fn naltvigo_checker_free_raw(alloc: Global, checker: &mut Checker) -> u32
    requires held { IsHeld checker.old.held }
    ensures freed { checker.new.held ≡ None }
    ensures null { IsNull checker.new }
    // OK
    ensures statuses { result ≡ OK }
{
    drop(replace(checker, Checker::none(alloc)).into_machine());
    OK
}
