//! The handle of a strict machine.

ghost use Rattle.std.specs.Prelude.{◌≡◌, Some, None};
ghost use Rattle.std.specs.Coded.{coded_option};
ghost use Rattle.cbor_stream.specs.contracts.strict_machine.StrictMachine.{the_row};
ghost use Rattle.cbor_checker.specs.Checker.{Held, owned_if, IsHeld};

use crate::parts::Parts;
use cbor_stream::StrictMachine;
use std::alloc::Global;
use std::marker::Model;
use std::ptr::null_mut;

/// A strict machine on the heap, or none: a pointer, in the layout of C.
///
/// The ghost field `held` is the machine. No code outside this file makes a `Checker` or reads its
/// pointer. Whether it is null is all that C may read of it, so contracts say it (`IsNull`).
#[repr(C)]
#[derive(Drop)]
pub struct Checker {
    memory: *mut u8,
    alloc: Global,
    pub ghost held: { Held } by { coded_option the_row.coded },
}

impl Model for Checker {
    ghost also_owns = { λ c. owned_if c.alloc c.memory c.held };
}

impl Checker {
    // Here, because the type's definition would import what the file imports, and `IsNull` imports the type.
    ghost use Rattle.cbor_checker.specs.Pointer.{IsNull};

    /// No machine.
    pub fn none(alloc: Global) -> Checker
        ensures { (result.held ≡ None) × IsNull result }
    {
        Checker {
            memory: null_mut(),
            alloc,
        }
    }

    /// The handle of this machine.
    pub fn of(machine: Box<StrictMachine>) -> Checker
        ensures held { result.held ≡ Some machine.value }
        ensures not_null { ¬ IsNull result }
    {
        Checker::of_parts(Parts::of(machine))
    }

    /// The machine, which the handle holds no longer.
    pub fn into_machine(self) -> Box<StrictMachine>
        requires { IsHeld self.held }
        ensures { self.held ≡ Some result.value }
    {
        self.into_parts().into_box()
    }

    fn of_parts(parts: Parts<StrictMachine, Global>) -> Checker
        ensures { (result.held ≡ Some parts.value) × ¬ IsNull result }
    {
        let Parts { ptr, alloc } = parts;
        Checker {
            memory: ptr as *mut u8,
            alloc,
        }
    }

    fn into_parts(self) -> Parts<StrictMachine, Global>
        requires { IsHeld self.held }
        ensures { self.held ≡ Some result.value }
    {
        let Checker { memory, alloc } = self;
        Parts {
            ptr: memory as *mut StrictMachine,
            alloc,
        }
    }
}
